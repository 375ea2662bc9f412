//! Whether a nested node is plain: what stands beneath its nulls. Its children are plain already.

ghost use Rattle.std.specs.List.{list_all};
ghost use Rattle.std.specs.Prelude.{◌≡◌, ◌↔◌, ◌<◌, ◌+◌, ◌*◌, ◌-◌, ◌==◌, IsTrue, length, nat_le, true};
ghost use Rattle.vx_array.specs.Beneath.{ArePlain, defaults_beneath, defaults_within, empty_beneath, has_words};
ghost use Rattle.vx_base.specs.Masks.{rows_between};
ghost use Rattle.vx_base.specs.PlainType.{is_integer};
ghost use Rattle.vx_model.specs.Plain.{IsPlain};
ghost use Rattle.vx_model.specs.Refusals.{validity_length};
ghost use Rattle.vx_model.specs.Rows.{rows, offset_at, cut_at, parts_of};
ghost use Rattle.vx_model.specs.Tree.{of_list};
ghost use Rattle.vx_model.specs.TreeType.{tree_type};
ghost use Rattle.vx_model.specs.WellFormed.{are_offsets};

use crate::array::{ArrayRef, Node};
use crate::arrays::Arrays;
use crate::node::offset_at;
use vx_base::Mask;
use vx_values::Ints;

impl ArrayRef {
    // Whether each row where `valid` is false is the default.
    #[tactic(auto, using(vx_model::proofs::ZeroLemmas::zeroing))]
    fn is_default_beneath(&self, valid: &Option<Mask>) -> bool
        requires plain { IsPlain self.now }
        requires lengths { validity_length valid.now (length (rows self.now)) ≡ true }
        ensures { result ≡ defaults_beneath valid.now self.now }
    {
        let Some(bits) = valid else {
            return true;
        };
        for row in 0..bits.len() {
            if !bits.is_set(row) && !self.is_default_at(row) {
                return false;
            }
        }
        true
    }

    // Whether each part where `valid` is false has defaults alone.
    #[tactic(auto, using(vx_model::proofs::ZeroLemmas::zeroing))]
    pub(crate) fn parts_are_default_beneath(
        &self,
        size: u32,
        len: u64,
        valid: &Option<Mask>,
    ) -> bool
        requires plain { IsPlain self.now }
        requires lengths { validity_length valid.now len ≡ true }
        requires sized { length (rows self.now) ≡ len * size }
        ensures { result ≡ defaults_within (tree_type self.now) valid.now (parts_of size len (rows self.now)) }
    {
        let Some(bits) = valid else {
            return true;
        };
        for part in 0..bits.len() {
            if !bits.is_set(part) && !self.part_is_default(size, part) {
                return false;
            }
        }
        true
    }
}

impl Arrays {
    // Whether each tree is plain and has the default in each row where `valid` is false.
    #[cycle(is_plain)]
    pub(crate) fn are_plain(&self, valid: &Option<Mask>) -> bool
        requires { IsTrue (list_all (λ t. validity_length valid.now (length (rows t))) self.now) }
        ensures { IsTrue result ↔ ArePlain valid.now (of_list self.now) }
    {
        for tree in self.as_slice() {
            if !tree.is_plain() || !tree.is_default_beneath(valid) {
                return false;
            }
        }
        true
    }
}

// Whether the list in a row has no elements.
pub(crate) fn is_empty_at(elements: &ArrayRef, offsets: &ArrayRef, row: u64) -> bool
    requires integers { IsTrue (is_integer (tree_type offsets.now)) }
    requires in_range { row + 1 < length (rows offsets.now) }
    requires ends { IsTrue (are_offsets (length (rows elements.now)) (rows offsets.now)) }
    ensures { result ≡ (length (rows_between (rows elements.now) (offset_at (rows offsets.now) row) (offset_at (rows offsets.now) (row + 1))) == 0) }
{
    let _offsets = offsets.len();
    let _elements = elements.len();
    offset_at(offsets, row) == offset_at(offsets, row + 1)
}

// Whether each list where `valid` is false has no elements.
#[tactic(auto, using(vx_model::proofs::ZeroLemmas::zeroing))]
pub(crate) fn are_empty_beneath(
    elements: &ArrayRef,
    offsets: &ArrayRef,
    valid: &Option<Mask>,
) -> bool
    requires integers { IsTrue (is_integer (tree_type offsets.now)) }
    requires some { IsTrue (nat_le 1 (length (rows offsets.now))) }
    requires lengths { validity_length valid.now (length (rows offsets.now) - 1) ≡ true }
    requires ends { IsTrue (are_offsets (length (rows elements.now)) (rows offsets.now)) }
    ensures { result ≡ empty_beneath valid.now (cut_at (rows offsets.now) (rows elements.now)) }
{
    let Some(bits) = valid else {
        return true;
    };
    for row in 0..bits.len() {
        if !bits.is_set(row) && !is_empty_at(elements, offsets, row) {
            return false;
        }
    }
    true
}

// Whether the root is a Primitive of `u64`, as the offsets of a plain list are.
pub(crate) fn has_words(tree: &ArrayRef) -> bool
    ensures { result ≡ has_words tree.now }
{
    matches!(&tree.node, Node::Primitive(Ints::U64(_), _, _))
}
