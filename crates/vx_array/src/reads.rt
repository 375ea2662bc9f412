//! Whether a tree has nulls, and whether it is plain.

ghost use Rattle.std.specs.Prelude.{◌≡◌, ◌↔◌, ◌<◌, IsTrue, length};
ghost use Rattle.std.specs.List.{list_any};
ghost use Rattle.vx_base.specs.PlainType.{is_flat};
ghost use Rattle.vx_base.specs.PlainValue.{is_null};
ghost use Rattle.vx_model.specs.Rows.{rows, row_at};
ghost use Rattle.vx_model.specs.TreeType.{tree_type};

use crate::array::{ArrayRef, Node};
use crate::beneath::{are_empty_beneath, has_words};
use crate::node::{sparse_has_null, sparse_is_null_at};
use vx_flat::{constant_has_null, is_empty_beneath, is_false_beneath, is_zero_beneath};
use vx_values::is_valid;

impl ArrayRef {
    ghost use Rattle.vx_model.specs.Plain.{IsPlain};

    /// Whether some row is null.
    #[cycle(has_null)]
    #[tactic(auto, using(vx_model::proofs::NullLemmas::nulls))]
    pub(crate) fn has_null(&self) -> bool
        ensures { result ≡ list_any is_null (rows self.now) }
    {
        match &self.node {
            Node::Bool(_, valid, _) => valid.is_some(),
            Node::Primitive(_, valid, _) => valid.is_some(),
            Node::VarBinView(_, valid, _) => valid.is_some(),
            Node::VarBin(_, _, valid, _) => valid.is_some(),
            Node::Timestamp(storage, _) => storage.array.has_null(),
            Node::Constant(value, len) => constant_has_null(value, *len),
            Node::Masked(_, valid) => !valid.all_true(),
            Node::BitPacked(_, _, _, _, valid, _, _) => valid.is_some(),
            Node::FoR(encoded, _) => encoded.array.has_null(),
            Node::ZigZag(encoded) => encoded.array.has_null(),
            Node::Dict(codes, values) => {
                codes.array.has_null() || (values.array.has_null() && self.has_null_row())
            }
            Node::Null(len) => *len > 0,
            Node::Struct(_, _, _, valid, _) => valid.is_some(),
            Node::List(_, _, valid, _) => valid.is_some(),
            Node::FixedSizeList(_, _, _, valid, _) => valid.is_some(),
            Node::Sparse(patches, fill) => sparse_has_null(patches, fill),
            Node::RunEnd(_, values) => values.array.has_null(),
            Node::Rle(values, _, _, _) => values.array.has_null() && self.has_null_row(),
            Node::Sequence(_, _, _, _, _) => false,
            Node::Delta(_, _, _, valid, _) => valid.is_some(),
            Node::BitPackedV2(_, _, _, _, valid, _, _) => valid.is_some(),
            Node::DateTimeParts(_, _, days, _, _) => days.array.has_null(),
            Node::FoRV2(encoded, _) => encoded.array.has_null(),
        }
    }

    // `has_null` row by row, where null codes and null values don't settle it. Of equal rows the first is read.
    #[tactic(auto, using(crate::proofs::LinearRows::uniform_any))]
    fn has_null_row(&self) -> bool
        requires { IsTrue (is_flat (tree_type self.now)) }
        ensures { result ≡ list_any is_null (rows self.now) }
    {
        if self.is_uniform() {
            return self.len() > 0 && self.cell_at(0).is_null();
        }
        for row in 0..self.len() {
            if self.cell_at(row).is_null() {
                return true;
            }
        }
        false
    }

    /// Whether a row is null.
    #[cycle(is_null_at)]
    pub fn is_null_at(&self, row: u64) -> bool
        requires { row < length (rows self.now) }
        ensures { result ≡ is_null (row_at (rows self.now) row) }
    {
        self.known();
        match &self.node {
            Node::Null(_) => true,
            Node::Constant(value, _) => value.is_null(),
            Node::Struct(_, _, _, valid, _) => !is_valid(valid, row),
            Node::List(_, _, valid, _) => !is_valid(valid, row),
            Node::FixedSizeList(_, _, _, valid, _) => !is_valid(valid, row),
            Node::Sparse(patches, fill) => sparse_is_null_at(patches, fill, row),
            _ => self.cell_at(row).is_null(),
        }
    }

    /// Whether the tree is the plain tree of its column: no encoding, the type's default beneath nulls (an empty list in
    /// columns of lists), and `u64` list offsets.
    #[cycle(is_plain)]
    #[tactic(auto, using(vx_model::proofs::NullLemmas::plains, crate::proofs::SparseOf::no_plain))]
    pub fn is_plain(&self) -> bool
        ensures { IsTrue result ↔ IsPlain self.now }
    {
        match &self.node {
            Node::Bool(values, valid, _) => is_false_beneath(values, valid),
            Node::Primitive(values, valid, _) => is_zero_beneath(values, valid),
            Node::VarBinView(values, valid, _) => is_empty_beneath(values, valid),
            Node::Timestamp(storage, _) => storage.array.is_plain(),
            Node::Null(_) => true,
            Node::Struct(_, fields, _, valid, _) => fields.are_plain(valid),
            Node::List(elements, offsets, valid, _) => {
                has_words(&offsets.array)
                    && are_empty_beneath(&elements.array, &offsets.array, valid)
                    && elements.array.is_plain()
            }
            Node::FixedSizeList(elements, size, len, valid, _) => {
                elements.array.is_plain()
                    && elements.array.parts_are_default_beneath(*size, *len, valid)
            }
            _ => false,
        }
    }
}
