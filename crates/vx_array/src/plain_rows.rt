//! The rows of plain trees: which are null, whether the others share one value, and gathering.

ghost use Rattle.std.specs.Prelude.{◌≡◌, ◌<◌, length, not, position, false, IsTrue};
ghost use Rattle.vx_array.specs.Kept.{keeps_validity};
ghost use Rattle.vx_base.specs.Answers.{Answers};
ghost use Rattle.vx_base.specs.Gathered.{gathered, are_parts};
ghost use Rattle.vx_base.specs.PlainType.{is_flat};
ghost use Rattle.vx_base.specs.PlainValue.{is_null};
ghost use Rattle.vx_base.specs.declared.array_id.ArrayId.TheVariants as ids;
ghost use Rattle.vx_model.specs.Column.{column};
ghost use Rattle.vx_model.specs.Leaf.{each_null_or};
ghost use Rattle.vx_model.specs.Nodes.{encoding};
ghost use Rattle.vx_model.specs.Plain.{IsPlain, plain, validity};
ghost use Rattle.vx_model.specs.Rows.{rows, row_at};
ghost use Rattle.vx_model.specs.Tree.{timestamp};
ghost use Rattle.vx_model.specs.TreeType.{tree_type};

use crate::array::{ArrayRef, Node};
use crate::node::{gathered_bool, gathered_primitive, gathered_view, stamped};
use std::alloc::Global;
use vx_base::{Mask, TimestampType, VortexResult};
use vx_values::{bits, byte_rows};

impl ArrayRef {
    /// The validity bitmap of a plain tree: a bit a row, true where the row isn't null; None where no row is null. Not of
    /// the type of nulls alone, whose node has no validity.
    #[cycle(validity)]
    #[tactic(auto, using(crate::proofs::PlainRows::validities))]
    pub fn validity(&self) -> &Option<Mask>
        requires plain { IsPlain self.now }
        requires kept { IsTrue (keeps_validity (tree_type self.now)) }
        ensures { result.now ≡ validity (rows self.now) }
    {
        match &self.node {
            Node::Bool(_, valid, _) => valid,
            Node::Primitive(_, valid, _) => valid,
            Node::VarBinView(_, valid, _) => valid,
            Node::Timestamp(storage, _) => storage.array.validity(),
            Node::Struct(_, _, _, valid, _) => valid,
            Node::List(_, _, valid, _) => valid,
            Node::FixedSizeList(_, _, _, valid, _) => valid,
            _ => unreachable!(),
        }
    }

    /// The first row of a plain tree that isn't null, None where each is.
    pub fn first_valid(&self) -> Option<u64>
        requires { IsPlain self.now }
        ensures { result ≡ position (λ v. not (is_null v)) (rows self.now) }
    {
        match &self.node {
            Node::Null(_) => None,
            _ => self.first_kept(),
        }
    }

    // `first_valid` by the validity bitmap.
    fn first_kept(&self) -> Option<u64>
        requires plain { IsPlain self.now }
        requires kept { IsTrue (keeps_validity (tree_type self.now)) }
        ensures { result ≡ position (λ v. not (is_null v)) (rows self.now) }
    {
        match self.validity() {
            Some(mask) => mask.first(),
            None if self.len() == 0 => None,
            None => Some(0),
        }
    }

    /// Whether each row of a plain tree of a leaf type or of timestamps is null or equal to this row, which isn't null.
    #[cycle(repeats)]
    #[tactic(auto, using(crate::proofs::PlainRows::repeating))]
    pub fn repeats(&self, row: u64) -> bool
        requires plain { IsPlain self.now }
        requires flat { IsTrue (is_flat (tree_type self.now)) }
        requires in_range { row < length (rows self.now) }
        requires value { is_null (row_at (rows self.now) row) ≡ false }
        ensures { result ≡ each_null_or (row_at (rows self.now) row) (rows self.now) }
    {
        match &self.node {
            Node::Bool(values, valid, _) => bits::each_null_or(values, valid, values.is_set(row)),
            Node::Primitive(values, valid, _) => values.each_null_or(valid, values.whole_at(row)),
            Node::VarBinView(values, valid, _) => {
                byte_rows::each_null_or(values, valid, values.as_slice()[row as usize].as_slice())
            }
            Node::Timestamp(storage, _) => storage.array.repeats(row),
            _ => unreachable!(),
        }
    }

    /// The rows of half-open ranges of a plain tree of a leaf type or of timestamps, concatenated, as a plain tree.
    #[cycle(gather)]
    #[tactic(auto, using(crate::proofs::PlainRows::gathering))]
    pub fn gather(&self, alloc: Global, ranges: &[(u64, u64)]) -> VortexResult<ArrayRef>
        requires plain { IsPlain self.now }
        requires flat { IsTrue (is_flat (tree_type self.now)) }
        requires parts { IsTrue (are_parts (length (rows self.now)) ranges.now) }
        ensures { Answers result (plain (column (tree_type self.now) (gathered ranges.now (rows self.now)))) }
    {
        match &self.node {
            Node::Bool(values, valid, nullability) => {
                gathered_bool(alloc, values, valid, *nullability, ranges)
            }
            Node::Primitive(values, valid, nullability) => {
                gathered_primitive(alloc, values, valid, *nullability, ranges)
            }
            Node::VarBinView(values, valid, dtype) => {
                gathered_view(alloc, values, valid, dtype, ranges)
            }
            Node::Timestamp(storage, kind) => {
                stamped(alloc, storage.array.gather(alloc, ranges)?, kind)
            }
            _ => unreachable!(),
        }
    }

    /// The storage of a tree whose root is a Timestamp, and the kind, moved out.
    pub fn into_storage(self) -> (ArrayRef, TimestampType)
        requires { encoding self ≡ ids.Timestamp }
        ensures { timestamp result.0 result.1 ≡ self }
    {
        match self.into_node() {
            Node::Timestamp(storage, kind) => (Box::into_inner(storage.array), kind),
            _ => unreachable!(),
        }
    }
}
