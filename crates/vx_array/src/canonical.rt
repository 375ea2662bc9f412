//! Decoding: the plain tree of a tree's column. Leaf types and timestamps are decoded column by column; nested types by the
//! pieces of their children (`nested.rt`).

ghost use Rattle.std.specs.Prelude.{◌≡◌, ◌<◌, IsTrue, length};
ghost use Rattle.vx_base.specs.Answers.{Answers, OrMemory};
ghost use Rattle.vx_base.specs.PlainType.{is_flat, is_integer};
ghost use Rattle.vx_model.specs.Column.{column_of};
ghost use Rattle.vx_model.specs.Plain.{IsPlain, plain};
ghost use Rattle.vx_model.specs.Rows.{rows};
ghost use Rattle.vx_model.specs.TreeType.{tree_type};
ghost use Rattle.vx_array.specs.HasRuns.{has_blocks, has_columns, has_runs};
ghost use Rattle.vx_array.specs.IsDecoded.{IsDecoded};
ghost use Rattle.vx_array.specs.Lent.{AreIntegers, lent};
ghost use Rattle.vx_array.specs.Linear.{IsUniform};

use crate::array::{ArrayRef, Node};
use crate::lent::LentInts;
use crate::node::{as_type, decoded_in_blocks, decoded_packed, decoded_sparse};
use std::alloc::Global;
use vx_base::{Mask, VortexResult};
use vx_flat::{
    block_places, decoded_bool, decoded_by_codes, decoded_by_runs, decoded_constant, decoded_delta,
    decoded_frames, decoded_masked, decoded_parts, decoded_primitive, decoded_sequence,
    decoded_var_bin, decoded_view,
};
use vx_pieces::Piece;
use vx_values::{Decoded, Values};

impl ArrayRef {
    /// Decodes the tree: the plain tree of its column (`tree`), without any encoding (`plain`), of the same type and rows
    /// (`kept`). Refuses NoMemory alone.
    pub fn canonical(&self, alloc: Global) -> VortexResult<ArrayRef>
        ensures tree { Answers result (plain (column_of self.now)) }
        ensures kept { OrMemory result (λ tree. column_of tree ≡ column_of self.now) }
        ensures plain { OrMemory result (λ tree. IsPlain tree) }
    {
        self.known();
        if self.dtype().is_flat() {
            self.canonical_flat(alloc)
        } else {
            self.canonical_nested(alloc)
        }
    }

    // Of a leaf type or of timestamps: decodes whole columns.
    pub(crate) fn canonical_flat(&self, alloc: Global) -> VortexResult<ArrayRef>
        requires { IsTrue (is_flat (tree_type self.now)) }
        ensures { Answers result (plain (column_of self.now)) }
    {
        self.known();
        let Decoded { values, valid } = self.decoded(alloc)?;
        let dtype = self.dtype();
        match values {
            Values::Bits(bits) => Ok(ArrayRef::bool_of(bits, valid, dtype.nullability())),
            Values::Ints(ints) => {
                let integers = ArrayRef::primitive_of(ints, valid, dtype.nullability());
                as_type(alloc, integers, dtype)
            }
            Values::Bytes(rows) => Ok(ArrayRef::var_bin_view_of(rows, valid, dtype.copy(alloc)?)),
        }
    }

    // Of a nested type: all rows, as one piece.
    fn canonical_nested(&self, alloc: Global) -> VortexResult<ArrayRef>
        ensures { Answers result (plain (column_of self.now)) }
    {
        let all = Piece::Rows {
            start: 0,
            end: self.len(),
            times: 1,
        };
        self.plain_pieces(alloc, &[all])
    }

    // The values and validity of a tree of a leaf type or of timestamps. Decodes each child once, and then combines whole
    // columns.
    #[cycle(decoded)]
    pub(crate) fn decoded(&self, alloc: Global) -> VortexResult<Decoded>
        requires { IsTrue (is_flat (tree_type self.now)) }
        ensures { OrMemory result (λ rows. IsDecoded self.now rows) }
    {
        match &self.node {
            Node::Bool(values, valid, _) => decoded_bool(alloc, values, valid),
            Node::Primitive(values, valid, _) => decoded_primitive(alloc, values, valid),
            Node::VarBinView(values, valid, _) => decoded_view(alloc, values, valid),
            Node::VarBin(offsets, bytes, valid, _) => {
                let (offsets, _) = offsets.array.integers(alloc)?;
                decoded_var_bin(alloc, offsets.as_ints(), bytes, valid)
            }
            Node::Timestamp(storage, _) => storage.array.decoded(alloc),
            Node::Constant(value, len) => decoded_constant(alloc, value, *len),
            Node::Masked(child, mask) => decoded_masked(alloc, child.array.decoded(alloc)?, mask),
            Node::BitPacked(ptype, width, packed, len, valid, patches, _) => {
                decoded_packed(alloc, *ptype, *width, packed, *len, valid, patches)
            }
            Node::FoR(encoded, reference) => encoded.array.decoded_framed(alloc, reference),
            Node::ZigZag(encoded) => encoded.array.decoded_zigzags(alloc),
            Node::Dict(_, _) if self.len > 0 && self.is_uniform() => self.decoded_uniform(alloc),
            Node::Dict(codes, values) => {
                let values = values.array.decoded(alloc)?;
                codes.array.decoded_dict(alloc, values)
            }
            Node::Sparse(_, _) => self.decoded_runs(alloc),
            Node::RunEnd(_, _) => self.decoded_runs(alloc),
            Node::Rle(_, _, _, _) => self.decoded_runs(alloc),
            Node::Delta(_, _, _, _, _) => self.decoded_runs(alloc),
            Node::Sequence(_, _, _, _, _) => self.decoded_runs(alloc),
            Node::BitPackedV2(_, _, _, _, _, _, _) => self.decoded_blocks(alloc),
            Node::DateTimeParts(_, _, _, _, _) => self.decoded_columns(alloc),
            Node::FoRV2(_, _) => self.decoded_columns(alloc),
            Node::Null(_) | Node::Struct(_, _, _, _, _) => unreachable!(),
            Node::List(_, _, _, _) | Node::FixedSizeList(_, _, _, _, _) => unreachable!(),
        }
    }

    // `decoded` of equal rows: one of them, repeated.
    fn decoded_uniform(&self, alloc: Global) -> VortexResult<Decoded>
        requires flat { IsTrue (is_flat (tree_type self.now)) }
        requires some { 0 < length (rows self.now) }
        requires uniform { IsUniform (rows self.now) }
        ensures { OrMemory result (λ rows. IsDecoded self.now rows) }
    {
        let row = self.scalar_at(alloc, 0)?;
        decoded_constant(alloc, &row, self.len())
    }

    // The integers and validity of a tree of integers. A plain tree without nulls lends what it stores.
    #[cycle(decoded)]
    pub(crate) fn integers(&self, alloc: Global) -> VortexResult<(LentInts<'_>, Option<Mask>)>
        requires { IsTrue (is_integer (tree_type self.now)) }
        ensures { OrMemory result (λ r. AreIntegers self.now (lent r.0) r.1) }
    {
        self.known();
        match &self.node {
            Node::Primitive(values, valid, _) if valid.is_none() => {
                Ok((LentInts::Stored(values), None))
            }
            _ => {
                let (ints, valid) = self.decoded(alloc)?.into_integers();
                Ok((LentInts::Decoded(ints), valid))
            }
        }
    }

    // `decoded` where the root is BitPackedV2: a block of 1,024 rows after another.
    #[cycle(decoded)]
    fn decoded_blocks(&self, alloc: Global) -> VortexResult<Decoded>
        requires flat { IsTrue (is_flat (tree_type self.now)) }
        requires blocks { IsTrue (has_blocks self.now) }
        ensures { OrMemory result (λ rows. IsDecoded self.now rows) }
    {
        match &self.node {
            Node::BitPackedV2(ptype, packed, offsets, len, valid, patches, _) => {
                let (offsets, _) = offsets.array.integers(alloc)?;
                decoded_in_blocks(
                    alloc,
                    *ptype,
                    packed,
                    offsets.as_ints(),
                    *len,
                    valid,
                    patches,
                )
            }
            _ => unreachable!(),
        }
    }

    // `decoded` where the root is DateTimeParts or FoRV2: row by row of several columns.
    #[cycle(decoded)]
    fn decoded_columns(&self, alloc: Global) -> VortexResult<Decoded>
        requires flat { IsTrue (is_flat (tree_type self.now)) }
        requires columns { IsTrue (has_columns self.now) }
        ensures { OrMemory result (λ rows. IsDecoded self.now rows) }
    {
        match &self.node {
            Node::DateTimeParts(kind, _, days, seconds, subseconds) => {
                let (days, valid) = days.array.integers(alloc)?;
                let (seconds, _) = seconds.array.integers(alloc)?;
                let (rest, _) = subseconds.array.integers(alloc)?;
                let (days, seconds) = (days.as_ints(), seconds.as_ints());
                decoded_parts(alloc, kind.unit(), days, valid, seconds, rest.as_ints())
            }
            Node::FoRV2(encoded, references) => {
                let (differences, valid) = encoded.array.integers(alloc)?;
                let (references, _) = references.array.integers(alloc)?;
                decoded_frames(alloc, differences.as_ints(), valid, references.as_ints())
            }
            _ => unreachable!(),
        }
    }

    // `decoded` where the root is Sparse, RunEnd, Rle, Delta or Sequence.
    #[cycle(decoded)]
    fn decoded_runs(&self, alloc: Global) -> VortexResult<Decoded>
        requires flat { IsTrue (is_flat (tree_type self.now)) }
        requires runs { IsTrue (has_runs self.now) }
        ensures { OrMemory result (λ rows. IsDecoded self.now rows) }
    {
        match &self.node {
            Node::Sparse(patches, fill) => {
                let (indices, _) = patches.indices.integers(alloc)?;
                let values = patches.values.decoded(alloc)?;
                decoded_sparse(alloc, patches, fill, indices.as_ints(), values)
            }
            Node::RunEnd(ends, values) => {
                let (ends, _) = ends.array.integers(alloc)?;
                decoded_by_runs(alloc, ends.as_ints(), values.array.decoded(alloc)?)
            }
            Node::Rle(values, indices, offsets, len) => {
                let _places = values.array.len();
                let (indices, _) = indices.array.integers(alloc)?;
                let (offsets, _) = offsets.array.integers(alloc)?;
                let places = block_places(alloc, indices.as_ints(), offsets.as_ints(), *len)?;
                decoded_by_codes(alloc, places, None, values.array.decoded(alloc)?)
            }
            Node::Delta(bases, deltas, len, valid, _) => {
                let (bases, _) = bases.array.integers(alloc)?;
                let (deltas, _) = deltas.array.decoded(alloc)?.into_integers();
                decoded_delta(alloc, bases.as_ints(), deltas, *len, valid)
            }
            Node::Sequence(ptype, _, first, step, len) => {
                decoded_sequence(alloc, *ptype, *first, *step, *len)
            }
            _ => unreachable!(),
        }
    }
}
