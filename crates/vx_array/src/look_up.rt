//! Random access: what stands in a row of a tree.

ghost use Rattle.std.specs.Prelude.{◌≡◌, ◌<◌, length, IsTrue, option_map, unwrap_or};
ghost use Rattle.vx_base.specs.CellValue.{cell_value};
ghost use Rattle.vx_base.specs.PlainType.{boolean, is_flat, is_integer, nullability_of};
ghost use Rattle.vx_base.specs.PlainValue.{cell, truth, null};
ghost use Rattle.vx_model.specs.Rows.{rows, row_at};
ghost use Rattle.vx_model.specs.TreeType.{tree_type};

use crate::array::{ArrayRef, Node};
use crate::node::{
    BLOCK_ROWS, bits_at, block_row_at, combined_at, masked_at, picked_at, piece_at, rle_at, run_at,
    sparse_at, summed_at, unpacked_at, whole_at,
};
use vx_base::Cell;
use vx_flat::{framed_at, moved_at, primitive_at, sequence_at, truth_at, unzigzagged_at, view_at};

impl ArrayRef {
    /// The value in a row of a leaf type or of timestamps, without decoding the others. Texts and binaries are borrowed.
    #[cycle(cell_at)]
    #[tactic(auto, using(crate::proofs::Flat::flats))]
    pub fn cell_at(&self, row: u64) -> Cell<'_>
        requires flat { IsTrue (is_flat (tree_type self.now)) }
        requires in_range { row < length (rows self.now) }
        ensures { cell_value result ≡ row_at (rows self.now) row }
    {
        match &self.node {
            Node::Bool(values, valid, _) => truth_at(values, valid, row),
            Node::Primitive(values, valid, _) => primitive_at(values, valid, row),
            Node::VarBinView(values, valid, _) => view_at(values, valid, row),
            Node::VarBin(offsets, bytes, valid, _) => piece_at(&offsets.array, bytes, valid, row),
            Node::Timestamp(storage, _) => storage.array.cell_at(row),
            Node::Constant(value, _) => value.cell(),
            Node::Masked(child, valid) => masked_at(&child.array, valid, row),
            Node::BitPacked(_, width, packed, _, valid, patches, _) => {
                unpacked_at(*width, packed, valid, patches, row)
            }
            Node::FoR(encoded, reference) => moved_at(reference, encoded.array.cell_at(row)),
            Node::ZigZag(encoded) => unzigzagged_at(encoded.array.cell_at(row)),
            Node::Dict(codes, values) => picked_at(&values.array, codes.array.cell_at(row)),
            Node::Sparse(patches, fill) => sparse_at(patches, fill, row),
            Node::RunEnd(ends, values) => {
                let run = run_at(&ends.array, row);
                values.array.cell_at(run)
            }
            Node::Rle(values, indices, offsets, _) => {
                let begin = whole_at(&offsets.array, row / BLOCK_ROWS);
                let index = whole_at(&indices.array, row);
                rle_at(&values.array, begin, index)
            }
            Node::Sequence(ptype, _, first, step, len) => {
                sequence_at(*ptype, *first, *step, *len, row)
            }
            Node::Delta(bases, deltas, _, valid, _) => {
                let base = whole_at(&bases.array, row / BLOCK_ROWS);
                summed_at(base, &deltas.array, valid, row)
            }
            Node::BitPackedV2(_, packed, offsets, _, valid, patches, _) => {
                let bits = bits_at(packed, &offsets.array, row);
                block_row_at(bits, valid, patches, row)
            }
            Node::DateTimeParts(kind, _, days, seconds, subseconds) => {
                let second = whole_at(&seconds.array, row);
                let subsecond = whole_at(&subseconds.array, row);
                combined_at(kind, days.array.cell_at(row).integer(), second, subsecond)
            }
            Node::FoRV2(encoded, references) => {
                let reference = whole_at(&references.array, row / BLOCK_ROWS);
                let ptype = references.array.dtype().ptype();
                framed_at(ptype, reference, encoded.array.cell_at(row))
            }
            Node::Null(_) | Node::Struct(_, _, _, _, _) => unreachable!(),
            Node::List(_, _, _, _) | Node::FixedSizeList(_, _, _, _, _) => unreachable!(),
        }
    }

    /// The integer in a row, None of null.
    #[tactic(auto, using(crate::proofs::Flat::flat_integers))]
    pub fn integer_at(&self, row: u64) -> Option<i128>
        requires integer { IsTrue (is_integer (tree_type self.now)) }
        requires in_range { row < length (rows self.now) }
        ensures { cell result ≡ row_at (rows self.now) row }
    {
        self.known();
        self.cell_at(row).integer()
    }

    /// The truth value in a row, None of null.
    #[tactic(auto, using(crate::proofs::Truths::truths))]
    pub fn bool_at(&self, row: u64) -> Option<bool>
        requires bool { tree_type self.now ≡ boolean (nullability_of (tree_type self.now)) }
        requires in_range { row < length (rows self.now) }
        ensures { unwrap_or (option_map truth result) null ≡ row_at (rows self.now) row }
    {
        self.known();
        match self.cell_at(row) {
            Cell::Bool(bit) => Some(bit),
            Cell::Null | Cell::Int(_) | Cell::Bytes(_) => None,
        }
    }
}
