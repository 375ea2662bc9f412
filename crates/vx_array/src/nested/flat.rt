//! Pieces of flat columns, as plain trees.

ghost use Rattle.std.specs.Prelude.{◌≡◌, IsTrue, None, length, true};
ghost use Rattle.vx_array.specs.AsType.{as_type};
ghost use Rattle.vx_array.specs.PlainPieced.{plain_pieced};
ghost use Rattle.vx_base.specs.Answers.{Answers};
ghost use Rattle.vx_base.specs.PlainType.{is_flat, is_timestamp, nullability_of};
ghost use Rattle.vx_base.specs.TypeOf.{type_of};
ghost use Rattle.vx_model.specs.Refusals.{kept, primitive_refusal, timestamp_refusal};
ghost use Rattle.vx_model.specs.Rows.{rows};
ghost use Rattle.vx_model.specs.Tree.{primitive};
ghost use Rattle.vx_model.specs.TreeType.{tree_type};
ghost use Rattle.vx_pieces.specs.Pieces.{are_pieces};
ghost use Rattle.vx_values.specs.IntsOf.{ptype_of, wholes_of};

use crate::array::ArrayRef;
use crate::node::as_type;
use std::alloc::Global;
use vx_base::{DType, Mask, VortexResult};
use vx_pieces::{Piece, are_whole, pieced_bits, pieced_bytes, pieced_ints, pieced_validity};
use vx_values::{Decoded, Ints, Values};

impl ArrayRef {
    // The plain tree of the rows that pieces give of a tree of a leaf type or of timestamps. A whole column is made plain
    // without a second copy.
    pub(super) fn flat_pieces(&self, alloc: Global, pieces: &[Piece]) -> VortexResult<ArrayRef>
        requires flat { IsTrue (is_flat (tree_type self.now)) }
        requires pieces { IsTrue (are_pieces (length (rows self.now)) pieces.now) }
        ensures { Answers result (plain_pieced pieces.now self.now) }
    {
        if are_whole(pieces, self.len()) {
            return self.canonical_flat(alloc);
        }
        self.decoded_pieces(alloc, pieces)
    }

    // `flat_pieces` by a decoded column.
    fn decoded_pieces(&self, alloc: Global, pieces: &[Piece]) -> VortexResult<ArrayRef>
        requires flat { IsTrue (is_flat (tree_type self.now)) }
        requires pieces { IsTrue (are_pieces (length (rows self.now)) pieces.now) }
        ensures { Answers result (plain_pieced pieces.now self.now) }
    {
        self.known();
        let Decoded { values, valid } = self.decoded(alloc)?;
        let dtype = self.dtype();
        let valid = pieced_validity(alloc, &valid, self.len(), pieces, !dtype.is_nullable())?;
        match values {
            Values::Bits(bits) => {
                let truths = pieced_bits(alloc, &bits, pieces, false)?;
                Ok(ArrayRef::bool_of(truths, valid, dtype.nullability()))
            }
            Values::Ints(ints) => {
                let wholes = pieced_ints(alloc, &ints, pieces, 0)?;
                typed_integers(alloc, wholes, valid, dtype)
            }
            Values::Bytes(rows) => {
                let texts = pieced_bytes(alloc, &rows, pieces, b"")?;
                Ok(ArrayRef::var_bin_view_of(texts, valid, dtype.copy(alloc)?))
            }
        }
    }
}

// Integers and their validity as a column of a type of integers or timestamps.
fn typed_integers(
    alloc: Global,
    ints: Ints,
    valid: Option<Mask>,
    dtype: &DType,
) -> VortexResult<ArrayRef>
    requires admitted { primitive_refusal (length (wholes_of ints)) valid (nullability_of (type_of dtype.now)) ≡ None }
    requires stamped { is_timestamp (type_of dtype.now) ≡ true → timestamp_refusal (primitive (ptype_of ints) (wholes_of ints) (kept valid) (nullability_of (type_of dtype.now))) ≡ None }
    ensures { Answers result (as_type (type_of dtype.now) (primitive (ptype_of ints) (wholes_of ints) (kept valid) (nullability_of (type_of dtype.now)))) }
{
    let integers = ArrayRef::primitive_of(ints, valid, dtype.nullability());
    as_type(alloc, integers, dtype)
}
