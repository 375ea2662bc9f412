//! Frames of reference by blocks.

ghost use Rattle.std.specs.Prelude.{◌≡◌, ◌+ℤ◌, ℤ, IsTrue, length, map, pos, true};
ghost use Rattle.vx_base.specs.Answers.{OrMemory};
ghost use Rattle.vx_base.specs.CellValue.{cell_value};
ghost use Rattle.vx_base.specs.Integers.{lies_in, unsigned_of};
ghost use Rattle.vx_base.specs.Packed.{block_count};
ghost use Rattle.vx_base.specs.PlainScalar.{fits};
ghost use Rattle.vx_base.specs.PlainType as types;
ghost use Rattle.vx_base.specs.PlainValue.{int};
ghost use Rattle.vx_base.specs.Wrapping.{wrap};
ghost use Rattle.vx_base.specs.declared.dtype.Nullability.TheVariants.{Nullable};
ghost use Rattle.vx_base.specs.declared.ptype.PType.TheVariants.{U64};
ghost use Rattle.vx_model.specs.Decoded.{zeroed_by};
ghost use Rattle.vx_model.specs.Refusals.{validity_length};
ghost use Rattle.vx_model.specs.Rows.{each_int};
ghost use Rattle.vx_values.specs.InBlocks.{moved_by_block};
ghost use Rattle.vx_values.specs.IntsOf.{ptype_of, wholes_of};
ghost use Rattle.vx_values.specs.ValuesOf.{ints, AreRows};

use std::alloc::Global;
use vx_base::{Cell, Mask, PType, VortexResult};
use vx_values::{Decoded, Ints, behind, summed_in};

/// `reference + difference`, wrapping in an integer type; null where the difference is.
pub fn framed_at(ptype: PType, reference: i128, difference: Cell<'_>) -> Cell<'static>
    requires reference { IsTrue (lies_in ptype reference) }
    requires held { IsTrue (fits (types.primitive U64 Nullable) (cell_value difference)) }
    ensures { cell_value result ≡ each_int (λ z. wrap ptype (reference +ℤ z)) (cell_value difference.entry) }
{
    match difference {
        Cell::Int(difference) => Cell::Int(summed_in(ptype, reference, difference)),
        Cell::Null | Cell::Bool(_) | Cell::Bytes(_) => Cell::Null,
    }
}

/// The reference of its block plus the difference in each row, wrapping in the references' type; 0 beneath nulls. The
/// validity is that of the differences.
pub fn decoded_frames(
    alloc: Global,
    differences: &Ints,
    valid: Option<Mask>,
    references: &Ints,
) -> VortexResult<Decoded>
    requires unsigned { ptype_of differences.now ≡ unsigned_of (ptype_of references.now) }
    requires blocks { length (wholes_of references.now) ≡ block_count (length (wholes_of differences.now)) }
    requires bits { validity_length valid (length (wholes_of differences.now)) ≡ true }
    ensures { OrMemory result (AreRows (ints (ptype_of references.now)) (map int (zeroed_by (pos 0) valid (moved_by_block (ptype_of references.now) (wholes_of references.now) (wholes_of differences.now)))) valid) }
{
    let values = differences.moved_in_blocks(alloc, references)?;
    Ok(behind(values, valid))
}
