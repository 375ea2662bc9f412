//! Integers as their zigzag: a row, decoding.

ghost use Rattle.std.specs.Prelude.{◌≡◌, IsTrue, length, map, nat_le, not, pos, true};
ghost use Rattle.vx_base.specs.Answers.{OrMemory};
ghost use Rattle.vx_base.specs.CellValue.{cell_value};
ghost use Rattle.vx_base.specs.Integers.{is_signed, natural_bits, signed_of};
ghost use Rattle.vx_base.specs.Packed.{packed_row, packed_size};
ghost use Rattle.vx_base.specs.PlainScalar.{fits};
ghost use Rattle.vx_base.specs.PlainType as types;
ghost use Rattle.vx_base.specs.PlainValue.{int};
ghost use Rattle.vx_base.specs.declared.dtype.Nullability.TheVariants.{Nullable};
ghost use Rattle.vx_base.specs.declared.ptype.PType.TheVariants.{U64};
ghost use Rattle.vx_model.specs.Decoded.{zeroed_by};
ghost use Rattle.vx_model.specs.Refusals.{validity_length};
ghost use Rattle.vx_model.specs.Rows.{below, unzigzagged, unzigzagged_whole};
ghost use Rattle.vx_values.specs.IntsOf.{ptype_of, wholes_of};
ghost use Rattle.vx_values.specs.ValuesOf.{ints, AreRows};

use std::alloc::Global;
use vx_base::{Bytes, Cell, Mask, PType, VortexResult};
use vx_blocks::unzigzag;
use vx_values::{Decoded, Ints, Values, behind, copy_validity};

/// The integer whose zigzag is given, null of null.
pub fn unzigzagged_at(word: Cell<'_>) -> Cell<'static>
    requires { IsTrue (fits (types.primitive U64 Nullable) (cell_value word)) }
    ensures { cell_value result ≡ unzigzagged (cell_value word.entry) }
{
    match word {
        Cell::Int(word) => Cell::Int(i128::from(unzigzag(word as u64))),
        Cell::Null | Cell::Bool(_) | Cell::Bytes(_) => Cell::Null,
    }
}

/// The integers whose zigzags are given, in the signed type of the width. The validity is the zigzags'.
pub fn decoded_zig_zag(alloc: Global, zigzags: Ints, valid: Option<Mask>) -> VortexResult<Decoded>
    requires { not (is_signed (ptype_of zigzags)) ≡ true }
    ensures { OrMemory result (AreRows (ints (signed_of (ptype_of zigzags))) (map int (map unzigzagged_whole (wholes_of zigzags))) valid) }
{
    let values = Values::Ints(zigzags.unzigzagged(alloc)?);
    Ok(Decoded { values, valid })
}

/// The integers of `len` packed zigzags of an unsigned type, in the signed type of the width; 0 beneath nulls. No list of the
/// zigzags is made.
pub fn decoded_zig_zag_words(
    alloc: Global,
    ptype: PType,
    width: u32,
    packed: &Bytes,
    len: u64,
    valid: &Option<Mask>,
) -> VortexResult<Decoded>
    requires unsigned { not (is_signed ptype) ≡ true }
    requires narrow { IsTrue (nat_le width (natural_bits ptype)) }
    requires sized { length packed.now ≡ packed_size width len }
    requires bits { validity_length valid.now len ≡ true }
    ensures { OrMemory result (AreRows (ints (signed_of ptype)) (map int (zeroed_by (pos 0) valid.now (below (λ i. unzigzagged_whole (pos (packed_row packed.now width i))) len))) valid.now) }
{
    let values = Ints::unzigzagged_words(alloc, ptype, width, packed.as_slice(), len)?;
    Ok(behind(values, copy_validity(alloc, valid)?))
}
