//! Frames of reference, integers less one reference: a row, decoding.

ghost use Rattle.std.specs.Prelude.{◌≡◌, IsTrue, pos, true, false, length, map, nat_le};
ghost use Rattle.vx_base.specs.Answers.{OrMemory};
ghost use Rattle.vx_base.specs.CellValue.{cell_value};
ghost use Rattle.vx_base.specs.Integers.{lies_in, natural_bits, unsigned_of};
ghost use Rattle.vx_base.specs.Packed.{packed_row, packed_size};
ghost use Rattle.vx_base.specs.PlainScalar.{fits};
ghost use Rattle.vx_base.specs.PlainType as types;
ghost use Rattle.vx_base.specs.PlainType.{integer_of, is_integer};
ghost use Rattle.vx_base.specs.PlainValue.{int, is_null, whole_or_zero};
ghost use Rattle.vx_base.specs.declared.dtype.Nullability.TheVariants.{Nullable};
ghost use Rattle.vx_base.specs.declared.ptype.PType.TheVariants.{U64};
ghost use Rattle.vx_model.specs.Decoded.{zeroed_by};
ghost use Rattle.vx_model.specs.Refusals.{validity_length};
ghost use Rattle.vx_model.specs.Rows.{below, moved, summed};
ghost use Rattle.vx_values.specs.IntsOf.{ptype_of, wholes_of};
ghost use Rattle.vx_values.specs.ValuesOf.{ints, AreRows};

use std::alloc::Global;
use vx_base::{Bytes, Cell, Mask, Scalar, VortexResult};
use vx_values::{Decoded, Ints, behind, copy_validity, summed_in};

/// `reference + difference`, wrapping in the reference's type; null where the difference is.
pub fn moved_at(reference: &Scalar, difference: Cell<'_>) -> Cell<'static>
    requires integer { IsTrue (is_integer reference.now.dtype) }
    requires not_null { is_null reference.now.value ≡ false }
    requires held { IsTrue (fits (types.primitive U64 Nullable) (cell_value difference)) }
    ensures { cell_value result ≡ moved reference.now (cell_value difference.entry) }
{
    reference.known();
    match (reference.integer(), difference) {
        (Some(whole), Cell::Int(difference)) => {
            Cell::Int(summed_in(reference.dtype().ptype(), whole, difference))
        }
        _ => Cell::Null,
    }
}

// `reference + difference` in each row, wrapping in the reference's type.
fn moved(alloc: Global, reference: &Scalar, differences: &Ints) -> VortexResult<Ints>
    requires integer { IsTrue (is_integer reference.now.dtype) }
    requires not_null { is_null reference.now.value ≡ false }
    requires unsigned { ptype_of differences.now ≡ unsigned_of (integer_of reference.now.dtype) }
    ensures { OrMemory result (λ ints. (ptype_of ints ≡ integer_of reference.now.dtype) × (wholes_of ints ≡ map (summed reference.now) (wholes_of differences.now))) }
{
    reference.known();
    let Some(whole) = reference.integer() else {
        unreachable!();
    };
    differences.moved(alloc, reference.dtype().ptype(), whole)
}

/// `reference + difference` in each row, wrapping in the reference's type; 0 beneath nulls. The validity is that of the
/// differences.
pub fn decoded_moved(
    alloc: Global,
    differences: &Ints,
    valid: Option<Mask>,
    reference: &Scalar,
) -> VortexResult<Decoded>
    requires integer { IsTrue (is_integer reference.now.dtype) }
    requires not_null { is_null reference.now.value ≡ false }
    requires unsigned { ptype_of differences.now ≡ unsigned_of (integer_of reference.now.dtype) }
    requires bits { validity_length valid (length (wholes_of differences.now)) ≡ true }
    ensures { OrMemory result (AreRows (ints (integer_of reference.now.dtype)) (map int (zeroed_by (pos 0) valid (map (summed reference.now) (wholes_of differences.now)))) valid) }
{
    let values = moved(alloc, reference, differences)?;
    Ok(behind(values, valid))
}

// The reference as a whole number.
fn whole_of(reference: &Scalar) -> i128
    requires integer { IsTrue (is_integer reference.now.dtype) }
    requires not_null { is_null reference.now.value ≡ false }
    ensures value { result ≡ whole_or_zero reference.now.value }
    ensures held { IsTrue (lies_in (integer_of reference.now.dtype) result) }
{
    reference.known();
    let Some(whole) = reference.integer() else {
        unreachable!();
    };
    whole
}

// `reference + word` for each of `len` packed words, wrapping in the reference's type.
fn moved_words(
    alloc: Global,
    reference: &Scalar,
    width: u32,
    packed: &Bytes,
    len: u64,
) -> VortexResult<Ints>
    requires integer { IsTrue (is_integer reference.now.dtype) }
    requires not_null { is_null reference.now.value ≡ false }
    requires narrow { IsTrue (nat_le width (natural_bits (unsigned_of (integer_of reference.now.dtype)))) }
    requires sized { length packed.now ≡ packed_size width len }
    ensures { OrMemory result (λ ints. (ptype_of ints ≡ integer_of reference.now.dtype) × (wholes_of ints ≡ below (λ i. summed reference.now (pos (packed_row packed.now width i))) len)) }
{
    let ptype = reference.dtype().ptype();
    let whole = whole_of(reference);
    Ints::moved_words(alloc, ptype, whole, width, packed.as_slice(), len)
}

/// `reference + word` for each of `len` packed words, wrapping in the reference's type; 0 beneath nulls. No list of the words
/// is made.
pub fn decoded_moved_words(
    alloc: Global,
    width: u32,
    packed: &Bytes,
    len: u64,
    valid: &Option<Mask>,
    reference: &Scalar,
) -> VortexResult<Decoded>
    requires integer { IsTrue (is_integer reference.now.dtype) }
    requires not_null { is_null reference.now.value ≡ false }
    requires narrow { IsTrue (nat_le width (natural_bits (unsigned_of (integer_of reference.now.dtype)))) }
    requires sized { length packed.now ≡ packed_size width len }
    requires bits { validity_length valid.now len ≡ true }
    ensures { OrMemory result (AreRows (ints (integer_of reference.now.dtype)) (map int (zeroed_by (pos 0) valid.now (below (λ i. summed reference.now (pos (packed_row packed.now width i))) len))) valid.now) }
{
    let values = moved_words(alloc, reference, width, packed, len)?;
    Ok(behind(values, copy_validity(alloc, valid)?))
}
