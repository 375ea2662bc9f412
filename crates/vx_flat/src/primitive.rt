//! Integers with validity: refusals, a row, bytes, decoding.

ghost use Rattle.std.specs.Prelude.{◌≡◌, ◌<◌, length, None, slice_index_or, map, pos, true, if◌then◌else◌, ◌+◌, ◌*◌};
ghost use Rattle.vx_base.specs.Answers.{OrMemory};
ghost use Rattle.vx_base.specs.CellValue.{cell_value};
ghost use Rattle.vx_base.specs.Integers.{bytes_of};
ghost use Rattle.vx_base.specs.PlainType as types;
ghost use Rattle.vx_base.specs.PlainValue.{int, null};
ghost use Rattle.vx_model.specs.Decoded.{zeroed_by, zero_beneath_by, is_zero};
ghost use Rattle.vx_model.specs.Refusals.{primitive_refusal, validity_length};
ghost use Rattle.vx_model.specs.Rows.{is_valid_at};
ghost use Rattle.vx_model.specs.Size.{validity_size};
ghost use Rattle.vx_values.specs.IntsOf.{ptype_of, wholes_of};
ghost use Rattle.vx_values.specs.ValuesOf.{ints, AreRows};

use crate::sizes::validity_bytes;
use std::alloc::Global;
use vx_base::{Cell, Mask, Nullability, VortexError, VortexResult};
use vx_values::{Decoded, Ints, Values, copy_validity, has_length, is_allowed, is_valid};

/// Why `len` values with this validity are refused: LengthMismatch where there are bits and not `len` of them, then
/// MismatchedTypes where one is false and the type is non-nullable.
pub fn flat_refusal(len: u64, valid: &Option<Mask>, nullability: Nullability) -> Option<VortexError>
    ensures { result ≡ primitive_refusal len valid.now nullability }
{
    if !has_length(valid, len) {
        return Some(VortexError::LengthMismatch);
    }
    if !is_allowed(valid, nullability) {
        return Some(VortexError::MismatchedTypes);
    }
    None
}

/// The integer in a row, null where the row isn't valid.
pub fn primitive_at(values: &Ints, valid: &Option<Mask>, row: u64) -> Cell<'static>
    requires { row < length (wholes_of values.now) }
    ensures { cell_value result ≡ (if is_valid_at valid.now row then int (slice_index_or (wholes_of values.now) row (pos 0)) else null) }
{
    if is_valid(valid, row) {
        Cell::Int(values.whole_at(row))
    } else {
        Cell::Null
    }
}

/// The bytes of integers: the type's for each, and `ceil(rows / 8)` where there are validity bits.
pub fn primitive_bytes(values: &Ints, valid: &Option<Mask>) -> u128
    ensures { result ≡ length (wholes_of values.now) * bytes_of (ptype_of values.now) + validity_size valid.now }
{
    let width = u128::from(values.ptype().byte_width());
    u128::from(values.len()) * width + validity_bytes(valid)
}

/// The rows, 0 beneath nulls, and their validity.
pub fn decoded_primitive(
    alloc: Global,
    values: &Ints,
    valid: &Option<Mask>,
) -> VortexResult<Decoded>
    requires { validity_length valid.now (length (wholes_of values.now)) ≡ true }
    ensures { OrMemory result (AreRows (ints (ptype_of values.now)) (map int (zeroed_by (pos 0) valid.now (wholes_of values.now))) valid.now) }
{
    let values = Values::Ints(values.decoded(alloc, valid)?);
    let valid = copy_validity(alloc, valid)?;
    Ok(Decoded { values, valid })
}

/// Whether 0 stands beneath each null, as in a plain tree.
pub fn is_zero_beneath(values: &Ints, valid: &Option<Mask>) -> bool
    requires { validity_length valid.now (length (wholes_of values.now)) ≡ true }
    ensures { result ≡ zero_beneath_by is_zero valid.now (wholes_of values.now) }
{
    match valid {
        Some(mask) => values.is_zero_beneath(mask),
        None => true,
    }
}
