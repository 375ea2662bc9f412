//! Texts and binaries with validity: refusals, a row, bytes, decoding.

ghost use Rattle.std.specs.List.{list_all};
ghost use Rattle.std.specs.Prelude.{◌≡◌, ◌<◌, ◌+◌, ◌-◌, ◌*◌, ◌^◌, IsTrue, None, length, map, min, slice_index_or, sum_by, true, [], if◌then◌else◌};
ghost use Rattle.vx_base.specs.Answers.{OrMemory};
ghost use Rattle.vx_base.specs.CellValue.{cell_value};
ghost use Rattle.vx_base.specs.PlainScalar.{fits};
ghost use Rattle.vx_base.specs.PlainType.{is_bytes};
ghost use Rattle.vx_base.specs.PlainValue.{bytes, null};
ghost use Rattle.vx_base.specs.TypeOf.{type_of};
ghost use Rattle.vx_model.specs.Decoded.{zeroed_by, zero_beneath_by, is_empty};
ghost use Rattle.vx_model.specs.Refusals.{var_bin_view_refusal, validity_length, kept};
ghost use Rattle.vx_model.specs.Rows.{is_valid_at, valid_rows};
ghost use Rattle.vx_model.specs.Size.{long_bytes, validity_size};
ghost use Rattle.vx_values.specs.ValuesOf.{byte_rows, AreRows};

use crate::sizes::validity_bytes;
use crate::texts::fits;
use std::alloc::Global;
use vx_base::{ByteRows, Bytes, Cell, DType, Mask, VortexError, VortexResult};
use vx_values::{Decoded, Values, byte_rows, copy_validity, has_length, is_allowed, is_valid};

/// Why these are refused as texts or binaries: MismatchedTypes for any other type; then LengthMismatch where there are
/// validity bits and not one a row; then ValueTooLong where a value, valid or not, has 2^32 bytes or more; then
/// MismatchedTypes where a bit is false and the type non-nullable, or a valid row of texts isn't UTF-8.
pub fn view_refusal(values: &ByteRows, valid: &Option<Mask>, dtype: &DType) -> Option<VortexError>
    ensures { result ≡ var_bin_view_refusal values.now valid.now (type_of dtype.now) }
{
    if !dtype.is_bytes() {
        return Some(VortexError::MismatchedTypes);
    }
    if !has_length(valid, values.len()) {
        return Some(VortexError::LengthMismatch);
    }
    if !byte_rows::are_short(values) {
        return Some(VortexError::ValueTooLong);
    }
    if !is_allowed(valid, dtype.nullability()) || !are_values(values, valid, dtype) {
        return Some(VortexError::MismatchedTypes);
    }
    None
}

// Whether each row fits the type. Beneath nulls any bytes may stand.
fn are_values(values: &ByteRows, valid: &Option<Mask>, dtype: &DType) -> bool
    requires bytes { IsTrue (is_bytes (type_of dtype.now)) }
    requires lengths { validity_length valid.now (length values.now) ≡ true }
    ensures { result ≡ list_all (fits (type_of dtype.now)) (valid_rows (kept valid.now) (map bytes values.now)) }
{
    for row in 0..values.len() {
        if !fits(dtype, view_at(values, valid, row)) {
            return false;
        }
    }
    true
}

/// The bytes in a row, null where the row isn't valid.
pub fn view_at<'a>(values: &'a ByteRows, valid: &Option<Mask>, row: u64) -> Cell<'a>
    requires { row < length values.now }
    ensures { cell_value result ≡ (if is_valid_at valid.now row then bytes (slice_index_or values.now row []) else null) }
{
    if is_valid(valid, row) {
        Cell::Bytes(values.as_slice()[row as usize].as_slice())
    } else {
        Cell::Null
    }
}

// The bytes of a value beside its 16-byte view. Up to 12 bytes stand in the view itself.
fn long_bytes(bytes: &Bytes) -> u64
    ensures { result ≡ long_bytes bytes.now }
{
    if bytes.len() <= 12 { 0 } else { bytes.len() }
}

// `long_bytes` of all values together. Saturates at 2^128 - 1.
fn all_long_bytes(values: &[Bytes]) -> u128
    ensures { result ≡ min (sum_by long_bytes values.now) (2 ^ 128 - 1) }
{
    let mut all: u128 = 0;
    for bytes in values {
        all = all.saturating_add(u128::from(long_bytes(bytes)));
    }
    all
}

/// The bytes of texts or binaries as views: 16 a row, the bytes of each value longer than 12, and validity. Saturates at
/// 2^128 - 1.
pub fn view_bytes(values: &ByteRows, valid: &Option<Mask>) -> u128
    ensures { result ≡ min (16 * length values.now + sum_by long_bytes values.now + validity_size valid.now) (2 ^ 128 - 1) }
{
    let own = 16 * u128::from(values.len()) + validity_bytes(valid);
    own.saturating_add(all_long_bytes(values.as_slice()))
}

/// The rows, no bytes beneath nulls, and their validity.
pub fn decoded_view(alloc: Global, values: &ByteRows, valid: &Option<Mask>) -> VortexResult<Decoded>
    requires { validity_length valid.now (length values.now) ≡ true }
    ensures { OrMemory result (AreRows byte_rows (map bytes (zeroed_by [] valid.now values.now)) valid.now) }
{
    let values = Values::Bytes(byte_rows::decoded(alloc, values, valid)?);
    let valid = copy_validity(alloc, valid)?;
    Ok(Decoded { values, valid })
}

/// Whether no bytes stand beneath each null, as in a plain tree.
pub fn is_empty_beneath(values: &ByteRows, valid: &Option<Mask>) -> bool
    requires { validity_length valid.now (length values.now) ≡ true }
    ensures { result ≡ zero_beneath_by is_empty valid.now values.now }
{
    match valid {
        Some(mask) => byte_rows::is_zero_beneath(values, mask),
        None => true,
    }
}
