//! Validity as a caller gives it: none, a byte a row, or a bitmap in which the first row's bit stands at an offset.

ghost use Rattle.std.specs.Prelude.{◌≡◌, ◌<◌, ◌≤◌, ◌+◌, ◌*◌, length, map, IfOk, None};
ghost use Rattle.vx_base.specs.Answers.{Answers};
ghost use Rattle.vx_buffers.specs.Answered.{Answered};
ghost use Rattle.vx_buffers.specs.Given.{bit_at, bits_from, by_bits, by_bytes, given_validity, has_bits, is_set};
ghost use Rattle.vx_model.specs.Refusals.{primitive_refusal};

use crate::refusal::Refusal;
use std::alloc::Global;
use vx_base::{Mask, Nullability, VortexResult};

/// The truth values of bytes: false of 0, else true.
pub(crate) fn truths(alloc: Global, bytes: &[u8]) -> VortexResult<Mask>
    ensures { Answers result (map is_set bytes.now) }
{
    let mut bits = Vec::with_capacity(alloc, bytes.len())?;
    for row in 0..bytes.len() {
        bits.push(bytes[row] != 0)?;
    }
    Ok(Mask::from_bits(bits))
}

// The bit at a place of a bitmap, the lowest of each byte first, as Arrow has them.
#[inline(always)]
fn bit_at(bytes: &[u8], place: u128) -> bool
    requires { place < 8 * length bytes.now }
    ensures { result ≡ bit_at bytes.now place }
{
    (bytes[(place / 8) as usize] >> (place % 8) as u32) % 2 == 1
}

// The bit of a row of a bitmap in which the first row's stands at `offset`. The place is of 128 bits, since a bitmap of 2^61
// bytes has 2^64 of them.
#[inline(always)]
fn row_bit(bytes: &[u8], offset: u64, row: u64) -> bool
    requires { offset + row < 8 * length bytes.now }
    ensures { result ≡ bit_at bytes.now (offset + row) }
{
    bit_at(bytes, offset as u128 + row as u128)
}

// The bits from `offset` on, one for each row.
fn bits_from(alloc: Global, bytes: &[u8], offset: u64, rows: u64) -> VortexResult<Mask>
    requires { offset + rows ≤ 8 * length bytes.now }
    ensures { Answers result (bits_from bytes.now offset rows) }
{
    let mut bits = Vec::with_capacity(alloc, rows as usize)?;
    for row in 0..rows {
        bits.push(row_bit(bytes, offset, row))?;
    }
    Ok(Mask::from_bits(bits))
}

// Whether a bitmap has a bit for each row from an offset on.
fn has_bits(bytes: &[u8], offset: u64, rows: u64) -> bool
    ensures { result ≡ has_bits bytes.now offset rows }
{
    offset as u128 + rows as u128 <= 8 * bytes.len() as u128
}

/// The validity of rows, and whether one may be null: not without validity. By the form 0 there is none; by 1 each row has a
/// byte, 0 where it is null; by 2 each has a bit, the lowest of each byte first and the first row's at `offset`.
pub fn given_validity(
    alloc: Global,
    form: u8,
    bytes: &[u8],
    offset: u64,
    rows: u64,
) -> Result<(Option<Mask>, Nullability), Refusal>
    ensures given { Answered (given_validity form bytes.now offset rows) result }
    ensures fits { IfOk result (λ v. primitive_refusal rows v.0 v.1 ≡ None) }
{
    if form == 0 {
        return Ok((None, Nullability::NonNullable));
    }
    if form == 1 {
        return by_bytes(alloc, bytes, rows);
    }
    if form == 2 {
        return by_bits(alloc, bytes, offset, rows);
    }
    Err(Refusal::UnknownForm)
}

// Validity by a byte a row.
#[tactic(auto, using(crate::proofs::Fits::fitting))]
fn by_bytes(alloc: Global, bytes: &[u8], rows: u64) -> Result<(Option<Mask>, Nullability), Refusal>
    ensures given { Answered (by_bytes bytes.now rows) result }
    ensures fits { IfOk result (λ v. primitive_refusal rows v.0 v.1 ≡ None) }
{
    if bytes.len() as u64 != rows {
        return Err(Refusal::ValidityLength);
    }
    let bits = truths(alloc, bytes)?;
    Ok((Some(bits), Nullability::Nullable))
}

// Validity by a bitmap.
#[tactic(auto, using(crate::proofs::Fits::fitting))]
fn by_bits(
    alloc: Global,
    bytes: &[u8],
    offset: u64,
    rows: u64,
) -> Result<(Option<Mask>, Nullability), Refusal>
    ensures given { Answered (by_bits bytes.now offset rows) result }
    ensures fits { IfOk result (λ v. primitive_refusal rows v.0 v.1 ≡ None) }
{
    if !has_bits(bytes, offset, rows) {
        return Err(Refusal::ValidityLength);
    }
    let bits = bits_from(alloc, bytes, offset, rows)?;
    Ok((Some(bits), Nullability::Nullable))
}
