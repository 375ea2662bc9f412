//! The bytes of bits and of validity, and the row limit.

ghost use Rattle.std.specs.Prelude.{◌≡◌, ◌<◌, ◌-◌, ◌+◌, ◌^◌, min, nat_le};
ghost use Rattle.vx_model.specs.Extents.{row_limit};
ghost use Rattle.vx_model.specs.Size.{bit_bytes, validity_size};

use vx_base::Mask;

/// The row limit: no column of more rows is compressed, nor one that a column of more rows is nested in.
pub const ROW_LIMIT: u64 = 1 << 31;

/// Whether a number of rows is within the row limit.
pub fn is_few(rows: u64) -> bool
    ensures { result ≡ nat_le rows row_limit }
{
    rows <= ROW_LIMIT
}

/// The bytes of children, and of validity. Saturates at 2^128 - 1.
pub fn with_validity(inside: u128, valid: &Option<Mask>) -> u128
    ensures { result ≡ min (inside + validity_size valid.now) (2 ^ 128 - 1) }
{
    inside.saturating_add(validity_bytes(valid))
}

/// `ceil(bits / 8)`.
pub fn bit_bytes(bits: u64) -> u128
    ensures value { result ≡ bit_bytes bits }
    ensures small { result < 2 ^ 62 }
{
    (u128::from(bits) + 7) / 8
}

/// The bytes of validity: `ceil(rows / 8)` where there are bits, else 0.
pub fn validity_bytes(valid: &Option<Mask>) -> u128
    ensures value { result ≡ validity_size valid.now }
    ensures small { result < 2 ^ 62 }
{
    match valid {
        Some(bits) => bit_bytes(bits.len()),
        None => 0,
    }
}
