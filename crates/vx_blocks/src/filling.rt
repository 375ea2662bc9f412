//! A writer of bits, which fills words of 64 bits.

ghost use Rattle.std.specs.Prelude.{◌≡◌, ◌<◌, ◌≤◌, ◌+◌, ◌*◌, ◌^◌, ◌++◌, ℕ, List, length, take, IfOk, IfSome};
ghost use Rattle.vx_base.specs.Packed.{packed_number, kept_row, packed_size};
ghost use Rattle.vx_blocks.specs.Holds.{Holds};

use crate::parts::BLOCK_ROWS;
use std::alloc::AllocError;

// The size of packed rows in bytes, None where it overflows a usize.
pub(crate) fn size_in_bytes(rows: usize, width: usize) -> Option<usize>
    requires { width ≤ 64 }
    ensures { IfSome result (λ size. size ≡ packed_size width rows) }
{
    rows.div_ceil(BLOCK_ROWS)
        .checked_mul(BLOCK_ROWS / 8 * width)
}

// What is packed of a row: its bits, or 0 where it is null or they don't fit the width.
#[inline(always)]
pub(crate) fn fit(bits: u64, valid: bool, width: u32) -> u64
    requires { width ≤ 64 }
    ensures { result ≡ kept_row width bits valid }
{
    if !valid {
        0
    } else if width == 64 || bits >> width == 0 {
        bits
    } else {
        0
    }
}

// Appends `width` bits to `out` and the word `acc`, of which `fill` bits are taken. Returns the new word and fill.
#[inline(always)]
pub(crate) fn put(
    out: &mut Vec<u8>,
    acc: u64,
    fill: u32,
    bits: u64,
    width: u32,
) -> Result<(u64, u32), AllocError>
    requires fill { fill < 64 }
    requires width { width ≤ 64 }
    requires bits { bits < 2 ^ width }
    ensures { IfOk result (λ next. (number place : ℕ) → Holds number place out.old.items acc fill → Holds (number + 2 ^ place * bits) (place + width) out.new.items next.0 next.1) }
{
    let word = acc | bits << fill;
    if fill + width < 64 {
        return Ok((word, fill + width));
    }
    out.extend_from_slice(&word.to_le_bytes())?;
    let rest = if fill == 0 { 0 } else { bits >> (64 - fill) };
    Ok((rest, fill + width - 64))
}

// `put` into a buffer, of which `len` bytes are taken: no allocation, and so no error. Returns also the new length.
#[inline(always)]
pub(crate) fn put_in(
    buffer: &mut [u8],
    len: usize,
    acc: u64,
    fill: u32,
    bits: u64,
    width: u32,
) -> (u64, u32, usize)
    requires room { len + 8 ≤ length buffer.old }
    requires fill { fill < 64 }
    requires width { width ≤ 64 }
    requires bits { bits < 2 ^ width }
    ensures taken { result.2 ≤ len + 8 }
    ensures holds { (before : List ℕ) (number place : ℕ) → Holds number place (before ++ take len buffer.old) acc fill → Holds (number + 2 ^ place * bits) (place + width) (before ++ take result.2 buffer.new) result.0 result.1 }
{
    let word = acc | bits << fill;
    if fill + width < 64 {
        return (word, fill + width, len);
    }
    buffer[len..len + 8].copy_from_slice(&word.to_le_bytes());
    let rest = if fill == 0 { 0 } else { bits >> (64 - fill) };
    (rest, fill + width - 64, len + 8)
}

// The bytes of `out` and of the word `acc`, padded with zeros to `size`.
pub(crate) fn finish(
    mut out: Vec<u8>,
    acc: u64,
    fill: u32,
    size: usize,
) -> Result<Vec<u8>, AllocError>
    ensures number { IfOk result (λ bytes. (number place words : ℕ) → Holds number place out.items acc fill → place ≤ 8 * size → size ≡ 8 * words → packed_number 8 bytes.items ≡ number) }
    ensures size { IfOk result (λ bytes. length bytes.items ≡ size) }
{
    if fill != 0 {
        out.extend_from_slice(&acc.to_le_bytes())?;
    }
    out.resize(size, 0)?;
    Ok(out)
}
