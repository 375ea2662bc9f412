//! Bit packing.

ghost use Rattle.std.specs.Prelude.{◌≡◌, ◌<◌, ◌≤◌, ◌+◌, ◌*◌, ◌%◌, ◌^◌, length, map, IfOk};
ghost use Rattle.vx_base.specs.Answers.{OrMemory};
ghost use Rattle.vx_base.specs.Integers.{bits_in, bits_of};
ghost use Rattle.vx_base.specs.Packed.{kept_rows, packed_number, packed_size};
ghost use Rattle.vx_blocks.specs.IsPacked.{IsPacked};

use crate::filling::{finish, fit, put, size_in_bytes};
use crate::groups::{GROUP_ROWS, write_group};
use std::alloc::{AllocError, Global};
use vx_base::{Integer, Mask, VortexError, VortexResult};

// Packs groups of 64 rows at a width that is known at compile time, so that shifts are constants, and then the rest. They go
// behind the bytes of `out`, which are whole words, up to `size` bytes.
fn pack_by<T: Integer, const W: usize>(
    mut out: Vec<u8>,
    values: &[T],
    valid: &[bool],
    size: usize,
) -> Result<Vec<u8>, AllocError>
    requires same { length valid.now ≡ length values.now }
    requires width { W < 64 }
    requires words { length out.items % 8 ≡ 0 }
    requires size { size ≡ length out.items + packed_size W (length values.now) }
    ensures size { IfOk result (λ bytes. length bytes.items ≡ size) }
    ensures number { IfOk result (λ bytes. packed_number 8 bytes.items ≡ packed_number 8 out.items + 2 ^ (8 * length out.items) * packed_number W (kept_rows W (map (bits_in T.kind) (map T.whole values.now)) valid.now)) }
{
    let groups = values.len() / GROUP_ROWS;
    // At the greatest width, 63, a group takes 8 * 63 bytes, and `write_group` overwrites 8 more.
    let mut buffer = [0u8; 512];
    for group in 0..groups {
        write_group::<T, W>(&mut buffer, values, valid, GROUP_ROWS * group);
        out.extend_from_slice(&buffer[..8 * W])?;
    }
    let mut acc = 0;
    let mut fill = 0;
    for i in GROUP_ROWS * groups..values.len() {
        let bits = fit(values[i].to_bits(), valid[i], W as u32);
        (acc, fill) = put(&mut out, acc, fill, bits, W as u32)?;
    }
    let packed = finish(out, acc, fill, size)?;
    Ok(packed)
}

// `pack_by` row by row, at a width that is known at run time: 0 and 64.
fn pack_rows<T: Integer>(
    mut out: Vec<u8>,
    values: &[T],
    valid: &[bool],
    width: u32,
    size: usize,
) -> Result<Vec<u8>, AllocError>
    requires same { length valid.now ≡ length values.now }
    requires within { width ≤ 64 }
    requires words { length out.items % 8 ≡ 0 }
    requires size { size ≡ length out.items + packed_size width (length values.now) }
    ensures size { IfOk result (λ bytes. length bytes.items ≡ size) }
    ensures number { IfOk result (λ bytes. packed_number 8 bytes.items ≡ packed_number 8 out.items + 2 ^ (8 * length out.items) * packed_number width (kept_rows width (map (bits_in T.kind) (map T.whole values.now)) valid.now)) }
{
    let mut acc = 0;
    let mut fill = 0;
    for i in 0..values.len() {
        let bits = fit(values[i].to_bits(), valid[i], width);
        (acc, fill) = put(&mut out, acc, fill, bits, width)?;
    }
    let packed = finish(out, acc, fill, size)?;
    Ok(packed)
}

// A copy of `pack_by` for each width from 1 to 63.
macro_rules! by_width {
    ($out:ident, $values:ident, $valid:ident, $width:ident, $size:ident; $($w:literal),*) => {
        match $width {
            $($w => pack_by::<T, $w>($out, $values, $valid, $size),)*
            _ => pack_rows($out, $values, $valid, $width, $size),
        }
    };
}

/// Packs rows at `width` bits behind the bytes of `out`, which are whole words, up to `size` bytes.
pub(crate) fn pack_behind<T: Integer>(
    out: Vec<u8>,
    values: &[T],
    valid: &[bool],
    width: u32,
    size: usize,
) -> Result<Vec<u8>, AllocError>
    requires same { length valid.now ≡ length values.now }
    requires within { width ≤ 64 }
    requires words { length out.items % 8 ≡ 0 }
    requires size { size ≡ length out.items + packed_size width (length values.now) }
    ensures size { IfOk result (λ bytes. length bytes.items ≡ size) }
    ensures number { IfOk result (λ bytes. packed_number 8 bytes.items ≡ packed_number 8 out.items + 2 ^ (8 * length out.items) * packed_number width (kept_rows width (map (bits_in T.kind) (map T.whole values.now)) valid.now)) }
{
    by_width!(out, values, valid, width, size; 1, 2, 3, 4, 5, 6, 7, 8, 9, 10, 11, 12, 13, 14, 15, 16, 17, 18, 19, 20, 21, 22, 23, 24, 25, 26, 27, 28, 29, 30, 31, 32, 33, 34, 35, 36, 37, 38, 39, 40, 41, 42, 43, 44, 45, 46, 47, 48, 49, 50, 51, 52, 53, 54, 55, 56, 57, 58, 59, 60, 61, 62, 63)
}

/// Packs rows at `width` bits: 128 * `width` bytes for each block of 1,024 rows, little-endian, with the bits r * `width` to
/// (r + 1) * `width` - 1 for row r of a block. Nulls, rows that don't fit the width and the padding of the last block are 0.
/// Negative numbers are packed as their two's complement. `valid` has a truth value per row.
pub fn pack<T: Integer>(
    alloc: Global,
    values: &[T],
    valid: &Mask,
    width: u32,
) -> VortexResult<Vec<u8>>
    requires same { length valid.now ≡ length values.now }
    requires within { width ≤ bits_of T.kind }
    ensures size { OrMemory result (λ bytes. length bytes.items ≡ packed_size width (length values.now)) }
    ensures rows { OrMemory result (λ bytes. IsPacked width (kept_rows width (map (bits_in T.kind) (map T.whole values.now)) valid.now) bytes.items) }
{
    let Some(size) = size_in_bytes(values.len(), width as usize) else {
        return Err(VortexError::NoMemory);
    };
    let out = Vec::with_capacity(alloc, size)?;
    let packed = pack_behind(out, values, valid.as_slice(), width, size)?;
    Ok(packed)
}
