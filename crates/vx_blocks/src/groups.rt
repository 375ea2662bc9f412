//! Groups of 64 rows, packed at a width that is known at compile time.

ghost use Rattle.std.specs.Prelude.{◌≡◌, ◌<◌, ◌≤◌, ◌+◌, ◌*◌, ◌^◌, length, slice_index, map, take, drop};
ghost use Rattle.std.specs.Bool.{OnTrue};
ghost use Rattle.vx_base.specs.Integers.{bits_in};
ghost use Rattle.vx_base.specs.Packed.{kept_rows, packed_number};
ghost use Rattle.vx_blocks.specs.AreKept.{AreKept};

use crate::filling::{fit, put_in};
use vx_base::Integer;

/// Rows of a group. Packed rows of any width fill whole words of 64 bits, so a group leaves no bits over; and a test of a group
/// costs one branch for all of its rows.
pub const GROUP_ROWS: usize = 64;

const _: () = prove!(GROUP_ROWS == 64);

// Whether the rows `start` to `end - 1` are packed unchanged: all valid, and the `|` of their bits fits the width. There is
// one branch for all of them.
#[inline(always)]
fn are_kept<T: Integer, const W: usize>(
    values: &[T],
    valid: &[bool],
    start: usize,
    end: usize,
) -> bool
    requires same { length valid.now ≡ length values.now }
    requires width { W < 64 }
    requires order { start ≤ end }
    requires room { end ≤ length values.now }
    ensures { OnTrue result (AreKept W (map (bits_in T.kind) (map T.whole values.now)) valid.now start end) }
{
    let mut bits = 0;
    let mut all = true;
    for i in start..end {
        bits |= values[i].to_bits();
        all = all & valid[i];
    }
    all && bits >> W == 0
}

// What is packed of a row, without a test where it is known to be packed unchanged.
#[inline(always)]
fn row_bits<T: Integer, const W: usize>(values: &[T], valid: &[bool], row: usize, kept: bool) -> u64
    requires same { length valid.now ≡ length values.now }
    requires width { W < 64 }
    requires room { row < length values.now }
    requires kept { OnTrue kept (AreKept W (map (bits_in T.kind) (map T.whole values.now)) valid.now row (row + 1)) }
    ensures value { result ≡ slice_index (kept_rows W (map (bits_in T.kind) (map T.whole values.now)) valid.now) row }
    ensures small { result < 2 ^ W }
{
    let bits = values[row].to_bits();
    if kept {
        bits
    } else {
        fit(bits, valid[row], W as u32)
    }
}

// Writes 8 rows, which take `W` bytes. The 8 bytes behind them are overwritten, since whole words are stored.
#[inline(always)]
fn write_eight<T: Integer, const W: usize>(
    out: &mut [u8],
    values: &[T],
    valid: &[bool],
    at: usize,
    kept: bool,
)
    requires same { length valid.now ≡ length values.now }
    requires width { W < 64 }
    requires room { at + 8 ≤ length values.now }
    requires bytes { W + 8 ≤ length out.old }
    requires kept { OnTrue kept (AreKept W (map (bits_in T.kind) (map T.whole values.now)) valid.now at (at + 8)) }
    ensures { packed_number 8 (take W out.new) ≡ packed_number W (take 8 (drop at (kept_rows W (map (bits_in T.kind) (map T.whole values.now)) valid.now))) }
{
    let mut acc = 0;
    let mut fill = 0;
    let mut len = 0;
    for k in 0..8 {
        let bits = row_bits::<T, W>(values, valid, at + k, kept);
        (acc, fill, len) = put_in(out, len, acc, fill, bits, W as u32);
    }
    out[len..len + 8].copy_from_slice(&acc.to_le_bytes());
}

// `write_eight` with `kept` as a constant in each of two inlined copies, so that no row tests it.
#[inline(always)]
fn write_either<T: Integer, const W: usize>(
    out: &mut [u8],
    values: &[T],
    valid: &[bool],
    at: usize,
    kept: bool,
)
    requires same { length valid.now ≡ length values.now }
    requires width { W < 64 }
    requires room { at + 8 ≤ length values.now }
    requires bytes { W + 8 ≤ length out.old }
    requires kept { OnTrue kept (AreKept W (map (bits_in T.kind) (map T.whole values.now)) valid.now at (at + 8)) }
    ensures { packed_number 8 (take W out.new) ≡ packed_number W (take 8 (drop at (kept_rows W (map (bits_in T.kind) (map T.whole values.now)) valid.now))) }
{
    if kept {
        write_eight::<T, W>(out, values, valid, at, true);
    } else {
        write_eight::<T, W>(out, values, valid, at, false);
    }
}

/// Writes a group, which takes 8 * `W` bytes, 8 rows at a time: these begin at a whole byte at every width. The 8 bytes behind
/// the group are overwritten.
#[inline(always)]
pub(crate) fn write_group<T: Integer, const W: usize>(
    buffer: &mut [u8],
    values: &[T],
    valid: &[bool],
    start: usize,
)
    requires same { length valid.now ≡ length values.now }
    requires width { W < 64 }
    requires room { start + 64 ≤ length values.now }
    requires bytes { 8 * W + 8 ≤ length buffer.old }
    ensures { packed_number 8 (take (8 * W) buffer.new) ≡ packed_number W (take 64 (drop start (kept_rows W (map (bits_in T.kind) (map T.whole values.now)) valid.now))) }
{
    let kept = are_kept::<T, W>(values, valid, start, start + 64);
    for unit in 0..8 {
        let first = W * unit;
        let out = &mut buffer[first..first + W + 8];
        write_either::<T, W>(out, values, valid, start + 8 * unit, kept);
    }
}
