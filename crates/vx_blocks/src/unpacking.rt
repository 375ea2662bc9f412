//! Bit unpacking.

ghost use Rattle.std.specs.Prelude.{◌≡◌, ◌<◌, ◌≤◌, ◌+◌, ◌*◌, ◌/◌, ◌%◌, ℕ, pos, length, map, IfOk, IfSome};
ghost use Rattle.vx_base.specs.Answers.{OrMemory};
ghost use Rattle.vx_base.specs.Integers.{natural_bits};
ghost use Rattle.vx_base.specs.Packed.{packed_size};
ghost use Rattle.vx_base.specs.Wrapping.{wrap};
ghost use Rattle.vx_blocks.specs.Appended.{AppendsRows};
ghost use Rattle.vx_blocks.specs.IsPacked.{IsUnpacked, IsUnpackedAs};

use crate::reading::{get, read_eights};
use std::alloc::{AllocError, Global};
use vx_base::{Integer, VortexResult};

// Appends the rows `start` to `end - 1`, read one by one, each wrapped into the type. It isn't inlined, since the bodies of
// all 64 widths call it.
#[inline(never)]
fn read_each<T: Integer>(
    rows: &mut Vec<T>,
    packed: &[u8],
    width: u32,
    start: u64,
    end: u64,
) -> Result<(), AllocError>
    requires width { width ≤ 64 }
    requires order { start ≤ end }
    requires room { start < end → packed_size width end ≤ length packed.now }
    ensures { IfOk result (λ _. AppendsRows (λ n. wrap T.kind (pos n)) packed.now width start end (map T.whole rows.old.items) (map T.whole rows.new.items)) }
{
    for row in start..end {
        rows.push(T::from_low_bits(get(packed, width, row)))?;
    }
    Ok(())
}

// The range of eights (rows 8e to 8e + 7) that lie in `start..end` and may be read by whole words, which takes 8 bytes behind
// them. None where it is empty.
fn eights_within(bytes: usize, width: usize, start: u64, end: u64) -> Option<(usize, usize)>
    requires { 0 < width }
    ensures first { IfSome result (λ range. start ≤ 8 * range.0) }
    ensures order { IfSome result (λ range. range.0 < range.1) }
    ensures last { IfSome result (λ range. 8 * range.1 ≤ end) }
    ensures room { IfSome result (λ range. range.1 * width + 8 ≤ bytes) }
{
    let first = start.div_ceil(8) as usize;
    let last = ((end / 8) as usize).min(bytes.saturating_sub(8) / width);
    if first < last {
        Some((first, last))
    } else {
        None
    }
}

// Appends some eights, read by whole words.
fn read_part<T: Integer, const W: usize>(
    rows: &mut Vec<T>,
    packed: &[u8],
    eight: usize,
    eights: usize,
) -> Result<(), AllocError>
    requires some { 0 < W }
    requires width { W ≤ 64 }
    requires few { eights ≤ 32 }
    requires room { (eight + eights) * W + 8 ≤ length packed.now }
    ensures { IfOk result (λ _. AppendsRows (λ n. wrap T.kind (pos n)) packed.now W (8 * eight) (8 * (eight + eights)) (map T.whole rows.old.items) (map T.whole rows.new.items)) }
{
    let len = rows.len();
    rows.resize(len + 8 * eights, T::zero())?;
    read_eights::<T, W>(packed, eight, rows.slice_mut(len..));
    Ok(())
}

// Appends the eights `first` to `last - 1`, a part at a time, so that what `resize` writes is still in the cache when it is
// written over.
fn read_whole<T: Integer, const W: usize>(
    rows: &mut Vec<T>,
    packed: &[u8],
    first: usize,
    last: usize,
) -> Result<(), AllocError>
    requires some { 0 < W }
    requires width { W ≤ 64 }
    requires order { first ≤ last }
    requires room { last * W + 8 ≤ length packed.now }
    ensures { IfOk result (λ _. AppendsRows (λ n. wrap T.kind (pos n)) packed.now W (8 * first) (8 * last) (map T.whole rows.old.items) (map T.whole rows.new.items)) }
{
    for part in 0..(last - first).div_ceil(32) {
        let eight = first + 32 * part;
        read_part::<T, W>(rows, packed, eight, (last - eight).min(32))?;
    }
    Ok(())
}

// Appends the rows `start` to `end - 1` at a width that is known at compile time.
fn read_by<T: Integer, const W: usize>(
    rows: &mut Vec<T>,
    packed: &[u8],
    start: u64,
    end: u64,
) -> Result<(), AllocError>
    requires some { 0 < W }
    requires width { W ≤ 64 }
    requires order { start ≤ end }
    requires room { start < end → packed_size W end ≤ length packed.now }
    ensures { IfOk result (λ _. AppendsRows (λ n. wrap T.kind (pos n)) packed.now W start end (map T.whole rows.old.items) (map T.whole rows.new.items)) }
{
    let Some((first, last)) = eights_within(packed.len(), W, start, end) else {
        return read_each(rows, packed, W as u32, start, end);
    };
    read_each(rows, packed, W as u32, start, 8 * first as u64)?;
    read_whole::<T, W>(rows, packed, first, last)?;
    read_each(rows, packed, W as u32, 8 * last as u64, end)?;
    Ok(())
}

// A copy of `read_by` for each width from 1 to 64.
macro_rules! by_width {
    ($rows:ident, $packed:ident, $width:ident, $start:ident, $end:ident; $($w:literal),*) => {
        match $width {
            $($w => read_by::<T, $w>($rows, $packed, $start, $end),)*
            _ => read_each($rows, $packed, $width, $start, $end),
        }
    };
}

/// Appends the rows `start` to `end - 1`, each wrapped into the type.
pub(crate) fn read_rows<T: Integer>(
    rows: &mut Vec<T>,
    packed: &[u8],
    width: u32,
    start: u64,
    end: u64,
) -> Result<(), AllocError>
    requires width { width ≤ 64 }
    requires order { start ≤ end }
    requires room { start < end → packed_size width end ≤ length packed.now }
    ensures { IfOk result (λ _. AppendsRows (λ n. wrap T.kind (pos n)) packed.now width start end (map T.whole rows.old.items) (map T.whole rows.new.items)) }
{
    by_width!(rows, packed, width, start, end; 1, 2, 3, 4, 5, 6, 7, 8, 9, 10, 11, 12, 13, 14, 15, 16, 17, 18, 19, 20, 21, 22, 23, 24, 25, 26, 27, 28, 29, 30, 31, 32, 33, 34, 35, 36, 37, 38, 39, 40, 41, 42, 43, 44, 45, 46, 47, 48, 49, 50, 51, 52, 53, 54, 55, 56, 57, 58, 59, 60, 61, 62, 63, 64)
}

// The rows `start` to `end - 1`, each wrapped into the type.
fn unpack_wrapped<T: Integer>(
    alloc: Global,
    packed: &[u8],
    width: u32,
    start: u64,
    end: u64,
) -> VortexResult<Vec<T>>
    requires width { width ≤ 64 }
    requires order { start ≤ end }
    requires room { start < end → packed_size width end ≤ length packed.now }
    ensures { OrMemory result (λ rows. IsUnpackedAs (λ n. wrap T.kind (pos n)) packed.now width start end (map T.whole rows.items)) }
{
    let mut rows = Vec::with_capacity(alloc, (end - start) as usize)?;
    read_rows(&mut rows, packed, width, start, end)?;
    Ok(rows)
}

/// The rows `start` to `end - 1`, each as `get` reads it. `width` is in bits, at most 64, and the blocks of the rows are in
/// bounds of `packed`.
pub fn unpack(
    alloc: Global,
    packed: &[u8],
    width: u32,
    start: u64,
    end: u64,
) -> VortexResult<Vec<u64>>
    requires width { width ≤ 64 }
    requires order { start ≤ end }
    requires blocks { start < end → packed_size width end ≤ length packed.now }
    ensures { OrMemory result (λ rows. IsUnpacked packed.now width start end rows.items) }
{
    let rows = unpack_wrapped::<u64>(alloc, packed, width, start, end)?;
    Ok(rows)
}

/// The rows `start` to `end - 1` as integers of a type. `width` is in bits, at most those of the type's greatest value, so that
/// each row is a value of the type.
#[tactic(auto, using(crate::proofs::RowsRead::naturals_read))]
pub fn unpack_integers<T: Integer>(
    alloc: Global,
    packed: &[u8],
    width: u32,
    start: u64,
    end: u64,
) -> VortexResult<Vec<T>>
    requires width { width ≤ natural_bits T.kind }
    requires order { start ≤ end }
    requires blocks { start < end → packed_size width end ≤ length packed.now }
    ensures { OrMemory result (λ rows. IsUnpackedAs pos packed.now width start end (map T.whole rows.items)) }
{
    let rows = unpack_wrapped::<T>(alloc, packed, width, start, end)?;
    Ok(rows)
}
