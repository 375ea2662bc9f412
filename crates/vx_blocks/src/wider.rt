//! The rows that don't fit a width.

ghost use Rattle.std.specs.Prelude.{◌≡◌, ◌<◌, ◌≤◌, ◌^◌, ℕ, length, map, filter, slice_index, slice_index_or, false};
ghost use Rattle.std.specs.List.{range_with_len};
ghost use Rattle.vx_base.specs.Answers.{OrMemory};
ghost use Rattle.vx_base.specs.Integers.{bits_in, bits_of};
ghost use Rattle.vx_base.specs.Packed.{is_wide, wide_rows};

use crate::groups::GROUP_ROWS;
use std::alloc::Global;
use vx_base::{Integer, Mask, VortexResult};

#[inline(always)]
#[tactic(auto, using(crate::proofs::WideRows::wide_tests))]
fn is_wide(bits: u64, valid: bool, width: u32) -> bool
    requires { width ≤ 64 }
    ensures { result ≡ is_wide width bits valid }
{
    if valid && width < 64 {
        bits >> width != 0
    } else {
        false
    }
}

// False only where all rows `start` to `end - 1` fit the width, null or not: one branch for the `|` of their bits.
#[inline(always)]
fn may_be_wide<T: Integer>(values: &[T], width: u32, start: usize, end: usize) -> bool
    requires within { width ≤ 64 }
    requires order { start ≤ end }
    requires room { end ≤ length values.now }
    ensures { result ≡ false → (k : ℕ) → start ≤ k → k < end → slice_index (map (bits_in T.kind) (map T.whole values.now)) k < 2 ^ width }
{
    let mut bits = 0;
    for i in start..end {
        bits |= values[i].to_bits();
    }
    is_wide(bits, true, width)
}

// Appends the numbers of the rows `start` to `end - 1` that are valid and don't fit the width.
fn push_wide<T: Integer>(
    rows: &mut Vec<u64>,
    values: &[T],
    valid: &[bool],
    width: u32,
    start: usize,
    end: usize,
) -> VortexResult<()>
    requires within { width ≤ 64 }
    requires same { length valid.now ≡ length values.now }
    requires order { start ≤ end }
    requires room { end ≤ length values.now }
    requires before { rows.old.items ≡ filter (λ i. is_wide width (slice_index_or (map (bits_in T.kind) (map T.whole values.now)) i 0) (slice_index_or valid.now i false)) (range_with_len 0 start) }
    ensures { OrMemory result (λ _. rows.new.items ≡ filter (λ i. is_wide width (slice_index_or (map (bits_in T.kind) (map T.whole values.now)) i 0) (slice_index_or valid.now i false)) (range_with_len 0 end)) }
{
    for i in start..end {
        if is_wide(values[i].to_bits(), valid[i], width) {
            rows.push(i as u64)?;
        }
    }
    Ok(())
}

fn wide_rows_of<T: Integer>(
    alloc: Global,
    values: &[T],
    valid: &[bool],
    width: u32,
) -> VortexResult<Vec<u64>>
    requires same { length valid.now ≡ length values.now }
    requires within { width ≤ 64 }
    ensures { OrMemory result (λ rows. rows.items ≡ wide_rows width (map (bits_in T.kind) (map T.whole values.now)) valid.now) }
{
    let mut rows = Vec::new(alloc);
    let groups = values.len() / GROUP_ROWS;
    for group in 0..groups {
        let start = GROUP_ROWS * group;
        if may_be_wide(values, width, start, start + GROUP_ROWS) {
            push_wide(&mut rows, values, valid, width, start, start + GROUP_ROWS)?;
        }
    }
    push_wide(
        &mut rows,
        values,
        valid,
        width,
        GROUP_ROWS * groups,
        values.len(),
    )?;
    Ok(rows)
}

/// The numbers of the rows that are valid and don't fit `width` bits, ascending: those that `pack` writes as 0, so that they
/// become patches. Negative numbers are as wide as their two's complement. `valid` has a truth value per row.
pub fn wide_rows<T: Integer>(
    alloc: Global,
    values: &[T],
    valid: &Mask,
    width: u32,
) -> VortexResult<Vec<u64>>
    requires same { length valid.now ≡ length values.now }
    requires within { width ≤ bits_of T.kind }
    ensures { OrMemory result (λ rows. rows.items ≡ wide_rows width (map (bits_in T.kind) (map T.whole values.now)) valid.now) }
{
    wide_rows_of(alloc, values, valid.as_slice(), width)
}
