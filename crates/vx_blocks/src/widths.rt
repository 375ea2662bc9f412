//! Histograms of rows by bit width, and the cheapest width.

ghost use Rattle.std.specs.Prelude.{◌≡◌, ◌<◌, ◌≤◌, ◌+◌, ◌-◌, ◌/◌, ◌^◌, ◌++◌, ◌∷◌, [], ℕ, List, length, map, sum, take, drop, true, replicate};
ghost use Rattle.vx_base.specs.Answers.{OrMemory};
ghost use Rattle.vx_base.specs.Integers.{bits_in, bits_of, bytes_of};
ghost use Rattle.vx_base.specs.Packed.{kept_row, kept_rows};
ghost use Rattle.vx_blocks.specs.Cost.{IsBest, cost};
ghost use Rattle.vx_blocks.specs.Histogram.{AreByZeros, IsHistogram};
ghost use Rattle.vx_blocks.specs.InBlocks.{IsBestOf};

use std::alloc::Global;
use vx_base::{Integer, Mask, PType, VortexResult};

// Counts a row by its leading zeros. A null adds 0, so that there is no branch.
#[inline(always)]
fn count_row<T: Integer>(counts: &mut [u64; 65], value: T, valid: bool)
    requires { sum counts.old < 2 ^ 64 - 1 }
    ensures { (rows : List ℕ) → AreByZeros (bits_of T.kind) rows counts.old → AreByZeros (bits_of T.kind) (rows ++ kept_row 64 (bits_in T.kind (T.whole value)) valid ∷ []) counts.new }
{
    counts[value.to_bits().leading_zeros() as usize] += valid as u64;
}

// The sum of the counts.
pub(crate) fn total(counts: &[u64]) -> u64
    requires { sum counts.now < 2 ^ 64 }
    ensures { result ≡ sum counts.now }
{
    counts.iter().sum()
}

// The histogram by digits, as the first `width + 1` entries, from two tables by leading zeros.
fn digit_counts(first: &[u64; 65], second: &[u64; 65], width: usize, rows: u64) -> [u64; 65]
    requires width { width ≤ 64 }
    requires most { sum first.now + sum second.now ≤ rows }
    ensures { (front back : List ℕ) → AreByZeros width front first.now → AreByZeros width back second.now → length front + length back ≡ rows → IsHistogram width (front ++ back) (take (width + 1) result) }
{
    let mut counts = [0u64; 65];
    for w in 0..width + 1 {
        counts[w] = first[64 - w] + second[64 - w];
    }
    // The rows that aren't counted are null.
    counts[0] += rows - total(&counts);
    counts
}

// `digit_counts` as a vector.
fn by_digits(
    alloc: Global,
    first: &[u64; 65],
    second: &[u64; 65],
    width: usize,
    rows: u64,
) -> VortexResult<Vec<u64>>
    requires width { width ≤ 64 }
    requires most { sum first.now + sum second.now ≤ rows }
    ensures { OrMemory result (λ counts. (front back : List ℕ) → AreByZeros width front first.now → AreByZeros width back second.now → length front + length back ≡ rows → IsHistogram width (front ++ back) counts.items) }
{
    let counts = digit_counts(first, second, width, rows);
    Ok(Vec::from_slice(alloc, &counts[..width + 1])?)
}

// Counts the rows into two empty tables, one for each half, so that a row doesn't wait for the count of the row before it.
#[inline(always)]
fn count_halves<T: Integer>(
    first: &mut [u64; 65],
    second: &mut [u64; 65],
    values: &[T],
    valid: &[bool],
)
    requires same { length valid.now ≡ length values.now }
    requires first { AreByZeros (bits_of T.kind) [] first.old }
    requires second { AreByZeros (bits_of T.kind) [] second.old }
    ensures most { sum first.new + sum second.new ≤ length values.now }
    ensures first { AreByZeros (bits_of T.kind) (take (length values.now - length values.now / 2) (kept_rows 64 (map (bits_in T.kind) (map T.whole values.now)) valid.now)) first.new }
    ensures second { AreByZeros (bits_of T.kind) (drop (length values.now - length values.now / 2) (kept_rows 64 (map (bits_in T.kind) (map T.whole values.now)) valid.now)) second.new }
{
    let half = values.len() / 2;
    let start = values.len() - half;
    for i in 0..half {
        count_row(first, values[i], valid[i]);
        count_row(second, values[start + i], valid[start + i]);
    }
    // The row in the middle, if there is one.
    for i in half..start {
        count_row(first, values[i], valid[i]);
    }
}

fn count_widths<T: Integer>(alloc: Global, values: &[T], valid: &[bool]) -> VortexResult<Vec<u64>>
    requires { length valid.now ≡ length values.now }
    ensures total { OrMemory result (λ counts. sum counts.items ≡ length values.now) }
    ensures widths { OrMemory result (λ counts. IsHistogram (bits_of T.kind) (kept_rows 64 (map (bits_in T.kind) (map T.whole values.now)) valid.now) counts.items) }
{
    let mut first = [0u64; 65];
    let mut second = [0u64; 65];
    count_halves(&mut first, &mut second, values, valid);
    let width = T::ptype().bit_width() as usize;
    let counts = by_digits(alloc, &first, &second, width, values.len() as u64)?;
    Ok(counts)
}

// The best width of some rows, which needs no allocation.
pub(crate) fn best_width_of<T: Integer>(values: &[T], valid: &[bool]) -> u32
    requires same { length valid.now ≡ length values.now }
    requires few { length values.now ≤ 2 ^ 32 }
    ensures { IsBestOf T.kind (kept_rows 64 (map (bits_in T.kind) (map T.whole values.now)) valid.now) result }
{
    let mut first = [0u64; 65];
    let mut second = [0u64; 65];
    count_halves(&mut first, &mut second, values, valid);
    let ptype = T::ptype();
    let width = ptype.bit_width() as usize;
    let counts = digit_counts(&first, &second, width, values.len() as u64);
    best_width(&counts[..width + 1], ptype)
}

// `count_widths` of rows without null.
fn count_all_widths<T: Integer>(alloc: Global, values: &[T]) -> VortexResult<Vec<u64>>
    ensures total { OrMemory result (λ counts. sum counts.items ≡ length values.now) }
    ensures widths { OrMemory result (λ counts. IsHistogram (bits_of T.kind) (kept_rows 64 (map (bits_in T.kind) (map T.whole values.now)) (replicate (length values.now) true)) counts.items) }
{
    let half = values.len() / 2;
    let start = values.len() - half;
    let mut first = [0u64; 65];
    let mut second = [0u64; 65];
    for i in 0..half {
        count_row(&mut first, values[i], true);
        count_row(&mut second, values[start + i], true);
    }
    for i in half..start {
        count_row(&mut first, values[i], true);
    }
    let width = T::ptype().bit_width() as usize;
    let counts = by_digits(alloc, &first, &second, width, values.len() as u64)?;
    Ok(counts)
}

/// The number of rows of exactly w binary digits, as entry w, for w from 0 to the type's bits. A null has 0 digits, a negative
/// number those of its two's complement. `valid` has a truth value per row.
pub fn bit_width_histogram<T: Integer>(
    alloc: Global,
    values: &[T],
    valid: &Mask,
) -> VortexResult<Vec<u64>>
    requires { length valid.now ≡ length values.now }
    ensures total { OrMemory result (λ counts. sum counts.items ≡ length values.now) }
    ensures widths { OrMemory result (λ counts. IsHistogram (bits_of T.kind) (kept_rows 64 (map (bits_in T.kind) (map T.whole values.now)) valid.now) counts.items) }
{
    count_widths(alloc, values, valid.as_slice())
}

/// `bit_width_histogram` of rows without null, for which no mask is read.
pub fn bit_widths_of_all<T: Integer>(alloc: Global, values: &[T]) -> VortexResult<Vec<u64>>
    ensures total { OrMemory result (λ counts. sum counts.items ≡ length values.now) }
    ensures widths { OrMemory result (λ counts. IsHistogram (bits_of T.kind) (kept_rows 64 (map (bits_in T.kind) (map T.whole values.now)) (replicate (length values.now) true)) counts.items) }
{
    count_all_widths(alloc, values)
}

/// The narrowest of the cheapest widths, from 0 bits to the type's. A width costs the bytes of the packed rows, and for each row
/// that doesn't fit the bytes of a value and 4 of a patch index. Entry w of `histogram` is the number of rows of exactly w
/// digits; there are at most 2^32 rows.
pub fn best_width(histogram: &[u64], ptype: PType) -> u32
    requires size { length histogram.now ≡ bits_of ptype + 1 }
    requires room { sum histogram.now ≤ 2 ^ 32 }
    ensures { IsBest (cost histogram.now (bytes_of ptype)) (bits_of ptype) result }
{
    let greatest = ptype.bit_width();
    let each = ptype.byte_width() + 4;
    let rows = total(histogram);
    let mut wider = rows - histogram[0];
    let mut best = 0;
    let mut least = wider * each;
    for width in 1..greatest + 1 {
        wider -= histogram[width as usize];
        let cost = (width as u64 * rows).div_ceil(8) + wider * each;
        if cost < least {
            best = width;
            least = cost;
        }
    }
    best
}
