//! Counting of distinct integers by sorting, where most of them are rare: the counts are the lengths of the sorted runs.

ghost use Rattle.std.specs.Prelude.{◌≡◌, ◌<◌, ◌≤◌, ◌^◌, length, map, true, vec_len};
ghost use Rattle.std.specs.List.Sorted.{IsPermutation};
ghost use Rattle.vx_base.specs.Answers.{OrMemory, Answers};
ghost use Rattle.vx_base.specs.PlainValue.{int};
ghost use Rattle.vx_model.specs.Refusals.{validity_length};
ghost use Rattle.vx_model.specs.Rows.{masked_rows, valid_rows};
ghost use Rattle.vx_stats.specs.Distinct.{value_counts};
ghost use Rattle.vx_stats.specs.Runs.{IsRising, runs, whole_counts};
ghost use Rattle.vx_stats.specs.Stats.{valid_wholes, distinct_counts};

use crate::integer::distinct::{Counts, DistinctInfo};
use crate::integer::seen::is_same;
use std::alloc::Global;
use vx_base::{Integer, Mask, VortexResult};

// The integers whose bit is true.
fn masked_items<T: Integer>(alloc: Global, items: &[T], bits: &[bool]) -> VortexResult<Vec<T>>
    requires { length bits.now ≡ length items.now }
    ensures kept { OrMemory result (λ kept. map T.whole kept.items ≡ valid_wholes (masked_rows bits.now (map int (map T.whole items.now)))) }
    ensures few { OrMemory result (λ kept. vec_len kept ≤ length items.now) }
{
    let mut kept = Vec::with_capacity(alloc, items.len())?;
    for row in 0..items.len() {
        let item = items[row];
        if bits[row] {
            kept.push(item)?;
        }
    }
    Ok(kept)
}

// The integers of the valid rows.
fn valid_items<T: Integer>(alloc: Global, items: &[T], valid: &Option<Mask>) -> VortexResult<Vec<T>>
    requires { validity_length valid.now (length items.now) ≡ true }
    ensures kept { OrMemory result (λ kept. map T.whole kept.items ≡ valid_wholes (valid_rows valid.now (map int (map T.whole items.now)))) }
    ensures few { OrMemory result (λ kept. vec_len kept ≤ length items.now) }
{
    match valid {
        Some(mask) => masked_items(alloc, items, mask.as_slice()),
        None => Ok(Vec::from_slice(alloc, items)?),
    }
}

// Sorts the integers.
fn sorted<T: Integer>(mut items: Vec<T>) -> Vec<T>
    ensures same { IsPermutation items.items result.items }
    ensures len { vec_len result ≡ vec_len items }
    ensures rising { IsRising (map T.whole result.items) }
{
    items.sort_unstable();
    items
}

// The runs of equal integers with their lengths.
fn run_lengths<T: Integer>(alloc: Global, items: &[T]) -> VortexResult<Counts<T>>
    requires { length items.now < 2 ^ 32 }
    ensures runs { OrMemory result (λ counts. whole_counts T.whole counts ≡ runs (map T.whole items.now)) }
    ensures few { OrMemory result (λ counts. length counts ≤ length items.now) }
{
    let mut counts = Vec::new(alloc);
    if items.is_empty() {
        return Ok(Counts::from_vec(counts));
    }
    let (mut value, mut count) = (items[0], 1);
    for row in 1..items.len() {
        let item = items[row];
        if is_same(value, item) {
            count += 1;
        } else {
            counts.push((value, count))?;
            (value, count) = (item, 1);
        }
    }
    counts.push((value, count))?;
    Ok(Counts::from_vec(counts))
}

/// The runs of equal integers of the valid rows with their lengths, in the order of the rows.
pub(crate) fn valid_runs<T: Integer>(
    alloc: Global,
    items: &[T],
    valid: &Option<Mask>,
) -> VortexResult<Counts<T>>
    requires mask { validity_length valid.now (length items.now) ≡ true }
    requires few { length items.now < 2 ^ 32 }
    ensures { OrMemory result (λ counts. whole_counts T.whole counts ≡ runs (valid_wholes (valid_rows valid.now (map int (map T.whole items.now))))) }
{
    match valid {
        Some(mask) => {
            let kept = masked_items(alloc, items, mask.as_slice())?;
            run_lengths(alloc, kept.as_slice())
        }
        None => run_lengths(alloc, items),
    }
}

// The distinct integers, ascending, with their counts.
fn value_counts<T: Integer>(alloc: Global, items: Vec<T>) -> VortexResult<DistinctInfo<T>>
    requires { vec_len items < 2 ^ 32 }
    ensures { Answers result (value_counts (map T.whole items.items)) }
{
    let sorted = sorted(items);
    Ok(DistinctInfo::new(run_lengths(alloc, sorted.as_slice())?))
}

/// The distinct integers of the valid rows, ascending, with their counts.
pub(crate) fn sorted_info<T: Integer>(
    alloc: Global,
    items: &[T],
    valid: &Option<Mask>,
) -> VortexResult<DistinctInfo<T>>
    requires mask { validity_length valid.now (length items.now) ≡ true }
    requires few { length items.now < 2 ^ 32 }
    ensures { Answers result (distinct_counts (valid_rows valid.now (map int (map T.whole items.now)))) }
{
    value_counts(alloc, valid_items(alloc, items, valid)?)
}
