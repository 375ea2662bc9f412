//! Counting of distinct integers, in the way that suits the column: by the lengths of runs where runs are long, in a
//! table where the range is narrow, else in hash slots, whose counts are sorted and merged. Where too few values repeat
//! for slots to help, the integers themselves are sorted.

ghost use Rattle.std.specs.Prelude.{◌≡◌, ◌<◌, ◌^◌, ℤ, length, map, true};
ghost use Rattle.std.specs.List.{All};
ghost use Rattle.std.specs.List.Sorted.{IsPermutation};
ghost use Rattle.vx_base.specs.Answers.{OrMemory, Answers};
ghost use Rattle.vx_base.specs.PlainValue.{int};
ghost use Rattle.vx_model.specs.Refusals.{validity_length};
ghost use Rattle.vx_model.specs.Rows.{valid_rows};
ghost use Rattle.vx_stats.specs.Runs.{IsRising, whole_counts};
ghost use Rattle.vx_stats.specs.Seen.{total, merged};
ghost use Rattle.vx_stats.specs.Stats.{valid_wholes, distinct_counts, distinct_info};
ghost use Rattle.vx_stats.specs.Tables.{LiesBetween};

use crate::integer::dense::dense_info;
use crate::integer::distinct::{Counts, DistinctInfo};
use crate::integer::range::Range;
use crate::integer::seen::{is_same, seen_of};
use crate::integer::sorting::{sorted_info, valid_runs};
use crate::options::GenerateStatsOptions;
use std::alloc::Global;
use vx_base::{Integer, Mask, VortexResult};

// From this average run length on, runs are counted in place of values. Runs are sorted, so they have to be few: at most
// a thirty-second of the values.
const LONG_RUNS: u32 = 32;

// The counts, sorted by their integers.
fn sorted<T: Integer>(mut counts: Vec<(T, u32)>) -> Vec<(T, u32)>
    ensures same { IsPermutation counts.items result.items }
    ensures rising { IsRising (map (λ c. c.0) (whole_counts T.whole result.items)) }
{
    counts.sort_unstable();
    counts
}

// Sums up the counts of adjacent equal integers.
fn merged<T: Integer>(alloc: Global, counts: &[(T, u32)]) -> VortexResult<Counts<T>>
    requires { (z : ℤ) → total T.whole counts.now z < 2 ^ 32 }
    ensures { OrMemory result (λ made. whole_counts T.whole made ≡ merged (whole_counts T.whole counts.now)) }
{
    let mut merged = Vec::new(alloc);
    if counts.is_empty() {
        return Ok(Counts::from_vec(merged));
    }
    let (mut value, mut count) = counts[0];
    for place in 1..counts.len() {
        let next = counts[place];
        if is_same(value, next.0) {
            count += next.1;
        } else {
            merged.push((value, count))?;
            (value, count) = next;
        }
    }
    merged.push((value, count))?;
    Ok(Counts::from_vec(merged))
}

// The distinct integers of the valid rows, ascending, with their counts: in hash slots, or sorted where too many integers
// share a slot.
fn counted_by_slots<T: Integer>(
    alloc: Global,
    items: &[T],
    valid: &Option<Mask>,
) -> VortexResult<DistinctInfo<T>>
    requires mask { validity_length valid.now (length items.now) ≡ true }
    requires few { length items.now < 2 ^ 32 }
    ensures { Answers result (distinct_counts (valid_rows valid.now (map int (map T.whole items.now)))) }
{
    let Some(seen) = seen_of(alloc, items, valid)? else {
        return sorted_info(alloc, items, valid);
    };
    let counts = sorted(seen.into_counts()?);
    Ok(DistinctInfo::new(merged(alloc, counts.as_slice())?))
}

// The distinct integers of the valid rows, ascending, with their counts: runs of equal ones, sorted and merged.
fn counted_by_runs<T: Integer>(
    alloc: Global,
    items: &[T],
    valid: &Option<Mask>,
) -> VortexResult<DistinctInfo<T>>
    requires mask { validity_length valid.now (length items.now) ≡ true }
    requires few { length items.now < 2 ^ 32 }
    ensures { Answers result (distinct_counts (valid_rows valid.now (map int (map T.whole items.now)))) }
{
    let runs = valid_runs(alloc, items, valid)?;
    let counts = sorted(runs.into_vec());
    Ok(DistinctInfo::new(merged(alloc, counts.as_slice())?))
}

/// The distinct integers of the valid rows with their counts, where they are requested and there is a row. `run_length`
/// is the average length of a run of equal integers, and `range` goes from the least valid integer to the greatest: where
/// it has no more numbers than there are rows, a table counts them.
pub(crate) fn distinct_info<T: Integer>(
    alloc: Global,
    items: &[T],
    valid: &Option<Mask>,
    opts: GenerateStatsOptions,
    range: Range<T>,
    run_length: u32,
) -> VortexResult<Option<DistinctInfo<T>>>
    requires mask { validity_length valid.now (length items.now) ≡ true }
    requires few { length items.now < 2 ^ 32 }
    requires within { All (LiesBetween (T.whole range.least) (T.whole range.greatest)) (valid_wholes (valid_rows valid.now (map int (map T.whole items.now)))) }
    ensures { Answers result (distinct_info opts (valid_rows valid.now (map int (map T.whole items.now)))) }
{
    if !opts.count_distinct_values || items.is_empty() {
        return Ok(None);
    }
    if run_length >= LONG_RUNS {
        let info = counted_by_runs(alloc, items, valid)?;
        return Ok(Some(info));
    }
    if let Some(len) = range.len_within(items.len()) {
        let info = dense_info(alloc, items, valid, range, len)?;
        return Ok(Some(info));
    }
    let info = counted_by_slots(alloc, items, valid)?;
    Ok(Some(info))
}
