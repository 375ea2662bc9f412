//! The statistics of a slice of integers with its validity.

ghost use Rattle.std.specs.Prelude.{◌≡◌, ◌<◌, ◌/◌, ◌^◌, ◌≤ℤ◌, suc, ℤ, List, length, map, true};
ghost use Rattle.vx_base.specs.Answers.{Answers};
ghost use Rattle.vx_base.specs.PlainValue.{PlainValue, int};
ghost use Rattle.vx_model.specs.Refusals.{validity_length};
ghost use Rattle.vx_model.specs.Rows.{valid_rows};
ghost use Rattle.vx_stats.specs.Counts.{counts_of};
ghost use Rattle.vx_stats.specs.Stats.{valid_wholes, null_count, value_count, average_run_length, extremes_in, extremes_alone, typed_of};
ghost use Rattle.vx_stats.specs.Tally.{IsTallyOf};

use crate::integer::counting::distinct_info;
use crate::integer::tally::{Tally, tally_rows};
use crate::integer::typed::TypedStats;
use crate::options::GenerateStatsOptions;
use std::alloc::Global;
use vx_base::{Integer, Mask, VortexResult};

/// The row counts of statistics.
#[derive(Clone, Copy, Debug)]
pub(crate) struct RowCounts {
    pub(crate) null_count: u32,
    pub(crate) value_count: u32,
    pub(crate) average_run_length: u32,
}

// The numbers of null and of valid rows, of `len` rows.
fn count_rows(len: u32, valid: &Option<Mask>) -> (u32, u32)
    requires { validity_length valid.now len ≡ true }
    ensures { (zs : List ℤ) → length zs ≡ len → (result.0 ≡ null_count (valid_rows valid.now (map int zs))) × (result.1 ≡ value_count (valid_rows valid.now (map int zs))) }
{
    match valid {
        Some(mask) => {
            let value_count = mask.true_count() as u32;
            (len - value_count, value_count)
        }
        None => (0, len),
    }
}

// Values per run, rounded down: there is one run more than changes.
fn average(values: u32, changes: u32) -> u32
    ensures { result ≡ values / suc changes }
{
    (u64::from(values) / (u64::from(changes) + 1)) as u32
}

// The average run length and the extremes of `count` values.
fn shown<T: Integer>(count: u32, tally: Option<Tally<T>>) -> (u32, TypedStats<T>)
    ensures { (values : List PlainValue) → IsTallyOf T.whole T.kind (valid_wholes values) tally → count ≡ value_count values → (result.0 ≡ average_run_length values) × (result.1 ≡ extremes_alone (extremes_in T.kind values)) }
{
    match tally {
        Some(tally) => (
            average(count, tally.changes),
            TypedStats::new(tally.min, tally.max),
        ),
        None => (0, TypedStats::empty()),
    }
}

/// The row counts, and the extremes of the valid rows.
pub(crate) fn summary<T: Integer>(items: &[T], valid: &Option<Mask>) -> (RowCounts, TypedStats<T>)
    requires mask { validity_length valid.now (length items.now) ≡ true }
    requires few { length items.now < 2 ^ 32 }
    ensures counts { result.0 ≡ counts_of (valid_rows valid.now (map int (map T.whole items.now))) }
    ensures extremes { result.1 ≡ extremes_alone (extremes_in T.kind (valid_rows valid.now (map int (map T.whole items.now)))) }
    ensures ordered { 0 < result.0.value_count → result.1.extremes.least ≤ℤ result.1.extremes.greatest }
{
    let (null_count, value_count) = count_rows(items.len() as u32, valid);
    let (average_run_length, extremes) = shown(value_count, tally_rows(items, valid));
    let counts = RowCounts {
        null_count,
        value_count,
        average_run_length,
    };
    (counts, extremes)
}

/// The extremes of the valid rows, which are given, with the distinct values where they are requested. `run_length` is
/// the average length of a run of equal values.
pub(crate) fn with_distinct<T: Integer>(
    alloc: Global,
    items: &[T],
    valid: &Option<Mask>,
    opts: GenerateStatsOptions,
    extremes: &TypedStats<T>,
    run_length: u32,
) -> VortexResult<TypedStats<T>>
    requires mask { validity_length valid.now (length items.now) ≡ true }
    requires few { length items.now < 2 ^ 32 }
    requires extremes { extremes.now ≡ extremes_alone (extremes_in T.kind (valid_rows valid.now (map int (map T.whole items.now)))) }
    ensures { Answers result (typed_of opts T.kind (valid_rows valid.now (map int (map T.whole items.now)))) }
{
    let distinct = distinct_info(alloc, items, valid, opts, extremes.range(), run_length)?;
    Ok(extremes.with_distinct(distinct))
}
