//! The parts of statistics over integers of any type: each call chooses its generic function by the type.

ghost use Rattle.std.specs.Prelude.{◌≡◌, ◌<◌, ◌≤◌, ◌^◌, ◌≤ℤ◌, length, map, true, IfSome};
ghost use Rattle.vx_values.specs.IntsOf.{ptype_of, wholes_of};
ghost use Rattle.vx_base.specs.Answers.{OrMemory};
ghost use Rattle.vx_base.specs.PlainValue.{int};
ghost use Rattle.vx_model.specs.Refusals.{validity_length};
ghost use Rattle.vx_model.specs.Rows.{valid_rows};
ghost use Rattle.vx_stats.specs.Counts.{counts_of};
ghost use Rattle.vx_stats.specs.Erased.{ptype_in, typed_of, extremes_of};
ghost use Rattle.vx_stats.specs.Stats.{distinct_count, extremes_in, extremes_alone};
ghost use Rattle.vx_stats.specs.Stats as stats;

use crate::integer::counts::{RowCounts, summary, with_distinct};
use crate::integer::erased::ErasedStats;
use crate::integer::rising::rising_runs;
use crate::integer::slots::distinct_lower_bound;
use crate::options::GenerateStatsOptions;
use std::alloc::Global;
use vx_base::{Mask, VortexResult};
use vx_values::Ints;

macro_rules! summary_by_type {
    ($values:expr, $valid:expr; $($kind:ident),*) => {
        match $values {
            $(Ints::$kind(items) => {
                let (counts, extremes) = summary(items.as_slice(), $valid);
                (counts, ErasedStats::from(extremes))
            })*
        }
    };
}

/// The row counts, and the extremes of the valid rows.
pub(crate) fn summary_of(values: &Ints, valid: &Option<Mask>) -> (RowCounts, ErasedStats)
    requires mask { validity_length valid.now (length (wholes_of values.now)) ≡ true }
    requires few { length (wholes_of values.now) < 2 ^ 32 }
    ensures counts { result.0 ≡ counts_of (valid_rows valid.now (map int (wholes_of values.now))) }
    ensures kind { ptype_in result.1 ≡ ptype_of values.now }
    ensures extremes { typed_of result.1 ≡ extremes_alone (extremes_in (ptype_of values.now) (valid_rows valid.now (map int (wholes_of values.now)))) }
    ensures ordered { 0 < result.0.value_count → (extremes_of result.1).least ≤ℤ (extremes_of result.1).greatest }
{
    summary_by_type!(values, valid; U8, U16, U32, U64, I8, I16, I32, I64)
}

macro_rules! completed_by_type {
    ($alloc:expr, $erased:expr, $values:expr, $valid:expr, $opts:expr, $run_length:expr; $($kind:ident),*) => {
        match $values {
            $(Ints::$kind(items) => match $erased {
                ErasedStats::$kind(extremes) => {
                    let items = items.as_slice();
                    let typed = with_distinct($alloc, items, $valid, $opts, extremes, $run_length)?;
                    Ok(ErasedStats::$kind(typed))
                }
                _ => unreachable!(),
            })*
        }
    };
}

/// The extremes of the valid rows, which are given, with the distinct values where they are requested. `run_length` is
/// the average length of a run of equal values.
pub(crate) fn completed(
    alloc: Global,
    erased: &ErasedStats,
    values: &Ints,
    valid: &Option<Mask>,
    opts: GenerateStatsOptions,
    run_length: u32,
) -> VortexResult<ErasedStats>
    requires mask { validity_length valid.now (length (wholes_of values.now)) ≡ true }
    requires few { length (wholes_of values.now) < 2 ^ 32 }
    requires kind { ptype_in erased.now ≡ ptype_of values.now }
    requires extremes { typed_of erased.now ≡ extremes_alone (extremes_in (ptype_of values.now) (valid_rows valid.now (map int (wholes_of values.now)))) }
    ensures kind { OrMemory result (λ erased. ptype_in erased ≡ ptype_of values.now) }
    ensures typed { OrMemory result (λ erased. typed_of erased ≡ stats.typed_of opts (ptype_of values.now) (valid_rows valid.now (map int (wholes_of values.now)))) }
{
    completed_by_type!(alloc, erased, values, valid, opts, run_length; U8, U16, U32, U64, I8, I16, I32, I64)
}

macro_rules! lower_bound_by_type {
    ($alloc:expr, $values:expr, $valid:expr, $enough:expr; $($kind:ident),*) => {
        match $values {
            $(Ints::$kind(items) => distinct_lower_bound($alloc, items.as_slice(), $valid, $enough),)*
        }
    };
}

/// A lower bound on the distinct count of the valid rows; stops above `enough`.
pub(crate) fn distinct_lower_bound_of(
    alloc: Global,
    values: &Ints,
    valid: &Option<Mask>,
    enough: usize,
) -> VortexResult<usize>
    requires mask { validity_length valid.now (length (wholes_of values.now)) ≡ true }
    requires few { length (wholes_of values.now) < 2 ^ 32 }
    ensures { OrMemory result (λ count. count ≤ distinct_count (valid_rows valid.now (map int (wholes_of values.now)))) }
{
    lower_bound_by_type!(alloc, values, valid, enough; U8, U16, U32, U64, I8, I16, I32, I64)
}

macro_rules! rising_runs_by_type {
    ($values:expr, $valid:expr; $($kind:ident),*) => {
        match $values {
            $(Ints::$kind(items) => rising_runs(items.as_slice(), $valid),)*
        }
    };
}

/// The distinct count of values without nulls that never fall; None of any others.
pub(crate) fn rising_runs_of(values: &Ints, valid: &Option<Mask>) -> Option<u32>
    requires { length (wholes_of values.now) < 2 ^ 32 }
    ensures { IfSome result (λ runs. runs ≡ distinct_count (valid_rows valid.now (map int (wholes_of values.now)))) }
{
    rising_runs_by_type!(values, valid; U8, U16, U32, U64, I8, I16, I32, I64)
}
