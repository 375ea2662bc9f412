//! The distinct integers of statistics, as a list.

ghost use Rattle.std.specs.Prelude.{◌≡◌, ◌<◌, ◌^◌, IfSome, length, map};
ghost use Rattle.vx_values.specs.IntsOf.{ptype_of, wholes_of};
ghost use Rattle.vx_base.specs.Answers.{OrMemory};
ghost use Rattle.vx_stats.specs.Erased.{ptype_in, distinct_of};
ghost use Rattle.vx_stats.specs.Runs.{whole_counts};

use std::alloc::Global;
use vx_base::{IntList, Integer, VortexResult};
use vx_scheme::{ErasedStats, IntegerStats, TypedStats};
use vx_values::Ints;

// The values without their counts.
fn uncounted<T: Integer>(alloc: Global, counts: &[(T, u32)]) -> VortexResult<IntList<T>>
    ensures { OrMemory result (λ values. map T.whole values ≡ map (λ c. c.0) (whole_counts T.whole counts.now)) }
{
    let mut values = Vec::with_capacity(alloc, counts.len())?;
    for row in 0..counts.len() {
        let (value, _) = counts[row];
        values.push(value)?;
    }
    Ok(IntList::from_vec(values))
}

// The distinct values; an empty list where the statistics don't have them.
fn distinct_list<T: Integer>(alloc: Global, stats: &TypedStats<T>) -> VortexResult<IntList<T>>
    ensures { OrMemory result (λ values. IfSome stats.now.distinct (λ counts. map T.whole values ≡ map (λ c. c.0) counts)) }
{
    match stats.distinct() {
        Some(info) => uncounted(alloc, info.distinct_values().as_slice()),
        None => Ok(IntList::from_vec(Vec::new(alloc))),
    }
}

macro_rules! distinct_by_type {
    ($alloc:expr, $stats:expr; $($kind:ident),*) => {
        match $stats {
            $(ErasedStats::$kind(stats) => Ok(Ints::$kind(distinct_list($alloc, stats)?)),)*
        }
    };
}

// The distinct values of statistics of any integer type.
fn erased_ints(alloc: Global, stats: &ErasedStats) -> VortexResult<Ints>
    ensures ptype { OrMemory result (λ ints. ptype_of ints ≡ ptype_in stats.now) }
    ensures values { OrMemory result (λ ints. IfSome (distinct_of stats.now) (λ counts. wholes_of ints ≡ map (λ c. c.0) counts)) }
{
    distinct_by_type!(alloc, stats; U8, U16, U32, U64, I8, I16, I32, I64)
}

/// The distinct values, ascending, fewer than 2^32; an empty list where the statistics don't have them.
pub(crate) fn distinct_ints(alloc: Global, stats: &IntegerStats) -> VortexResult<Ints>
    ensures ptype { OrMemory result (λ ints. ptype_of ints ≡ stats.now.ptype) }
    ensures values { OrMemory result (λ ints. IfSome stats.now.distinct (λ counts. wholes_of ints ≡ map (λ c. c.0) counts)) }
    ensures few { OrMemory result (λ ints. IfSome stats.now.distinct (λ counts. length (wholes_of ints) < 2 ^ 32)) }
{
    let _count = stats.distinct_count();
    erased_ints(alloc, stats.erased())
}
