//! Statistics of columns of integers.

ghost use Rattle.std.specs.Prelude.{◌≡◌, ◌<◌, ◌≤ℤ◌, length, option_map};
ghost use Rattle.vx_stats.specs.Frequent.{frequent_value};

mod by_type;
mod counting;
mod counts;
mod dense;
mod distinct;
mod erased;
mod generating;
mod range;
mod rising;
mod seen;
mod slots;
mod sorting;
mod tally;
mod typed;
mod value;

use counts::RowCounts;
pub use distinct::{Counts, DistinctInfo, laws_of_distinct};
pub use erased::ErasedStats;
use std::marker::Model;
pub use typed::TypedStats;
pub use value::PValue;

/// Statistics of a column of integers. Contracts see them as plain data.
#[derive(Debug, Drop)]
pub struct IntegerStats {
    counts: RowCounts,
    erased: ErasedStats,
}

impl Model for IntegerStats {
    ghost use Rattle.std.specs.Prelude.{◌<◌, ◌≤ℤ◌};
    ghost use Rattle.vx_stats.specs.Stats.{PlainStats};

    ghost Value = { PlainStats };

    ghost use Rattle.vx_stats.specs.Erased.{ptype_in, extremes_of, distinct_of};

    ghost view = { λ a. record { ptype = ptype_in a.erased; null_count = a.counts.null_count; value_count = a.counts.value_count; average_run_length = a.counts.average_run_length; extremes = extremes_of a.erased; distinct = distinct_of a.erased } };

    ghost invariant = { λ a. 0 < a.counts.value_count → (extremes_of a.erased).least ≤ℤ (extremes_of a.erased).greatest };
}

impl IntegerStats {
    ghost use Rattle.vx_stats.specs.Erased.{ptype_in, extremes_of, distinct_of};

    fn new(counts: RowCounts, erased: ErasedStats) -> Self
        requires { 0 < counts.value_count → (extremes_of erased).least ≤ℤ (extremes_of erased).greatest }
        ensures { result ≡ record { ptype = ptype_in erased; null_count = counts.null_count; value_count = counts.value_count; average_run_length = counts.average_run_length; extremes = extremes_of erased; distinct = distinct_of erased } }
    {
        IntegerStats { counts, erased }
    }

    /// The number of null rows.
    pub fn null_count(&self) -> u32
        ensures { result ≡ self.now.null_count }
    {
        self.counts.null_count
    }

    /// The number of valid rows.
    pub fn value_count(&self) -> u32
        ensures { result ≡ self.now.value_count }
    {
        self.counts.value_count
    }

    /// Values per run of equal ones, rounded down; 0 without a value. A null between equal values ends no run.
    pub fn average_run_length(&self) -> u32
        ensures { result ≡ self.now.average_run_length }
    {
        self.counts.average_run_length
    }

    /// The number of distinct values; None where they were not requested or there is no row.
    pub fn distinct_count(&self) -> Option<u32>
        ensures { result ≡ option_map length self.now.distinct }
    {
        self.erased.distinct_count()
    }

    /// The most frequent value with its count, the least one where several tie; (0, 0) where every row is null. None where
    /// distinct values were not requested or there is no row.
    pub fn most_frequent_value_and_count(&self) -> Option<(PValue, u32)>
        ensures { result ≡ frequent_value self.now.ptype self.now.distinct }
    {
        self.erased.most_frequent_value_and_count()
    }

    /// The extremes and the distinct values, in the type of the column.
    pub fn erased(&self) -> &ErasedStats
        ensures ptype { ptype_in result.now ≡ self.now.ptype }
        ensures extremes { extremes_of result.now ≡ self.now.extremes }
        ensures distinct { distinct_of result.now ≡ self.now.distinct }
        ensures ordered { 0 < self.now.value_count → self.now.extremes.least ≤ℤ self.now.extremes.greatest }
    {
        &self.erased
    }
}
