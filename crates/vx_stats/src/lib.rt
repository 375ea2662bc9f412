//! Statistics of columns, counted over their rows: what schemes estimate their ratios from.
#![tactic(auto)]

mod bools;
mod integer;
mod options;
mod row_counts;
mod strings;

pub use bools::BoolStats;
pub use integer::{
    Counts, DistinctInfo, ErasedStats, IntegerStats, PValue, TypedStats, laws_of_distinct,
};
pub use options::{GenerateStatsOptions, laws_of_merge};
pub use strings::StringStats;
