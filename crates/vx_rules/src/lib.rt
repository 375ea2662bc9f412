//! The row functions as definitions: what each answers of a column, and why it refuses one. Their options, and the laws of the
//! definitions; no other code.
#![tactic(auto)]

mod laws;
mod options;

pub use laws::{answers_are_columns, extremes_are_bounds, matches_are_cuts, slices_compose};
pub use options::{BetweenOptions, CompareOperator, LikeOptions};
