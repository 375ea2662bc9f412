//! Row functions over any tree, answered by value: comparisons, ranges, patterns and negation, casts, fills and aggregates. Each
//! answers, or refuses, as its rule in vx_rules does on the tree's type and rows.
//!
//! Plain rows are read where they stand, integers in their own type; only encoded ones are decoded first. Of a dictionary what is
//! answered of a whole column is answered by the values that its codes name, but for the sum.
#![tactic(auto)]

mod bases;
mod casting;
mod character;
mod comparing;
mod constancy;
mod counting;
mod extremes;
mod filling;
mod held;
mod ints;
mod kernels;
mod lent;
mod matching;
mod negating;
mod ordering;
mod pattern;
mod ranging;
mod searching;
mod stamps;
mod summing;
mod truths;
mod used;

pub use casting::cast;
pub use comparing::{compare, compare_scalar};
pub use constancy::is_constant;
pub use counting::null_count;
pub use extremes::min_max;
pub use filling::fill_null;
pub use matching::{like, like_scalar};
pub use negating::not;
pub use ranging::{between, between_scalars};
pub use summing::sum;
pub use vx_rules::{BetweenOptions, CompareOperator, LikeOptions};
