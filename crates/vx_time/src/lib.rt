//! Timestamps in parts: days, seconds and subseconds. Splitting and combining, the kernels that a column of parts needs,
//! and their laws.
#![tactic(auto)]

mod combining;
mod kernels;
mod laws;
mod parts;
mod splitting;

pub use combining::combine;
pub use kernels::{is_canonical, sum_of, units_in_second};
pub use laws::{canonical_parts_are_a_split, parts_combine, parts_order_timestamps};
pub use parts::{SECONDS_PER_DAY, TimestampParts};
pub use splitting::split;
