//! Columns of timestamps in parts: days, seconds and subseconds, each a column of its own. What arrays of parts and a scheme of
//! timestamps both need; it exports what callers name of vx_time.
#![tactic(auto)]

mod joining;
mod parts;
mod row_parts;
mod splitting;

pub use joining::{are_parts_types, decode_to_temporal};
pub use parts::{DateTimePartsParts, TemporalParts};
pub use splitting::split_temporal;
pub use vx_time::{SECONDS_PER_DAY, TimestampParts, combine, split};
