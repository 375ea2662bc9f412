//! The parts of a column of timestamps.

use vx_array::ArrayRef;

/// What a column is split into: days, seconds and subseconds, each a column of as many rows.
#[derive(Drop)]
pub struct TemporalParts {
    pub days: ArrayRef,
    pub seconds: ArrayRef,
    pub subseconds: ArrayRef,
}

/// What timestamps are joined from: the days, null where a timestamp is, the seconds and the subseconds, integers of any type.
#[derive(Drop)]
pub struct DateTimePartsParts {
    pub days: ArrayRef,
    pub seconds: ArrayRef,
    pub subseconds: ArrayRef,
}
