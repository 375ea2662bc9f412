//! The parts of a timestamp.

/// The seconds of a day; leap seconds are not counted.
pub const SECONDS_PER_DAY: i64 = 86_400;

/// Days, seconds and subseconds. `split` makes canonical ones: they share a sign, seconds are within 86,399 of 0, and
/// subseconds within d - 1 of 0, with d units in a second.
#[derive(Clone, Copy, Debug, PartialEq, Eq, Hash)]
pub struct TimestampParts {
    pub days: i32,
    pub seconds: i32,
    pub subseconds: i32,
}
