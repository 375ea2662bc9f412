//! Timestamps in parts, worked by hand. 90,123 seconds are a day of 86,400 and 3,723 more.

use std::test::Fail;
use vx_base::TimeUnit::{Days, Microseconds, Milliseconds, Nanoseconds, Seconds};
use vx_base::{TimeUnit, VortexError};
use vx_time::{TimestampParts, combine, is_canonical, split};

fn parts(days: i32, seconds: i32, subseconds: i32) -> TimestampParts {
    TimestampParts {
        days,
        seconds,
        subseconds,
    }
}

// Whether a timestamp is split into these parts.
fn is_split(timestamp: i64, time_unit: TimeUnit, expected: TimestampParts) -> bool {
    match split(timestamp, time_unit) {
        Ok(ts_parts) => ts_parts == expected,
        Err(_) => false,
    }
}

#[test]
fn a_timestamp_is_split(rt: HostRuntime) -> Result<(), Fail> {
    let seconds = is_split(90_123, Seconds, parts(1, 3_723, 0));
    let millis = is_split(90_123_456, Milliseconds, parts(1, 3_723, 456));
    let nanos = is_split(
        90_123_456_789_123,
        Nanoseconds,
        parts(1, 3_723, 456_789_123),
    );
    assert!(rt; seconds && millis && nanos);
    Ok(())
}

#[test]
fn a_second_before_the_epoch_has_no_day(rt: HostRuntime) -> Result<(), Fail> {
    assert!(rt; is_split(-1, Seconds, parts(0, -1, 0)));
    Ok(())
}

#[test]
fn days_are_not_split(rt: HostRuntime) -> Result<(), Fail> {
    assert!(rt; matches!(split(1, Days), Err(VortexError::DayUnit)));
    Ok(())
}

#[test]
fn days_beyond_32_bits_are_refused(rt: HostRuntime) -> Result<(), Fail> {
    let refused = split(i64::MIN, Seconds);
    assert!(rt; matches!(refused, Err(VortexError::DaysOutOfRange)));
    Ok(())
}

#[test]
fn parts_are_combined(rt: HostRuntime) -> Result<(), Fail> {
    let timestamp = combine(parts(1, 3_723, 456_789), Microseconds)?;
    assert_eq!(rt; timestamp, 90_123_456_789);
    Ok(())
}

#[test]
fn a_sum_beyond_64_bits_is_refused(rt: HostRuntime) -> Result<(), Fail> {
    let refused = combine(parts(106_752, 0, 0), Nanoseconds);
    assert!(rt; matches!(refused, Err(VortexError::TimestampOutOfRange)));
    Ok(())
}

#[test]
fn parts_of_one_sign_within_a_day_are_canonical(rt: HostRuntime) -> Result<(), Fail> {
    let epoch = is_canonical(0, 0, 0, 1);
    let opposite_signs = is_canonical(1, -1, 0, 1);
    let a_day_of_seconds = is_canonical(0, 86_400, 0, 1);
    assert!(rt; epoch && !opposite_signs && !a_day_of_seconds);
    Ok(())
}
