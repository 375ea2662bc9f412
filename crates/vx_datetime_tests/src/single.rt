//! Single timestamps, split and combined again.

use std::test::Fail;
use vx_base::TimeUnit;
use vx_base::TimeUnit::{Microseconds, Milliseconds, Nanoseconds};
use vx_temporal::{TimestampParts, combine, split};

// Whether a timestamp is split into these parts, and they are combined to it.
fn is_there_and_back(timestamp: i64, unit: TimeUnit, days: i32, seconds: i32, rest: i32) -> bool {
    let expected = TimestampParts {
        days,
        seconds,
        subseconds: rest,
    };
    let Ok(parts) = split(timestamp, unit) else {
        return false;
    };
    let Ok(back) = combine(parts, unit) else {
        return false;
    };
    parts == expected && back == timestamp
}

#[test]
fn a_timestamp_is_split_and_combined(rt: HostRuntime) -> Result<(), Fail> {
    assert!(rt; is_there_and_back(-3_723_500, Milliseconds, 0, -3_723, -500));
    assert!(rt; is_there_and_back(86_399_999, Milliseconds, 0, 86_399, 999));
    assert!(rt; is_there_and_back(90_123_456_789, Microseconds, 1, 3_723, 456_789));
    assert!(rt; is_there_and_back(-86_400_000_000_000, Nanoseconds, -1, 0, 0));
    assert!(rt; is_there_and_back(-1, Nanoseconds, 0, 0, -1));
    Ok(())
}
