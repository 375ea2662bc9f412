//! Timestamps in parts.

ghost use Rattle.std.specs.Prelude.{◌<◌, ◌≤◌};

use crate::columns::column;
use crate::listed::column_of;
use crate::rows::values;
use std::alloc::{AllocError, Global};
use vx_array::ArrayRef;
use vx_base::{Integer, Nullability, TimeUnit, TimestampType, VortexResult};

// The microseconds of a second, and the seconds of a day.
const SECOND: u64 = 1_000_000;

const DAY: u64 = 86_400;

// The numbers of days that 16 bits hold.
const DAYS: u64 = 65_536;

// A part of each timestamp, as a row: `time / unit % count`.
fn part<T: Integer>(
    alloc: Global,
    times: &[u64],
    unit: u64,
    count: u64,
) -> Result<Vec<T>, AllocError>
    requires unit { 0 < unit }
    requires count { 0 < count }
{
    let mut rows = Vec::with_capacity(alloc, times.len())?;
    for time in times {
        rows.push(T::from_low_bits(*time / unit % count))?;
    }
    Ok(rows)
}

// The tree of timestamps of these days, seconds and subseconds, null where the days are.
fn tree_of(
    alloc: Global,
    nullability: Nullability,
    days: ArrayRef,
    seconds: ArrayRef,
    subseconds: ArrayRef,
) -> VortexResult<ArrayRef> {
    let kind = TimestampType::new(TimeUnit::Microseconds, None)?;
    Ok(ArrayRef::datetime_parts(alloc, kind, nullability, days, seconds, subseconds)?)
}

// The tree of these timestamps, in microseconds of 2^16 days.
fn tree_of_times(alloc: Global, times: &[u64], nullability: Nullability) -> VortexResult<ArrayRef> {
    let days = column(
        alloc,
        part::<u16>(alloc, times, DAY * SECOND, DAYS)?,
        nullability,
    )?;
    let seconds = column_of(part::<u32>(alloc, times, SECOND, DAY)?);
    let subseconds = column_of(part::<u32>(alloc, times, 1, SECOND)?);
    tree_of(alloc, nullability, days, seconds, subseconds)
}

/// Random timestamps in microseconds, of `width` bits, as parts: days of 16 bits, seconds and subseconds of 32. Days fit where
/// timestamps have at most 52 bits: 2^52 microseconds are 52,124 days.
pub fn stamps(
    alloc: Global,
    rows: usize,
    width: u32,
    nullability: Nullability,
) -> VortexResult<ArrayRef>
    requires some { 0 < width }
    requires most { width ≤ 64 }
{
    let times = values::<u64>(alloc, rows, width)?;
    tree_of_times(alloc, times.as_slice(), nullability)
}
