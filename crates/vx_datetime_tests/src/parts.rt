//! Arrays of timestamps in parts that the tests share, and what they are compared with.

use std::alloc::Global;
use vx_array::ArrayRef;
use vx_base::Nullability::{NonNullable, Nullable};
use vx_base::PType::{I32, U8};
use vx_base::TimeUnit::Seconds;
use vx_base::{DType, PType, Scalar, TimeUnit, VortexResult};
use vx_datetime::{DateTimeParts, DateTimePartsArray};
use vx_fixtures::{accepted, context, flat, stamps, utc, with_nulls};

/// The timestamps of a unit, in parts, None for null; nullable where some row is null.
pub fn split(
    alloc: Global,
    unit: TimeUnit,
    rows: &[Option<i128>],
) -> VortexResult<DateTimePartsArray> {
    let column = stamps(alloc, utc(alloc, unit)?, rows)?;
    DateTimeParts::try_from_temporal(&column, &mut context(alloc)?)
}

// 0 in each of `len` rows, as a Constant.
fn zeros(len: u64) -> VortexResult<ArrayRef> {
    let zero = Scalar::primitive(0, U8, NonNullable)?;
    Ok(ArrayRef::constant(zero, len))
}

/// Whole days in seconds, whose other parts are Constants.
pub fn whole_days(alloc: Global, days: &[i128]) -> VortexResult<DateTimePartsArray> {
    let dtype = DType::timestamp(utc(alloc, Seconds)?, NonNullable);
    let len = days.len() as u64;
    let days = flat(alloc, I32, NonNullable, days)?;
    accepted(DateTimeParts::try_new(alloc, dtype, days, zeros(len)?, zeros(len)?))
}

/// Seconds in UTC, in parts of these three types.
pub fn typed(
    alloc: Global,
    types: (PType, PType, PType),
    days: &[i128],
    seconds: &[i128],
) -> VortexResult<DateTimePartsArray> {
    let dtype = DType::timestamp(utc(alloc, Seconds)?, NonNullable);
    let mut zeros = Vec::new(alloc);
    for _ in 0..days.len() {
        zeros.push(0)?;
    }
    let days = flat(alloc, types.0, NonNullable, days)?;
    let seconds = flat(alloc, types.1, NonNullable, seconds)?;
    let subseconds = flat(alloc, types.2, NonNullable, zeros.as_slice())?;
    accepted(DateTimeParts::try_new(alloc, dtype, days, seconds, subseconds))
}

/// Null days over these seconds, valid ones where a bit is true: the day is 1.
pub fn days_with_nulls(
    alloc: Global,
    valid: &[bool],
    seconds: &[i128],
) -> VortexResult<DateTimePartsArray> {
    let dtype = DType::timestamp(utc(alloc, Seconds)?, Nullable);
    let mut days = Vec::new(alloc);
    for _ in 0..valid.len() {
        days.push(1)?;
    }
    let days = with_nulls(alloc, I32, days.as_slice(), valid)?;
    let len = valid.len() as u64;
    let seconds = flat(alloc, I32, NonNullable, seconds)?;
    accepted(DateTimeParts::try_new(alloc, dtype, days, seconds, zeros(len)?))
}

/// One timestamp in each row, as a Constant; nullable.
pub fn one_moment(
    alloc: Global,
    unit: TimeUnit,
    timestamp: i64,
    len: u64,
) -> VortexResult<ArrayRef> {
    let moment = Scalar::timestamp(timestamp, utc(alloc, unit)?, Nullable);
    Ok(ArrayRef::constant(moment, len))
}

/// Whether a tree has these truth values, None of null.
pub fn has_truths(array: &ArrayRef, rows: &[Option<bool>]) -> bool {
    if !matches!(array.dtype(), DType::Bool(_)) || array.len() != rows.len() as u64 {
        return false;
    }
    for row in 0..rows.len() {
        if array.bool_at(row as u64) != rows[row] {
            return false;
        }
    }
    true
}
