//! Timestamps in parts: rows, sizes and refusals.

use std::alloc::Global;
use std::test::Fail;
use vx_array::ArrayRef;
use vx_base::Nullability::{NonNullable, Nullable};
use vx_base::PType::{I32, I64, U8};
use vx_base::{Nullability, Scalar, TimeUnit, TimestampType, VortexError, VortexResult};
use vx_fixtures::{accepted, flat, with_nulls};

// Timestamps without a zone.
fn kind(unit: TimeUnit) -> VortexResult<TimestampType> {
    accepted(TimestampType::new(unit, None))
}

// 0 in each of `len` rows.
fn zeros(len: u64) -> VortexResult<ArrayRef> {
    Ok(ArrayRef::constant(Scalar::primitive(0, U8, NonNullable)?, len))
}

// Whether a row of timestamps is this number, or null.
fn is_at(tree: &ArrayRef, row: u64, moment: Option<i128>) -> bool {
    if row >= tree.len() || !tree.dtype().is_flat() {
        return false;
    }
    let cell = tree.cell_at(row);
    match moment {
        Some(_) => cell.integer() == moment,
        None => cell.is_null(),
    }
}

#[test]
fn days_are_milliseconds(rt: HostRuntime) -> Result<(), Fail> {
    let alloc = rt.alloc();
    let days = flat(alloc, U8, NonNullable, &[0, 1, 3, 4])?;
    let (seconds, subseconds) = (zeros(4)?, zeros(4)?);
    let milliseconds = kind(TimeUnit::Milliseconds)?;
    let tree = accepted(ArrayRef::datetime_parts(
        alloc,
        milliseconds,
        NonNullable,
        days,
        seconds,
        subseconds,
    ))?;
    let plain = tree.copy(alloc)?.canonical(alloc)?;
    let is_small = tree.nbytes() == 8 && tree.num_children() == 3 && plain.nbytes() == 32;
    let first = is_at(&tree, 1, Some(86_400_000)) && is_at(&tree, 3, Some(345_600_000));
    assert!(rt; is_small && first && plain.is_plain() && is_at(&plain, 2, Some(259_200_000)));
    Ok(())
}

// A second before 1970, and a null above parts that aren't canonical.
fn seconds_and_null(alloc: Global) -> VortexResult<ArrayRef> {
    let days = with_nulls(alloc, I32, &[0, 1], &[true, false])?;
    let seconds = flat(alloc, I32, NonNullable, &[-1, -1])?;
    let seconds_kind = kind(TimeUnit::Seconds)?;
    let subseconds = zeros(2)?;
    accepted(ArrayRef::datetime_parts(alloc, seconds_kind, Nullable, days, seconds, subseconds))
}

#[test]
fn a_row_is_null_where_its_day_is(rt: HostRuntime) -> Result<(), Fail> {
    let tree = seconds_and_null(rt.alloc())?;
    let plain = tree.canonical(rt.alloc())?;
    let has_first = is_at(&tree, 0, Some(-1)) && is_at(&plain, 0, Some(-1));
    let has_null = is_at(&tree, 1, None) && is_at(&plain, 1, None);
    assert!(rt; plain.is_plain() && has_first && has_null);
    Ok(())
}

// Why the parts of one row of seconds are refused.
fn refusal(
    alloc: Global,
    nullability: Nullability,
    days: &[i128],
    second: i128,
    subsecond: i128,
) -> VortexResult<Option<VortexError>> {
    let days = flat(alloc, I64, NonNullable, days)?;
    let seconds = flat(alloc, I64, NonNullable, &[second])?;
    let subseconds = flat(alloc, I64, NonNullable, &[subsecond])?;
    let made = ArrayRef::datetime_parts(
        alloc,
        kind(TimeUnit::Seconds)?,
        nullability,
        days,
        seconds,
        subseconds,
    );
    match made {
        Ok(_) => Ok(None),
        Err(refused) => Ok(Some(refused.error)),
    }
}

#[test]
fn parts_are_canonical(rt: HostRuntime) -> Result<(), Fail> {
    let alloc = rt.alloc();
    let unlike = refusal(alloc, NonNullable, &[1], -1, 0)?;
    let long = refusal(alloc, NonNullable, &[1], 86_400, 0)?;
    let whole = refusal(alloc, NonNullable, &[1], 1, 1)?;
    let late = refusal(alloc, NonNullable, &[106_751_991_167_301], 0, 0)?;
    let wrong = Some(VortexError::PartsNotCanonical);
    let others = long == wrong && whole == wrong && late == wrong;
    assert!(rt; unlike == wrong && others && refusal(alloc, NonNullable, &[-1], -1, 0)?.is_none());
    Ok(())
}

#[test]
fn types_come_before_lengths(rt: HostRuntime) -> Result<(), Fail> {
    let alloc = rt.alloc();
    let nullable = refusal(alloc, Nullable, &[1, 2], -1, 0)?;
    let many = refusal(alloc, NonNullable, &[1, 2], -1, 0)?;
    let is_first = nullable == Some(VortexError::MismatchedTypes);
    assert!(rt; is_first && many == Some(VortexError::LengthMismatch));
    Ok(())
}
