//! Columns of timestamps, split and joined again.

use std::alloc::Global;
use std::test::Fail;
use vx_array::ArrayRef;
use vx_base::Nullability::{NonNullable, Nullable};
use vx_base::PType::{I32, I64};
use vx_base::TimeUnit::{Microseconds, Milliseconds, Nanoseconds, Seconds};
use vx_base::{ArrayId, DType, Scalar, TimeUnit, VortexError, VortexResult};
use vx_fixtures::{context, flat, has_rows, has_stamps, stamps, utc};
use vx_temporal::{DateTimePartsParts, TemporalParts, decode_to_temporal, split_temporal};

// The parts of these rows.
fn parts(alloc: Global, unit: TimeUnit, rows: &[Option<i128>]) -> VortexResult<TemporalParts> {
    let column = stamps(alloc, utc(alloc, unit)?, rows)?;
    split_temporal(&column, &mut context(alloc)?)
}

// Whether seconds or subseconds are non-nullable `i32` with these rows.
fn is_whole(part: &ArrayRef, rows: &[Option<i128>]) -> bool {
    *part.dtype() == DType::primitive(I32, NonNullable) && has_rows(part, rows)
}

#[test]
fn a_null_has_no_day_and_zeros(rt: HostRuntime) -> Result<(), Fail> {
    let alloc = rt.alloc();
    let split = parts(alloc, Milliseconds, &[Some(86_400), None, Some(87_401)])?;
    let has_days = has_rows(&split.days, &[Some(0), None, Some(0)]) && split.days.is_plain();
    assert!(rt; has_days && *split.days.dtype() == DType::primitive(I32, Nullable));
    assert!(rt; is_whole(&split.seconds, &[Some(86), Some(0), Some(87)]));
    assert!(rt; is_whole(&split.subseconds, &[Some(400), Some(0), Some(401)]));
    Ok(())
}

#[test]
fn nulls_alone_are_split(rt: HostRuntime) -> Result<(), Fail> {
    let alloc = rt.alloc();
    let split = parts(alloc, Milliseconds, &[None, None])?;
    let zeros = [Some(0), Some(0)];
    let are_zero = is_whole(&split.seconds, &zeros) && is_whole(&split.subseconds, &zeros);
    assert!(rt; are_zero && has_rows(&split.days, &[None, None]));
    Ok(())
}

#[test]
fn seconds_have_constant_subseconds(rt: HostRuntime) -> Result<(), Fail> {
    let alloc = rt.alloc();
    let split = parts(alloc, Seconds, &[Some(90_123), Some(-1)])?;
    let is_constant = split.subseconds.encoding_id() == ArrayId::Constant;
    assert!(rt; is_constant && is_whole(&split.subseconds, &[Some(0), Some(0)]));
    assert!(rt; is_whole(&split.days, &[Some(1), Some(0)]));
    assert!(rt; is_whole(&split.seconds, &[Some(3_723), Some(-1)]));
    Ok(())
}

#[test]
fn each_unit_has_its_own_seconds(rt: HostRuntime) -> Result<(), Fail> {
    let alloc = rt.alloc();
    let micros = parts(alloc, Microseconds, &[Some(90_123_456_789)])?;
    let nanos = parts(alloc, Nanoseconds, &[Some(90_123_456_789_123)])?;
    assert!(rt; is_whole(&micros.days, &[Some(1)]) && is_whole(&nanos.days, &[Some(1)]));
    assert!(rt;
        is_whole(&micros.seconds, &[Some(3_723)]) && is_whole(&nanos.seconds, &[Some(3_723)])
    );
    assert!(rt; is_whole(&micros.subseconds, &[Some(456_789)]));
    assert!(rt; is_whole(&nanos.subseconds, &[Some(456_789_123)]));
    Ok(())
}

#[test]
fn a_constant_column_is_split(rt: HostRuntime) -> Result<(), Fail> {
    let alloc = rt.alloc();
    let moment = Scalar::timestamp(-3_723_500, utc(alloc, Milliseconds)?, NonNullable);
    let split = split_temporal(&ArrayRef::constant(moment, 2), &mut context(alloc)?)?;
    assert!(rt; is_whole(&split.days, &[Some(0), Some(0)]));
    assert!(rt; is_whole(&split.seconds, &[Some(-3_723), Some(-3_723)]));
    assert!(rt; is_whole(&split.subseconds, &[Some(-500), Some(-500)]));
    Ok(())
}

#[test]
fn other_columns_and_days_beyond_32_bits_are_refused(rt: HostRuntime) -> Result<(), Fail> {
    let alloc = rt.alloc();
    let integers = flat(alloc, I64, NonNullable, &[5])?;
    let other = split_temporal(&integers, &mut context(alloc)?);
    assert!(rt; matches!(other, Err(VortexError::MismatchedTypes)));
    let early = parts(alloc, Seconds, &[Some(i128::from(i64::MIN))]);
    assert!(rt; matches!(early, Err(VortexError::DaysOutOfRange)));
    Ok(())
}

// More than a block of 1,024 rows, 40,000,123 milliseconds apart, from before 1970 on.
fn many_moments(alloc: Global) -> VortexResult<Vec<Option<i128>>> {
    let mut rows = Vec::new(alloc);
    for row in 0..1_100 {
        rows.push(Some(40_000_123 * (row as i128 - 500)))?;
    }
    Ok(rows)
}

#[test]
fn blocks_of_rows_come_back(rt: HostRuntime) -> Result<(), Fail> {
    let alloc = rt.alloc();
    let rows = many_moments(alloc)?;
    let column = stamps(alloc, utc(alloc, Milliseconds)?, rows.as_slice())?;
    let mut ctx = context(alloc)?;
    let TemporalParts {
        days,
        seconds,
        subseconds,
    } = split_temporal(&column, &mut ctx)?;
    let split = DateTimePartsParts {
        days,
        seconds,
        subseconds,
    };
    let back = decode_to_temporal(&split, column.dtype(), &mut ctx)?;
    assert!(rt; *back.dtype() == *column.dtype() && has_stamps(&back, rows.as_slice()));
    Ok(())
}
