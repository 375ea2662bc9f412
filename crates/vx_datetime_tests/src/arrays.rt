//! Arrays of timestamps in parts.

use std::alloc::Global;
use std::test::Fail;
use vx_array::ArrayRef;
use vx_base::Nullability::{NonNullable, Nullable};
use vx_base::PType::{I64, U8};
use vx_base::TimeUnit::{Milliseconds, Seconds};
use vx_base::{ArrayId, DType, VortexError, VortexResult};
use vx_datetime::{DateTimeParts, DateTimePartsArray, DateTimePartsData, DateTimePartsOwnedExt};
use vx_fixtures::{context, flat, has_rows, has_stamps, stamps, utc};
use vx_temporal::decode_to_temporal;

// Whether milliseconds come back from an array of parts, of the same type.
fn come_back(alloc: Global, rows: &[Option<i128>]) -> VortexResult<bool> {
    let column = stamps(alloc, utc(alloc, Milliseconds)?, rows)?;
    let mut ctx = context(alloc)?;
    let array = DateTimeParts::try_from_temporal(&column, &mut ctx)?;
    let is_there = has_stamps(array.as_array(), rows)
        && *array.as_array().dtype() == *column.dtype();
    let back = decode_to_temporal(&array.into_parts(), column.dtype(), &mut ctx)?;
    let is_plain = back.is_plain() && *back.dtype() == *column.dtype();
    Ok(is_there && is_plain && has_stamps(&back, rows))
}

#[test]
fn timestamps_come_back(rt: HostRuntime) -> Result<(), Fail> {
    let rows = [
        Some(86_400),
        Some(-86_400),
        Some(87_400),
        Some(-87_400),
        Some(87_401),
        Some(-87_401),
    ];
    assert!(rt; come_back(rt.alloc(), &rows)?);
    Ok(())
}

#[test]
fn nulls_come_back(rt: HostRuntime) -> Result<(), Fail> {
    let rows = [
        Some(86_400),
        Some(-86_400),
        None,
        None,
        Some(87_401),
        Some(-87_401),
    ];
    assert!(rt; come_back(rt.alloc(), &rows)?);
    Ok(())
}

// The array of one row of seconds, or why it is refused, with how many rows of each part come back.
fn one_row(alloc: Global, day: i128, second: i128) -> VortexResult<Result<ArrayRef, VortexError>> {
    let dtype = DType::timestamp(utc(alloc, Seconds)?, NonNullable);
    let days = flat(alloc, I64, NonNullable, &[day])?;
    let seconds = flat(alloc, I64, NonNullable, &[second])?;
    let subseconds = flat(alloc, U8, NonNullable, &[0])?;
    match DateTimeParts::try_new(alloc, dtype, days, seconds, subseconds) {
        Ok(array) => Ok(Ok(array.into_array())),
        Err(refused) => Ok(Err(refused.error)),
    }
}

#[test]
fn an_array_is_made_of_canonical_parts(rt: HostRuntime) -> Result<(), Fail> {
    let alloc = rt.alloc();
    let Ok(array) = one_row(alloc, 1, 1)? else {
        return Err(Fail::from("canonical parts are refused"));
    };
    assert!(rt; has_stamps(&array, &[Some(86_401)]));
    let unlike = one_row(alloc, 1, -1)?;
    assert!(rt; matches!(unlike, Err(VortexError::PartsNotCanonical)));
    Ok(())
}

#[test]
fn only_arrays_of_parts_are_taken(rt: HostRuntime) -> Result<(), Fail> {
    let alloc = rt.alloc();
    let Ok(parts) = one_row(alloc, -1, 0)? else {
        return Err(Fail::from("canonical parts are refused"));
    };
    let Ok(array) = DateTimePartsArray::from_array(parts) else {
        return Err(Fail::from("an array of parts is refused"));
    };
    assert!(rt; array.as_array().encoding_id() == ArrayId::DateTimeParts);
    let Err(back) = DateTimePartsArray::from_array(flat(alloc, I64, NonNullable, &[7])?) else {
        return Err(Fail::from("integers are an array of parts"));
    };
    assert!(rt; has_rows(&back, &[Some(7)]));
    Ok(())
}

#[test]
fn types_and_lengths_are_validated(rt: HostRuntime) -> Result<(), Fail> {
    let alloc = rt.alloc();
    let dtype = DType::timestamp(utc(alloc, Seconds)?, NonNullable);
    let part = flat(alloc, I64, NonNullable, &[0])?;
    let nullable = flat(alloc, I64, Nullable, &[0])?;
    let fits = DateTimePartsData::validate(&dtype, &part, &part, &part, 1);
    let unlike = DateTimePartsData::validate(&dtype, &nullable, &part, &part, 1);
    let long = DateTimePartsData::validate(&dtype, &part, &part, &part, 2);
    let integers = DateTimePartsData::validate(part.dtype(), &part, &part, &part, 1);
    assert!(rt; fits.is_ok() && matches!(unlike, Err(VortexError::MismatchedTypes)));
    assert!(rt; matches!(long, Err(VortexError::LengthMismatch)));
    assert!(rt; matches!(integers, Err(VortexError::MismatchedTypes)));
    Ok(())
}

#[test]
fn the_data_are_equal_and_print_nothing(rt: HostRuntime) -> Result<(), Fail> {
    let data = DateTimePartsData {};
    let text = format!(in rt.alloc(); "{data}")?;
    assert!(rt; text.is_empty() && data == DateTimePartsData {});
    Ok(())
}
