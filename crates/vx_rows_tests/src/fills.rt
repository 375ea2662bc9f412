//! Fills of nulls: numbers, texts, timestamps, truth values and structs, constants and encoded rows, and refusals.

use crate::calls::{fill_null, null_count};
use crate::columns::{
    by_codes, has_texts, has_truths, structs, text, texts_with_nulls, truths, whole,
};
use std::test::Fail;
use vx_array::ArrayRef;
use vx_base::Nullability::{NonNullable, Nullable};
use vx_base::PType::{I32, I64};
use vx_base::{Scalar, TimeUnit, VortexError};
use vx_fixtures::{accepted, flat, has_rows, has_stamps, stamps, utc, with_nulls};

#[test]
fn a_fill_stands_in_place_of_null(rt: HostRuntime) -> Result<(), Fail> {
    let alloc = rt.alloc();
    let column = with_nulls(alloc, I32, &[7, 9, 1], &[true, false, true])?;
    let out = fill_null(alloc, &column, &whole(0, I32, NonNullable)?)?;
    assert!(rt; has_rows(&out, &[Some(7), Some(0), Some(1)]) && !out.dtype().is_nullable());
    let out = fill_null(alloc, &column, &whole(-2, I32, Nullable)?)?;
    assert!(rt; has_rows(&out, &[Some(7), Some(-2), Some(1)]) && out.dtype().is_nullable());
    Ok(())
}

#[test]
fn encoded_and_constant_rows_are_filled(rt: HostRuntime) -> Result<(), Fail> {
    let alloc = rt.alloc();
    let fill = whole(3, I32, NonNullable)?;
    let out = fill_null(alloc, &by_codes(alloc)?, &fill)?;
    assert!(rt; has_rows(&out, &[Some(5), Some(3), Some(5), Some(9), Some(3)]));
    let null = accepted(Scalar::null(vx_base::DType::primitive(I32, Nullable)))?;
    let out = fill_null(alloc, &ArrayRef::constant(null, 2), &fill)?;
    assert!(rt; has_rows(&out, &[Some(3), Some(3)]) && !out.dtype().is_nullable());
    Ok(())
}

#[test]
fn texts_truth_values_and_timestamps_are_filled(rt: HostRuntime) -> Result<(), Fail> {
    let alloc = rt.alloc();
    let column = texts_with_nulls(alloc, &["a", "b"], &[true, false])?;
    let out = fill_null(alloc, &column, &text(alloc, "none")?)?;
    assert!(rt; has_texts(&out, &[Some("a"), Some("none")]) && !out.dtype().is_nullable());
    let column = truths(alloc, &[None, Some(true)])?;
    let out = fill_null(alloc, &column, &Scalar::bool(false, NonNullable))?;
    assert!(rt; has_truths(&out, &[Some(false), Some(true)]));
    let kind = utc(alloc, TimeUnit::Milliseconds)?;
    let fill = Scalar::timestamp(60, kind.copy(alloc)?, NonNullable);
    let column = stamps(alloc, kind, &[Some(1), None])?;
    let out = fill_null(alloc, &column, &fill)?;
    assert!(rt; has_stamps(&out, &[Some(1), Some(60)]) && !out.dtype().is_nullable());
    Ok(())
}

#[test]
fn structs_are_filled(rt: HostRuntime) -> Result<(), Fail> {
    let alloc = rt.alloc();
    let column = structs(alloc)?;
    let fill = column.scalar_at(alloc, 0)?;
    let out = fill_null(alloc, &column, &fill)?;
    assert!(rt; null_count(alloc, &out)? == 0 && out.len() == 3);
    let row = out.scalar_at(alloc, 1)?;
    assert!(rt; row == fill);
    Ok(())
}

#[test]
fn null_and_another_type_are_no_fill(rt: HostRuntime) -> Result<(), Fail> {
    let alloc = rt.alloc();
    let column = flat(alloc, I32, Nullable, &[1])?;
    let wide = fill_null(alloc, &column, &whole(0, I64, NonNullable)?);
    assert!(rt; matches!(wide, Err(VortexError::MismatchedTypes)));
    let null = accepted(Scalar::null(vx_base::DType::primitive(I32, Nullable)))?;
    let none = fill_null(alloc, &column, &null);
    assert!(rt; matches!(none, Err(VortexError::MismatchedTypes)));
    Ok(())
}
