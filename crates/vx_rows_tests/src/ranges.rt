//! Whether rows lie between bounds: strict and not, nulls, columns of bounds, and refusals.

use crate::columns::{by_codes, has_truths, is_true_between, rising, text, texts, whole};
use std::test::Fail;
use vx_base::Nullability::{NonNullable, Nullable};
use vx_base::PType::{I32, U16, U32};
use vx_base::{DType, Scalar, VortexError};
use vx_fixtures::{accepted, context, flat, with_nulls};
use vx_rows::{BetweenOptions, between, between_scalars};

// Which bounds are strict.
fn strict(lower_strict: bool, upper_strict: bool) -> BetweenOptions {
    BetweenOptions {
        lower_strict,
        upper_strict,
    }
}

#[test]
fn each_bound_is_strict_by_itself(rt: HostRuntime) -> Result<(), Fail> {
    let alloc = rt.alloc();
    let mut ctx = context(alloc)?;
    let column = flat(alloc, U32, NonNullable, &[1, 2, 3, 4])?;
    let (low, high) = (whole(2, U32, NonNullable)?, whole(4, U32, NonNullable)?);
    let open = between_scalars(&column, &low, &high, strict(true, true), &mut ctx)?;
    assert!(rt; has_truths(&open, &[Some(false), Some(false), Some(true), Some(false)]));
    let closed = between_scalars(&column, &low, &high, strict(false, false), &mut ctx)?;
    assert!(rt; has_truths(&closed, &[Some(false), Some(true), Some(true), Some(true)]));
    let lower = between_scalars(&column, &low, &high, strict(true, false), &mut ctx)?;
    assert!(rt; has_truths(&lower, &[Some(false), Some(false), Some(true), Some(true)]));
    let upper = between_scalars(&column, &low, &high, strict(false, true), &mut ctx)?;
    assert!(rt; has_truths(&upper, &[Some(false), Some(true), Some(true), Some(false)]));
    Ok(())
}

#[test]
fn rows_of_several_blocks_lie_between(rt: HostRuntime) -> Result<(), Fail> {
    let alloc = rt.alloc();
    let mut ctx = context(alloc)?;
    let (low, high) = (
        whole(1_020, U16, NonNullable)?,
        whole(2_048, U16, NonNullable)?,
    );
    let out = between_scalars(&rising(alloc)?, &low, &high, strict(false, true), &mut ctx)?;
    assert!(rt; out.len() == 2_050 && is_true_between(&out, 1_020, 2_048));
    Ok(())
}

#[test]
fn a_null_bound_is_null_even_where_the_other_excludes_the_row(rt: HostRuntime) -> Result<(), Fail> {
    let alloc = rt.alloc();
    let mut ctx = context(alloc)?;
    let column = flat(alloc, I32, NonNullable, &[1, 9])?;
    let null = accepted(Scalar::null(DType::primitive(I32, Nullable)))?;
    let high = whole(5, I32, NonNullable)?;
    let out = between_scalars(&column, &null, &high, strict(false, false), &mut ctx)?;
    assert!(rt; has_truths(&out, &[None, None]) && out.dtype().is_nullable());
    Ok(())
}

#[test]
fn columns_are_bounds_of_each_row(rt: HostRuntime) -> Result<(), Fail> {
    let alloc = rt.alloc();
    let mut ctx = context(alloc)?;
    let low = flat(alloc, I32, NonNullable, &[5, 0, 6, 0, 0])?;
    let high = with_nulls(
        alloc,
        I32,
        &[5, 0, 9, 9, 9],
        &[true, true, true, false, true],
    )?;
    let out = between(
        &by_codes(alloc)?,
        &low,
        &high,
        strict(false, false),
        &mut ctx,
    )?;
    assert!(rt; has_truths(&out, &[Some(true), None, Some(false), None, None]));
    Ok(())
}

#[test]
fn texts_lie_between_texts(rt: HostRuntime) -> Result<(), Fail> {
    let alloc = rt.alloc();
    let mut ctx = context(alloc)?;
    let column = texts(alloc, &["b", "ba", "c"])?;
    let (low, high) = (text(alloc, "b")?, text(alloc, "c")?);
    let out = between_scalars(&column, &low, &high, strict(true, false), &mut ctx)?;
    assert!(rt; has_truths(&out, &[Some(false), Some(true), Some(true)]));
    Ok(())
}

#[test]
fn types_are_told_before_lengths(rt: HostRuntime) -> Result<(), Fail> {
    let alloc = rt.alloc();
    let mut ctx = context(alloc)?;
    let two = flat(alloc, I32, NonNullable, &[1, 2])?;
    let three = flat(alloc, I32, NonNullable, &[1, 2, 3])?;
    let other = flat(alloc, U32, NonNullable, &[1, 2])?;
    let options = strict(false, false);
    let lengths = between(&two, &two, &three, options, &mut ctx);
    assert!(rt; matches!(lengths, Err(VortexError::LengthMismatch)));
    let types = between(&two, &three, &other, options, &mut ctx);
    assert!(rt; matches!(types, Err(VortexError::MismatchedTypes)));
    Ok(())
}
