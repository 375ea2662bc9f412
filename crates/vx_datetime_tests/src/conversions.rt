//! Timestamps in parts: rows taken by indices, in another nullability, and whether all are equal.

use crate::parts::{days_with_nulls, split, whole_days};
use std::test::Fail;
use vx_base::Nullability::{NonNullable, Nullable};
use vx_base::PType::{I32, U8};
use vx_base::TimeUnit::{Milliseconds, Seconds};
use vx_base::{ArrayId, DType, VortexError};
use vx_fixtures::{context, flat, has_stamps, stamps, utc, with_nulls};

#[test]
fn rows_by_indices(rt: HostRuntime) -> Result<(), Fail> {
    let alloc = rt.alloc();
    let mut ctx = context(alloc)?;
    let array = split(
        alloc,
        Milliseconds,
        &[Some(86_400_001), Some(-1), Some(-86_401_500)],
    )?;
    let indices = flat(alloc, U8, NonNullable, &[2, 0, 2])?;
    let out = array.take(&indices, &mut ctx)?;
    assert!(rt; out.encoding_id() == ArrayId::DateTimeParts && !out.dtype().is_nullable());
    assert!(rt;
        has_stamps(
            &out,
            &[Some(-86_401_500), Some(86_400_001), Some(-86_401_500)]
        )
    );
    let holes = with_nulls(alloc, I32, &[1, 0, 0], &[true, false, true])?;
    let out = array.take(&holes, &mut ctx)?;
    assert!(rt; out.encoding_id() == ArrayId::DateTimeParts && out.dtype().is_nullable());
    assert!(rt; has_stamps(&out, &[Some(-1), None, Some(86_400_001)]));
    Ok(())
}

#[test]
fn null_indices_choose_no_row(rt: HostRuntime) -> Result<(), Fail> {
    let alloc = rt.alloc();
    let mut ctx = context(alloc)?;
    let none = split(alloc, Seconds, &[])?;
    let holes = with_nulls(alloc, I32, &[0, 0], &[false, false])?;
    let out = none.take(&holes, &mut ctx)?;
    assert!(rt; has_stamps(&out, &[None, None]));
    Ok(())
}

#[test]
fn other_indices(rt: HostRuntime) -> Result<(), Fail> {
    let alloc = rt.alloc();
    let mut ctx = context(alloc)?;
    let array = whole_days(alloc, &[0, 1])?;
    let long = flat(alloc, I32, NonNullable, &[0, 2])?;
    let refused = array.take(&long, &mut ctx);
    assert!(rt; matches!(refused, Err(VortexError::OutOfBounds)));
    let negative = flat(alloc, I32, NonNullable, &[-1])?;
    let refused = array.take(&negative, &mut ctx);
    assert!(rt; matches!(refused, Err(VortexError::OutOfBounds)));
    let moments = stamps(alloc, utc(alloc, Seconds)?, &[Some(0)])?;
    let refused = array.take(&moments, &mut ctx);
    assert!(rt; matches!(refused, Err(VortexError::MismatchedTypes)));
    Ok(())
}

#[test]
fn another_nullability(rt: HostRuntime) -> Result<(), Fail> {
    let alloc = rt.alloc();
    let mut ctx = context(alloc)?;
    let holes = split(alloc, Milliseconds, &[Some(86_400), None])?;
    let strict = DType::timestamp(utc(alloc, Milliseconds)?, NonNullable);
    let refused = holes.cast(&strict, &mut ctx);
    assert!(rt; matches!(refused, Err(VortexError::CastRefused)));
    let refused = holes.cast(&DType::bool(Nullable), &mut ctx);
    assert!(rt; matches!(refused, Err(VortexError::MismatchedTypes)));
    let refused = holes.cast(&DType::timestamp(utc(alloc, Seconds)?, Nullable), &mut ctx);
    assert!(rt; matches!(refused, Err(VortexError::MismatchedTypes)));
    let array = days_with_nulls(alloc, &[true, true], &[0, 5])?;
    let dtype = DType::timestamp(utc(alloc, Seconds)?, NonNullable);
    let out = array.cast(&dtype, &mut ctx)?;
    assert!(rt; *out.dtype() == dtype && has_stamps(&out, &[Some(86_400), Some(86_405)]));
    let wide = DType::timestamp(utc(alloc, Milliseconds)?, Nullable);
    let same = holes.cast(&wide, &mut ctx)?;
    assert!(rt; *same.dtype() == wide && has_stamps(&same, &[Some(86_400), None]));
    Ok(())
}

#[test]
fn whether_all_are_equal(rt: HostRuntime) -> Result<(), Fail> {
    let alloc = rt.alloc();
    let mut ctx = context(alloc)?;
    let same = split(alloc, Milliseconds, &[Some(-86_400_001), Some(-86_400_001)])?;
    assert!(rt; same.is_constant(&mut ctx)?);
    let second = split(alloc, Milliseconds, &[Some(1_000), Some(2_000)])?;
    assert!(rt; !second.is_constant(&mut ctx)?);
    let subsecond = split(alloc, Milliseconds, &[Some(1_000), Some(1_001)])?;
    assert!(rt; !subsecond.is_constant(&mut ctx)?);
    let day = whole_days(alloc, &[0, 1])?;
    assert!(rt; !day.is_constant(&mut ctx)?);
    let none = whole_days(alloc, &[])?;
    assert!(rt; !none.is_constant(&mut ctx)?);
    Ok(())
}

#[test]
fn what_stands_beneath_nulls_is_not_looked_at(rt: HostRuntime) -> Result<(), Fail> {
    let alloc = rt.alloc();
    let mut ctx = context(alloc)?;
    let nulls = days_with_nulls(alloc, &[false, false], &[-5, 86_500])?;
    assert!(rt; nulls.is_constant(&mut ctx)?);
    let one = days_with_nulls(alloc, &[true, false], &[0, 0])?;
    assert!(rt; !one.is_constant(&mut ctx)?);
    Ok(())
}
