//! Timestamps in parts between two others.

use crate::parts::{has_truths, one_moment, split, whole_days};
use std::test::Fail;
use vx_array::ArrayRef;
use vx_base::Nullability::Nullable;
use vx_base::TimeUnit::{Milliseconds, Seconds};
use vx_base::{DType, Scalar, VortexError};
use vx_fixtures::{accepted, context, stamps, utc};
use vx_rules::BetweenOptions;

// Bounds that are strict or not.
fn strict(lower_strict: bool, upper_strict: bool) -> BetweenOptions {
    BetweenOptions {
        lower_strict,
        upper_strict,
    }
}

#[test]
fn strict_bounds_lie_outside(rt: HostRuntime) -> Result<(), Fail> {
    let alloc = rt.alloc();
    let mut ctx = context(alloc)?;
    let rows = [Some(-1_500), Some(-1), Some(0), Some(86_400_001)];
    let array = split(alloc, Milliseconds, &rows)?;
    let low = one_moment(alloc, Milliseconds, -1_500, 4)?;
    let high = one_moment(alloc, Milliseconds, 86_400_001, 4)?;
    let answers = [
        (
            strict(false, false),
            [Some(true), Some(true), Some(true), Some(true)],
        ),
        (
            strict(true, false),
            [Some(false), Some(true), Some(true), Some(true)],
        ),
        (
            strict(false, true),
            [Some(true), Some(true), Some(true), Some(false)],
        ),
        (
            strict(true, true),
            [Some(false), Some(true), Some(true), Some(false)],
        ),
    ];
    for (options, truths) in answers {
        let out = array.between(&low, &high, options, &mut ctx)?;
        assert!(rt; has_truths(&out, &truths) && out.dtype().is_nullable());
    }
    let out = array.between(&high, &low, strict(false, false), &mut ctx)?;
    assert!(rt; has_truths(&out, &[Some(false), Some(false), Some(false), Some(false)]));
    Ok(())
}

#[test]
fn bounds_past_32_bits_of_days(rt: HostRuntime) -> Result<(), Fail> {
    let alloc = rt.alloc();
    let mut ctx = context(alloc)?;
    let array = whole_days(alloc, &[-1, 0, 1])?;
    let low = one_moment(alloc, Seconds, i64::MIN, 3)?;
    let high = one_moment(alloc, Seconds, 0, 3)?;
    let out = array.between(&low, &high, strict(true, true), &mut ctx)?;
    assert!(rt; has_truths(&out, &[Some(true), Some(false), Some(false)]));
    Ok(())
}

#[test]
fn nulls_and_columns_as_bounds(rt: HostRuntime) -> Result<(), Fail> {
    let alloc = rt.alloc();
    let mut ctx = context(alloc)?;
    let array = split(alloc, Seconds, &[Some(5), None, Some(7)])?;
    let low = one_moment(alloc, Seconds, 0, 3)?;
    let high = one_moment(alloc, Seconds, 6, 3)?;
    let out = array.between(&low, &high, strict(false, false), &mut ctx)?;
    assert!(rt; has_truths(&out, &[Some(true), None, Some(false)]));
    let dtype = DType::timestamp(utc(alloc, Seconds)?, Nullable);
    let null = ArrayRef::constant(accepted(Scalar::null(dtype))?, 3);
    let out = array.between(&null, &high, strict(false, false), &mut ctx)?;
    assert!(rt; has_truths(&out, &[None, None, None]));
    let bounds = stamps(alloc, utc(alloc, Seconds)?, &[Some(5), Some(5), Some(8)])?;
    let out = array.between(&low, &bounds, strict(false, true), &mut ctx)?;
    assert!(rt; has_truths(&out, &[Some(false), None, Some(true)]));
    Ok(())
}

#[test]
fn bounds_in_parts(rt: HostRuntime) -> Result<(), Fail> {
    let alloc = rt.alloc();
    let mut ctx = context(alloc)?;
    let rows = [Some(86_400_001), Some(86_400_000), Some(-1), Some(5), None];
    let array = split(alloc, Milliseconds, &rows)?;
    let lows = [Some(86_400_001), Some(86_399_999), Some(0), None, Some(0)];
    let low = split(alloc, Milliseconds, &lows)?;
    let highs = [
        Some(86_401_000),
        Some(86_400_000),
        Some(1),
        Some(9),
        Some(9),
    ];
    let high = split(alloc, Milliseconds, &highs)?;
    let (low, high) = (low.as_array(), high.as_array());
    let out = array.between(low, high, strict(false, false), &mut ctx)?;
    assert!(rt; has_truths(&out, &[Some(true), Some(true), Some(false), None, None]));
    let out = array.between(low, high, strict(true, false), &mut ctx)?;
    assert!(rt; has_truths(&out, &[Some(false), Some(true), Some(false), None, None]));
    let out = array.between(low, high, strict(false, true), &mut ctx)?;
    assert!(rt; has_truths(&out, &[Some(true), Some(false), Some(false), None, None]));
    Ok(())
}

#[test]
fn other_bounds_are_refused(rt: HostRuntime) -> Result<(), Fail> {
    let alloc = rt.alloc();
    let mut ctx = context(alloc)?;
    let array = split(alloc, Seconds, &[Some(5), Some(7)])?;
    let low = one_moment(alloc, Seconds, 0, 2)?;
    let millis = one_moment(alloc, Milliseconds, 0, 2)?;
    let refused = array.between(&low, &millis, strict(false, false), &mut ctx);
    assert!(rt; matches!(refused, Err(VortexError::MismatchedTypes)));
    let long = one_moment(alloc, Seconds, 0, 3)?;
    let refused = array.between(&long, &low, strict(false, false), &mut ctx);
    assert!(rt; matches!(refused, Err(VortexError::LengthMismatch)));
    Ok(())
}
