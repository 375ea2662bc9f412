//! Timestamps in parts against one timestamp and plain columns.

use crate::parts::{days_with_nulls, has_truths, one_moment, split, whole_days};
use std::test::Fail;
use vx_array::ArrayRef;
use vx_base::Nullability::{NonNullable, Nullable};
use vx_base::PType::I64;
use vx_base::TimeUnit::{Milliseconds, Seconds};
use vx_base::{DType, Scalar, VortexError};
use vx_fixtures::{accepted, context, flat, stamps, utc};
use vx_rules::CompareOperator::{Eq, Gt, Gte, Lt, Lte, NotEq};

#[test]
fn whole_days_against_a_day(rt: HostRuntime) -> Result<(), Fail> {
    let alloc = rt.alloc();
    let mut ctx = context(alloc)?;
    let array = whole_days(alloc, &[0, 1, 2])?;
    let day = one_moment(alloc, Seconds, 86_400, 3)?;
    let out = array.compare(&day, Lte, &mut ctx)?;
    assert!(rt; has_truths(&out, &[Some(true), Some(true), Some(false)]));
    assert!(rt; out.dtype().is_nullable());
    Ok(())
}

#[test]
fn seconds_and_subseconds_count_where_days_are_equal(rt: HostRuntime) -> Result<(), Fail> {
    let alloc = rt.alloc();
    let mut ctx = context(alloc)?;
    let rows = [Some(86_400_999), Some(86_401_000), Some(86_401_001)];
    let array = split(alloc, Milliseconds, &rows)?;
    let middle = one_moment(alloc, Milliseconds, 86_401_000, 3)?;
    let answers = [
        (Eq, [Some(false), Some(true), Some(false)]),
        (NotEq, [Some(true), Some(false), Some(true)]),
        (Lt, [Some(true), Some(false), Some(false)]),
        (Lte, [Some(true), Some(true), Some(false)]),
        (Gt, [Some(false), Some(false), Some(true)]),
        (Gte, [Some(false), Some(true), Some(true)]),
    ];
    for (operator, truths) in answers {
        let out = array.compare(&middle, operator, &mut ctx)?;
        assert!(rt; has_truths(&out, &truths));
    }
    Ok(())
}

#[test]
fn timestamps_before_the_epoch(rt: HostRuntime) -> Result<(), Fail> {
    let alloc = rt.alloc();
    let mut ctx = context(alloc)?;
    let rows = [Some(-86_400_001), Some(-1_500), Some(-1), Some(0), Some(1)];
    let array = split(alloc, Milliseconds, &rows)?;
    let early = one_moment(alloc, Milliseconds, -1_500, 5)?;
    let out = array.compare(&early, Lte, &mut ctx)?;
    assert!(rt;
        has_truths(
            &out,
            &[
                Some(true),
                Some(true),
                Some(false),
                Some(false),
                Some(false)
            ]
        )
    );
    let late = one_moment(alloc, Milliseconds, -1, 5)?;
    let out = array.compare(&late, Gt, &mut ctx)?;
    assert!(rt;
        has_truths(
            &out,
            &[
                Some(false),
                Some(false),
                Some(false),
                Some(true),
                Some(true)
            ]
        )
    );
    Ok(())
}

#[test]
fn days_past_32_bits(rt: HostRuntime) -> Result<(), Fail> {
    let alloc = rt.alloc();
    let mut ctx = context(alloc)?;
    let array = split(alloc, Seconds, &[Some(-86_400), Some(0), Some(86_401)])?;
    let all = [Some(true), Some(true), Some(true)];
    let none = [Some(false), Some(false), Some(false)];
    let late = one_moment(alloc, Seconds, i64::MAX, 3)?;
    assert!(rt; has_truths(&array.compare(&late, Lt, &mut ctx)?, &all));
    assert!(rt; has_truths(&array.compare(&late, Gte, &mut ctx)?, &none));
    let early = one_moment(alloc, Seconds, i64::MIN, 3)?;
    assert!(rt; has_truths(&array.compare(&early, Gt, &mut ctx)?, &all));
    assert!(rt; has_truths(&array.compare(&early, Eq, &mut ctx)?, &none));
    // 2^32 days and a second: the low 32 bits of its days are those of the second row
    let wrapped = one_moment(alloc, Seconds, 371_085_174_374_401, 3)?;
    assert!(rt; has_truths(&array.compare(&wrapped, Lt, &mut ctx)?, &all));
    Ok(())
}

#[test]
fn null_is_neither_equal_nor_unequal(rt: HostRuntime) -> Result<(), Fail> {
    let alloc = rt.alloc();
    let mut ctx = context(alloc)?;
    let array = days_with_nulls(alloc, &[true, false, true], &[5, 5, 6])?;
    let moment = one_moment(alloc, Seconds, 86_405, 3)?;
    let out = array.compare(&moment, Eq, &mut ctx)?;
    assert!(rt; has_truths(&out, &[Some(true), None, Some(false)]));
    let dtype = DType::timestamp(utc(alloc, Seconds)?, Nullable);
    let null = ArrayRef::constant(accepted(Scalar::null(dtype))?, 3);
    let out = array.compare(&null, NotEq, &mut ctx)?;
    assert!(rt; has_truths(&out, &[None, None, None]));
    Ok(())
}

#[test]
fn plain_timestamps(rt: HostRuntime) -> Result<(), Fail> {
    let alloc = rt.alloc();
    let mut ctx = context(alloc)?;
    let array = split(alloc, Seconds, &[Some(86_400)])?;
    let plain = stamps(alloc, utc(alloc, Seconds)?, &[Some(86_401)])?;
    let out = array.compare(&plain, Lt, &mut ctx)?;
    assert!(rt; has_truths(&out, &[Some(true)]) && !out.dtype().is_nullable());
    let null = stamps(alloc, utc(alloc, Seconds)?, &[None])?;
    let out = array.compare(&null, Lt, &mut ctx)?;
    assert!(rt; has_truths(&out, &[None]));
    Ok(())
}

#[test]
fn other_types_and_lengths(rt: HostRuntime) -> Result<(), Fail> {
    let alloc = rt.alloc();
    let mut ctx = context(alloc)?;
    let array = split(alloc, Seconds, &[Some(86_400), Some(1)])?;
    let integers = flat(alloc, I64, NonNullable, &[86_400, 1])?;
    let refused = array.compare(&integers, Eq, &mut ctx);
    assert!(rt; matches!(refused, Err(VortexError::MismatchedTypes)));
    let millis = one_moment(alloc, Milliseconds, 86_400, 2)?;
    let refused = array.compare(&millis, Eq, &mut ctx);
    assert!(rt; matches!(refused, Err(VortexError::MismatchedTypes)));
    let long = one_moment(alloc, Seconds, 86_400, 3)?;
    let refused = array.compare(&long, Eq, &mut ctx);
    assert!(rt; matches!(refused, Err(VortexError::LengthMismatch)));
    Ok(())
}
