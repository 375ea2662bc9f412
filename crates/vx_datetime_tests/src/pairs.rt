//! Timestamps in parts against others in parts.

use crate::parts::{days_with_nulls, has_truths, split, typed, whole_days};
use std::test::Fail;
use vx_base::PType::{I8, I16, I64, U8, U16, U32};
use vx_base::TimeUnit::{Milliseconds, Seconds};
use vx_base::VortexError;
use vx_fixtures::context;
use vx_rules::CompareOperator::{Eq, Gt, Gte, Lt, Lte, NotEq};

#[test]
fn a_day_in_seconds(rt: HostRuntime) -> Result<(), Fail> {
    let alloc = rt.alloc();
    let mut ctx = context(alloc)?;
    let day = split(alloc, Seconds, &[Some(86_400)])?;
    let same = split(alloc, Seconds, &[Some(86_400)])?;
    let out = day.compare(same.as_array(), Eq, &mut ctx)?;
    assert!(rt; has_truths(&out, &[Some(true)]) && !out.dtype().is_nullable());
    let epoch = split(alloc, Seconds, &[Some(0)])?;
    let out = day.compare(epoch.as_array(), Eq, &mut ctx)?;
    assert!(rt; has_truths(&out, &[Some(false)]) && !out.dtype().is_nullable());
    Ok(())
}

#[test]
fn each_operator(rt: HostRuntime) -> Result<(), Fail> {
    let alloc = rt.alloc();
    let mut ctx = context(alloc)?;
    // a lesser day with more seconds, a lesser second with more subseconds, equal, and before the epoch
    let rows = [
        Some(86_399_999),
        Some(86_400_999),
        Some(86_401_001),
        Some(-1),
    ];
    let others = [
        Some(86_400_000),
        Some(86_401_000),
        Some(86_401_001),
        Some(-86_400_001),
    ];
    let array = split(alloc, Milliseconds, &rows)?;
    let other = split(alloc, Milliseconds, &others)?;
    let answers = [
        (Eq, [Some(false), Some(false), Some(true), Some(false)]),
        (NotEq, [Some(true), Some(true), Some(false), Some(true)]),
        (Lt, [Some(true), Some(true), Some(false), Some(false)]),
        (Lte, [Some(true), Some(true), Some(true), Some(false)]),
        (Gt, [Some(false), Some(false), Some(false), Some(true)]),
        (Gte, [Some(false), Some(false), Some(true), Some(true)]),
    ];
    for (operator, truths) in answers {
        let out = array.compare(other.as_array(), operator, &mut ctx)?;
        assert!(rt; has_truths(&out, &truths));
    }
    Ok(())
}

#[test]
fn nulls_on_either_side(rt: HostRuntime) -> Result<(), Fail> {
    let alloc = rt.alloc();
    let mut ctx = context(alloc)?;
    let array = days_with_nulls(alloc, &[true, false, true, false], &[5, 5, 5, 5])?;
    let other = days_with_nulls(alloc, &[true, true, false, false], &[5, 5, 5, 5])?;
    let out = array.compare(other.as_array(), Eq, &mut ctx)?;
    assert!(rt; has_truths(&out, &[Some(true), None, None, None]));
    let plain = whole_days(alloc, &[1, 1, 2, 2])?;
    let out = plain.compare(other.as_array(), Lt, &mut ctx)?;
    assert!(rt; has_truths(&out, &[Some(true), Some(true), None, None]));
    assert!(rt; out.dtype().is_nullable());
    let out = other.compare(plain.as_array(), NotEq, &mut ctx)?;
    assert!(rt; has_truths(&out, &[Some(true), Some(true), None, None]));
    Ok(())
}

#[test]
fn parts_of_different_types(rt: HostRuntime) -> Result<(), Fail> {
    let alloc = rt.alloc();
    let mut ctx = context(alloc)?;
    let narrow = typed(alloc, (I8, U16, U8), &[-1, 0, 100], &[0, 7, 40_000])?;
    let wide = typed(alloc, (I64, U32, I16), &[-1, 256, 100], &[0, 7, 40_001])?;
    let out = narrow.compare(wide.as_array(), Eq, &mut ctx)?;
    assert!(rt; has_truths(&out, &[Some(true), Some(false), Some(false)]));
    let out = wide.compare(narrow.as_array(), Gt, &mut ctx)?;
    assert!(rt; has_truths(&out, &[Some(false), Some(true), Some(true)]));
    Ok(())
}

#[test]
fn other_units_and_lengths_are_refused(rt: HostRuntime) -> Result<(), Fail> {
    let alloc = rt.alloc();
    let mut ctx = context(alloc)?;
    let array = split(alloc, Seconds, &[Some(86_400), Some(1)])?;
    let millis = split(alloc, Milliseconds, &[Some(86_400), Some(1)])?;
    let refused = array.compare(millis.as_array(), Eq, &mut ctx);
    assert!(rt; matches!(refused, Err(VortexError::MismatchedTypes)));
    let long = split(alloc, Seconds, &[Some(86_400), Some(1), Some(2)])?;
    let refused = array.compare(long.as_array(), Eq, &mut ctx);
    assert!(rt; matches!(refused, Err(VortexError::LengthMismatch)));
    Ok(())
}
