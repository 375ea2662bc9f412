//! Comparisons: each operator, nulls, constants on either side, encoded rows, and refusals; and negation.

use crate::columns::{by_codes, falling, has_truths, is_true_between, rising, truths, whole};
use std::test::Fail;
use vx_array::ArrayRef;
use vx_base::Nullability::{NonNullable, Nullable};
use vx_base::PType::{I8, I16, I32, I64, U8, U16, U32, U64};
use vx_base::{DType, Scalar, TimeUnit, VortexError};
use vx_fixtures::{accepted, context, flat, stamps, utc, with_nulls};
use vx_rows::CompareOperator::{Eq, Gt, Gte, Lt, Lte, NotEq};
use vx_rows::{compare, compare_scalar, not};

#[test]
fn each_operator_holds_where_it_does(rt: HostRuntime) -> Result<(), Fail> {
    let alloc = rt.alloc();
    let mut ctx = context(alloc)?;
    let column = flat(alloc, I64, NonNullable, &[-1, 3, 7])?;
    let three = whole(3, I64, NonNullable)?;
    let answers = [
        (Eq, [Some(false), Some(true), Some(false)]),
        (NotEq, [Some(true), Some(false), Some(true)]),
        (Lt, [Some(true), Some(false), Some(false)]),
        (Lte, [Some(true), Some(true), Some(false)]),
        (Gt, [Some(false), Some(false), Some(true)]),
        (Gte, [Some(false), Some(true), Some(true)]),
    ];
    for (operator, rows) in answers {
        let out = compare_scalar(&column, &three, operator, &mut ctx)?;
        assert!(rt; has_truths(&out, &rows) && !out.dtype().is_nullable());
    }
    Ok(())
}

#[test]
fn null_is_equal_to_nothing_and_no_least_value(rt: HostRuntime) -> Result<(), Fail> {
    let alloc = rt.alloc();
    let mut ctx = context(alloc)?;
    let column = with_nulls(alloc, I32, &[4, 4, 9], &[true, false, true])?;
    let others = with_nulls(alloc, I32, &[4, 9, 9], &[true, true, false])?;
    let out = compare(&column, &others, Lt, &mut ctx)?;
    assert!(rt; has_truths(&out, &[Some(false), None, None]));
    let out = compare(&column, &column, Eq, &mut ctx)?;
    assert!(rt; has_truths(&out, &[Some(true), None, Some(true)]));
    let null = accepted(Scalar::null(DType::primitive(I32, Nullable)))?;
    let out = compare_scalar(&column, &null, NotEq, &mut ctx)?;
    assert!(rt; has_truths(&out, &[None, None, None]));
    Ok(())
}

#[test]
fn a_number_out_of_the_range_of_a_type_is_not_in_it(rt: HostRuntime) -> Result<(), Fail> {
    let alloc = rt.alloc();
    let mut ctx = context(alloc)?;
    let column = flat(alloc, U8, NonNullable, &[0, 255])?;
    let above = ArrayRef::constant(whole(255, U8, Nullable)?, 2);
    let out = compare(&above, &column, Gte, &mut ctx)?;
    assert!(rt; has_truths(&out, &[Some(true), Some(true)]) && out.dtype().is_nullable());
    let both = compare(&above, &above, Lt, &mut ctx)?;
    assert!(rt; has_truths(&both, &[Some(false), Some(false)]));
    Ok(())
}

#[test]
fn encoded_rows_are_compared(rt: HostRuntime) -> Result<(), Fail> {
    let alloc = rt.alloc();
    let mut ctx = context(alloc)?;
    let out = compare_scalar(
        &by_codes(alloc)?,
        &whole(5, I32, NonNullable)?,
        Gt,
        &mut ctx,
    )?;
    assert!(rt; has_truths(&out, &[Some(false), None, Some(false), Some(true), None]));
    Ok(())
}

#[test]
fn integers_of_each_kind_are_compared(rt: HostRuntime) -> Result<(), Fail> {
    let alloc = rt.alloc();
    let mut ctx = context(alloc)?;
    for ptype in [U8, U16, U32, U64, I8, I16, I32, I64] {
        let column = flat(alloc, ptype, NonNullable, &[1, 100, 7])?;
        let others = flat(alloc, ptype, NonNullable, &[2, 99, 7])?;
        let out = compare(&column, &others, Lt, &mut ctx)?;
        assert!(rt; has_truths(&out, &[Some(true), Some(false), Some(false)]));
        let out = compare_scalar(&column, &whole(7, ptype, NonNullable)?, NotEq, &mut ctx)?;
        assert!(rt; has_truths(&out, &[Some(true), Some(true), Some(false)]));
    }
    Ok(())
}

#[test]
fn rows_of_several_blocks_are_compared(rt: HostRuntime) -> Result<(), Fail> {
    let alloc = rt.alloc();
    let mut ctx = context(alloc)?;
    let column = rising(alloc)?;
    let out = compare_scalar(&column, &whole(1_030, U16, NonNullable)?, Gte, &mut ctx)?;
    assert!(rt; out.len() == 2_050 && is_true_between(&out, 1_030, 2_050));
    let out = compare(&column, &falling(alloc)?, Lt, &mut ctx)?;
    assert!(rt; out.len() == 2_050 && is_true_between(&out, 0, 1_025));
    Ok(())
}

#[test]
fn timestamps_are_compared_as_numbers(rt: HostRuntime) -> Result<(), Fail> {
    let alloc = rt.alloc();
    let mut ctx = context(alloc)?;
    let seconds = utc(alloc, TimeUnit::Seconds)?;
    let column = stamps(alloc, seconds, &[Some(-1), None, Some(86_400)])?;
    let seconds = utc(alloc, TimeUnit::Seconds)?;
    let others = stamps(alloc, seconds, &[Some(0), Some(0), Some(86_400)])?;
    let out = compare(&column, &others, Lt, &mut ctx)?;
    assert!(rt; has_truths(&out, &[Some(true), None, Some(false)]));
    let other = utc(alloc, TimeUnit::Milliseconds)?;
    let millis = stamps(alloc, other, &[Some(0), Some(0), Some(0)])?;
    assert!(rt;
        matches!(
            compare(&column, &millis, Lt, &mut ctx),
            Err(VortexError::MismatchedTypes)
        )
    );
    Ok(())
}

#[test]
fn columns_of_two_types_or_lengths_are_not_compared(rt: HostRuntime) -> Result<(), Fail> {
    let alloc = rt.alloc();
    let mut ctx = context(alloc)?;
    let two = flat(alloc, I32, NonNullable, &[1, 2])?;
    let three = flat(alloc, I32, NonNullable, &[1, 2, 3])?;
    let wide = flat(alloc, I64, NonNullable, &[1, 2])?;
    assert!(rt;
        matches!(
            compare(&two, &three, Eq, &mut ctx),
            Err(VortexError::LengthMismatch)
        )
    );
    assert!(rt;
        matches!(
            compare(&three, &wide, Eq, &mut ctx),
            Err(VortexError::MismatchedTypes)
        )
    );
    let nulls = ArrayRef::null(2);
    assert!(rt;
        matches!(
            compare(&nulls, &nulls, Eq, &mut ctx),
            Err(VortexError::MismatchedTypes)
        )
    );
    Ok(())
}

#[test]
fn no_rows_are_compared(rt: HostRuntime) -> Result<(), Fail> {
    let alloc = rt.alloc();
    let mut ctx = context(alloc)?;
    let none = flat(alloc, I32, NonNullable, &[])?;
    assert!(rt; has_truths(&compare(&none, &none, Eq, &mut ctx)?, &[]));
    Ok(())
}

#[test]
fn truth_values_are_negated(rt: HostRuntime) -> Result<(), Fail> {
    let alloc = rt.alloc();
    let mut ctx = context(alloc)?;
    let column = truths(alloc, &[Some(false), None, Some(true)])?;
    assert!(rt; has_truths(&not(&column, &mut ctx)?, &[Some(true), None, Some(false)]));
    let constant = ArrayRef::constant(Scalar::bool(false, NonNullable), 2);
    assert!(rt; has_truths(&not(&constant, &mut ctx)?, &[Some(true), Some(true)]));
    let number = flat(alloc, U8, NonNullable, &[1])?;
    assert!(rt; matches!(not(&number, &mut ctx), Err(VortexError::MismatchedTypes)));
    Ok(())
}
