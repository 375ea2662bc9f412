//! What is answered of a whole column: constancy, least and greatest, nulls and sums.

use crate::calls::{is_constant, min_max, null_count, sum};
use crate::columns::{by_codes, is_text, lie_between, structs, texts_with_nulls, truths, whole};
use std::test::Fail;
use vx_array::ArrayRef;
use vx_base::Nullability::{NonNullable, Nullable};
use vx_base::PType::{I8, I32, I64, U8, U64};
use vx_base::{DType, PType, Scalar, VortexError};
use vx_fixtures::{accepted, flat, with_nulls};

#[test]
fn no_rows_are_not_constant(rt: HostRuntime) -> Result<(), Fail> {
    let alloc = rt.alloc();
    assert!(rt; !is_constant(alloc, &flat(alloc, I32, NonNullable, &[])?)?);
    let constant = ArrayRef::constant(whole(1, I32, NonNullable)?, 0);
    assert!(rt; !is_constant(alloc, &constant)? && !is_constant(alloc, &ArrayRef::null(0))?);
    Ok(())
}

#[test]
fn equal_rows_are_constant(rt: HostRuntime) -> Result<(), Fail> {
    let alloc = rt.alloc();
    assert!(rt; is_constant(alloc, &flat(alloc, I32, NonNullable, &[4, 4, 4])?)?);
    assert!(rt; !is_constant(alloc, &flat(alloc, I32, NonNullable, &[4, 4, 5])?)?);
    assert!(rt; !is_constant(alloc, &with_nulls(alloc, I32, &[4, 4], &[true, false])?)?);
    assert!(rt; is_constant(alloc, &with_nulls(alloc, I32, &[4, 5], &[false, false])?)?);
    assert!(rt; is_constant(alloc, &ArrayRef::null(2))? && !is_constant(alloc, &structs(alloc)?)?);
    assert!(rt; is_constant(alloc, &truths(alloc, &[Some(true), Some(true)])?)?);
    Ok(())
}

#[test]
fn least_and_greatest_leave_nulls_out(rt: HostRuntime) -> Result<(), Fail> {
    let alloc = rt.alloc();
    let column = flat(alloc, I64, NonNullable, &[3, -7, 12, 5])?;
    assert!(rt; lie_between(&min_max(alloc, &column)?, -7, 12));
    let column = with_nulls(alloc, I8, &[-100, 4, 9, 100], &[false, true, true, false])?;
    assert!(rt; lie_between(&min_max(alloc, &column)?, 4, 9));
    // The first valid value is neither of them.
    let column = with_nulls(
        alloc,
        I8,
        &[-9, 8, 7, 99, 9],
        &[false, true, true, false, true],
    )?;
    assert!(rt; lie_between(&min_max(alloc, &column)?, 7, 9));
    assert!(rt; lie_between(&min_max(alloc, &by_codes(alloc)?)?, 5, 9));
    let constant = ArrayRef::constant(whole(6, U8, Nullable)?, 9);
    assert!(rt; lie_between(&min_max(alloc, &constant)?, 6, 6));
    let nulls = with_nulls(alloc, I32, &[4, 5], &[false, false])?;
    assert!(rt; min_max(alloc, &nulls)?.is_none());
    Ok(())
}

#[test]
fn texts_have_a_least_and_a_greatest(rt: HostRuntime) -> Result<(), Fail> {
    let alloc = rt.alloc();
    let rows = ["pear", "apple", "apples", ""];
    let column = texts_with_nulls(alloc, &rows, &[true, true, true, false])?;
    let Some((least, greatest)) = min_max(alloc, &column)? else {
        assert!(rt; false);
        return Ok(());
    };
    assert!(rt; is_text(&least, "apple") && is_text(&greatest, "pear"));
    let nested = min_max(alloc, &structs(alloc)?);
    assert!(rt; matches!(nested, Err(VortexError::MismatchedTypes)));
    Ok(())
}

#[test]
fn nulls_are_counted_of_every_type(rt: HostRuntime) -> Result<(), Fail> {
    let alloc = rt.alloc();
    let column = with_nulls(alloc, I32, &[1, 2, 3], &[false, true, false])?;
    assert!(rt; null_count(alloc, &column)? == 2 && null_count(alloc, &ArrayRef::null(4))? == 4);
    assert!(rt; null_count(alloc, &structs(alloc)?)? == 1);
    assert!(rt; null_count(alloc, &by_codes(alloc)?)? == 2);
    let null = accepted(Scalar::null(DType::primitive(I32, Nullable)))?;
    assert!(rt; null_count(alloc, &ArrayRef::constant(null, 3))? == 3);
    assert!(rt; null_count(alloc, &flat(alloc, I32, NonNullable, &[])?)? == 0);
    Ok(())
}

// Whether a scalar is this number of a nullable type, None of null.
fn is_whole(scalar: &Scalar, ptype: PType, value: Option<i128>) -> bool {
    match scalar.dtype() {
        DType::Primitive(own, nullability) if *own == ptype && nullability.allows_null() => {
            scalar.integer() == value
        }
        _ => false,
    }
}

#[test]
fn sums_are_exact_and_then_held(rt: HostRuntime) -> Result<(), Fail> {
    let alloc = rt.alloc();
    let most = i64::MAX as i128;
    let over = flat(alloc, I64, NonNullable, &[most, 1, -1])?;
    assert!(rt; is_whole(&sum(alloc, &over)?, I64, Some(most)));
    let over = flat(alloc, I64, NonNullable, &[most, 1])?;
    assert!(rt; is_whole(&sum(alloc, &over)?, I64, None));
    let over = flat(alloc, U64, NonNullable, &[u64::MAX as i128, 1])?;
    assert!(rt; is_whole(&sum(alloc, &over)?, U64, None));
    let small = flat(alloc, I8, NonNullable, &[-100, -100])?;
    assert!(rt; is_whole(&sum(alloc, &small)?, I64, Some(-200)));
    Ok(())
}

#[test]
fn nulls_add_nothing_and_truth_values_count(rt: HostRuntime) -> Result<(), Fail> {
    let alloc = rt.alloc();
    let column = with_nulls(alloc, U8, &[250, 9, 250], &[true, false, true])?;
    assert!(rt; is_whole(&sum(alloc, &column)?, U64, Some(500)));
    assert!(rt; is_whole(&sum(alloc, &by_codes(alloc)?)?, I64, Some(19)));
    let column = truths(alloc, &[Some(true), None, Some(true), Some(false)])?;
    assert!(rt; is_whole(&sum(alloc, &column)?, U64, Some(2)));
    let constant = ArrayRef::constant(whole(-3, I32, NonNullable)?, 5);
    assert!(rt; is_whole(&sum(alloc, &constant)?, I64, Some(-15)));
    assert!(rt;
        is_whole(
            &sum(alloc, &flat(alloc, U8, NonNullable, &[])?)?,
            U64,
            Some(0)
        )
    );
    let nested = sum(alloc, &structs(alloc)?);
    assert!(rt; matches!(nested, Err(VortexError::MismatchedTypes)));
    Ok(())
}
