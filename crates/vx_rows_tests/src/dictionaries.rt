//! What is answered of dictionaries, by the values that their codes name.

use crate::calls::{is_constant, min_max, null_count};
use crate::columns::{is_text, lie_between, texts, whole};
use std::alloc::Global;
use std::test::Fail;
use vx_array::ArrayRef;
use vx_base::Nullability::NonNullable;
use vx_base::PType::{I32, U8, U16};
use vx_base::VortexResult;
use vx_fixtures::{accepted, flat, with_nulls};

// Integers by codes without nulls.
fn of_codes(alloc: Global, codes: &[i128], values: ArrayRef) -> VortexResult<ArrayRef> {
    accepted(ArrayRef::dict(alloc, flat(alloc, U8, NonNullable, codes)?, values))
}

#[test]
fn a_value_that_no_code_names_is_not_weighed(rt: HostRuntime) -> Result<(), Fail> {
    let alloc = rt.alloc();
    let some = of_codes(
        alloc,
        &[1, 2, 1, 2],
        flat(alloc, I32, NonNullable, &[-100, 5, 9, 100])?,
    )?;
    assert!(rt; lie_between(&min_max(alloc, &some)?, 5, 9));
    assert!(rt; !is_constant(alloc, &some)? && null_count(alloc, &some)? == 0);
    let one = of_codes(
        alloc,
        &[2, 2, 2, 2],
        with_nulls(alloc, I32, &[7, 8, 9], &[false, true, true])?,
    )?;
    assert!(rt; lie_between(&min_max(alloc, &one)?, 9, 9));
    assert!(rt; is_constant(alloc, &one)? && null_count(alloc, &one)? == 0);
    Ok(())
}

#[test]
fn null_codes_and_null_values_are_null_rows(rt: HostRuntime) -> Result<(), Fail> {
    let alloc = rt.alloc();
    let values = with_nulls(alloc, I32, &[4, 0, 9], &[true, false, true])?;
    let codes = with_nulls(
        alloc,
        U16,
        &[0, 1, 200, 2, 1],
        &[true, true, false, true, true],
    )?;
    let both = accepted(ArrayRef::dict(alloc, codes, values))?;
    assert!(rt; null_count(alloc, &both)? == 3 && !is_constant(alloc, &both)?);
    assert!(rt; lie_between(&min_max(alloc, &both)?, 4, 9));
    let values = with_nulls(alloc, I32, &[4, 0], &[true, false])?;
    let codes = with_nulls(alloc, U8, &[1, 0, 1], &[true, false, true])?;
    let nulls = accepted(ArrayRef::dict(alloc, codes, values))?;
    assert!(rt; null_count(alloc, &nulls)? == 3 && is_constant(alloc, &nulls)?);
    assert!(rt; min_max(alloc, &nulls)?.is_none());
    Ok(())
}

#[test]
fn a_null_among_equal_rows_is_seen(rt: HostRuntime) -> Result<(), Fail> {
    let alloc = rt.alloc();
    let codes = with_nulls(alloc, U8, &[0, 0, 0], &[true, true, false])?;
    let last = accepted(ArrayRef::dict(alloc, codes, flat(alloc, I32, NonNullable, &[6])?))?;
    assert!(rt; !is_constant(alloc, &last)? && null_count(alloc, &last)? == 1);
    let codes = with_nulls(alloc, U8, &[0, 0, 0], &[false, true, true])?;
    let first = accepted(ArrayRef::dict(alloc, codes, flat(alloc, I32, NonNullable, &[6])?))?;
    assert!(rt; !is_constant(alloc, &first)? && lie_between(&min_max(alloc, &first)?, 6, 6));
    let value = of_codes(
        alloc,
        &[0, 0, 1],
        with_nulls(alloc, I32, &[6, 6], &[true, false])?,
    )?;
    assert!(rt; !is_constant(alloc, &value)? && null_count(alloc, &value)? == 1);
    Ok(())
}

#[test]
fn repeated_values_are_equal(rt: HostRuntime) -> Result<(), Fail> {
    let alloc = rt.alloc();
    let values = ["pear", "apple", "pear", "zest"];
    let same = of_codes(alloc, &[0, 2, 2, 0], texts(alloc, &values)?)?;
    assert!(rt; is_constant(alloc, &same)?);
    let others = of_codes(alloc, &[0, 2, 1, 0], texts(alloc, &values)?)?;
    assert!(rt; !is_constant(alloc, &others)?);
    let Some((least, greatest)) = min_max(alloc, &others)? else {
        assert!(rt; false);
        return Ok(());
    };
    assert!(rt; is_text(&least, "apple") && is_text(&greatest, "pear"));
    Ok(())
}

#[test]
fn few_rows_of_many_values_are_decoded(rt: HostRuntime) -> Result<(), Fail> {
    let alloc = rt.alloc();
    let values = flat(alloc, I32, NonNullable, &[1, 2, 3])?;
    let none = of_codes(alloc, &[], values)?;
    assert!(rt; !is_constant(alloc, &none)? && null_count(alloc, &none)? == 0);
    assert!(rt; min_max(alloc, &none)?.is_none());
    let values = flat(alloc, I32, NonNullable, &[1, 2, 3])?;
    let few = of_codes(alloc, &[2, 1], values)?;
    assert!(rt; !is_constant(alloc, &few)? && lie_between(&min_max(alloc, &few)?, 2, 3));
    Ok(())
}

#[test]
fn one_code_may_stand_for_all_rows(rt: HostRuntime) -> Result<(), Fail> {
    let alloc = rt.alloc();
    let codes = ArrayRef::constant(whole(1, U8, NonNullable)?, 5);
    let values = flat(alloc, I32, NonNullable, &[1, 2, 3])?;
    let same = accepted(ArrayRef::dict(alloc, codes, values))?;
    assert!(rt; is_constant(alloc, &same)? && lie_between(&min_max(alloc, &same)?, 2, 2));
    assert!(rt; null_count(alloc, &same)? == 0);
    Ok(())
}
