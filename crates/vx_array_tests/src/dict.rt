//! Dictionaries: nulls of the codes and of the values, and constant codes.

use std::test::Fail;
use vx_array::ArrayRef;
use vx_base::Nullability::{NonNullable, Nullable};
use vx_base::PType::{I8, I16, U8, U32};
use vx_base::{Refused, Scalar, VortexError};
use vx_fixtures::{accepted, flat, has_rows, is_made_plain, with_nulls};

#[test]
fn a_row_is_null_by_its_code_or_its_value(rt: HostRuntime) -> Result<(), Fail> {
    // Beneath the null code stands a number out of bounds.
    let codes = with_nulls(rt.alloc(), U8, &[1, 9, 0, 2], &[true, false, true, true])?;
    let values = with_nulls(rt.alloc(), I16, &[300, 9, -7], &[true, false, true])?;
    let tree = accepted(ArrayRef::dict(rt.alloc(), codes, values))?;
    let rows = [None, None, Some(300), Some(-7)];
    assert!(rt; is_made_plain(rt.alloc(), &tree, (12, 9), &rows)?);
    Ok(())
}

#[test]
fn null_codes_need_no_values(rt: HostRuntime) -> Result<(), Fail> {
    let codes = with_nulls(rt.alloc(), I8, &[0, -1], &[false, false])?;
    let values = flat(rt.alloc(), U32, NonNullable, &[])?;
    let tree = accepted(ArrayRef::dict(rt.alloc(), codes, values))?;
    assert!(rt; has_rows(&tree.canonical(rt.alloc())?, &[None, None]));
    Ok(())
}

// The row limit. Decoded, so many codes would take more memory than a test should.
const MANY: u64 = 1 << 31;

#[test]
fn equal_codes_are_tested_once(rt: HostRuntime) -> Result<(), Fail> {
    let codes = ArrayRef::constant(Scalar::primitive(1, U8, Nullable)?, MANY);
    let values = flat(rt.alloc(), I16, NonNullable, &[300, -7])?;
    let tree = accepted(ArrayRef::dict(rt.alloc(), codes, values))?;
    let last = tree.scalar_at(rt.alloc(), MANY - 1)?.json(rt.alloc())?;
    assert!(rt; tree.len() == MANY && last.as_str() == "-7");
    Ok(())
}

#[test]
fn equal_codes_out_of_bounds_are_refused(rt: HostRuntime) -> Result<(), Fail> {
    let codes = ArrayRef::constant(Scalar::primitive(2, U8, Nullable)?, MANY);
    let values = flat(rt.alloc(), I16, NonNullable, &[300, -7])?;
    let made = ArrayRef::dict(rt.alloc(), codes, values);
    let is_refused = matches!(
        &made,
        Err(Refused {
            error: VortexError::OutOfBounds,
            ..
        })
    );
    assert!(rt; is_refused);
    Ok(())
}
