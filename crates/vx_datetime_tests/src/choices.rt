//! Rows of timestamps in parts, chosen by position.

use std::alloc::Global;
use std::test::Fail;
use vx_array::ArrayRef;
use vx_base::TimeUnit::Milliseconds;
use vx_base::{ArrayId, Scalar, VortexError, VortexResult};
use vx_datetime::{DateTimeParts, DateTimePartsArray};
use vx_fixtures::{bits, context, has_stamps, stamps, utc};

// Milliseconds of both signs, on several days, with and without rests, and a null.
const ROWS: [Option<i128>; 5] = [
    Some(86_400_001),
    None,
    Some(-1),
    Some(172_800_000),
    Some(-86_401_500),
];

// An array of those rows.
fn moments(alloc: Global) -> VortexResult<DateTimePartsArray> {
    let column = stamps(alloc, utc(alloc, Milliseconds)?, &ROWS)?;
    DateTimeParts::try_from_temporal(&column, &mut context(alloc)?)
}

// Whether a tree is in parts, of the array's type and with these rows.
fn has_parts(tree: &ArrayRef, array: &DateTimePartsArray, rows: &[Option<i128>]) -> bool {
    let is_alike = *tree.dtype() == *array.as_array().dtype();
    is_alike && tree.encoding_id() == ArrayId::DateTimeParts && has_stamps(tree, rows)
}

#[test]
fn rows_of_a_range(rt: HostRuntime) -> Result<(), Fail> {
    let alloc = rt.alloc();
    let array = moments(alloc)?;
    let mut ctx = context(alloc)?;
    let part = array.slice(1, 4, &mut ctx)?;
    assert!(rt; has_parts(&part, &array, &[None, Some(-1), Some(172_800_000)]));
    let none = array.slice(5, 5, &mut ctx)?;
    assert!(rt; has_parts(&none, &array, &[]));
    let all = array.slice(0, 5, &mut ctx)?;
    assert!(rt; has_parts(&all, &array, &ROWS));
    Ok(())
}

#[test]
fn ranges_out_of_bounds(rt: HostRuntime) -> Result<(), Fail> {
    let alloc = rt.alloc();
    let array = moments(alloc)?;
    let mut ctx = context(alloc)?;
    let long = array.slice(4, 6, &mut ctx);
    assert!(rt; matches!(long, Err(VortexError::OutOfBounds)));
    let turned = array.slice(3, 2, &mut ctx);
    assert!(rt; matches!(turned, Err(VortexError::OutOfBounds)));
    Ok(())
}

#[test]
fn rows_of_a_mask(rt: HostRuntime) -> Result<(), Fail> {
    let alloc = rt.alloc();
    let array = moments(alloc)?;
    let mut ctx = context(alloc)?;
    let keep = bits(alloc, &[true, false, true, false, true])?;
    let kept = array.filter(&keep, &mut ctx)?;
    let rows = [Some(86_400_001), Some(-1), Some(-86_401_500)];
    assert!(rt; has_parts(&kept, &array, &rows));
    let short = bits(alloc, &[true, false])?;
    let refused = array.filter(&short, &mut ctx);
    assert!(rt; matches!(refused, Err(VortexError::LengthMismatch)));
    Ok(())
}

#[test]
fn rows_beneath_a_mask(rt: HostRuntime) -> Result<(), Fail> {
    let alloc = rt.alloc();
    let column = stamps(
        alloc,
        utc(alloc, Milliseconds)?,
        &[Some(5), Some(-86_400_001)],
    )?;
    let mut ctx = context(alloc)?;
    let array = DateTimeParts::try_from_temporal(&column, &mut ctx)?;
    let masked = array.mask(&bits(alloc, &[false, true])?, &mut ctx)?;
    assert!(rt; masked.encoding_id() == ArrayId::DateTimeParts && masked.dtype().is_nullable());
    assert!(rt; has_stamps(&masked, &[None, Some(-86_400_001)]));
    let short = array.mask(&bits(alloc, &[true])?, &mut ctx);
    assert!(rt; matches!(short, Err(VortexError::LengthMismatch)));
    Ok(())
}

// Whether a scalar is this number of units, None for null.
fn is_moment(scalar: &Scalar, moment: Option<i128>) -> bool {
    if !scalar.dtype().is_flat() {
        return false;
    }
    scalar.cell().integer() == moment
}

#[test]
fn a_single_row(rt: HostRuntime) -> Result<(), Fail> {
    let alloc = rt.alloc();
    let array = moments(alloc)?;
    let mut ctx = context(alloc)?;
    let row = array.scalar_at(4, &mut ctx)?;
    assert!(rt; *row.dtype() == *array.as_array().dtype());
    assert!(rt; is_moment(&row, Some(-86_401_500)));
    let absent = array.scalar_at(1, &mut ctx)?;
    assert!(rt; is_moment(&absent, None));
    let outside = array.scalar_at(5, &mut ctx);
    assert!(rt; matches!(outside, Err(VortexError::OutOfBounds)));
    Ok(())
}
