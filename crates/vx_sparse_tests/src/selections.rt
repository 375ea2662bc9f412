//! Filters, rows taken by number, and masks of sparse arrays.

use crate::columns::{FORMS, Form, holes, lists, s_over};
use std::alloc::Global;
use std::test::Fail;
use vx_array::ArrayRef;
use vx_base::Nullability::NonNullable;
use vx_base::PType::{I8, U8};
use vx_base::{ArrayId, VortexError, VortexResult};
use vx_fixtures::{accepted, bits, context, flat, has_rows, has_wholes, with_nulls};
use vx_sparse::{SparseArray, SparseKernels};

// 33, null, null, 44, null, null, 55.
fn threes(alloc: Global, form: Form) -> VortexResult<SparseArray> {
    holes(
        alloc,
        form,
        (&[0, 3, 6], &[Some(33), Some(44), Some(55)]),
        7,
        None,
    )
}

fn filtered(alloc: Global, array: &SparseArray, keep: &[bool]) -> VortexResult<ArrayRef> {
    array.filter(&bits(alloc, keep)?, &mut context(alloc)?)
}

// Patches that are kept and others, in all rows and in some.
fn are_filtered(alloc: Global, form: Form) -> VortexResult<bool> {
    let keep = [false, true, false, true, false, true, true];
    let some = filtered(alloc, &threes(alloc, form)?, &keep)?;
    let two = has_rows(&some, &[None, Some(44), None, Some(55)]);
    let whole = filtered(alloc, &s_over(alloc, form, 1)?, &[true; 8])?;
    let all = has_wholes(&whole, &[1, 10, 1, 20, 1, 30, 1, 1]);
    let patches = [false, true, false, true, false, true, false, false];
    let alone = filtered(alloc, &s_over(alloc, form, 1)?, &patches)?;
    Ok(two && all && some.encoding_id() == ArrayId::Sparse && has_wholes(&alone, &[10, 20, 30]))
}

// Whether a filter that keeps no patch is a Constant of these rows.
fn is_filled(
    alloc: Global,
    array: &SparseArray,
    keep: &[bool],
    rows: &[i128],
) -> VortexResult<bool> {
    let out = filtered(alloc, array, keep)?;
    Ok(out.encoding_id() == ArrayId::Constant && has_wholes(&out, rows))
}

fn are_fills(alloc: Global, array: &SparseArray) -> VortexResult<bool> {
    let keep = [true, false, true, false, false, false, false, true];
    let some = is_filled(alloc, array, &keep, &[1, 1, 1])?;
    Ok(some && is_filled(alloc, array, &[false; 8], &[])?)
}

// Whether a mask of another length is refused.
fn is_no_filter(alloc: Global, array: &SparseArray, keep: &[bool]) -> VortexResult<bool> {
    Ok(filtered(alloc, array, keep).err() == Some(VortexError::LengthMismatch))
}

#[test]
fn filters_keep_patches_and_fills(rt: HostRuntime) -> Result<(), Fail> {
    for form in FORMS {
        let array = s_over(rt.alloc(), form, 1)?;
        assert!(rt; are_filtered(rt.alloc(), form)?);
        assert!(rt; are_fills(rt.alloc(), &array)?);
        assert!(rt; is_no_filter(rt.alloc(), &array, &[true; 7])?);
        assert!(rt; is_no_filter(rt.alloc(), &array, &[true; 9])?);
    }
    Ok(())
}

// Whether every other row of the rows 2 to 7, whose patches have an offset, is kept.
fn is_filtered_within(alloc: Global, array: &SparseArray) -> VortexResult<bool> {
    let outer = array.slice(2, 8, &mut context(alloc)?)?;
    match SparseArray::from_array(outer) {
        Ok(outer) => {
            let keep = [false, true, false, true, false, true];
            Ok(has_wholes(&filtered(alloc, &outer, &keep)?, &[20, 30, 1]))
        }
        Err(_) => Ok(false),
    }
}

// Whether the second and the fourth of four lists are kept.
fn are_lists_filtered(alloc: Global, array: &SparseArray) -> VortexResult<bool> {
    let out = filtered(alloc, array, &[false, true, false, true])?;
    let first = out.scalar_at(alloc, 0)?.json(alloc)?;
    let second = out.scalar_at(alloc, 1)?.json(alloc)?;
    Ok(out.len() == 2 && first.as_str() == "[7,8]" && second.as_str() == "[7]")
}

#[test]
fn filters_of_slices_and_of_lists(rt: HostRuntime) -> Result<(), Fail> {
    for form in FORMS {
        assert!(rt; is_filtered_within(rt.alloc(), &s_over(rt.alloc(), form, 1)?)?);
        assert!(rt; are_lists_filtered(rt.alloc(), &lists(rt.alloc(), form, &[7])?)?);
    }
    Ok(())
}

// Whether indices are refused.
fn is_no_index(
    alloc: Global,
    array: &SparseArray,
    indices: &ArrayRef,
    error: VortexError,
) -> VortexResult<bool> {
    Ok(array.take(indices, &mut context(alloc)?).err() == Some(error))
}

fn are_no_indices(alloc: Global, array: &SparseArray) -> VortexResult<bool> {
    let above = flat(alloc, U8, NonNullable, &[0, 8])?;
    let negative = flat(alloc, I8, NonNullable, &[-1])?;
    let truths = accepted(ArrayRef::bool(bits(alloc, &[true])?, None, NonNullable))?;
    let outside = is_no_index(alloc, array, &above, VortexError::OutOfBounds)?
        && is_no_index(alloc, array, &negative, VortexError::OutOfBounds)?;
    Ok(outside && is_no_index(alloc, array, &truths, VortexError::MismatchedTypes)?)
}

// By indices of which one is null, and by none that is.
fn are_taken(alloc: Global, array: &SparseArray) -> VortexResult<bool> {
    let nulls = with_nulls(alloc, U8, &[3, 200, 0, 5], &[true, false, true, true])?;
    let some = array.take(&nulls, &mut context(alloc)?)?;
    let twice = flat(alloc, I8, NonNullable, &[7, 1, 1])?;
    let out = array.take(&twice, &mut context(alloc)?)?;
    let all = has_wholes(&out, &[1, 10, 10]) && !out.dtype().is_nullable();
    Ok(all && has_rows(&some, &[Some(20), None, Some(1), Some(30)]))
}

#[test]
fn rows_are_taken_by_number(rt: HostRuntime) -> Result<(), Fail> {
    for form in FORMS {
        let array = s_over(rt.alloc(), form, 1)?;
        assert!(rt; are_taken(rt.alloc(), &array)?);
        assert!(rt; are_no_indices(rt.alloc(), &array)?);
    }
    Ok(())
}

// Null where the bit is false; nullable by the type even where no bit is.
fn are_masked(alloc: Global, form: Form) -> VortexResult<bool> {
    let keep = bits(alloc, &[true, false, false, true, true, true, false])?;
    let some = threes(alloc, form)?.mask(&keep, &mut context(alloc)?)?;
    let nulls = [Some(33), None, None, Some(44), None, None, None];
    let array = s_over(alloc, form, 1)?;
    let all = array.mask(&bits(alloc, &[true; 8])?, &mut context(alloc)?)?;
    let whole = has_wholes(&all, &[1, 10, 1, 20, 1, 30, 1, 1]) && all.dtype().is_nullable();
    let short = array.mask(&bits(alloc, &[true; 7])?, &mut context(alloc)?);
    Ok(whole && has_rows(&some, &nulls) && short.err() == Some(VortexError::LengthMismatch))
}

#[test]
fn masks_null_rows(rt: HostRuntime) -> Result<(), Fail> {
    for form in FORMS {
        assert!(rt; are_masked(rt.alloc(), form)?);
    }
    Ok(())
}
