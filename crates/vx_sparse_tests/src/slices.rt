//! Slices of sparse arrays.

use crate::columns::{FORMS, lists, s_over, wholes};
use std::alloc::Global;
use std::test::Fail;
use vx_array::Patches;
use vx_base::Nullability::NonNullable;
use vx_base::PType::{U8, U64};
use vx_base::{ArrayId, Scalar, VortexError, VortexResult};
use vx_fixtures::{accepted, context, flat, has_wholes};
use vx_sparse::{Sparse, SparseArray, SparseKernels};

// Whether a slice is of an encoding and has these rows.
fn is_sliced(
    alloc: Global,
    array: &SparseArray,
    (start, end): (u64, u64),
    root: ArrayId,
    rows: &[i128],
) -> VortexResult<bool> {
    let slice = array.slice(start, end, &mut context(alloc)?)?;
    Ok(slice.encoding_id() == root && has_wholes(&slice, rows))
}

// Whether a slice is refused.
fn is_outside(alloc: Global, array: &SparseArray, (start, end): (u64, u64)) -> VortexResult<bool> {
    let slice = array.slice(start, end, &mut context(alloc)?);
    Ok(slice.err() == Some(VortexError::OutOfBounds))
}

// 1, 10, 1, 20, 1, 30, 1, 1.
fn are_sliced(alloc: Global, array: &SparseArray) -> VortexResult<bool> {
    let some = is_sliced(alloc, array, (2, 6), ArrayId::Sparse, &[1, 20, 1, 30])?;
    let none = is_sliced(alloc, array, (6, 8), ArrayId::Constant, &[1, 1])?;
    let all = is_sliced(alloc, array, (3, 4), ArrayId::Primitive, &[20])?;
    Ok(some && none && all && is_sliced(alloc, array, (3, 3), ArrayId::Constant, &[])?)
}

fn are_refused(alloc: Global, array: &SparseArray) -> VortexResult<bool> {
    Ok(is_outside(alloc, array, (6, 9))? && is_outside(alloc, array, (5, 4))?)
}

#[test]
fn slices_are_of_three_encodings(rt: HostRuntime) -> Result<(), Fail> {
    for form in FORMS {
        let array = s_over(rt.alloc(), form, 1)?;
        assert!(rt; are_sliced(rt.alloc(), &array)?);
        assert!(rt; are_refused(rt.alloc(), &array)?);
    }
    Ok(())
}

// Whether the rows 1 to 3 of the rows 2 to 7 are 20, 1, 30.
fn is_sliced_twice(alloc: Global, array: &SparseArray) -> VortexResult<bool> {
    let outer = array.slice(2, 8, &mut context(alloc)?)?;
    match SparseArray::from_array(outer) {
        Ok(outer) => is_sliced(alloc, &outer, (1, 4), ArrayId::Sparse, &[20, 1, 30]),
        Err(_) => Ok(false),
    }
}

#[test]
fn a_slice_of_a_slice(rt: HostRuntime) -> Result<(), Fail> {
    for form in FORMS {
        assert!(rt; is_sliced_twice(rt.alloc(), &s_over(rt.alloc(), form, 1)?)?);
    }
    Ok(())
}

// Whether the slice of all rows has its first and its last row.
fn is_whole(alloc: Global, array: &SparseArray) -> VortexResult<bool> {
    let whole = array.slice(0, 1_000, &mut context(alloc)?)?;
    let first = whole.scalar_at(alloc, 0)?.json(alloc)?;
    let last = whole.scalar_at(alloc, 999)?.json(alloc)?;
    Ok(whole.len() == 1_000 && first.as_str() == "0" && last.as_str() == "999")
}

#[test]
fn a_slice_of_all_rows(rt: HostRuntime) -> Result<(), Fail> {
    for form in FORMS {
        let array = wholes(rt.alloc(), form, U64, (&[0], &[0]), 1_000, 999)?;
        assert!(rt; is_whole(rt.alloc(), &array)?);
    }
    Ok(())
}

// 7 at the index 2^64 - 1, which is row 1 of four, over 1.
fn at_the_end(alloc: Global) -> VortexResult<SparseArray> {
    let indices = flat(alloc, U64, NonNullable, &[u64::MAX as i128])?;
    let values = flat(alloc, U8, NonNullable, &[7])?;
    let patches = accepted(Patches::new(4, u64::MAX - 1, indices, values))?;
    let fill = Scalar::primitive(1, U8, NonNullable)?;
    accepted(Sparse::try_new_from_patches(alloc, patches, fill))
}

fn are_sliced_at_the_end(alloc: Global, array: &SparseArray) -> VortexResult<bool> {
    let before = is_sliced(alloc, array, (0, 2), ArrayId::Sparse, &[1, 7])?;
    let behind = is_sliced(alloc, array, (1, 4), ArrayId::Sparse, &[7, 1, 1])?;
    Ok(before && behind && is_sliced(alloc, array, (2, 4), ArrayId::Constant, &[1, 1])?)
}

#[test]
fn a_slice_whose_offset_passes_64_bits_has_no_patch(rt: HostRuntime) -> Result<(), Fail> {
    assert!(rt; are_sliced_at_the_end(rt.alloc(), &at_the_end(rt.alloc())?)?);
    Ok(())
}

// Whether a slice of lists is a Constant where it has no patch, and else has patches alone.
fn are_lists_sliced(alloc: Global, array: &SparseArray) -> VortexResult<bool> {
    let fill = array.slice(0, 1, &mut context(alloc)?)?;
    let patches = array.slice(1, 3, &mut context(alloc)?)?;
    Ok(fill.encoding_id() == ArrayId::Constant && patches.encoding_id() == ArrayId::List)
}

#[test]
fn slices_of_lists(rt: HostRuntime) -> Result<(), Fail> {
    for form in FORMS {
        assert!(rt; are_lists_sliced(rt.alloc(), &lists(rt.alloc(), form, &[7])?)?);
    }
    Ok(())
}
