//! A fill and patches: rows, plain trees, extents and refusals.

use crate::printed::prints;
use std::alloc::Global;
use std::test::Fail;
use vx_array::{ArrayRef, Patches};
use vx_base::Nullability::{NonNullable, Nullable};
use vx_base::PType::{I32, U8, U32};
use vx_base::{DType, Scalar, VortexError, VortexResult};
use vx_fixtures::{accepted, flat, is_made_plain, list_scalar, with_nulls};

// 10, 20 and 30 in rows 1, 3 and 5 of eight, 1 in the others.
fn wholes(alloc: Global) -> VortexResult<ArrayRef> {
    let indices = flat(alloc, U8, NonNullable, &[1, 3, 5])?;
    let values = flat(alloc, I32, NonNullable, &[10, 20, 30])?;
    let patches = accepted(Patches::new(8, 0, indices, values))?;
    let fill = Scalar::primitive(1, I32, NonNullable)?;
    accepted(ArrayRef::sparse(alloc, patches, fill))
}

#[test]
fn patches_stand_between_the_fills(rt: HostRuntime) -> Result<(), Fail> {
    let alloc = rt.alloc();
    let tree = wholes(alloc)?;
    let (fill, first, second, third) = (Some(1), Some(10), Some(20), Some(30));
    let rows = [fill, first, fill, second, fill, third, fill, fill];
    assert!(rt; !tree.is_plain() && tree.extents_fit());
    assert!(rt; is_made_plain(alloc, &tree, (20, 32), &rows)?);
    Ok(())
}

// Whether a row is out of bounds of a tree.
fn is_behind(alloc: Global, tree: &ArrayRef, row: u64) -> bool {
    match tree.scalar_at(alloc, row) {
        Ok(_) => false,
        Err(error) => error == VortexError::OutOfBounds,
    }
}

#[test]
fn each_row_of_patches_and_fills_is_a_scalar(rt: HostRuntime) -> Result<(), Fail> {
    let tree = wholes(rt.alloc())?;
    let rows = ["1", "10", "1", "20", "1", "30", "1", "1"];
    assert!(rt; prints(rt.alloc(), &tree, &rows)? && is_behind(rt.alloc(), &tree, 8));
    Ok(())
}

#[test]
fn a_fill_and_a_patch_may_be_null(rt: HostRuntime) -> Result<(), Fail> {
    let alloc = rt.alloc();
    // Of four rows at offset 2: in rows 0 and 2.
    let indices = flat(alloc, U8, NonNullable, &[2, 4])?;
    let values = with_nulls(alloc, I32, &[5, 9], &[true, false])?;
    let patches = accepted(Patches::new(4, 2, indices, values))?;
    let fill = accepted(Scalar::null(DType::primitive(I32, Nullable)))?;
    let tree = accepted(ArrayRef::sparse(alloc, patches, fill))?;
    assert!(rt; is_made_plain(alloc, &tree, (2 + 9 + 1, 17), &[Some(5), None, None, None])?);
    Ok(())
}

// The list of 9 in row 1, and another list in each other row.
fn lists(alloc: Global, len: u64, fill: &[i128]) -> VortexResult<ArrayRef> {
    let indices = flat(alloc, U32, NonNullable, &[1])?;
    let elements = flat(alloc, I32, NonNullable, &[9])?;
    let offsets = flat(alloc, U8, NonNullable, &[0, 1])?;
    let values = accepted(ArrayRef::list(alloc, elements, offsets, None, NonNullable))?;
    let patches = accepted(Patches::new(len, 0, indices, values))?;
    accepted(ArrayRef::sparse(alloc, patches, list_scalar(alloc, fill)?))
}

#[test]
fn lists_stand_between_the_fills(rt: HostRuntime) -> Result<(), Fail> {
    let alloc = rt.alloc();
    let rows = ["[7,8]", "[9]", "[7,8]"];
    let tree = lists(alloc, 3, &[7, 8])?;
    let plain = tree.copy(alloc)?.canonical(alloc)?;
    // Five elements of 4 bytes, four offsets of 8.
    let is_whole = plain.is_plain() && plain.nbytes() == 52 && tree.extents_fit();
    assert!(rt; is_whole && prints(alloc, &tree, &rows)? && prints(alloc, &plain, &rows)?);
    Ok(())
}

#[test]
fn a_fill_counts_its_items_in_each_row(rt: HostRuntime) -> Result<(), Fail> {
    let few = lists(rt.alloc(), 1_073_741_824, &[1])?;
    let many = lists(rt.alloc(), 1_073_741_824, &[1, 2, 3])?;
    assert!(rt; few.extents_fit() && !many.extents_fit());
    Ok(())
}

// Whether patches of eight rows with these indices and this offset are refused.
fn are_refused(alloc: Global, offset: u64, indices: &[i128]) -> VortexResult<bool> {
    let values = flat(alloc, I32, NonNullable, indices)?;
    let indices = flat(alloc, U8, NonNullable, indices)?;
    match Patches::new(8, offset, indices, values) {
        Ok(_) => Ok(false),
        Err(refused) => Ok(refused.error == VortexError::IndicesNotAscending),
    }
}

#[test]
fn indices_rise_from_the_offset(rt: HostRuntime) -> Result<(), Fail> {
    let alloc = rt.alloc();
    let fall = are_refused(alloc, 0, &[3, 1])?;
    let before = are_refused(alloc, 2, &[1])?;
    let behind = are_refused(alloc, 0, &[8])?;
    assert!(rt; fall && before && behind && !are_refused(alloc, 2, &[2, 9])?);
    Ok(())
}

#[test]
fn values_of_another_type_are_handed_back(rt: HostRuntime) -> Result<(), Fail> {
    let alloc = rt.alloc();
    let indices = flat(alloc, U8, NonNullable, &[1])?;
    let values = flat(alloc, I32, NonNullable, &[9])?;
    let patches = accepted(Patches::new(2, 0, indices, values))?;
    let fill = Scalar::primitive(1, U32, NonNullable)?;
    let handed_back = match ArrayRef::sparse(alloc, patches, fill) {
        Ok(_) => false,
        Err(refused) => {
            let patch_is_back = refused.inputs.0.num_patches() == 1;
            let fill_is_back = *refused.inputs.1.dtype() == DType::primitive(U32, NonNullable);
            refused.error == VortexError::MismatchedTypes && patch_is_back && fill_is_back
        }
    };
    assert!(rt; handed_back);
    Ok(())
}
