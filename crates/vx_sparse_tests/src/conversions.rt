//! Fills of nulls and casts of sparse arrays.

use crate::columns::{FORMS, Form, holes, lists, s_over, texts, wholes};
use std::alloc::Global;
use std::test::Fail;
use vx_array::ArrayRef;
use vx_base::Nullability::{NonNullable, Nullable};
use vx_base::PType::{I32, I64, U8};
use vx_base::{ArrayId, DType, PType, Scalar, VortexError, VortexResult};
use vx_fixtures::{accepted, context, has_rows, has_wholes, list_scalar};
use vx_sparse::{SparseArray, SparseKernels};

// An array with a number in place of nulls.
fn filled(alloc: Global, array: &SparseArray, whole: i128) -> VortexResult<ArrayRef> {
    let fill = Scalar::primitive(whole, I32, NonNullable)?;
    array.fill_null(&fill, &mut context(alloc)?)
}

// Whether a tree is a Sparse of these rows, without null by its type.
fn is_sparse_of(tree: &ArrayRef, rows: &[i128]) -> bool {
    let without_null = !tree.dtype().is_nullable();
    tree.encoding_id() == ArrayId::Sparse && without_null && has_wholes(tree, rows)
}

// Null patches, and a null fill.
fn are_filled(alloc: Global, form: Form) -> VortexResult<bool> {
    let patches = holes(alloc, form, (&[0, 2], &[Some(7), None]), 4, Some(1))?;
    let one = is_sparse_of(&filled(alloc, &patches, 0)?, &[7, 1, 0, 1]);
    let both = holes(
        alloc,
        form,
        (&[1, 3, 5], &[Some(10), None, Some(30)]),
        8,
        None,
    )?;
    let two = is_sparse_of(&filled(alloc, &both, 0)?, &[0, 10, 0, 0, 0, 30, 0, 0]);
    let none = filled(alloc, &s_over(alloc, form, 1)?, 0)?;
    Ok(one && two && is_sparse_of(&none, &[1, 10, 1, 20, 1, 30, 1, 1]))
}

// A fill of a nullable type leaves the type nullable.
fn stays_nullable(alloc: Global, form: Form) -> VortexResult<bool> {
    let array = holes(alloc, form, (&[1], &[None]), 3, None)?;
    let fill = Scalar::primitive(5, I32, Nullable)?;
    let out = array.fill_null(&fill, &mut context(alloc)?)?;
    Ok(out.dtype().is_nullable() && has_wholes(&out, &[5, 5, 5]))
}

#[test]
fn nulls_are_filled_in_patches_and_fill(rt: HostRuntime) -> Result<(), Fail> {
    for form in FORMS {
        assert!(rt; are_filled(rt.alloc(), form)?);
        assert!(rt; stays_nullable(rt.alloc(), form)?);
    }
    Ok(())
}

// Whether a fill is refused.
fn is_no_fill(alloc: Global, array: &SparseArray, fill: &Scalar) -> VortexResult<bool> {
    let out = array.fill_null(fill, &mut context(alloc)?);
    Ok(out.err() == Some(VortexError::MismatchedTypes))
}

fn are_no_fills(alloc: Global, form: Form) -> VortexResult<bool> {
    let array = holes(alloc, form, (&[1], &[Some(3)]), 3, None)?;
    let null = accepted(Scalar::null(DType::primitive(I32, Nullable)))?;
    let wide = Scalar::primitive(0, I64, NonNullable)?;
    let list = list_scalar(alloc, &[7])?;
    let flat = is_no_fill(alloc, &array, &null)? && is_no_fill(alloc, &array, &wide)?;
    Ok(flat && is_no_fill(alloc, &array, &list)?)
}

#[test]
fn nulls_and_values_of_other_types_are_no_fills(rt: HostRuntime) -> Result<(), Fail> {
    for form in FORMS {
        assert!(rt; are_no_fills(rt.alloc(), form)?);
    }
    Ok(())
}

// Whether a list, in place of nulls of which there are none, leaves the rows.
fn are_lists_left(alloc: Global, array: &SparseArray) -> VortexResult<bool> {
    let out = array.fill_null(&list_scalar(alloc, &[])?, &mut context(alloc)?)?;
    let first = out.scalar_at(alloc, 0)?.json(alloc)?;
    let second = out.scalar_at(alloc, 1)?.json(alloc)?;
    Ok(first.as_str() == "[7]" && second.as_str() == "[7,8]")
}

#[test]
fn lists_without_null_are_left(rt: HostRuntime) -> Result<(), Fail> {
    for form in FORMS {
        assert!(rt; are_lists_left(rt.alloc(), &lists(rt.alloc(), form, &[7])?)?);
    }
    Ok(())
}

// An array of integers in a type without null.
fn cast_to(alloc: Global, array: &SparseArray, ptype: PType) -> VortexResult<ArrayRef> {
    array.cast(&DType::primitive(ptype, NonNullable), &mut context(alloc)?)
}

// Whether a cast is refused for a row.
fn is_no_cast(alloc: Global, array: &SparseArray, ptype: PType) -> VortexResult<bool> {
    Ok(cast_to(alloc, array, ptype).err() == Some(VortexError::CastRefused))
}

// To a narrower type, and from a null fill that no row has.
fn are_cast(alloc: Global, form: Form) -> VortexResult<bool> {
    let narrow = cast_to(alloc, &s_over(alloc, form, 1)?, U8)?;
    let some = is_sparse_of(&narrow, &[1, 10, 1, 20, 1, 30, 1, 1]);
    let patched = holes(
        alloc,
        form,
        (&[0, 1, 2], &[Some(4), Some(5), Some(6)]),
        3,
        None,
    )?;
    let all = has_wholes(&cast_to(alloc, &patched, I32)?, &[4, 5, 6]);
    let above = wholes(alloc, form, I32, (&[0, 1], &[4, 5]), 2, 300)?;
    Ok(some && all && has_wholes(&cast_to(alloc, &above, U8)?, &[4, 5]))
}

// A null or a number too great for the type, in a patch or as the fill.
fn are_no_casts(alloc: Global, form: Form) -> VortexResult<bool> {
    let fill = holes(
        alloc,
        form,
        (&[0, 1, 2], &[Some(4), Some(5), Some(6)]),
        4,
        None,
    )?;
    let patch = holes(alloc, form, (&[0, 1], &[Some(4), None]), 2, Some(1))?;
    let nulls = is_no_cast(alloc, &fill, I32)? && is_no_cast(alloc, &patch, I32)?;
    let above = wholes(alloc, form, I32, (&[0], &[4]), 2, 300)?;
    let patched = wholes(alloc, form, I32, (&[0], &[300]), 2, 4)?;
    Ok(nulls && is_no_cast(alloc, &above, U8)? && is_no_cast(alloc, &patched, U8)?)
}

#[test]
fn casts_are_refused_for_values_in_the_rows_alone(rt: HostRuntime) -> Result<(), Fail> {
    for form in FORMS {
        assert!(rt; are_cast(rt.alloc(), form)?);
        assert!(rt; are_no_casts(rt.alloc(), form)?);
    }
    Ok(())
}

// Whether there is no cast between the types.
fn is_mismatched(alloc: Global, array: &SparseArray, dtype: &DType) -> VortexResult<bool> {
    let out = array.cast(dtype, &mut context(alloc)?);
    Ok(out.err() == Some(VortexError::MismatchedTypes))
}

// Texts are cast to nullable texts and to nothing else; a null fill stays in a nullable type.
fn are_cast_by_type(alloc: Global, form: Form) -> VortexResult<bool> {
    let array = texts(alloc, form)?;
    let wider = array.cast(&DType::Utf8(Nullable), &mut context(alloc)?)?;
    let row = wider.scalar_at(alloc, 1)?.json(alloc)?;
    let none = is_mismatched(alloc, &array, &DType::primitive(U8, Nullable))?;
    let nulls = holes(alloc, form, (&[1], &[Some(3)]), 2, None)?;
    let out = nulls.cast(&DType::primitive(I64, Nullable), &mut context(alloc)?)?;
    let kept = has_rows(&out, &[None, Some(3)]) && out.encoding_id() == ArrayId::Sparse;
    Ok(kept && none && wider.dtype().is_nullable() && row.as_str() == "\"ab\"")
}

#[test]
fn casts_go_by_the_type(rt: HostRuntime) -> Result<(), Fail> {
    for form in FORMS {
        assert!(rt; are_cast_by_type(rt.alloc(), form)?);
    }
    Ok(())
}
