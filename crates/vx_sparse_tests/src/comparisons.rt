//! Comparisons of sparse arrays with columns, and their negation.

use crate::columns::{
    FORMS, Form, has_truths, lists, nulls_of, over_nulls, s_over, same_texts, same_wholes, texts,
    truths, truths_over,
};
use std::alloc::Global;
use std::test::Fail;
use vx_array::ArrayRef;
use vx_base::ArrayId::{Bool, Sparse};
use vx_base::Nullability::{NonNullable, Nullable};
use vx_base::PType::{I32, I64};
use vx_base::{ArrayId, DType, VortexError, VortexResult};
use vx_fixtures::{context, flat};
use vx_rules::CompareOperator;
use vx_rules::CompareOperator::{Eq, Gt, Lt, Lte, NotEq};
use vx_sparse::{SparseArray, SparseKernels};

const YES: Option<bool> = Some(true);

const NO: Option<bool> = Some(false);

// Whether a comparison is of an encoding and has these rows.
fn compares(
    alloc: Global,
    array: &SparseArray,
    (operator, other): (CompareOperator, &ArrayRef),
    root: ArrayId,
    rows: &[Option<bool>],
) -> VortexResult<bool> {
    let out = array.compare(other, operator, &mut context(alloc)?)?;
    Ok(has_truths(&out, root, rows))
}

// 1, 10, 1, 20, 1, 30, 1, 1.
fn are_compared(alloc: Global, array: &SparseArray) -> VortexResult<bool> {
    let above = [NO, NO, NO, YES, NO, YES, NO, NO];
    let ten = same_wholes(I32, 10, 8)?;
    let first = compares(alloc, array, (Gt, &ten), Sparse, &above)?;
    let equal = [YES, NO, YES, NO, YES, NO, YES, YES];
    let one = same_wholes(I32, 1, 8)?;
    let second = compares(alloc, array, (Eq, &one), Sparse, &equal)?;
    let others = flat(alloc, I32, NonNullable, &[1, 1, 1, 20, 20, 20, 20, 1])?;
    let below = [NO, NO, NO, NO, YES, NO, YES, NO];
    Ok(first && second && compares(alloc, array, (Lt, &others), Bool, &below)?)
}

// 10 and 20 in rows 1 and 3, and nulls.
fn are_nulls_compared(alloc: Global, array: &SparseArray) -> VortexResult<bool> {
    let most = [None, YES, None, NO, None, None, None, None];
    let ten = same_wholes(I32, 10, 8)?;
    let values = compares(alloc, array, (Lte, &ten), Sparse, &most)?;
    let nulls = nulls_of(DType::primitive(I32, Nullable), 8)?;
    let none = [None, None, None, None, None, None, None, None];
    Ok(values && compares(alloc, array, (NotEq, &nulls), Sparse, &none)?)
}

// b, ab, b.
fn are_texts_compared(alloc: Global, array: &SparseArray) -> VortexResult<bool> {
    let b = same_texts(alloc, "b", 3)?;
    compares(alloc, array, (Lt, &b), Sparse, &[NO, YES, NO])
}

#[test]
fn columns_are_compared_by_patches_and_fill(rt: HostRuntime) -> Result<(), Fail> {
    for form in FORMS {
        assert!(rt; are_compared(rt.alloc(), &s_over(rt.alloc(), form, 1)?)?);
        let nulls = over_nulls(rt.alloc(), form, &[1, 3], &[10, 20])?;
        assert!(rt; are_nulls_compared(rt.alloc(), &nulls)?);
        assert!(rt; are_texts_compared(rt.alloc(), &texts(rt.alloc(), form)?)?);
    }
    Ok(())
}

fn refuses(
    alloc: Global,
    array: &SparseArray,
    other: &ArrayRef,
    why: VortexError,
) -> VortexResult<bool> {
    let out = array.compare(other, Eq, &mut context(alloc)?);
    Ok(out.err() == Some(why))
}

// Types come before lengths.
fn are_refused(alloc: Global, array: &SparseArray) -> VortexResult<bool> {
    let other = refuses(
        alloc,
        array,
        &same_wholes(I64, 1, 8)?,
        VortexError::MismatchedTypes,
    )?;
    let both = refuses(
        alloc,
        array,
        &same_wholes(I64, 1, 7)?,
        VortexError::MismatchedTypes,
    )?;
    let constant = refuses(
        alloc,
        array,
        &same_wholes(I32, 1, 7)?,
        VortexError::LengthMismatch,
    )?;
    let plain = flat(alloc, I32, NonNullable, &[1])?;
    Ok(other && both && constant && refuses(alloc, array, &plain, VortexError::LengthMismatch)?)
}

#[test]
fn other_types_and_lengths_are_not_compared(rt: HostRuntime) -> Result<(), Fail> {
    let mismatched = VortexError::MismatchedTypes;
    for form in FORMS {
        assert!(rt; are_refused(rt.alloc(), &s_over(rt.alloc(), form, 1)?)?);
        let lists = lists(rt.alloc(), form, &[7])?;
        let others = lists.as_array().copy(rt.alloc())?;
        assert!(rt; refuses(rt.alloc(), &lists, &others, mismatched)?);
    }
    Ok(())
}

// Whether the negation is a Sparse of these rows.
fn negates(alloc: Global, array: &SparseArray, rows: &[Option<bool>]) -> VortexResult<bool> {
    let out = array.not(&mut context(alloc)?)?;
    Ok(has_truths(&out, Sparse, rows))
}

fn are_negated(alloc: Global, form: Form) -> VortexResult<bool> {
    let plain = negates(alloc, &truths(alloc, form)?, &[YES, NO, NO, YES, YES])?;
    let over_null = truths_over(alloc, form, (&[1, 2], &[YES, None]), 4, None)?;
    let nulls = negates(alloc, &over_null, &[None, NO, None, None])?;
    let over_true = truths_over(alloc, form, (&[0, 3], &[NO, None]), 4, YES)?;
    Ok(plain && nulls && negates(alloc, &over_true, &[YES, NO, NO, None])?)
}

#[test]
fn patches_and_fill_are_negated(rt: HostRuntime) -> Result<(), Fail> {
    for form in FORMS {
        assert!(rt; are_negated(rt.alloc(), form)?);
        let numbers = s_over(rt.alloc(), form, 1)?;
        let out = numbers.not(&mut context(rt.alloc())?);
        assert!(rt; out.err() == Some(VortexError::MismatchedTypes));
    }
    Ok(())
}
