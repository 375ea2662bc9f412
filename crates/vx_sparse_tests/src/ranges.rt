//! Whether rows of sparse arrays lie between bounds.

use crate::columns::{FORMS, has_truths, nulls_of, over_nulls, s_over, same_wholes};
use std::alloc::Global;
use std::test::Fail;
use vx_array::ArrayRef;
use vx_base::ArrayId::{Bool, Sparse};
use vx_base::Nullability::{NonNullable, Nullable};
use vx_base::PType::{I32, I64};
use vx_base::{ArrayId, DType, VortexError, VortexResult};
use vx_fixtures::{context, flat};
use vx_rules::BetweenOptions;
use vx_sparse::{SparseArray, SparseKernels};

const YES: Option<bool> = Some(true);

const NO: Option<bool> = Some(false);

// Which bounds are strict.
fn strict(lower_strict: bool, upper_strict: bool) -> BetweenOptions {
    BetweenOptions {
        lower_strict,
        upper_strict,
    }
}

// Whether a range is of an encoding and has these rows.
fn is_between(
    alloc: Global,
    array: &SparseArray,
    (low, high, options): (&ArrayRef, &ArrayRef, BetweenOptions),
    root: ArrayId,
    rows: &[Option<bool>],
) -> VortexResult<bool> {
    let out = array.between(low, high, options, &mut context(alloc)?)?;
    Ok(has_truths(&out, root, rows))
}

// 1, 10, 1, 20, 1, 30, 1, 1 between 1 and 20.
fn are_strict(alloc: Global, array: &SparseArray) -> VortexResult<bool> {
    let (low, high) = (same_wholes(I32, 1, 8)?, same_wholes(I32, 20, 8)?);
    let bounds = (&low, &high, strict(false, false));
    let rows = [YES, YES, YES, YES, YES, NO, YES, YES];
    let closed = is_between(alloc, array, bounds, Sparse, &rows)?;
    let bounds = (&low, &high, strict(true, false));
    let rows = [NO, YES, NO, YES, NO, NO, NO, NO];
    let lower = is_between(alloc, array, bounds, Sparse, &rows)?;
    let bounds = (&low, &high, strict(false, true));
    let rows = [YES, YES, YES, NO, YES, NO, YES, YES];
    let upper = is_between(alloc, array, bounds, Sparse, &rows)?;
    let bounds = (&low, &high, strict(true, true));
    let rows = [NO, YES, NO, NO, NO, NO, NO, NO];
    Ok(closed && lower && upper && is_between(alloc, array, bounds, Sparse, &rows)?)
}

#[test]
fn each_bound_is_strict_by_itself(rt: HostRuntime) -> Result<(), Fail> {
    for form in FORMS {
        assert!(rt; are_strict(rt.alloc(), &s_over(rt.alloc(), form, 1)?)?);
    }
    Ok(())
}

// Both bounds columns, and the upper one alone.
fn are_in_rows(alloc: Global, array: &SparseArray) -> VortexResult<bool> {
    let lows = flat(alloc, I32, NonNullable, &[0, 0, 5, 0, 0, 0, 0, 0])?;
    let highs = flat(alloc, I32, NonNullable, &[5, 5, 5, 25, 25, 25, 25, 0])?;
    let bounds = (&lows, &highs, strict(false, false));
    let rows = [YES, NO, NO, YES, YES, NO, YES, NO];
    let both = is_between(alloc, array, bounds, Bool, &rows)?;
    let low = same_wholes(I32, 1, 8)?;
    let bounds = (&low, &highs, strict(true, false));
    let rows = [NO, NO, NO, YES, NO, NO, NO, NO];
    Ok(both && is_between(alloc, array, bounds, Bool, &rows)?)
}

// 10 and 20 in rows 1 and 3, and nulls.
fn are_nulls_between(alloc: Global, array: &SparseArray) -> VortexResult<bool> {
    let (low, high) = (same_wholes(I32, 5, 8)?, same_wholes(I32, 15, 8)?);
    let bounds = (&low, &high, strict(false, false));
    let rows = [None, YES, None, NO, None, None, None, None];
    let values = is_between(alloc, array, bounds, Sparse, &rows)?;
    let null = nulls_of(DType::primitive(I32, Nullable), 8)?;
    let bounds = (&null, &high, strict(false, false));
    let none = [None, None, None, None, None, None, None, None];
    Ok(values && is_between(alloc, array, bounds, Sparse, &none)?)
}

#[test]
fn columns_and_nulls_are_bounds(rt: HostRuntime) -> Result<(), Fail> {
    for form in FORMS {
        assert!(rt; are_in_rows(rt.alloc(), &s_over(rt.alloc(), form, 1)?)?);
        let nulls = over_nulls(rt.alloc(), form, &[1, 3], &[10, 20])?;
        assert!(rt; are_nulls_between(rt.alloc(), &nulls)?);
    }
    Ok(())
}

fn refuses(
    alloc: Global,
    array: &SparseArray,
    low: &ArrayRef,
    high: &ArrayRef,
    why: VortexError,
) -> VortexResult<bool> {
    let out = array.between(low, high, strict(false, false), &mut context(alloc)?);
    Ok(out.err() == Some(why))
}

// Types come before lengths.
fn are_refused(alloc: Global, array: &SparseArray) -> VortexResult<bool> {
    let (mismatched, unlike) = (VortexError::MismatchedTypes, VortexError::LengthMismatch);
    let low = same_wholes(I32, 1, 8)?;
    let short = same_wholes(I32, 1, 7)?;
    let wide = same_wholes(I64, 1, 8)?;
    let types = refuses(alloc, array, &wide, &low, mismatched)?;
    let other = refuses(alloc, array, &low, &wide, mismatched)?;
    let first = refuses(alloc, array, &short, &wide, mismatched)?;
    let lengths = refuses(alloc, array, &short, &low, unlike)?;
    Ok(types && other && first && lengths && refuses(alloc, array, &low, &short, unlike)?)
}

#[test]
fn other_types_and_lengths_are_no_bounds(rt: HostRuntime) -> Result<(), Fail> {
    for form in FORMS {
        assert!(rt; are_refused(rt.alloc(), &s_over(rt.alloc(), form, 1)?)?);
    }
    Ok(())
}
