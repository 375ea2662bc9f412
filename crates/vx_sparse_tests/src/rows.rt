//! Single rows and comparisons of sparse arrays.

use crate::columns::{FORMS, Form, lists, over_nulls, s_over, texts};
use crate::counted::{compared, row_counted};
use std::alloc::Global;
use std::test::Fail;
use vx_array::ArrayRef;
use vx_base::Nullability::{NonNullable, Nullable};
use vx_base::PType::{I32, I64};
use vx_base::{DType, PType, Scalar, VortexError, VortexResult};
use vx_fixtures::{accepted, context};
use vx_rules::CompareOperator;
use vx_sparse::{SparseArray, SparseKernels};

// Whether a row prints as this, read with and without a count.
fn has_row(alloc: Global, array: &SparseArray, row: u64, text: &str) -> VortexResult<bool> {
    let found = array.scalar_at(row, &mut context(alloc)?)?;
    let printed = found.json(alloc)?.as_str() == text;
    Ok(printed && row_counted(alloc, array, row)? == found)
}

// Whether a row is refused, with and without a count.
fn is_outside(alloc: Global, array: &SparseArray, row: u64) -> VortexResult<bool> {
    let refused = VortexError::OutOfBounds;
    let plain = array.scalar_at(row, &mut context(alloc)?).err() == Some(refused);
    Ok(plain && row_counted(alloc, array, row).err() == Some(refused))
}

fn are_rows(alloc: Global, array: &SparseArray) -> VortexResult<bool> {
    let patched = has_row(alloc, array, 3, "20")? && has_row(alloc, array, 5, "30")?;
    let filled = has_row(alloc, array, 0, "1")? && has_row(alloc, array, 7, "1")?;
    Ok(patched && filled && is_outside(alloc, array, 8)?)
}

fn are_rows_of_other_types(alloc: Global, form: Form) -> VortexResult<bool> {
    let text = has_row(alloc, &texts(alloc, form)?, 1, "\"ab\"")?;
    let fill = has_row(alloc, &texts(alloc, form)?, 2, "\"b\"")?;
    let list = has_row(alloc, &lists(alloc, form, &[7])?, 2, "[7,8]")?;
    let other = has_row(alloc, &lists(alloc, form, &[7])?, 0, "[7]")?;
    let nulls = over_nulls(alloc, form, &[1, 3], &[10, 20])?;
    Ok(text && fill && list && other && has_row(alloc, &nulls, 2, "null")?)
}

#[test]
fn rows_are_patches_or_the_fill(rt: HostRuntime) -> Result<(), Fail> {
    for form in FORMS {
        assert!(rt; are_rows(rt.alloc(), &s_over(rt.alloc(), form, 1)?)?);
        assert!(rt; are_rows_of_other_types(rt.alloc(), form)?);
    }
    Ok(())
}

// Whether the rows print as these texts.
fn prints(alloc: Global, tree: &ArrayRef, rows: &[&str]) -> VortexResult<bool> {
    for row in 0..rows.len() {
        let text = tree.scalar_at(alloc, row as u64)?.json(alloc)?;
        if text.as_str() != rows[row] {
            return Ok(false);
        }
    }
    Ok(tree.len() == rows.len() as u64)
}

// Whether a comparison with an integer prints as these truth values.
fn compares(
    alloc: Global,
    array: &SparseArray,
    operator: CompareOperator,
    whole: i128,
    rows: &[&str],
) -> VortexResult<bool> {
    let value = Scalar::primitive(whole, I32, NonNullable)?;
    prints(alloc, &compared(alloc, array, &value, operator)?, rows)
}

// 1, 10, 1, 20, 1, 30, 1, 1.
fn are_compared(alloc: Global, array: &SparseArray) -> VortexResult<bool> {
    let (no, yes) = ("false", "true");
    let above = [no, no, no, yes, no, yes, no, no];
    let equal = [yes, no, yes, no, yes, no, yes, yes];
    let first = compares(alloc, array, CompareOperator::Gt, 10, &above)?;
    Ok(first && compares(alloc, array, CompareOperator::Eq, 1, &equal)?)
}

// 10 and 20 in rows 1 and 3, and nulls.
fn are_nulls_compared(alloc: Global, array: &SparseArray) -> VortexResult<bool> {
    let (none, yes, no) = ("null", "true", "false");
    let most = [none, yes, none, no, none, none, none, none];
    let all = [none, none, none, none, none, none, none, none];
    let null = accepted(Scalar::null(DType::primitive(I32, Nullable)))?;
    let values = compares(alloc, array, CompareOperator::Lte, 10, &most)?;
    let nulls = compared(alloc, array, &null, CompareOperator::NotEq)?;
    Ok(values && prints(alloc, &nulls, &all)?)
}

// Whether a comparison with 5 of a type is refused.
fn is_unlike(alloc: Global, array: &SparseArray, ptype: PType) -> VortexResult<bool> {
    let value = Scalar::primitive(5, ptype, NonNullable)?;
    let other = compared(alloc, array, &value, CompareOperator::Eq);
    Ok(other.err() == Some(VortexError::MismatchedTypes))
}

#[test]
fn comparisons_are_of_patches_and_the_fill(rt: HostRuntime) -> Result<(), Fail> {
    for form in FORMS {
        assert!(rt; are_compared(rt.alloc(), &s_over(rt.alloc(), form, 1)?)?);
        let nulls = over_nulls(rt.alloc(), form, &[1, 3], &[10, 20])?;
        assert!(rt; are_nulls_compared(rt.alloc(), &nulls)?);
    }
    Ok(())
}

#[test]
fn values_of_another_type_are_not_compared(rt: HostRuntime) -> Result<(), Fail> {
    for form in FORMS {
        assert!(rt; is_unlike(rt.alloc(), &s_over(rt.alloc(), form, 1)?, I64)?);
        assert!(rt; is_unlike(rt.alloc(), &texts(rt.alloc(), form)?, I32)?);
    }
    Ok(())
}
