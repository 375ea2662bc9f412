//! What the kernels of sparse arrays answer of a whole column.

use crate::columns::{FORMS, Form, lists, over_nulls, s_over, texts, truths, wholes};
use std::alloc::Global;
use std::test::Fail;
use vx_base::Nullability::Nullable;
use vx_base::PType::{I32, I64, U64};
use vx_base::{DType, PType, Scalar, VortexError, VortexResult};
use vx_fixtures::context;
use vx_sparse::{SparseArray, SparseKernels};

// Whether the least and the greatest value print as these.
fn has_extremes(
    alloc: Global,
    array: &SparseArray,
    least: &str,
    greatest: &str,
) -> VortexResult<bool> {
    let Some(found) = array.min_max(&mut context(alloc)?)? else {
        return Ok(false);
    };
    Ok(found.0.json(alloc)?.as_str() == least && found.1.json(alloc)?.as_str() == greatest)
}

// Whether there are no extremes.
fn has_none(alloc: Global, array: &SparseArray) -> VortexResult<bool> {
    Ok(array.min_max(&mut context(alloc)?)?.is_none())
}

fn are_extremes_of_rows(alloc: Global, form: Form) -> VortexResult<bool> {
    let below = has_extremes(alloc, &s_over(alloc, form, 1)?, "1", "30")?;
    let above = has_extremes(alloc, &s_over(alloc, form, 99)?, "10", "99")?;
    let between = has_extremes(alloc, &s_over(alloc, form, 15)?, "10", "30")?;
    let whole = wholes(alloc, form, I32, (&[0, 1, 2], &[7, 3, 9]), 3, 99)?;
    Ok(below && above && between && has_extremes(alloc, &whole, "3", "9")?)
}

fn are_extremes_of_other_types(alloc: Global, form: Form) -> VortexResult<bool> {
    let nulls = has_extremes(
        alloc,
        &over_nulls(alloc, form, &[1, 3], &[10, 20])?,
        "10",
        "20",
    )?;
    let none = has_none(alloc, &over_nulls(alloc, form, &[], &[])?)?;
    let of_texts = has_extremes(alloc, &texts(alloc, form)?, "\"ab\"", "\"b\"")?;
    Ok(nulls && none && of_texts && has_extremes(alloc, &truths(alloc, form)?, "false", "true")?)
}

#[test]
fn extremes_weigh_the_fill_where_it_is_a_row(rt: HostRuntime) -> Result<(), Fail> {
    for form in FORMS {
        assert!(rt; are_extremes_of_rows(rt.alloc(), form)?);
        assert!(rt; are_extremes_of_other_types(rt.alloc(), form)?);
    }
    Ok(())
}

fn is_constant(alloc: Global, array: &SparseArray) -> VortexResult<bool> {
    array.is_constant(&mut context(alloc)?)
}

// Four 5s in all of four rows, three 7s over 7, and 7 alone.
fn are_constant(alloc: Global, form: Form) -> VortexResult<bool> {
    let patched = wholes(alloc, form, I32, (&[0, 1, 2, 3], &[5, 5, 5, 5]), 4, 99)?;
    let fives = is_constant(alloc, &patched)?;
    let alike = wholes(alloc, form, I32, (&[1, 4, 9], &[7, 7, 7]), 10, 7)?;
    let sevens = is_constant(alloc, &alike)?;
    let fills = wholes(alloc, form, I32, (&[], &[]), 5, 7)?;
    Ok(fives && sevens && is_constant(alloc, &fills)?)
}

// Two 9s over 7, three values, and values beside nulls.
fn are_not_constant(alloc: Global, form: Form) -> VortexResult<bool> {
    let nines = wholes(alloc, form, I32, (&[1, 4], &[9, 9]), 5, 7)?;
    let one = is_constant(alloc, &nines)?;
    let two = is_constant(alloc, &s_over(alloc, form, 1)?)?;
    let three = is_constant(alloc, &over_nulls(alloc, form, &[1, 3], &[10, 10])?)?;
    Ok(!one && !two && !three)
}

#[test]
fn constants(rt: HostRuntime) -> Result<(), Fail> {
    for form in FORMS {
        assert!(rt; are_constant(rt.alloc(), form)?);
        assert!(rt; are_not_constant(rt.alloc(), form)?);
    }
    let empty = wholes(rt.alloc(), Form::Flat, I32, (&[], &[]), 0, 7)?;
    assert!(rt; !is_constant(rt.alloc(), &empty)?);
    Ok(())
}

// Whether the sum is of a type, nullable, and prints as this.
fn has_sum(alloc: Global, array: &SparseArray, ptype: PType, text: &str) -> VortexResult<bool> {
    let sum: Scalar = array.sum(&mut context(alloc)?)?;
    let typed = *sum.dtype() == DType::primitive(ptype, Nullable);
    Ok(typed && sum.json(alloc)?.as_str() == text)
}

fn are_sums(alloc: Global, form: Form) -> VortexResult<bool> {
    let small = has_sum(alloc, &s_over(alloc, form, 1)?, I64, "65")?;
    let nulls = has_sum(
        alloc,
        &over_nulls(alloc, form, &[1, 3], &[10, 20])?,
        I64,
        "30",
    )?;
    Ok(small && nulls && has_sum(alloc, &truths(alloc, form)?, U64, "2")?)
}

// Sums whose parts lie outside 64 bits.
fn are_wide_sums(alloc: Global, form: Form) -> VortexResult<bool> {
    let top = i64::MAX as i128;
    let even = wholes(alloc, form, I64, (&[0, 1], &[top, top]), 4, -top)?;
    let inside = has_sum(alloc, &even, I64, "0")?;
    let over = wholes(alloc, form, I64, (&[0], &[1]), 3, top)?;
    let above = has_sum(alloc, &over, I64, "null")?;
    let wide = wholes(alloc, form, U64, (&[0], &[1]), 2, u64::MAX as i128)?;
    Ok(inside && above && has_sum(alloc, &wide, U64, "null")?)
}

#[test]
fn sums_are_exact_and_then_tested_for_their_range(rt: HostRuntime) -> Result<(), Fail> {
    for form in FORMS {
        assert!(rt; are_sums(rt.alloc(), form)?);
        assert!(rt; are_wide_sums(rt.alloc(), form)?);
    }
    Ok(())
}

fn has_nulls(alloc: Global, array: &SparseArray, count: u64) -> VortexResult<bool> {
    Ok(array.null_count(&mut context(alloc)?)? == count)
}

fn are_null_counts(alloc: Global, form: Form) -> VortexResult<bool> {
    let none = has_nulls(alloc, &s_over(alloc, form, 1)?, 0)?;
    let six = has_nulls(alloc, &over_nulls(alloc, form, &[1, 3], &[10, 20])?, 6)?;
    Ok(none && six && has_nulls(alloc, &lists(alloc, form, &[7])?, 0)?)
}

#[test]
fn nulls_are_counted_in_patches_and_fill(rt: HostRuntime) -> Result<(), Fail> {
    for form in FORMS {
        assert!(rt; are_null_counts(rt.alloc(), form)?);
    }
    Ok(())
}

// Whether neither extremes nor a sum are answered.
fn has_no_order(alloc: Global, array: &SparseArray) -> VortexResult<bool> {
    let refused = VortexError::MismatchedTypes;
    let extremes = array.min_max(&mut context(alloc)?).err() == Some(refused);
    Ok(extremes && array.sum(&mut context(alloc)?).err() == Some(refused))
}

fn are_lists(alloc: Global, form: Form) -> VortexResult<bool> {
    let same = is_constant(alloc, &lists(alloc, form, &[7, 8])?)?;
    let other = is_constant(alloc, &lists(alloc, form, &[7])?)?;
    Ok(same && !other && has_no_order(alloc, &lists(alloc, form, &[7])?)?)
}

#[test]
fn lists_are_constant_or_not_and_have_no_order(rt: HostRuntime) -> Result<(), Fail> {
    for form in FORMS {
        assert!(rt; are_lists(rt.alloc(), form)?);
    }
    Ok(())
}

#[test]
fn texts_have_no_sum(rt: HostRuntime) -> Result<(), Fail> {
    let array = texts(rt.alloc(), Form::Flat)?;
    let sum = array.sum(&mut context(rt.alloc())?);
    assert!(rt; sum.err() == Some(VortexError::MismatchedTypes));
    Ok(())
}
