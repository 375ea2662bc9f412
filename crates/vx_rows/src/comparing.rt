//! Comparisons of two columns, row by row, and of a column with a scalar.

ghost use Rattle.std.specs.Prelude.{◌≡◌, IsTrue, length};
ghost use Rattle.vx_base.specs.Answers.{Decided, OrMemory};
ghost use Rattle.vx_base.specs.PlainType.{same_base};
ghost use Rattle.vx_base.specs.TypeOf.{type_of};
ghost use Rattle.vx_model.specs.Column.{column_of};
ghost use Rattle.vx_model.specs.Rows.{rows};
ghost use Rattle.vx_model.specs.TreeType.{tree_type};
ghost use Rattle.vx_rows.specs.Pairs.{are_comparable};
ghost use Rattle.vx_rules.specs.Comparisons.{compare_refusal, comparison};
ghost use Rattle.vx_rules.specs.Operations.{repeated};

mod byte_rows;
mod columns;

use crate::held::readable;
use crate::lent::{rows_of, same_rows};
use crate::truths::either_nullability;
pub(crate) use columns::compared_rows;
use std::alloc::Global;
use vx_array::ArrayRef;
use vx_base::{DType, ExecutionCtx, Scalar, VortexError, VortexResult};
use vx_rules::CompareOperator;

/// Whether the operator holds between the rows of two columns, row by row; null where either is null. Values are ordered false
/// below true, integers and timestamps as numbers, texts and binaries by their bytes.
///
/// Refuses MismatchedTypes unless both are of one flat type, up to nullability, then LengthMismatch unless they are equally long.
pub fn compare(
    array: &ArrayRef,
    other: &ArrayRef,
    operator: CompareOperator,
    ctx: &mut ExecutionCtx,
) -> VortexResult<ArrayRef>
    ensures answer { Decided (compare_refusal (column_of array.now) (column_of other.now)) (λ out. column_of out ≡ comparison operator (column_of array.now) (column_of other.now)) result }
    ensures ctx { ctx.new ≡ ctx.old }
{
    if !are_comparable(array.dtype(), other.dtype()) {
        return Err(VortexError::MismatchedTypes);
    }
    if array.len() != other.len() {
        return Err(VortexError::LengthMismatch);
    }
    compared_trees(ctx.alloc(), operator, array, other)
}

/// Whether the operator holds between each row and one value; null where either is null. Refuses MismatchedTypes unless the
/// column's type is flat and the value's, up to nullability.
pub fn compare_scalar(
    array: &ArrayRef,
    value: &Scalar,
    operator: CompareOperator,
    ctx: &mut ExecutionCtx,
) -> VortexResult<ArrayRef>
    ensures answer { Decided (compare_refusal (column_of array.now) (repeated value.now (column_of array.now))) (λ out. column_of out ≡ comparison operator (column_of array.now) (repeated value.now (column_of array.now))) result }
    ensures ctx { ctx.new ≡ ctx.old }
{
    if !are_comparable(array.dtype(), value.dtype()) {
        return Err(VortexError::MismatchedTypes);
    }
    compared_with(ctx.alloc(), operator, array, value)
}

// Whether values of the two types are compared: they are of one flat type, up to nullability.
pub(crate) fn are_comparable(left: &DType, right: &DType) -> bool
    ensures { result ≡ are_comparable (type_of left.now) (type_of right.now) }
{
    left.is_flat() && have_one_base(left, right)
}

// Whether two types are equal up to nullability.
fn have_one_base(left: &DType, right: &DType) -> bool
    ensures { result ≡ same_base (type_of left.now) (type_of right.now) }
{
    left.same_base(right)
}

// `compare` of columns that it admits.
fn compared_trees(
    alloc: Global,
    operator: CompareOperator,
    left: &ArrayRef,
    right: &ArrayRef,
) -> VortexResult<ArrayRef>
    requires types { IsTrue (are_comparable (tree_type left.now) (tree_type right.now)) }
    requires lengths { length (rows left.now) ≡ length (rows right.now) }
    ensures { OrMemory result (λ out. column_of out ≡ comparison operator (column_of left.now) (column_of right.now)) }
{
    let left_read = readable(alloc, left)?;
    let right_read = readable(alloc, right)?;
    let lefts = rows_of(&left_read);
    let rights = rows_of(&right_read);
    let truths = compared_rows(alloc, operator, lefts, rights)?;
    let nullability = either_nullability(left.dtype(), right.dtype());
    Ok(truths.into_tree(nullability))
}

// `compare_scalar` of a column and a value that it admits.
fn compared_with(
    alloc: Global,
    operator: CompareOperator,
    array: &ArrayRef,
    value: &Scalar,
) -> VortexResult<ArrayRef>
    requires types { IsTrue (are_comparable (tree_type array.now) value.now.dtype) }
    ensures { OrMemory result (λ out. column_of out ≡ comparison operator (column_of array.now) (repeated value.now (column_of array.now))) }
{
    let read = readable(alloc, array)?;
    let rows = rows_of(&read);
    let others = same_rows(value, array.len());
    let truths = compared_rows(alloc, operator, rows, others)?;
    let nullability = either_nullability(array.dtype(), value.dtype());
    Ok(truths.into_tree(nullability))
}
