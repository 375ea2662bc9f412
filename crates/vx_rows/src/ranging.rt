//! Whether rows lie between the rows of two other columns, or between two scalars.

ghost use Rattle.std.specs.Prelude.{◌≡◌, ◌&&◌, ◌==◌, IsTrue, length};
ghost use Rattle.vx_base.specs.Answers.{Decided, OrMemory};
ghost use Rattle.vx_base.specs.PlainType.{nullability_of, or_nullable};
ghost use Rattle.vx_base.specs.TypeOf.{type_of};
ghost use Rattle.vx_model.specs.Column.{column_of};
ghost use Rattle.vx_model.specs.Rows.{rows};
ghost use Rattle.vx_model.specs.TreeType.{tree_type};
ghost use Rattle.vx_rows.specs.Pairs.{are_within_types};
ghost use Rattle.vx_rules.specs.Comparisons.{between, between_refusal};
ghost use Rattle.vx_rules.specs.Operations.{repeated};

mod columns;

use crate::comparing::are_comparable;
use crate::held::readable;
use crate::lent::{rows_of, same_rows};
use crate::truths::either_nullability;
use columns::rows_within;
use std::alloc::Global;
use vx_array::ArrayRef;
use vx_base::{DType, ExecutionCtx, Nullability, Scalar, VortexError, VortexResult};
use vx_rules::BetweenOptions;

/// Whether each row lies between the bounds of its row: `low <= value && value <= high`, with `<` for a strict bound; null where any
/// of the three is null.
///
/// Refuses MismatchedTypes unless the three are of one flat type, up to nullability, then LengthMismatch unless they are equally
/// long.
pub fn between(
    array: &ArrayRef,
    lower: &ArrayRef,
    upper: &ArrayRef,
    options: BetweenOptions,
    ctx: &mut ExecutionCtx,
) -> VortexResult<ArrayRef>
    ensures answer { Decided (between_refusal (column_of array.now) (column_of lower.now) (column_of upper.now)) (λ out. column_of out ≡ between options (column_of array.now) (column_of lower.now) (column_of upper.now)) result }
    ensures ctx { ctx.new ≡ ctx.old }
{
    if !are_within_types(array.dtype(), lower.dtype(), upper.dtype()) {
        return Err(VortexError::MismatchedTypes);
    }
    if !are_as_many(array.len(), lower.len(), upper.len()) {
        return Err(VortexError::LengthMismatch);
    }
    trees_within(ctx.alloc(), options, array, lower, upper)
}

/// Whether each row lies between two values; null where the row or either value is null. Refuses MismatchedTypes unless the
/// column's type is flat and that of both values, up to nullability.
pub fn between_scalars(
    array: &ArrayRef,
    lower: &Scalar,
    upper: &Scalar,
    options: BetweenOptions,
    ctx: &mut ExecutionCtx,
) -> VortexResult<ArrayRef>
    ensures answer { Decided (between_refusal (column_of array.now) (repeated lower.now (column_of array.now)) (repeated upper.now (column_of array.now))) (λ out. column_of out ≡ between options (column_of array.now) (repeated lower.now (column_of array.now)) (repeated upper.now (column_of array.now))) result }
    ensures ctx { ctx.new ≡ ctx.old }
{
    if !are_within_types(array.dtype(), lower.dtype(), upper.dtype()) {
        return Err(VortexError::MismatchedTypes);
    }
    tree_within(ctx.alloc(), options, array, lower, upper)
}

// Whether values of the first type are compared with those of the two others.
fn are_within_types(dtype: &DType, lower: &DType, upper: &DType) -> bool
    ensures { result ≡ are_within_types (type_of dtype.now) (type_of lower.now) (type_of upper.now) }
{
    let below = are_comparable(dtype, lower);
    let above = are_comparable(dtype, upper);
    below & above
}

// Whether there are as many rows as bounds.
fn are_as_many(rows: u64, lower: u64, upper: u64) -> bool
    ensures { result ≡ (rows == lower && rows == upper) }
{
    (rows == lower) & (rows == upper)
}

// `between` of columns that it admits.
fn trees_within(
    alloc: Global,
    options: BetweenOptions,
    array: &ArrayRef,
    low: &ArrayRef,
    high: &ArrayRef,
) -> VortexResult<ArrayRef>
    requires types { IsTrue (are_within_types (tree_type array.now) (tree_type low.now) (tree_type high.now)) }
    requires lengths { IsTrue (length (rows array.now) == length (rows low.now) && length (rows array.now) == length (rows high.now)) }
    ensures { OrMemory result (λ out. column_of out ≡ between options (column_of array.now) (column_of low.now) (column_of high.now)) }
{
    let read = readable(alloc, array)?;
    let low_read = readable(alloc, low)?;
    let high_read = readable(alloc, high)?;
    let rows = rows_of(&read);
    let lows = rows_of(&low_read);
    let highs = rows_of(&high_read);
    let truths = rows_within(alloc, options, rows, lows, highs)?;
    let nullability = nullability_within(array.dtype(), low.dtype(), high.dtype());
    Ok(truths.into_tree(nullability))
}

// `between_scalars` of a column and values that it admits.
fn tree_within(
    alloc: Global,
    options: BetweenOptions,
    array: &ArrayRef,
    low: &Scalar,
    high: &Scalar,
) -> VortexResult<ArrayRef>
    requires types { IsTrue (are_within_types (tree_type array.now) low.now.dtype high.now.dtype) }
    ensures { OrMemory result (λ out. column_of out ≡ between options (column_of array.now) (repeated low.now (column_of array.now)) (repeated high.now (column_of array.now))) }
{
    let read = readable(alloc, array)?;
    let rows = rows_of(&read);
    let lows = same_rows(low, array.len());
    let highs = same_rows(high, array.len());
    let truths = rows_within(alloc, options, rows, lows, highs)?;
    let nullability = nullability_within(array.dtype(), low.dtype(), high.dtype());
    Ok(truths.into_tree(nullability))
}

// Whether the answers may be null: they are where the row or either bound is.
fn nullability_within(dtype: &DType, low: &DType, high: &DType) -> Nullability
    ensures { result ≡ or_nullable (nullability_of (type_of dtype.now)) (or_nullable (nullability_of (type_of low.now)) (nullability_of (type_of high.now))) }
{
    dtype.nullability().or(either_nullability(low, high))
}
