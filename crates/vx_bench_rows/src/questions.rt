//! Questions: row functions with their arguments.

use crate::answers::Answer;
use std::alloc::Global;
use vx_array::ArrayRef;
use vx_base::{ExecutionCtx, Mask, Scalar, VortexError, VortexResult, Words};
use vx_rows::{
    BetweenOptions, CompareOperator, LikeOptions, between_scalars, compare_scalar, is_constant,
    like_scalar, min_max, null_count, sum,
};
use vx_selections::{filter, mask, scalar_at, slice, take};

/// A row function and its arguments.
#[derive(Clone, Copy)]
pub enum Question<'a> {
    Slice(u64, u64),
    Filter(&'a Mask),
    Mask(&'a Mask),
    Take(&'a ArrayRef),
    /// Which rows are less than a value.
    Below(&'a Scalar),
    /// Which rows are at least a lower bound and less than an upper one.
    Between(&'a (Scalar, Scalar)),
    Like(&'a Scalar),
    IsConstant,
    MinMax,
    NullCount,
    Sum,
    /// Single rows, one after another.
    Rows(&'a [u64]),
}

/// How `Between` bounds rows.
pub const WITHIN: BetweenOptions = BetweenOptions {
    lower_strict: false,
    upper_strict: true,
};

/// A context. None of these functions looks at its sample word.
pub fn context(alloc: Global) -> VortexResult<ExecutionCtx> {
    let words = Words::from_vec(vec![in alloc; 0]?);
    if words.len() == 0 {
        return Err(VortexError::LengthMismatch);
    }
    Ok(ExecutionCtx::new(alloc, words))
}

/// A column with the same value in each row.
pub fn repeated(alloc: Global, value: &Scalar, len: u64) -> VortexResult<ArrayRef> {
    Ok(ArrayRef::constant(value.copy(alloc)?, len))
}

// The values in these rows.
fn rows_at(
    alloc: Global,
    tree: &ArrayRef,
    rows: &[u64],
    ctx: &mut ExecutionCtx,
) -> VortexResult<Vec<Scalar>> {
    let mut values = Vec::new(alloc);
    for row in rows {
        values.push(scalar_at(tree, *row, ctx)?)?;
    }
    Ok(values)
}

// The answer to a question that chooses rows, or that has an answer for each row.
fn column_answered(
    tree: &ArrayRef,
    question: Question<'_>,
    ctx: &mut ExecutionCtx,
) -> VortexResult<ArrayRef> {
    match question {
        Question::Slice(start, end) => slice(tree, start, end, ctx),
        Question::Filter(keep) => filter(tree, keep, ctx),
        Question::Mask(keep) => mask(tree, keep, ctx),
        Question::Take(indices) => take(tree, indices, ctx),
        Question::Below(value) => compare_scalar(tree, value, CompareOperator::Lt, ctx),
        Question::Between((lower, upper)) => between_scalars(tree, lower, upper, WITHIN, ctx),
        Question::Like(pattern) => like_scalar(tree, pattern, LikeOptions { negated: false }, ctx),
        _ => Err(VortexError::MismatchedTypes),
    }
}

/// The answer of a tree.
pub fn answered(alloc: Global, tree: &ArrayRef, question: Question<'_>) -> VortexResult<Answer> {
    let mut ctx = context(alloc)?;
    match question {
        Question::IsConstant => Ok(Answer::Truth(is_constant(tree, &mut ctx)?)),
        Question::MinMax => Ok(Answer::Bounds(min_max(tree, &mut ctx)?)),
        Question::NullCount => Ok(Answer::Number(null_count(tree, &mut ctx)?)),
        Question::Sum => Ok(Answer::Value(sum(tree, &mut ctx)?)),
        Question::Rows(rows) => Ok(Answer::Values(rows_at(alloc, tree, rows, &mut ctx)?)),
        _ => Ok(Answer::Column(column_answered(tree, question, &mut ctx)?)),
    }
}
