//! Texts that match patterns, row by row.

ghost use Rattle.std.specs.Prelude.{◌≡◌, IsTrue, length};
ghost use Rattle.vx_base.specs.Answers.{Decided, OrMemory};
ghost use Rattle.vx_base.specs.PlainType.{is_text};
ghost use Rattle.vx_base.specs.TypeOf.{type_of};
ghost use Rattle.vx_model.specs.Column.{column_of};
ghost use Rattle.vx_model.specs.Rows.{rows};
ghost use Rattle.vx_model.specs.TreeType.{tree_type};
ghost use Rattle.vx_rules.specs.Operations.{repeated};
ghost use Rattle.vx_rules.specs.Patterns.{like, like_refusal};

mod cells;
mod columns;
mod room;

use crate::held::readable;
use crate::lent::{rows_of, same_rows};
use crate::truths::either_nullability;
use columns::liked_rows;
use std::alloc::Global;
use vx_array::ArrayRef;
use vx_base::{DType, ExecutionCtx, Scalar, VortexError, VortexResult};
use vx_rules::LikeOptions;

/// Whether each text matches the pattern of its row, or doesn't where the match is negated; null where either is null. In a pattern
/// `%` stands for any characters, `_` for any one, and another character for itself, as does the one behind a backslash and a
/// backslash at the end. Characters are those of the text, not its bytes.
///
/// Refuses MismatchedTypes unless both columns are of texts, then LengthMismatch unless they are equally long.
pub fn like(
    array: &ArrayRef,
    pattern: &ArrayRef,
    options: LikeOptions,
    ctx: &mut ExecutionCtx,
) -> VortexResult<ArrayRef>
    ensures answer { Decided (like_refusal (column_of array.now) (column_of pattern.now)) (λ out. column_of out ≡ like options (column_of array.now) (column_of pattern.now)) result }
    ensures ctx { ctx.new ≡ ctx.old }
{
    if !is_text(array.dtype()) || !is_text(pattern.dtype()) {
        return Err(VortexError::MismatchedTypes);
    }
    if array.len() != pattern.len() {
        return Err(VortexError::LengthMismatch);
    }
    trees_liked(ctx.alloc(), array, pattern, options)
}

/// Whether each text matches one pattern; null where the text or the pattern is null. Refuses MismatchedTypes unless the column and
/// the pattern are of texts.
pub fn like_scalar(
    array: &ArrayRef,
    pattern: &Scalar,
    options: LikeOptions,
    ctx: &mut ExecutionCtx,
) -> VortexResult<ArrayRef>
    ensures answer { Decided (like_refusal (column_of array.now) (repeated pattern.now (column_of array.now))) (λ out. column_of out ≡ like options (column_of array.now) (repeated pattern.now (column_of array.now))) result }
    ensures ctx { ctx.new ≡ ctx.old }
{
    if !is_text(array.dtype()) || !is_text(pattern.dtype()) {
        return Err(VortexError::MismatchedTypes);
    }
    tree_liked(ctx.alloc(), array, pattern, options)
}

// Whether the values of a type are texts.
fn is_text(dtype: &DType) -> bool
    ensures { result ≡ is_text (type_of dtype.now) }
{
    matches!(dtype, DType::Utf8(_))
}

// `like` of columns that it admits.
fn trees_liked(
    alloc: Global,
    array: &ArrayRef,
    patterns: &ArrayRef,
    options: LikeOptions,
) -> VortexResult<ArrayRef>
    requires texts { IsTrue (is_text (tree_type array.now)) }
    requires patterns { IsTrue (is_text (tree_type patterns.now)) }
    requires lengths { length (rows array.now) ≡ length (rows patterns.now) }
    ensures { OrMemory result (λ out. column_of out ≡ like options (column_of array.now) (column_of patterns.now)) }
{
    let read = readable(alloc, array)?;
    let pattern_read = readable(alloc, patterns)?;
    let texts = rows_of(&read);
    let pattern_rows = rows_of(&pattern_read);
    let truths = liked_rows(alloc, texts, pattern_rows, options)?;
    let nullability = either_nullability(array.dtype(), patterns.dtype());
    Ok(truths.into_tree(nullability))
}

// `like_scalar` of a column and a pattern that it admits.
fn tree_liked(
    alloc: Global,
    array: &ArrayRef,
    pattern: &Scalar,
    options: LikeOptions,
) -> VortexResult<ArrayRef>
    requires texts { IsTrue (is_text (tree_type array.now)) }
    requires pattern { IsTrue (is_text pattern.now.dtype) }
    ensures { OrMemory result (λ out. column_of out ≡ like options (column_of array.now) (repeated pattern.now (column_of array.now))) }
{
    let read = readable(alloc, array)?;
    let texts = rows_of(&read);
    let pattern_rows = same_rows(pattern, array.len());
    let truths = liked_rows(alloc, texts, pattern_rows, options)?;
    let nullability = either_nullability(array.dtype(), pattern.dtype());
    Ok(truths.into_tree(nullability))
}
