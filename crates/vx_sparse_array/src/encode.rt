//! How a column becomes a sparse array.

ghost use Rattle.std.specs.Prelude.{◌≡◌, ◌<◌, ◌≤◌, ◌*◌, ◌^◌, IsTrue, None, Some, length, nat_lt, option_copied, true};
ghost use Rattle.vx_base.specs.Answers.{Answers};
ghost use Rattle.vx_base.specs.PlainType.{same_base};
ghost use Rattle.vx_base.specs.TypeOf.{type_of};
ghost use Rattle.vx_base.specs.declared.ptype.PType.TheVariants.{U32, U64};
ghost use Rattle.vx_model.specs.Column.{column_of};
ghost use Rattle.vx_model.specs.Rows.{rows};
ghost use Rattle.vx_model.specs.TreeType.{tree_type};
ghost use Rattle.vx_stats.specs.Stats.{null_count};
ghost use Rattle.vx_sparse_array.specs.Filling.{filled_tree, is_mostly_null, null_filling, value_filling};
ghost use Rattle.vx_sparse_array.specs.Encoded.{AnswersAs, encoded, encoded_rows, fill_for, filled_by, is_fill_of};

use crate::filled::{frequent_value, null_tree, over_nulls, over_value, plain_tree};
use std::alloc::Global;
use vx_array::ArrayRef;
use vx_base::{DType, ExecutionCtx, Scalar, VortexError, VortexResult};

/// The encoding of sparse arrays: how they are made, and of which columns.
#[derive(Clone, Copy, Debug)]
pub struct Sparse;

impl Sparse {
    /// A column as a fill for most rows, with the other rows as patches. An empty column comes back plain, and one of nulls
    /// alone as a Constant. Where more than 9 of 10 rows are null the fill is null, whatever was requested, and the indices
    /// are plain `u32`. Else it is the requested fill, cast to the type of the column, or without one the most frequent
    /// value of a column of integers; each null and each row that differs from it is a patch, and the indices are plain
    /// `u64`. Where no row is patched the answer is a Constant. Refuses, in this order, MismatchedTypes for a fill of
    /// another base, TooManyRows above 2^32 - 1 rows, CastRefused for a fill that the type of the column doesn't hold,
    /// MismatchedTypes for a column of another type than integers without a fill, and NoMemory.
    pub fn encode(
        array: &ArrayRef,
        fill_value: Option<&Scalar>,
        ctx: &mut ExecutionCtx,
    ) -> VortexResult<ArrayRef>
        ensures answer { AnswersAs (encoded (column_of array.now) (option_copied fill_value.entry)) result }
        ensures ctx { ctx.new ≡ ctx.old }
    {
        if !is_fill_of(array.dtype(), fill_value) {
            return Err(VortexError::MismatchedTypes);
        }
        if !is_countable(array) {
            return Err(VortexError::TooManyRows);
        }
        if array.len() == 0 {
            return array.canonical(ctx.alloc());
        }
        encoded_rows(array, fill_value, ctx)
    }
}

// Whether a requested fill has the base of the type.
fn is_fill_of(dtype: &DType, fill: Option<&Scalar>) -> bool
    ensures { result ≡ is_fill_of (type_of dtype.now) (option_copied fill.entry) }
{
    match fill {
        Some(fill) => fill.dtype().same_base(dtype),
        None => true,
    }
}

// Whether the rows are at most 2^32 - 1: indices over nulls have 32 bits, and so has a count of the statistics.
fn is_countable(array: &ArrayRef) -> bool
    ensures { result ≡ nat_lt (length (rows array.now)) (2 ^ 32) }
{
    array.len() <= u64::from(u32::MAX)
}

// The number of null rows.
fn null_count(array: &ArrayRef) -> u64
    ensures count { result ≡ null_count (rows array.now) }
    ensures few { result ≤ length (rows array.now) }
{
    let mut count = 0;
    for row in 0..array.len() {
        count += u64::from(array.is_null_at(row));
    }
    count
}

// A column with rows, by how many of them are null, and then by the fill.
fn encoded_rows(
    array: &ArrayRef,
    fill: Option<&Scalar>,
    ctx: &mut ExecutionCtx,
) -> VortexResult<ArrayRef>
    requires fill { IsTrue (is_fill_of (tree_type array.now) (option_copied fill)) }
    requires some { 0 < length (rows array.now) }
    requires few { length (rows array.now) < 2 ^ 32 }
    ensures answer { AnswersAs (encoded_rows (column_of array.now) (option_copied fill.entry)) result }
    ensures ctx { ctx.new ≡ ctx.old }
{
    let rows = array.len();
    let nulls = null_count(array);
    if nulls == rows {
        return null_tree(ctx.alloc(), array);
    }
    if is_mostly_null(rows, nulls) {
        return over_most_nulls(ctx.alloc(), array);
    }
    match fill {
        Some(fill) => over_fill(ctx.alloc(), array, fill),
        None => over_frequent(array, ctx),
    }
}

// Whether more than 9 of 10 rows are null. Below 2^32 rows neither product overflows.
fn is_mostly_null(rows: u64, nulls: u64) -> bool
    requires rows { rows < 2 ^ 32 }
    requires nulls { nulls ≤ rows }
    ensures { result ≡ nat_lt (9 * rows) (10 * nulls) }
{
    9 * rows < 10 * nulls
}

// A column over the null fill.
fn over_most_nulls(alloc: Global, array: &ArrayRef) -> VortexResult<ArrayRef>
    requires mostly { IsTrue (is_mostly_null (rows array.now)) }
    requires few { length (rows array.now) < 2 ^ 32 }
    ensures { Answers result (filled_tree U32 null_filling (column_of array.now)) }
{
    let plain = plain_tree(alloc, array)?;
    over_nulls(alloc, &plain)
}

// A column over the requested fill, cast to the type of the column.
fn over_fill(alloc: Global, array: &ArrayRef, fill: &Scalar) -> VortexResult<ArrayRef>
    requires { same_base fill.now.dtype (tree_type array.now) ≡ true }
    ensures { AnswersAs (filled_by (column_of array.now) (fill_for (column_of array.now) (Some fill.now))) result }
{
    match fill.cast(alloc, array.dtype()) {
        Ok(fill) => over_cast(alloc, array, fill),
        Err(error) => Err(error),
    }
}

// A column over a fill of its type.
fn over_cast(alloc: Global, array: &ArrayRef, fill: Scalar) -> VortexResult<ArrayRef>
    requires { fill.dtype ≡ tree_type array.now }
    ensures { Answers result (filled_tree U64 (value_filling fill.value) (column_of array.now)) }
{
    let plain = plain_tree(alloc, array)?;
    over_value(alloc, &plain, fill)
}

// A column over its most frequent integer.
fn over_frequent(array: &ArrayRef, ctx: &mut ExecutionCtx) -> VortexResult<ArrayRef>
    requires some { 0 < length (rows array.now) }
    requires few { length (rows array.now) < 2 ^ 32 }
    ensures answer { AnswersAs (filled_by (column_of array.now) (fill_for (column_of array.now) None)) result }
    ensures ctx { ctx.new ≡ ctx.old }
{
    if !array.dtype().is_integer() {
        return Err(VortexError::MismatchedTypes);
    }
    let plain = plain_tree(ctx.alloc(), array)?;
    let fill = frequent_value(&plain, ctx)?;
    over_value(ctx.alloc(), &plain, fill)
}
