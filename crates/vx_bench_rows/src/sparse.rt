//! The kernels of sparse arrays.

use crate::answers::Answer;
use crate::making::{ROW_BITS, places};
use crate::questions::{Question, context, repeated};
use crate::telling::{RowFunctions, Setting, tell, tell_filter, tell_slice};
use anyhow::{Result, bail};
use std::alloc::Global;
use std::time::CpuClock;
use vx_array::{ArrayRef, Patches};
use vx_base::{ExecutionCtx, Nullability, Scalar, VortexError, VortexResult};
use vx_bench_columns::{column, column_of, scalar, steps, values};
use vx_rows::CompareOperator;
use vx_sparse::{SparseArray, SparseKernels};

// The distance between patches: each hundredth row has one, and the other rows have the fill.
const PATCH_STEP: usize = 100;

// The fill, and the half of the patches' range.
const FILL: u64 = 7;

const HALF: u64 = 1 << 31;

// The single rows that are read.
const SINGLE_ROWS: usize = 1_000;

// A patch in every `PATCH_STEP` rows, each tenth of them null where the column is nullable.
fn patches(alloc: Global, rows: usize, nullability: Nullability) -> VortexResult<Patches> {
    let count = rows / PATCH_STEP;
    let items = values::<u64>(alloc, count, ROW_BITS)?;
    let patched = column(alloc, items, nullability)?;
    let indices = column_of(steps(alloc, count, 0, PATCH_STEP as u64)?);
    Ok(Patches::new(rows as u64, 0, indices, patched)?)
}

// A fill, and these patches.
fn tree_of(alloc: Global, on: &Setting) -> VortexResult<ArrayRef> {
    let fill = scalar(FILL, on.nullability)?;
    let patches = patches(alloc, on.rows, on.nullability)?;
    Ok(ArrayRef::sparse(alloc, patches, fill)?)
}

// The values in these rows.
fn rows_at(
    alloc: Global,
    array: &SparseArray,
    rows: &[u64],
    ctx: &mut ExecutionCtx,
) -> VortexResult<Vec<Scalar>> {
    let mut values = Vec::new(alloc);
    for row in rows {
        values.push(array.scalar_at(*row, ctx)?)?;
    }
    Ok(values)
}

// Which rows are less than a value.
fn below(array: &SparseArray, value: &Scalar, ctx: &mut ExecutionCtx) -> VortexResult<ArrayRef> {
    let value = repeated(ctx.alloc(), value, array.as_array().len())?;
    array.compare(&value, CompareOperator::Lt, ctx)
}

// The answer to a question that chooses rows, or that has an answer for each row.
fn column_answered(
    array: &SparseArray,
    question: Question<'_>,
    ctx: &mut ExecutionCtx,
) -> VortexResult<ArrayRef> {
    match question {
        Question::Slice(start, end) => array.slice(start, end, ctx),
        Question::Filter(keep) => array.filter(keep, ctx),
        Question::Below(value) => below(array, value, ctx),
        _ => Err(VortexError::MismatchedTypes),
    }
}

impl RowFunctions for SparseArray {
    fn name(&self) -> &str {
        "sparse"
    }

    fn tree(&self) -> &ArrayRef {
        self.as_array()
    }

    fn is_encoded(&self) -> bool {
        true
    }

    fn answer(&self, alloc: Global, question: Question<'_>) -> VortexResult<Answer> {
        let mut ctx = context(alloc)?;
        match question {
            Question::IsConstant => Ok(Answer::Truth(self.is_constant(&mut ctx)?)),
            Question::MinMax => Ok(Answer::Bounds(self.min_max(&mut ctx)?)),
            Question::NullCount => Ok(Answer::Number(self.null_count(&mut ctx)?)),
            Question::Sum => Ok(Answer::Value(self.sum(&mut ctx)?)),
            Question::Rows(rows) => Ok(Answer::Values(rows_at(alloc, self, rows, &mut ctx)?)),
            _ => Ok(Answer::Column(column_answered(self, question, &mut ctx)?)),
        }
    }
}

// Times a comparison with one value.
fn tell_compare(
    rt: &(impl AllocGlobal + CpuClock + Print),
    on: &Setting,
    array: &SparseArray,
) -> Result<()> {
    let value = scalar(HALF, Nullability::NonNullable)?;
    tell(rt, on, array, "compare", Question::Below(&value))
}

// Times aggregates.
fn tell_aggregates(
    rt: &(impl AllocGlobal + CpuClock + Print),
    on: &Setting,
    array: &SparseArray,
) -> Result<()> {
    tell(rt, on, array, "is_constant", Question::IsConstant)?;
    tell(rt, on, array, "min_max", Question::MinMax)?;
    tell(rt, on, array, "null_count", Question::NullCount)?;
    tell(rt, on, array, "sum", Question::Sum)
}

// Times single rows.
fn tell_rows(
    rt: &(impl AllocGlobal + CpuClock + Print),
    on: &Setting,
    array: &SparseArray,
) -> Result<()> {
    let rows = places(rt.alloc(), SINGLE_ROWS, on.rows)?;
    tell(rt, on, array, "scalar_at", Question::Rows(rows.as_slice()))
}

// Times each of them.
fn tell_each(
    rt: &(impl AllocGlobal + CpuClock + Print),
    on: &Setting,
    array: &SparseArray,
) -> Result<()> {
    tell_slice(rt, on, array)?;
    tell_filter(rt, on, array, "filter-50", 50)?;
    tell_compare(rt, on, array)?;
    tell_aggregates(rt, on, array)?;
    tell_rows(rt, on, array)
}

/// Times sparse arrays.
pub fn tell_sparse(rt: &(impl AllocGlobal + CpuClock + Print), on: &Setting) -> Result<()> {
    let tree = tree_of(rt.alloc(), on)?;
    match SparseArray::from_array(tree) {
        Ok(array) => tell_each(rt, on, &array),
        Err(_) => bail!("no sparse array"),
    }
}
