//! The row functions of timestamps in parts.

use crate::answers::Answer;
use crate::questions::{Question, WITHIN, context, repeated};
use crate::telling::{RowFunctions, Setting, tell, tell_filter, tell_slice, tell_take};
use anyhow::{Result, bail};
use std::alloc::Global;
use std::time::CpuClock;
use vx_array::ArrayRef;
use vx_base::{
    ExecutionCtx, Nullability, Scalar, TimeUnit, TimestampType, VortexError, VortexResult,
};
use vx_bench_columns::stamps;
use vx_datetime::DateTimePartsArray;
use vx_rows::CompareOperator;

// The bits of timestamps in microseconds: those from 1970 to 2041.
const STAMP_BITS: u32 = 51;

// The half of their range, a quarter of it and three quarters.
const HALF: i64 = 1 << 50;

const QUARTER: i64 = 1 << 49;

const THREE_QUARTERS: i64 = 3 << 49;

// Which rows are less than a value.
fn below(
    array: &DateTimePartsArray,
    value: &Scalar,
    ctx: &mut ExecutionCtx,
) -> VortexResult<ArrayRef> {
    let value = repeated(ctx.alloc(), value, array.as_array().len())?;
    array.compare(&value, CompareOperator::Lt, ctx)
}

// Which rows lie between two values.
fn within(
    array: &DateTimePartsArray,
    lower: &Scalar,
    upper: &Scalar,
    ctx: &mut ExecutionCtx,
) -> VortexResult<ArrayRef> {
    let lower = repeated(ctx.alloc(), lower, array.as_array().len())?;
    let upper = repeated(ctx.alloc(), upper, array.as_array().len())?;
    array.between(&lower, &upper, WITHIN, ctx)
}

// The answer to a question that chooses rows, or that has an answer for each row.
fn column_answered(
    array: &DateTimePartsArray,
    question: Question<'_>,
    ctx: &mut ExecutionCtx,
) -> VortexResult<ArrayRef> {
    match question {
        Question::Slice(start, end) => array.slice(start, end, ctx),
        Question::Filter(keep) => array.filter(keep, ctx),
        Question::Take(indices) => array.take(indices, ctx),
        Question::Below(value) => below(array, value, ctx),
        Question::Between((lower, upper)) => within(array, lower, upper, ctx),
        _ => Err(VortexError::MismatchedTypes),
    }
}

impl RowFunctions for DateTimePartsArray {
    fn name(&self) -> &str {
        "parts"
    }

    fn tree(&self) -> &ArrayRef {
        self.as_array()
    }

    fn is_encoded(&self) -> bool {
        true
    }

    fn answer(&self, alloc: Global, question: Question<'_>) -> VortexResult<Answer> {
        let mut ctx = context(alloc)?;
        match question {
            Question::IsConstant => Ok(Answer::Truth(self.is_constant(&mut ctx)?)),
            _ => Ok(Answer::Column(column_answered(self, question, &mut ctx)?)),
        }
    }
}

// A timestamp as a scalar.
fn moment(micros: i64) -> VortexResult<Scalar> {
    let kind = TimestampType::new(TimeUnit::Microseconds, None)?;
    Ok(Scalar::timestamp(micros, kind, Nullability::NonNullable))
}

// Times a comparison with one value.
fn tell_compare(
    rt: &(impl AllocGlobal + CpuClock + Print),
    on: &Setting,
    array: &DateTimePartsArray,
) -> Result<()> {
    let half = moment(HALF)?;
    tell(rt, on, array, "compare", Question::Below(&half))
}

// Times a comparison with two bounds.
fn tell_between(
    rt: &(impl AllocGlobal + CpuClock + Print),
    on: &Setting,
    array: &DateTimePartsArray,
) -> Result<()> {
    let lower = moment(QUARTER)?;
    let bounds = (lower, moment(THREE_QUARTERS)?);
    tell(rt, on, array, "between", Question::Between(&bounds))
}

// Times each of them.
fn tell_each(
    rt: &(impl AllocGlobal + CpuClock + Print),
    on: &Setting,
    array: &DateTimePartsArray,
) -> Result<()> {
    tell_slice(rt, on, array)?;
    tell_filter(rt, on, array, "filter-50", 50)?;
    tell_take(rt, on, array)?;
    tell_compare(rt, on, array)?;
    tell_between(rt, on, array)?;
    tell(rt, on, array, "is_constant", Question::IsConstant)
}

/// Times timestamps in parts.
pub fn tell_parts(rt: &(impl AllocGlobal + CpuClock + Print), on: &Setting) -> Result<()> {
    let tree = stamps(rt.alloc(), on.rows, STAMP_BITS, on.nullability)?;
    match DateTimePartsArray::from_array(tree) {
        Ok(array) => tell_each(rt, on, &array),
        Err(_) => bail!("no timestamps in parts"),
    }
}
