//! Row functions of plain columns of integers, of two types.

use crate::making::ROW_BITS;
use crate::questions::Question;
use crate::telling::{Setting, tell, tell_filter, tell_mask, tell_slice, tell_take};
use crate::trees::Tree;
use anyhow::Result;
use std::alloc::Global;
use std::time::CpuClock;
use vx_base::{Integer, Nullability, PType, Scalar, VortexResult};
use vx_bench_columns::{Listed, column, values};

// The half of the rows' range, a quarter of it and three quarters.
const HALF: i128 = 1 << 31;

const QUARTER: i128 = 1 << 30;

const THREE_QUARTERS: i128 = 3 << 30;

// Random rows, plain: with zeros beneath nulls.
fn plain_of<T: Integer + Listed>(alloc: Global, on: &Setting) -> VortexResult<Tree> {
    let rows = values::<T>(alloc, on.rows, ROW_BITS)?;
    let plain = column(alloc, rows, on.nullability)?.canonical(alloc)?;
    Ok(Tree::plain(T::ptype().name(), plain))
}

// Times what chooses rows.
fn tell_choices(
    rt: &(impl AllocGlobal + CpuClock + Print),
    on: &Setting,
    column: &Tree,
) -> Result<()> {
    tell_filter(rt, on, column, "filter-1", 1)?;
    tell_filter(rt, on, column, "filter-50", 50)?;
    tell_filter(rt, on, column, "filter-99", 99)?;
    tell_slice(rt, on, column)?;
    tell_take(rt, on, column)?;
    tell_mask(rt, on, column)
}

// Times a comparison with one value.
fn tell_compare(
    rt: &(impl AllocGlobal + CpuClock + Print),
    on: &Setting,
    ptype: PType,
    column: &Tree,
) -> Result<()> {
    let half = Scalar::primitive(HALF, ptype, Nullability::NonNullable)?;
    tell(rt, on, column, "compare", Question::Below(&half))
}

// The bounds of the middle half of the rows' range.
fn bounds(ptype: PType) -> VortexResult<(Scalar, Scalar)> {
    let lower = Scalar::primitive(QUARTER, ptype, Nullability::NonNullable)?;
    let upper = Scalar::primitive(THREE_QUARTERS, ptype, Nullability::NonNullable)?;
    Ok((lower, upper))
}

// Times a comparison with two bounds.
fn tell_between(
    rt: &(impl AllocGlobal + CpuClock + Print),
    on: &Setting,
    ptype: PType,
    column: &Tree,
) -> Result<()> {
    let bounds = bounds(ptype)?;
    tell(rt, on, column, "between", Question::Between(&bounds))
}

/// Times integers of one type.
pub fn tell_integers<T: Integer + Listed>(
    rt: &(impl AllocGlobal + CpuClock + Print),
    on: &Setting,
) -> Result<()> {
    let column = plain_of::<T>(rt.alloc(), on)?;
    tell_choices(rt, on, &column)?;
    tell_compare(rt, on, T::ptype(), &column)?;
    tell_between(rt, on, T::ptype(), &column)?;
    tell(rt, on, &column, "sum", Question::Sum)?;
    tell(rt, on, &column, "min_max", Question::MinMax)
}
