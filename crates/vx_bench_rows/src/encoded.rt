//! Row functions of constants, dictionaries and sequences.

use crate::questions::Question;
use crate::telling::{Setting, tell, tell_filter, tell_slice};
use crate::trees::Tree;
use anyhow::Result;
use std::alloc::Global;
use std::time::CpuClock;
use vx_array::ArrayRef;
use vx_base::{Nullability, PType, VortexResult};
use vx_bench_columns::{row_dict, scalar};

// The value of constants, and the first value of sequences and their step.
const VALUE: u64 = 7;

const FIRST: i128 = 5;

const STEP: i128 = 3;

// Times aggregates.
fn tell_aggregates(
    rt: &(impl AllocGlobal + CpuClock + Print),
    on: &Setting,
    column: &Tree,
) -> Result<()> {
    tell(rt, on, column, "is_constant", Question::IsConstant)?;
    tell(rt, on, column, "min_max", Question::MinMax)?;
    tell(rt, on, column, "null_count", Question::NullCount)
}

// A constant. It has no nulls even where its type is nullable.
fn constant(on: &Setting) -> VortexResult<Tree> {
    let tree = ArrayRef::constant(scalar(VALUE, on.nullability)?, on.rows as u64);
    Ok(Tree::encoded("constant", tree))
}

// A dictionary with a code a row.
fn dict(alloc: Global, on: &Setting) -> VortexResult<Tree> {
    let tree = row_dict(alloc, on.rows, on.nullability)?;
    Ok(Tree::encoded("dict", tree))
}

// A sequence, which has no nulls.
fn sequence(on: &Setting) -> VortexResult<Tree> {
    let (plain, len) = (Nullability::NonNullable, on.rows as u64);
    let tree = ArrayRef::sequence(PType::U64, plain, FIRST, STEP, len)?;
    Ok(Tree::encoded("sequence", tree))
}

/// Times a constant.
pub fn tell_constant(rt: &(impl AllocGlobal + CpuClock + Print), on: &Setting) -> Result<()> {
    let column = constant(on)?;
    tell_slice(rt, on, &column)?;
    tell_aggregates(rt, on, &column)
}

/// Times a dictionary.
pub fn tell_dict(rt: &(impl AllocGlobal + CpuClock + Print), on: &Setting) -> Result<()> {
    let column = dict(rt.alloc(), on)?;
    tell_slice(rt, on, &column)?;
    tell_filter(rt, on, &column, "filter-50", 50)?;
    tell_aggregates(rt, on, &column)
}

/// Times a sequence, unless columns have nulls.
pub fn tell_sequence(rt: &(impl AllocGlobal + CpuClock + Print), on: &Setting) -> Result<()> {
    if on.nullability == Nullability::Nullable {
        return Ok(());
    }
    let column = sequence(on)?;
    tell_slice(rt, on, &column)
}
