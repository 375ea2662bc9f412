//! Row functions of plain columns of texts of eight bytes.

use crate::making::text;
use crate::questions::Question;
use crate::telling::{Setting, tell, tell_filter};
use crate::trees::Tree;
use anyhow::Result;
use std::alloc::Global;
use std::time::CpuClock;
use vx_base::VortexResult;
use vx_bench_columns::texts;

// Half of the texts begin below it.
const VALUE: &str = "@";

const PATTERN: &str = "%ab%";

fn plain_of(alloc: Global, on: &Setting) -> VortexResult<Tree> {
    let plain = texts(alloc, on.rows, on.nullability)?.canonical(alloc)?;
    Ok(Tree::plain("text", plain))
}

// Times a comparison with one value.
fn tell_compare(
    rt: &(impl AllocGlobal + CpuClock + Print),
    on: &Setting,
    column: &Tree,
) -> Result<()> {
    let value = text(rt.alloc(), VALUE)?;
    tell(rt, on, column, "compare", Question::Below(&value))
}

// Times a pattern.
fn tell_like(
    rt: &(impl AllocGlobal + CpuClock + Print),
    on: &Setting,
    column: &Tree,
) -> Result<()> {
    let pattern = text(rt.alloc(), PATTERN)?;
    tell(rt, on, column, "like", Question::Like(&pattern))
}

/// Times texts.
pub fn tell_texts(rt: &(impl AllocGlobal + CpuClock + Print), on: &Setting) -> Result<()> {
    let column = plain_of(rt.alloc(), on)?;
    tell_filter(rt, on, &column, "filter-50", 50)?;
    tell_compare(rt, on, &column)?;
    tell_like(rt, on, &column)
}
