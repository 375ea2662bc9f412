//! The processor time of a row function, and the line that tells it.

use crate::answers::{Answer, digest_of};
use crate::making::{chosen, indices, middle};
use crate::questions::{Question, answered};
use anyhow::Result;
use std::alloc::Global;
use std::time::CpuClock;
use vx_array::ArrayRef;
use vx_base::{Nullability, VortexResult};
use vx_bench_columns::best_of;

/// Whether the columns have nulls, the number of rows, and the number of runs of each function.
#[derive(Clone, Copy)]
pub struct Setting {
    pub nullability: Nullability,
    pub rows: usize,
    pub repeats: u32,
}

/// A column with its row functions.
pub trait RowFunctions {
    /// Its name in the lines.
    fn name(&self) -> &str;

    fn tree(&self) -> &ArrayRef;

    /// Whether the same function of the decoded column is timed too.
    fn is_encoded(&self) -> bool;

    fn answer(&self, alloc: Global, question: Question<'_>) -> VortexResult<Answer>;
}

// What stands behind a column's name where the time has the decoding in it.
const DECODED: &str = "-decoded";

// Times one answer. One line: function, column and suffix, rows, microseconds, digest.
fn tell_answer<F: Fn() -> VortexResult<Answer>>(
    rt: &(impl AllocGlobal + CpuClock + Print),
    on: &Setting,
    name: &str,
    column: &str,
    suffix: &str,
    answer: F,
) -> Result<()>
    requires { F.IsAlwaysCallable answer }
{
    let (best, answer) = best_of(rt, on.repeats, answer)?;
    let digest = digest_of(rt.alloc(), &answer)?;
    println!(rt; "{name} {column}{suffix} {} {best} {digest}", on.rows)?;
    Ok(())
}

// The answer of the decoded tree.
fn answered_decoded(
    alloc: Global,
    tree: &ArrayRef,
    question: Question<'_>,
) -> VortexResult<Answer> {
    let plain = tree.canonical(alloc)?;
    answered(alloc, &plain, question)
}

// Times a question of the decoded tree, with the decoding.
fn tell_decoded(
    rt: &(impl AllocGlobal + CpuClock + Print),
    on: &Setting,
    name: &str,
    column: &str,
    tree: &ArrayRef,
    question: Question<'_>,
) -> Result<()> {
    let alloc = rt.alloc();
    tell_answer(
        rt,
        on,
        name,
        column,
        DECODED,
        || answered_decoded(alloc, tree, question),
    )
}

/// Times a question of a column, and of the decoded column where it is encoded.
pub fn tell<C: RowFunctions>(
    rt: &(impl AllocGlobal + CpuClock + Print),
    on: &Setting,
    column: &C,
    name: &str,
    question: Question<'_>,
) -> Result<()> {
    let alloc = rt.alloc();
    tell_answer(
        rt,
        on,
        name,
        column.name(),
        "",
        || column.answer(alloc, question),
    )?;
    if column.is_encoded() {
        tell_decoded(rt, on, name, column.name(), column.tree(), question)?;
    }
    Ok(())
}

/// Times the slice of the middle half.
pub fn tell_slice<C: RowFunctions>(
    rt: &(impl AllocGlobal + CpuClock + Print),
    on: &Setting,
    column: &C,
) -> Result<()> {
    let (start, end) = middle(on.rows);
    tell(rt, on, column, "slice", Question::Slice(start, end))
}

/// Times a filter that keeps `percent` of a hundred rows.
pub fn tell_filter<C: RowFunctions>(
    rt: &(impl AllocGlobal + CpuClock + Print),
    on: &Setting,
    column: &C,
    name: &str,
    percent: u32,
) -> Result<()> {
    let keep = chosen(rt.alloc(), on.rows, percent)?;
    tell(rt, on, column, name, Question::Filter(&keep))
}

/// Times a mask that keeps half of the rows.
pub fn tell_mask<C: RowFunctions>(
    rt: &(impl AllocGlobal + CpuClock + Print),
    on: &Setting,
    column: &C,
) -> Result<()> {
    let keep = chosen(rt.alloc(), on.rows, 50)?;
    tell(rt, on, column, "mask", Question::Mask(&keep))
}

/// Times a take of half as many rows.
pub fn tell_take<C: RowFunctions>(
    rt: &(impl AllocGlobal + CpuClock + Print),
    on: &Setting,
    column: &C,
) -> Result<()> {
    let indices = indices(rt.alloc(), on.rows)?;
    tell(rt, on, column, "take", Question::Take(&indices))
}
