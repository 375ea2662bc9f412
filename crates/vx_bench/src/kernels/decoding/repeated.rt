//! Nodes over repeated rows: run ends, runs in blocks, dictionaries, those whose codes are runs, and sparse rows.

use super::{Decoding, tell};
use anyhow::Result;
use std::alloc::Global;
use std::time::CpuClock;
use vx_array::{ArrayRef, Patches};
use vx_base::{Mask, Nullability, VortexResult};
use vx_bench_columns::{codes, column, dict, random, repeated, row_dict, scalar, steps};
use vx_blocks::{BlockRuns, block_runs};

// The rows of a run.
const RUN_ROWS: usize = 100;

// The bits of a run's value.
const VALUE_BITS: u32 = 9;

// One of so many rows isn't the fill.
const SPARSE_STEP: usize = 20;

// The fill of sparse rows.
const FILL: u64 = 7;

// Runs of `RUN_ROWS` rows each.
fn run_end(alloc: Global, rows: usize, values: ArrayRef) -> VortexResult<ArrayRef> {
    let ends = steps(alloc, rows / RUN_ROWS, RUN_ROWS as u64, RUN_ROWS as u64)?;
    let ends = column(alloc, ends, Nullability::NonNullable)?;
    Ok(ArrayRef::run_end(alloc, ends, values)?)
}

// Runs in blocks.
fn rle(alloc: Global, rows: usize, nullability: Nullability) -> VortexResult<ArrayRef> {
    let items = repeated::<u64>(alloc, rows, VALUE_BITS)?;
    let valid = Mask::from_bits(vec![in alloc; true; items.len()]?);
    let BlockRuns {
        heads,
        numbers,
        offsets,
    } = block_runs(alloc, items.as_slice(), &valid)?;
    let values = random(alloc, heads.as_slice().len(), nullability)?;
    let numbers = column(alloc, numbers.into_vec(), Nullability::NonNullable)?;
    let offsets = column(alloc, offsets.into_vec(), Nullability::NonNullable)?;
    Ok(ArrayRef::rle(alloc, values, numbers, offsets, rows as u64)?)
}

// A dictionary with a code a run.
fn run_dict(alloc: Global, rows: usize, nullability: Nullability) -> VortexResult<ArrayRef> {
    let codes = codes(alloc, rows / RUN_ROWS, nullability)?;
    dict(alloc, run_end(alloc, rows, codes)?)
}

// A fill, and every `SPARSE_STEP` rows a patch.
fn sparse(alloc: Global, rows: usize, nullability: Nullability) -> VortexResult<ArrayRef> {
    let count = rows / SPARSE_STEP;
    let places = steps(alloc, count, 0, SPARSE_STEP as u64)?;
    let indices = column(alloc, places, Nullability::NonNullable)?;
    let values = random(alloc, count, nullability)?;
    let patches = Patches::new(rows as u64, 0, indices, values)?;
    Ok(ArrayRef::sparse(alloc, patches, scalar(FILL, nullability)?)?)
}

/// Times these nodes.
pub(super) fn tell_repeated(
    rt: &(impl AllocGlobal + CpuClock + Print),
    on: &Decoding,
) -> Result<()> {
    let (alloc, rows, nullability) = (rt.alloc(), on.rows, on.nullability);
    let values = random(alloc, rows / RUN_ROWS, nullability)?;
    tell(rt, on, "runend", run_end(alloc, rows, values))?;
    tell(rt, on, "rle", rle(alloc, rows, nullability))?;
    tell(rt, on, "dict", row_dict(alloc, rows, nullability))?;
    tell(rt, on, "dict-of-runs", run_dict(alloc, rows, nullability))?;
    tell(rt, on, "sparse", sparse(alloc, rows, nullability))
}
