//! Decoding: `canonical` of a tree of each node, without nulls or with a null in each tenth row. `bench/decode.rs` makes
//! the same rows and digests.

mod making;
mod nested;
mod packed;
mod plain;
mod repeated;

use anyhow::Result;
pub(super) use making::packed;
use nested::{tell_lists, tell_structs};
use packed::tell_packed;
use plain::{digest_of, tell_plain};
use repeated::tell_repeated;
use std::time::CpuClock;
use vx_array::ArrayRef;
use vx_base::{Nullability, VortexResult};
use vx_bench_columns::best_of;

/// Whether the columns have nulls, the number of rows, and the number of runs of each kernel.
#[derive(Clone, Copy)]
pub struct Decoding {
    pub nullability: Nullability,
    pub rows: usize,
    pub repeats: u32,
}

// One line: node, rows, microseconds, digest.
fn show(rt: &impl Print, on: &Decoding, node: &str, best: u128, digest: u64) -> Result<()> {
    println!(rt; "{node} {} {best} {digest}", on.rows)?;
    Ok(())
}

// Times `canonical` of a flat tree.
fn tell(
    rt: &(impl AllocGlobal + CpuClock + Print),
    on: &Decoding,
    node: &str,
    made: VortexResult<ArrayRef>,
) -> Result<()> {
    let (alloc, tree) = (rt.alloc(), made?);
    let (best, plain) = best_of(rt, on.repeats, || tree.canonical(alloc))?;
    show(rt, on, node, best, digest_of(&plain)?)
}

/// Times the decoding of each node, and writes a line for each.
pub fn tell_decoding(rt: &(impl AllocGlobal + CpuClock + Print), on: &Decoding) -> Result<()> {
    tell_plain(rt, on)?;
    tell_packed(rt, on)?;
    tell_repeated(rt, on)?;
    tell_structs(rt, on)?;
    tell_lists(rt, on)
}
