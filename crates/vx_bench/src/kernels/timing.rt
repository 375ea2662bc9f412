//! The line that tells a kernel's time, and the time of `canonical`.

use super::Setting;
use anyhow::{Result, bail};
use std::time::CpuClock;
use vx_array::{ArrayRef, Node};
use vx_bench_columns::{best_of, digest};
use vx_values::Ints;

// One line: kernel, type, width, rows, microseconds, digest.
pub(super) fn show(
    rt: &impl Print,
    kernel: &str,
    on: &Setting,
    best: u128,
    digest: u64,
) -> Result<()> {
    println!(rt;
        "{kernel} {} {} {} {best} {digest}",
        on.ptype.name(),
        on.width,
        on.rows
    )?;
    Ok(())
}

// The digest of a plain column of integers.
fn digest_of_column(column: &ArrayRef) -> Result<u64> {
    match column.node() {
        Node::Primitive(Ints::U8(items), None, _) => Ok(digest(items.as_slice())),
        Node::Primitive(Ints::U32(items), None, _) => Ok(digest(items.as_slice())),
        Node::Primitive(Ints::U64(items), None, _) => Ok(digest(items.as_slice())),
        Node::Primitive(Ints::I64(items), None, _) => Ok(digest(items.as_slice())),
        _ => bail!("no plain column without nulls"),
    }
}

// The digest of a plain column of integers, or of timestamps.
fn digest_of_tree(tree: &ArrayRef) -> Result<u64> {
    match tree.node() {
        Node::Timestamp(storage, _) => digest_of_column(&storage.array),
        _ => digest_of_column(tree),
    }
}

// Times `canonical` of a tree.
pub(super) fn tell_canonical(
    rt: &(impl AllocGlobal + CpuClock + Print),
    kernel: &str,
    on: &Setting,
    tree: &ArrayRef,
) -> Result<()> {
    let alloc = rt.alloc();
    let (best, plain) = best_of(rt, on.repeats, || tree.canonical(alloc))?;
    show(rt, kernel, on, best, digest_of_tree(&plain)?)
}
