//! Files of one tree: `write_file` and `read_file`. `bench/files.rs` makes the same bytes.

use super::decoding::packed;
use anyhow::Result;
use std::alloc::Global;
use std::time::CpuClock;
use vx_array::{ArrayRef, Arrays};
use vx_base::{Bytes, Nullability, VortexError, VortexResult};
use vx_bench_columns::{best_of, digest, random, texts};
use vx_file::{read_file, write_file};

/// The tree that a file holds.
#[derive(Clone, Copy)]
pub enum Stored {
    /// Packed integers.
    Packed,
    /// Plain integers.
    Plain,
    /// Texts in one piece, and the offsets of each.
    Pieces,
    /// Plain texts.
    Texts,
}

impl Stored {
    /// Its name on the command line and in the lines.
    pub fn name(&self) -> &'static str {
        match self {
            Stored::Packed => "packed",
            Stored::Plain => "plain",
            Stored::Pieces => "pieces",
            Stored::Texts => "texts",
        }
    }
}

/// The tree, its number of rows, and the number of runs of each call.
#[derive(Clone, Copy)]
pub struct Filing {
    pub stored: Stored,
    pub rows: usize,
    pub repeats: u32,
}

/// The list of one tree.
pub fn alone(alloc: Global, tree: ArrayRef) -> VortexResult<Arrays> {
    let mut trees = Vec::new(alloc);
    trees.push(tree)?;
    Ok(Arrays::from_vec(trees))
}

/// The file of trees. All of the bench are storable, so nothing but memory can be wanting.
pub fn written(alloc: Global, trees: &Arrays) -> VortexResult<Bytes> {
    match write_file(alloc, trees) {
        Ok(file) => Ok(file),
        Err(_) => Err(VortexError::NoMemory),
    }
}

/// The trees of a file. It was written, so nothing but memory can be wanting.
pub fn read_back(alloc: Global, file: &Bytes) -> VortexResult<Arrays> {
    match read_file(alloc, file) {
        Ok(trees) => Ok(trees),
        Err(_) => Err(VortexError::NoMemory),
    }
}

fn tree_of(alloc: Global, on: &Filing) -> VortexResult<ArrayRef> {
    let without = Nullability::NonNullable;
    match on.stored {
        Stored::Packed => packed(alloc, on.rows, without),
        Stored::Plain => random(alloc, on.rows, without),
        Stored::Pieces => texts(alloc, on.rows, without),
        Stored::Texts => texts(alloc, on.rows, without)?.canonical(alloc),
    }
}

// One line: call, tree, rows, microseconds, the bytes of the file, their digest.
fn show(rt: &impl Print, call: &str, on: &Filing, best: u128, file: &Bytes) -> Result<()> {
    let bytes = file.as_slice();
    println!(rt;
        "{call} {} {} {best} {} {}",
        on.stored.name(),
        on.rows,
        bytes.len(),
        digest(bytes)
    )?;
    Ok(())
}

/// Times the writing and the reading of a tree's file, and writes a line for each. What was read is told by its own file.
pub fn tell_files(rt: &(impl AllocGlobal + CpuClock + Print), on: &Filing) -> Result<()> {
    let alloc = rt.alloc();
    let trees = alone(alloc, tree_of(alloc, on)?)?;
    let (best, file) = best_of(rt, on.repeats, || written(alloc, &trees))?;
    show(rt, "write", on, best, &file)?;
    let (best, trees) = best_of(rt, on.repeats, || read_back(alloc, &file))?;
    show(rt, "read", on, best, &written(alloc, &trees)?)
}
