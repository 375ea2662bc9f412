//! Structs of four fields and lists of texts, beside the decoding of what they hold, and the compression of structs that
//! aren't plain, beside that of plain ones.

use super::making::packed;
use super::packed::delta;
use super::{Decoding, show};
use anyhow::Result;
use std::alloc::Global;
use std::time::CpuClock;
use vx_array::{ArrayRef, Arrays, Node};
use vx_base::{ExecutionCtx, Names, Nullability, Text, VortexError, VortexResult, Words};
use vx_bench_columns::{best_of, column, random, row_dict, steps, texts, validity};
use vx_btrblocks::{BtrBlocksCompressor, NoScheme};

// The elements of a list.
const LIST_ROWS: usize = 10;

// The names `a` to `d`.
fn names(alloc: Global) -> VortexResult<Names> {
    let mut names = Vec::new(alloc);
    for name in ["a", "b", "c", "d"] {
        names.push(Text::from_string(String::from_str(alloc, name)?))?;
    }
    Ok(Names::from_vec(names))
}

// Structs of a plain number, one under differences, one of a dictionary and a packed one. No field has nulls.
fn structs(alloc: Global, rows: usize, nullability: Nullability) -> VortexResult<ArrayRef> {
    let mut fields = Vec::new(alloc);
    fields.push(random(alloc, rows, Nullability::NonNullable)?)?;
    fields.push(delta(alloc, rows, Nullability::NonNullable)?)?;
    fields.push(row_dict(alloc, rows, Nullability::NonNullable)?)?;
    fields.push(packed(alloc, rows, Nullability::NonNullable)?)?;
    let (names, fields) = (names(alloc)?, Arrays::from_vec(fields));
    let valid = validity(alloc, rows, nullability)?;
    Ok(ArrayRef::structure(alloc, names, fields, rows as u64, valid, nullability)?)
}

// Lists of `LIST_ROWS` texts each.
fn lists(alloc: Global, rows: usize, nullability: Nullability) -> VortexResult<ArrayRef> {
    let len = rows / LIST_ROWS;
    let elements = texts(
        alloc,
        len.saturating_mul(LIST_ROWS),
        Nullability::NonNullable,
    )?;
    let ends = steps(alloc, len.saturating_add(1), 0, LIST_ROWS as u64)?;
    let offsets = column(alloc, ends, Nullability::NonNullable)?;
    let valid = validity(alloc, len, nullability)?;
    Ok(ArrayRef::list(alloc, elements, offsets, valid, nullability)?)
}

// What a struct or a list holds, each decoded by itself.
fn held(alloc: Global, tree: &ArrayRef) -> VortexResult<Vec<ArrayRef>> {
    let mut plain = Vec::new(alloc);
    match tree.node() {
        Node::Struct(_, fields, _, _, _) => {
            for field in fields.as_slice() {
                plain.push(field.canonical(alloc)?)?;
            }
        }
        Node::List(elements, offsets, _, _) => {
            plain.push(elements.array.canonical(alloc)?)?;
            plain.push(offsets.array.canonical(alloc)?)?;
        }
        _ => (),
    }
    Ok(plain)
}

// Times `canonical` of a nested tree, and of what it holds.
fn tell_beside(
    rt: &(impl AllocGlobal + CpuClock + Print),
    on: &Decoding,
    nodes: (&str, &str),
    tree: &ArrayRef,
) -> Result<()> {
    let (alloc, (whole, parts)) = (rt.alloc(), nodes);
    let (best, _) = best_of(rt, on.repeats, || tree.canonical(alloc))?;
    show(rt, on, whole, best, 0)?;
    let (best, _) = best_of(rt, on.repeats, || held(alloc, tree))?;
    show(rt, on, parts, best, 0)
}

// The size of the compressed tree.
fn compressed(alloc: Global, tree: &ArrayRef) -> VortexResult<u64> {
    let words = Words::from_vec(vec![in alloc; 0]?);
    if words.len() == 0 {
        return Err(VortexError::LengthMismatch);
    }
    let mut ctx = ExecutionCtx::new(alloc, words);
    let compressor = BtrBlocksCompressor::<NoScheme>::shipped(alloc)?;
    let size = compressor.compress(tree, &mut ctx)?.nbytes();
    Ok(u64::try_from(size).unwrap_or(u64::MAX))
}

// Times `compress` of a tree; its line has the size of the answer in place of a digest.
fn tell_compressed(
    rt: &(impl AllocGlobal + CpuClock + Print),
    on: &Decoding,
    node: &str,
    tree: &ArrayRef,
) -> Result<()> {
    let alloc = rt.alloc();
    let (best, size) = best_of(rt, 1, || compressed(alloc, tree))?;
    show(rt, on, node, best, size)
}

/// Times structs and their fields, and the compression of structs and of plain ones.
pub(super) fn tell_structs(
    rt: &(impl AllocGlobal + CpuClock + Print),
    on: &Decoding,
) -> Result<()> {
    let alloc = rt.alloc();
    let tree = structs(alloc, on.rows, on.nullability)?;
    tell_beside(rt, on, ("struct", "fields"), &tree)?;
    tell_compressed(rt, on, "compress", &tree)?;
    tell_compressed(rt, on, "compress-plain", &tree.canonical(alloc)?)
}

/// Times lists, and their elements and offsets.
pub(super) fn tell_lists(rt: &(impl AllocGlobal + CpuClock + Print), on: &Decoding) -> Result<()> {
    let tree = lists(rt.alloc(), on.rows, on.nullability)?;
    tell_beside(rt, on, ("list", "elements"), &tree)
}
