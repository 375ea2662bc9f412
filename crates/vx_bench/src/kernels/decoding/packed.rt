//! Nodes over packed rows: bit packing, with patches too, frames of reference, zigzag and differences.

use super::making::{WIDTH, packed, packed_bytes};
use super::{Decoding, tell};
use anyhow::Result;
use std::alloc::Global;
use std::time::CpuClock;
use vx_array::{ArrayRef, Patches};
use vx_base::{Nullability, PType, VortexResult};
use vx_bench_columns::{column, random, scalar, steps, validity};
use vx_blocks::BLOCK_ROWS;

// One of so many rows has a patch.
const PATCH_STEP: usize = 100;

// The reference of frames.
const REFERENCE: u64 = 1_000_000_000_000;

// Packed rows, some of them patched.
fn patched(alloc: Global, rows: usize, nullability: Nullability) -> VortexResult<ArrayRef> {
    let count = rows / PATCH_STEP;
    let places = steps(alloc, count, 0, PATCH_STEP as u64)?;
    let indices = column(alloc, places, Nullability::NonNullable)?;
    let wide = random(alloc, count, Nullability::NonNullable)?;
    let (len, ptype) = (rows as u64, PType::U64);
    let patches = Some(Patches::new(len, 0, indices, wide)?);
    let valid = validity(alloc, rows, nullability)?;
    let bytes = packed_bytes(alloc, rows)?;
    Ok(ArrayRef::bit_packed(alloc, ptype, WIDTH, bytes, len, valid, patches, nullability)?)
}

// A frame of reference over packed rows.
fn frame(alloc: Global, rows: usize, nullability: Nullability) -> VortexResult<ArrayRef> {
    let reference = scalar(REFERENCE, Nullability::NonNullable)?;
    let encoded = packed(alloc, rows, nullability)?;
    Ok(ArrayRef::frame_of_reference(alloc, encoded, reference)?)
}

/// Differences that are packed.
pub(super) fn delta(
    alloc: Global,
    rows: usize,
    nullability: Nullability,
) -> VortexResult<ArrayRef> {
    let blocks = rows.div_ceil(BLOCK_ROWS);
    let bases = random(alloc, blocks, Nullability::NonNullable)?;
    let deltas = packed(
        alloc,
        blocks.saturating_mul(BLOCK_ROWS),
        Nullability::NonNullable,
    )?;
    let valid = validity(alloc, rows, nullability)?;
    Ok(ArrayRef::delta(alloc, bases, deltas, rows as u64, valid, nullability)?)
}

// Numbers of both signs over packed rows.
fn zig_zag(alloc: Global, rows: usize, nullability: Nullability) -> VortexResult<ArrayRef> {
    Ok(ArrayRef::zig_zag(alloc, packed(alloc, rows, nullability)?)?)
}

/// Times these nodes.
pub(super) fn tell_packed(rt: &(impl AllocGlobal + CpuClock + Print), on: &Decoding) -> Result<()> {
    let (alloc, rows, nullability) = (rt.alloc(), on.rows, on.nullability);
    tell(rt, on, "bitpacked", packed(alloc, rows, nullability))?;
    tell(rt, on, "patched", patched(alloc, rows, nullability))?;
    tell(rt, on, "for", frame(alloc, rows, nullability))?;
    tell(rt, on, "zigzag", zig_zag(alloc, rows, nullability))?;
    tell(rt, on, "delta", delta(alloc, rows, nullability))
}
