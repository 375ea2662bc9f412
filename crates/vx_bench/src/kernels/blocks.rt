//! The kernels of packing at a width for each block of 1,024 rows.

ghost use Rattle.std.specs.Prelude.{◌≡◌, ◌<◌, ◌≤◌, ℕ, length, slice_index};
ghost use Rattle.vx_base.specs.Integers.{bits_of};
ghost use Rattle.vx_base.specs.Packed.{block_count};

use super::Setting;
use super::timing::{show, tell_canonical};
use anyhow::{Result, bail};
use std::alloc::{AllocError, Global};
use std::time::CpuClock;
use vx_array::ArrayRef;
use vx_base::{Bytes, Integer, Mask, Nullability, Words};
use vx_bench_columns::{best_of, column_of, digest};
use vx_blocks::{best_widths, pack_blocks};

// Where each block begins, in units of 128 bytes, and where the last one ends: the sum of the widths before it.
fn offsets_of(alloc: Global, widths: &[u64]) -> Result<Vec<u64>, AllocError> {
    let mut offsets = Vec::new(alloc);
    let mut end: u64 = 0;
    offsets.push(end)?;
    for width in widths {
        end = end.wrapping_add(*width);
        offsets.push(end)?;
    }
    Ok(offsets)
}

// The tree of packed blocks, without nulls and patches.
fn tree_of(alloc: Global, on: &Setting, packed: Vec<u8>, widths: &Words) -> Result<ArrayRef> {
    let offsets = offsets_of(alloc, widths.as_slice())?;
    let made = ArrayRef::bit_packed_v2(
        alloc,
        on.ptype,
        Bytes::from_vec(packed),
        column_of(offsets),
        on.rows as u64,
        None,
        None,
        Nullability::NonNullable,
    );
    let Ok(tree) = made else {
        bail!("no tree of these blocks");
    };
    Ok(tree)
}

// Times the packing of each block at its width, and the unpacking.
fn tell_packing<T: Integer>(
    rt: &(impl AllocGlobal + CpuClock + Print),
    on: &Setting,
    rows: &[T],
    valid: &Mask,
    widths: &Words,
) -> Result<()>
    requires same { length valid.now ≡ length rows.now }
    requires blocks { length widths.now ≡ block_count (length rows.now) }
    requires within { (block : ℕ) → block < length widths.now → slice_index widths.now block ≤ bits_of T.kind }
{
    let alloc = rt.alloc();
    let (best, packed) = best_of(rt, on.repeats, || pack_blocks(alloc, rows, valid, widths))?;
    show(rt, "pack_v2", on, best, digest(packed.as_slice()))?;
    let tree = tree_of(alloc, on, packed, widths)?;
    tell_canonical(rt, "canonical_v2", on, &tree)
}

// Times the best width of each block, and the packing at it.
pub(super) fn tell_blocks<T: Integer>(
    rt: &(impl AllocGlobal + CpuClock + Print),
    on: &Setting,
    rows: &[T],
    valid: &Mask,
) -> Result<()>
    requires { length valid.now ≡ length rows.now }
{
    let alloc = rt.alloc();
    let (best, widths) = best_of(rt, on.repeats, || best_widths(alloc, rows, valid))?;
    show(rt, "widths", on, best, digest(widths.as_slice()))?;
    let widths = best_widths(alloc, rows, valid)?;
    tell_packing(rt, on, rows, valid, &widths)
}
