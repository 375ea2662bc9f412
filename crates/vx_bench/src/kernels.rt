//! The kernels of bit packing, of series, of frames of reference and of timestamps in parts, each on the same rows.
//! `bench/kernels.rs` makes the same rows and digests.

ghost use Rattle.std.specs.Prelude.{◌≡◌, ◌<◌, ◌≤◌, length};
ghost use Rattle.vx_base.specs.Integers.{bits_of};
ghost use Rattle.vx_base.specs.Packed.{packed_size};

mod blocks;
mod decoding;
mod files;
mod frames;
mod parts;
mod series;
mod timing;

use anyhow::{Result, bail};
use blocks::tell_blocks;
pub use decoding::{Decoding, tell_decoding};
pub use files::{Filing, Stored, alone, read_back, tell_files, written};
use frames::tell_frames;
use parts::tell_parts;
use series::tell_series;
use std::time::CpuClock;
use timing::{show, tell_canonical};
use vx_array::ArrayRef;
use vx_base::{Bytes, Integer, Mask, Nullability, PType};
use vx_bench_columns::{Listed, best_of, digest, values};
use vx_blocks::{bit_width_histogram, pack, unpack};

// The width at which the kernels of series run, on runs or on a ramp, and those of frames.
const SERIES_WIDTH: u32 = 7;

/// The rows that the kernels run on, and the number of runs of each.
#[derive(Clone, Copy)]
pub struct Setting {
    pub ptype: PType,
    pub width: u32,
    pub rows: usize,
    pub repeats: u32,
}

// Times the decoding of packed bytes.
fn tell_unpacking(
    rt: &(impl AllocGlobal + CpuClock + Print),
    on: &Setting,
    packed: Vec<u8>,
) -> Result<()> {
    let made = ArrayRef::bit_packed(
        rt.alloc(),
        on.ptype,
        on.width,
        Bytes::from_vec(packed),
        on.rows as u64,
        None,
        None,
        Nullability::NonNullable,
    );
    let Ok(tree) = made else {
        bail!("no tree of these bytes");
    };
    tell_canonical(rt, "canonical", on, &tree)
}

// Times each kernel on rows of the type.
fn tell_of<T: Integer + Listed>(
    rt: &(impl AllocGlobal + CpuClock + Print),
    on: &Setting,
) -> Result<()> {
    let (width, rows) = (on.width, on.rows as u64);
    if width == 0 || width > T::ptype().bit_width() {
        bail!("a width is from 1 to the bits of the type");
    }
    let alloc = rt.alloc();
    let values = values::<T>(alloc, on.rows, width)?;
    let values = values.as_slice();
    let valid = &Mask::from_bits(vec![in alloc; true; on.rows]?);
    let (best, counts) = best_of(rt, on.repeats, || bit_width_histogram(alloc, values, valid))?;
    show(rt, "histogram", on, best, digest(counts.as_slice()))?;
    let (best, packed) = best_of(rt, on.repeats, || pack(alloc, values, valid, width))?;
    show(rt, "pack", on, best, digest(packed.as_slice()))?;
    let packed = pack(alloc, values, valid, width)?;
    let bytes = packed.as_slice();
    let (best, words) = best_of(rt, on.repeats, || unpack(alloc, bytes, width, 0, rows))?;
    show(rt, "unpack", on, best, digest(words.as_slice()))?;
    tell_unpacking(rt, on, packed)?;
    tell_blocks(rt, on, values, valid)?;
    if width == SERIES_WIDTH {
        tell_series::<T>(rt, on, valid)?;
        tell_frames(rt, on, values)?;
    }
    Ok(())
}

/// Times each kernel, and writes a line for each.
pub fn tell_kernels(rt: &(impl AllocGlobal + CpuClock + Print), on: &Setting) -> Result<()> {
    match on.ptype {
        PType::U8 => tell_of::<u8>(rt, on),
        PType::U32 => tell_of::<u32>(rt, on),
        PType::U64 => tell_of::<u64>(rt, on),
        PType::I64 => tell_parts(rt, on),
        _ => bail!("the types are u8, u32, u64 and i64"),
    }
}
