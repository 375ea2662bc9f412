//! Decoding of timestamps in parts.

use super::Setting;
use super::timing::tell_canonical;
use anyhow::{Result, bail};
use std::time::CpuClock;
use vx_base::Nullability;
use vx_bench_columns::stamps;

// The widest timestamps, whose days fit 16 bits.
const MOST_BITS: u32 = 52;

// Times the sums of parts.
pub(super) fn tell_parts(rt: &(impl AllocGlobal + CpuClock + Print), on: &Setting) -> Result<()> {
    let width = on.width;
    if width == 0 || width > MOST_BITS {
        bail!("timestamps have 1 to 52 bits");
    }
    let tree = stamps(rt.alloc(), on.rows, width, Nullability::NonNullable)?;
    tell_canonical(rt, "parts", on, &tree)
}
