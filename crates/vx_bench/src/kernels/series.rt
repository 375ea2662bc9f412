//! The kernels of series: runs, sequences and differences.

ghost use Rattle.std.specs.Prelude.{◌≡◌, ◌<◌, ◌≤◌, ◌*◌, length};

use super::Setting;
use super::timing::show;
use anyhow::Result;
use std::time::CpuClock;
use vx_base::{Integer, Mask};
use vx_bench_columns::{best_of, digest, ramp, repeated};
use vx_blocks::{BlockRuns, block_runs, delta_blocks, runs, sequence_of, undelta};

// Times `sequence_of` on a ramp, which types of 8 bits are too narrow for.
fn tell_sequence<T: Integer>(
    rt: &(impl AllocGlobal + CpuClock + Print),
    on: &Setting,
) -> Result<()> {
    if T::ptype().bit_width() == 8 {
        return Ok(());
    }
    let values = ramp::<T>(rt.alloc(), on.rows)?;
    let rows = values.as_slice();
    let (best, found) = best_of(rt, on.repeats, || Ok(sequence_of(rows)))?;
    show(rt, "sequence", on, best, u64::from(found.is_some()))
}

fn digest_of_runs(made: &BlockRuns) -> u64 {
    digest(made.heads.as_slice())
        .wrapping_add(digest(made.numbers.as_slice()))
        .wrapping_add(digest(made.offsets.as_slice()))
}

// Times the differences of rows, and the sums that restore them.
fn tell_deltas<T: Integer>(
    rt: &(impl AllocGlobal + CpuClock + Print),
    on: &Setting,
    rows: &[T],
    valid: &Mask,
) -> Result<()>
    requires { length valid.now ≡ length rows.now }
{
    let alloc = rt.alloc();
    let (best, (bases, deltas)) = best_of(rt, on.repeats, || delta_blocks(alloc, rows, valid))?;
    let sum = digest(bases.as_slice()).wrapping_add(digest(deltas.as_slice()));
    show(rt, "delta", on, best, sum)?;
    let (bases, deltas) = delta_blocks(alloc, rows, valid)?;
    let (bases, deltas) = (bases.as_slice(), deltas.as_slice());
    let (best, rows) = best_of(rt, on.repeats, || undelta(alloc, bases, deltas))?;
    show(rt, "undelta", on, best, digest(rows.as_slice()))
}

// Times the kernels of series on runs and on a ramp of the type.
pub(super) fn tell_series<T: Integer>(
    rt: &(impl AllocGlobal + CpuClock + Print),
    on: &Setting,
    valid: &Mask,
) -> Result<()>
    requires rows { length valid.now ≡ on.now.rows }
    requires some { 0 < on.now.width }
    requires most { on.now.width ≤ 64 }
{
    let alloc = rt.alloc();
    let values = repeated::<T>(alloc, on.rows, on.width)?;
    let rows = values.as_slice();
    let (best, ends) = best_of(rt, on.repeats, || runs(alloc, rows, valid))?;
    show(rt, "runs", on, best, digest(ends.as_slice()))?;
    let (best, made) = best_of(rt, on.repeats, || block_runs(alloc, rows, valid))?;
    show(rt, "block_runs", on, best, digest_of_runs(&made))?;
    tell_sequence::<T>(rt, on)?;
    tell_deltas(rt, on, rows, valid)
}
