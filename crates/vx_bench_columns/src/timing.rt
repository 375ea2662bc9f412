//! The processor time of a call.

use anyhow::Result;
use std::time::CpuClock;
use vx_base::VortexResult;

/// The least processor time of a call in microseconds, and its answer. Each answer is dropped before the clock is read. A
/// first run without the clock pays for the first touch of the pages.
pub fn best_of<A: Drop, F: Fn() -> VortexResult<A>>(
    rt: &impl CpuClock,
    repeats: u32,
    call: F,
) -> Result<(u128, A)>
    requires { F.IsAlwaysCallable call }
{
    let mut best = u128::MAX;
    let mut answer = call()?;
    for _ in 0..repeats {
        drop(answer);
        let start = rt.thread_cpu_time()?.as_micros();
        answer = call()?;
        best = best.min(rt.thread_cpu_time()?.as_micros().saturating_sub(start));
    }
    Ok((best, answer))
}
