//! The parts of plain timestamps, block by block: each unit has a body of its own, which divides by constants.

ghost use Rattle.std.specs.List.{list_all};
ghost use Rattle.std.specs.Prelude.{◌≡◌, ◌≤◌, ◌≤ℤ◌, ◌<ℤ◌, ◌++◌, length, pos, None, true, IsTrue};
ghost use Rattle.vx_base.specs.Answers.{OrMemory, SurelyDecided, unless};
ghost use Rattle.vx_base.specs.Integers.{lies_in};
ghost use Rattle.vx_base.specs.Timestamps.{divides};
ghost use Rattle.vx_base.specs.declared.error.VortexError.TheVariants.{DaysOutOfRange};
ghost use Rattle.vx_base.specs.declared.ptype.PType.TheVariants.{I32, I64};
ghost use Rattle.vx_temporal.specs.Settled.{Settled};
ghost use Rattle.vx_temporal.specs.SplitRows.{AreParts, AreWritten, days_refusal, finer, has_day};
ghost use Rattle.vx_time.specs.PartsOf.{parts_of, units_per_second};

use std::alloc::Global;
use vx_base::{TimeUnit, VortexError, VortexResult};
use vx_time::{SECONDS_PER_DAY, TimestampParts};

// Rows that are split before they are appended: their parts take 12 kB and stay in the cache.
const BLOCK_ROWS: usize = 1024;

// The parts of timestamps, a list each. There are no subseconds where a unit is a second.
#[derive(Drop)]
pub(crate) struct RowParts {
    pub(crate) days: Vec<i32>,
    pub(crate) seconds: Vec<i32>,
    pub(crate) subseconds: Vec<i32>,
}

// The parts of a timestamp, `D` units of which make a second. Dividing by a constant is a multiplication.
#[inline(always)]
fn split_by<const D: i64>(timestamp: i64) -> VortexResult<TimestampParts>
    requires positive { pos 0 <ℤ D }
    requires small { D ≤ℤ pos 1_000_000_000 }
    ensures { SurelyDecided (unless (lies_in I32 (parts_of D timestamp).days) DaysOutOfRange None) (λ made. made ≡ parts_of D timestamp) result }
{
    let whole_seconds = timestamp / D;
    let Ok(days) = i32::try_from(whole_seconds / SECONDS_PER_DAY) else {
        return Err(VortexError::DaysOutOfRange);
    };
    Ok(TimestampParts {
        days,
        seconds: (whole_seconds % SECONDS_PER_DAY) as i32,
        subseconds: (timestamp % D) as i32,
    })
}

// Writes the parts of the rows over the first items of three lists, and tells whether each day fits 32 signed bits. It stops
// at the first one that doesn't.
fn write_parts<const D: i64>(
    rows: &[i64],
    days: &mut [i32],
    seconds: &mut [i32],
    subseconds: &mut [i32],
) -> bool
    requires positive { pos 0 <ℤ D }
    requires small { D ≤ℤ pos 1_000_000_000 }
    requires held { IsTrue (list_all (lies_in I64) rows.now) }
    requires days { length rows.now ≤ length days.old }
    requires seconds { length rows.now ≤ length seconds.old }
    requires subseconds { length rows.now ≤ length subseconds.old }
    ensures fits { result ≡ list_all (has_day D) rows.now }
    ensures written { result ≡ true → AreWritten D rows.now days.new seconds.new subseconds.new }
{
    for row in 0..rows.len() {
        let Ok(parts) = split_by::<D>(rows[row]) else {
            return false;
        };
        days[row] = parts.days;
        seconds[row] = parts.seconds;
        subseconds[row] = parts.subseconds;
    }
    true
}

// Appends subseconds, unless a unit is a second: then all are 0.
fn add_finer<const D: i64>(subseconds: &mut Vec<i32>, part: &[i32]) -> VortexResult<()>
    ensures { OrMemory result (λ _. subseconds.new.items ≡ subseconds.old.items ++ finer D part.now) }
{
    if D > 1 {
        subseconds.extend_from_slice(part)?;
    }
    Ok(())
}

/// The parts of each row, where the unit divides a second. Refuses DaysOutOfRange where the day of some row doesn't fit 32
/// signed bits, and NoMemory, which may come before it.
pub(crate) fn split_rows(alloc: Global, unit: TimeUnit, rows: &[i64]) -> VortexResult<RowParts>
    requires divides { IsTrue (divides unit) }
    requires held { IsTrue (list_all (lies_in I64) rows.now) }
    ensures { let d = units_per_second unit in Settled None (days_refusal d rows.now) (λ parts. AreParts d rows.now parts.days.items parts.seconds.items parts.subseconds.items) result }
{
    match unit {
        TimeUnit::Nanoseconds => split_rows_by::<1_000_000_000>(alloc, rows),
        TimeUnit::Microseconds => split_rows_by::<1_000_000>(alloc, rows),
        TimeUnit::Milliseconds => split_rows_by::<1_000>(alloc, rows),
        TimeUnit::Seconds => split_rows_by::<1>(alloc, rows),
        TimeUnit::Days => unreachable!(),
    }
}

// `split_rows` where `D` units make a second.
fn split_rows_by<const D: i64>(alloc: Global, rows: &[i64]) -> VortexResult<RowParts>
    requires positive { pos 0 <ℤ D }
    requires small { D ≤ℤ pos 1_000_000_000 }
    requires held { IsTrue (list_all (lies_in I64) rows.now) }
    ensures { Settled None (days_refusal D rows.now) (λ parts. AreParts D rows.now parts.days.items parts.seconds.items parts.subseconds.items) result }
{
    let mut days = Vec::with_capacity(alloc, rows.len())?;
    let mut seconds = Vec::with_capacity(alloc, rows.len())?;
    let mut subseconds = Vec::with_capacity(alloc, if D > 1 { rows.len() } else { 0 })?;
    let mut day_block = [0; BLOCK_ROWS];
    let mut second_block = [0; BLOCK_ROWS];
    let mut subsecond_block = [0; BLOCK_ROWS];
    for block in 0..rows.len().div_ceil(BLOCK_ROWS) {
        let start = BLOCK_ROWS * block;
        let count = (rows.len() - start).min(BLOCK_ROWS);
        let part = &rows[start..start + count];
        if !write_parts::<D>(
            part,
            &mut day_block,
            &mut second_block,
            &mut subsecond_block,
        ) {
            return Err(VortexError::DaysOutOfRange);
        }
        days.extend_from_slice(&day_block[..count])?;
        seconds.extend_from_slice(&second_block[..count])?;
        add_finer::<D>(&mut subseconds, &subsecond_block[..count])?;
    }
    Ok(RowParts {
        days,
        seconds,
        subseconds,
    })
}
