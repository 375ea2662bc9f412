//! A timestamp into its parts.

ghost use Rattle.std.specs.Prelude.{◌≡◌, ◌≤ℤ◌, ◌<ℤ◌, pos, None};
ghost use Rattle.vx_base.specs.Answers.{SurelyDecided, unless};
ghost use Rattle.vx_base.specs.Integers.{lies_in};
ghost use Rattle.vx_base.specs.declared.error.VortexError.TheVariants.{DaysOutOfRange};
ghost use Rattle.vx_base.specs.declared.ptype.PType.TheVariants.{I32};
ghost use Rattle.vx_time.specs.PartsOf.{parts_of, units_per_second};
ghost use Rattle.vx_time.specs.Refusals.{split_refusal};

use crate::parts::{SECONDS_PER_DAY, TimestampParts};
use vx_base::{TimeUnit, VortexError, VortexResult};

/// The parts of a timestamp in a unit, by division towards zero: with d units in a second, days = t / (86,400 * d), seconds
/// = t / d - days * 86,400 and subseconds = t - (t / d) * d. Nothing is allocated. Refuses DayUnit where the unit is days,
/// else DaysOutOfRange where the days don't fit 32 signed bits, which takes a unit of seconds or milliseconds.
pub fn split(timestamp: i64, time_unit: TimeUnit) -> VortexResult<TimestampParts>
    ensures { SurelyDecided (split_refusal time_unit timestamp) (λ made. made ≡ parts_of (units_per_second time_unit) timestamp) result }
{
    let Some(divisor) = time_unit.divisor() else {
        return Err(VortexError::DayUnit);
    };
    split_by(timestamp, divisor)
}

// The parts by the number of units in a second. One division and one remainder a step: (t / d) / 86,400 are the days, and
// what is left over of either division are the seconds and the subseconds.
fn split_by(timestamp: i64, divisor: i64) -> VortexResult<TimestampParts>
    requires positive { pos 0 <ℤ divisor }
    requires small { divisor ≤ℤ pos 1_000_000_000 }
    ensures { SurelyDecided (unless (lies_in I32 (parts_of divisor timestamp).days) DaysOutOfRange None) (λ made. made ≡ parts_of divisor timestamp) result }
{
    let whole_seconds = timestamp / divisor;
    let days = whole_seconds / SECONDS_PER_DAY;
    let Ok(days) = i32::try_from(days) else {
        return Err(VortexError::DaysOutOfRange);
    };
    Ok(TimestampParts {
        days,
        seconds: (whole_seconds % SECONDS_PER_DAY) as i32,
        subseconds: (timestamp % divisor) as i32,
    })
}
