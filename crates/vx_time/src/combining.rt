//! Parts into their timestamp.

ghost use Rattle.std.specs.Prelude.{◌≡◌, ◌<ℤ◌, pos, None};
ghost use Rattle.vx_base.specs.Answers.{SurelyDecided, unless};
ghost use Rattle.vx_base.specs.Integers.{lies_in};
ghost use Rattle.vx_base.specs.declared.error.VortexError.TheVariants.{TimestampOutOfRange};
ghost use Rattle.vx_base.specs.declared.ptype.PType.TheVariants.{I64};
ghost use Rattle.vx_time.specs.PartsOf.{sum_of, units_per_second};
ghost use Rattle.vx_time.specs.Refusals.{combine_refusal};

use crate::kernels::checked_sum;
use crate::parts::TimestampParts;
use vx_base::{TimeUnit, VortexError, VortexResult};

/// The timestamp of parts in a unit, canonical or not: days * 86,400 * d + seconds * d + subseconds, with d units in a
/// second. Nothing is allocated. Refuses DayUnit where the unit is days, else TimestampOutOfRange where the exact sum
/// doesn't fit 64 signed bits.
pub fn combine(ts_parts: TimestampParts, time_unit: TimeUnit) -> VortexResult<i64>
    ensures { SurelyDecided (combine_refusal time_unit ts_parts) (λ sum. sum ≡ sum_of (units_per_second time_unit) ts_parts) result }
{
    let Some(divisor) = time_unit.divisor() else {
        return Err(VortexError::DayUnit);
    };
    combine_by(&ts_parts, divisor)
}

// The timestamp by the number of units in a second.
fn combine_by(ts_parts: &TimestampParts, divisor: i64) -> VortexResult<i64>
    requires { pos 0 <ℤ divisor }
    ensures { SurelyDecided (unless (lies_in I64 (sum_of divisor ts_parts.now)) TimestampOutOfRange None) (λ sum. sum ≡ sum_of divisor ts_parts.now) result }
{
    let days = i128::from(ts_parts.days);
    let seconds = i128::from(ts_parts.seconds);
    let subseconds = i128::from(ts_parts.subseconds);
    match checked_sum(days, seconds, subseconds, divisor) {
        Some(sum) => Ok(sum),
        None => Err(VortexError::TimestampOutOfRange),
    }
}
