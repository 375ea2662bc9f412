//! Canonical parts, as the columns of a node hold them: integers of any type, widened to 128 bits, and the units in a second.

ghost use Rattle.std.specs.Prelude.{◌≡◌, ◌<◌, ◌^◌, ◌<ℤ◌, pos, true, int_lt, is_some, unsigned_abs, IfSome};
ghost use Rattle.vx_base.specs.declared.ptype.PType.TheVariants.{I64};
ghost use Rattle.vx_base.specs.Integers.{lies_in};
ghost use Rattle.vx_time.specs.CanonicalParts.{is_canonical, share_sign};
ghost use Rattle.vx_time.specs.PartsOf.{parts, sum_of, units_per_second};

use crate::parts::SECONDS_PER_DAY;
use vx_base::TimeUnit;

/// Whether the parts are the split of a timestamp of 64 signed bits, in a unit of which `divisor` make a second: no two have
/// opposite signs, |seconds| < 86,400, |subseconds| < `divisor`, and the sum fits 64 signed bits.
pub fn is_canonical(days: i128, seconds: i128, subseconds: i128, divisor: i64) -> bool
    ensures { result ≡ is_canonical divisor (parts days seconds subseconds) }
{
    if !have_one_sign(days, seconds, subseconds) {
        return false;
    }
    if !is_within(seconds, SECONDS_PER_DAY) {
        return false;
    }
    if !is_within(subseconds, divisor) {
        return false;
    }
    checked_sum(days, seconds, subseconds, divisor).is_some()
}

/// The timestamp that splits into these canonical parts: days * 86,400 * `divisor` + seconds * `divisor` + subseconds.
pub fn sum_of(days: i128, seconds: i128, subseconds: i128, divisor: i64) -> i64
    requires { is_canonical divisor (parts days seconds subseconds) ≡ true }
    ensures { result ≡ sum_of divisor (parts days seconds subseconds) }
{
    let divisor = i128::from(divisor);
    (days * (i128::from(SECONDS_PER_DAY) * divisor) + seconds * divisor + subseconds) as i64
}

/// The units in a second, 0 where the unit is days.
pub fn units_in_second(unit: TimeUnit) -> i64
    ensures { result ≡ units_per_second unit }
{
    unit.divisor().unwrap_or(0)
}

// The sum, None where it doesn't fit 64 signed bits. Seconds and subseconds are small enough that a product of the days that
// overflows 128 bits leaves no sum within 64.
pub(crate) fn checked_sum(days: i128, seconds: i128, subseconds: i128, divisor: i64) -> Option<i64>
    requires positive { pos 0 <ℤ divisor }
    requires seconds { unsigned_abs seconds < 2 ^ 32 }
    requires subseconds { unsigned_abs subseconds < 2 ^ 64 }
    ensures fits { is_some result ≡ lies_in I64 (sum_of divisor (parts days seconds subseconds)) }
    ensures value { IfSome result (λ sum. sum ≡ sum_of divisor (parts days seconds subseconds)) }
{
    let divisor = i128::from(divisor);
    let whole_days = days.checked_mul(i128::from(SECONDS_PER_DAY) * divisor)?;
    i64::try_from(whole_days.checked_add(seconds * divisor + subseconds)?).ok()
}

// Whether none is negative or none is positive.
fn have_one_sign(days: i128, seconds: i128, subseconds: i128) -> bool
    ensures { result ≡ share_sign (parts days seconds subseconds) }
{
    (days >= 0 && seconds >= 0 && subseconds >= 0) || (days <= 0 && seconds <= 0 && subseconds <= 0)
}

// |value| < limit
fn is_within(value: i128, limit: i64) -> bool
    ensures { result ≡ int_lt (pos (unsigned_abs value)) limit }
{
    let limit = i128::from(limit);
    value > -limit && value < limit
}
