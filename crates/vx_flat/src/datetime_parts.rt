//! Timestamps in parts: whether the parts are canonical, and their sums.

ghost use Rattle.std.specs.Prelude.{◌≡◌, ◌<◌, ◌*ℤ◌, true, length, map, pos, List};
ghost use Rattle.vx_base.specs.Answers.{OrMemory};
ghost use Rattle.vx_base.specs.PlainValue.{PlainValue, int, whole_or_zero};
ghost use Rattle.vx_base.specs.declared.ptype.PType.TheVariants.{I64};
ghost use Rattle.vx_model.specs.Decoded.{zeroed_by};
ghost use Rattle.vx_model.specs.Plain.{validity};
ghost use Rattle.vx_model.specs.Refusals.{validity_length};
ghost use Rattle.vx_model.specs.WellFormed.{are_canonical};
ghost use Rattle.vx_flat.specs.CanonicalRows.{is_canonical_row};
ghost use Rattle.vx_values.specs.Combined.{combined};
ghost use Rattle.vx_values.specs.IntsOf.{wholes_of};
ghost use Rattle.vx_values.specs.ValuesOf.{ints, AreRows};
ghost use Rattle.vx_time.specs.PartsOf.{units_per_second};

use std::alloc::Global;
use vx_base::{Mask, TimeUnit, VortexResult};
use vx_time::{SECONDS_PER_DAY, is_canonical, units_in_second};
use vx_values::{Decoded, Ints, behind, is_valid};

/// Whether each row is null or has canonical parts, where `divisor` units make a second.
pub fn parts_are_canonical(
    divisor: i64,
    days: &Ints,
    valid: &Option<Mask>,
    seconds: &Ints,
    subseconds: &Ints,
) -> bool
    requires seconds { length (wholes_of seconds.now) ≡ length (wholes_of days.now) }
    requires subseconds { length (wholes_of subseconds.now) ≡ length (wholes_of days.now) }
    ensures { (ds ss us : List PlainValue) → wholes_of days.now ≡ map whole_or_zero ds → valid.now ≡ validity ds → wholes_of seconds.now ≡ map whole_or_zero ss → wholes_of subseconds.now ≡ map whole_or_zero us → result ≡ are_canonical divisor ds ss us }
{
    for row in 0..days.len() {
        if !is_canonical_row(divisor, days, valid, seconds, subseconds, row) {
            return false;
        }
    }
    true
}

// Whether a row is null or has canonical parts.
fn is_canonical_row(
    divisor: i64,
    days: &Ints,
    valid: &Option<Mask>,
    seconds: &Ints,
    subseconds: &Ints,
    row: u64,
) -> bool
    requires days { row < length (wholes_of days.now) }
    requires seconds { row < length (wholes_of seconds.now) }
    requires subseconds { row < length (wholes_of subseconds.now) }
    ensures { result ≡ is_canonical_row divisor (wholes_of days.now) valid.now (wholes_of seconds.now) (wholes_of subseconds.now) row }
{
    if !is_valid(valid, row) {
        return true;
    }
    let (day, second) = (days.whole_at(row), seconds.whole_at(row));
    is_canonical(day, second, subseconds.whole_at(row), divisor)
}

/// The sum of the parts in each row: days * 86,400 * d + seconds * d + subseconds, where d units make a second; wrapped at 64
/// signed bits, which canonical parts don't need. 0 beneath nulls. The validity is that of the days.
pub fn decoded_parts(
    alloc: Global,
    unit: TimeUnit,
    days: &Ints,
    valid: Option<Mask>,
    seconds: &Ints,
    subseconds: &Ints,
) -> VortexResult<Decoded>
    requires seconds { length (wholes_of seconds.now) ≡ length (wholes_of days.now) }
    requires subseconds { length (wholes_of subseconds.now) ≡ length (wholes_of days.now) }
    requires bits { validity_length valid (length (wholes_of days.now)) ≡ true }
    ensures { let d = units_per_second unit in OrMemory result (AreRows (ints I64) (map int (zeroed_by (pos 0) valid (combined (pos 86_400 *ℤ d) d (wholes_of days.now) (wholes_of seconds.now) (wholes_of subseconds.now)))) valid) }
{
    let divisor = units_in_second(unit);
    let sums = Ints::combined(
        alloc,
        days,
        SECONDS_PER_DAY * divisor,
        seconds,
        divisor,
        subseconds,
    )?;
    Ok(behind(sums, valid))
}
