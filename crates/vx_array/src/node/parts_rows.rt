//! The rows of timestamps in parts: whether they are canonical, and the timestamp in one.

ghost use Rattle.std.specs.Prelude.{◌≡◌, ◌<◌, ℤ, IsTrue, Some, length, true};
ghost use Rattle.vx_base.specs.Answers.{OrMemory};
ghost use Rattle.vx_base.specs.CellValue.{cell_value};
ghost use Rattle.vx_base.specs.PlainType.{is_integer};
ghost use Rattle.vx_base.specs.PlainValue.{cell};
ghost use Rattle.vx_model.specs.Rows.{rows, each_int};
ghost use Rattle.vx_model.specs.TreeType.{tree_type};
ghost use Rattle.vx_model.specs.WellFormed.{are_canonical, is_canonical_at};
ghost use Rattle.vx_time.specs.CanonicalParts.{is_canonical};
ghost use Rattle.vx_time.specs.PartsOf.{parts, sum_of, units_per_second};

use super::linear_parts::linear_are_canonical;
use super::offsets::whole_at;
use crate::array::ArrayRef;
use std::alloc::Global;
use vx_base::{Cell, TimestampType, VortexResult};
use vx_flat::parts_are_canonical;
use vx_time::{is_canonical, sum_of, units_in_second};

// Whether each row is null or canonical: of linear columns by few rows, else of the decoded columns, or row by row where their
// bytes don't pay for decoding them, or memory is wanting.
pub(super) fn are_canonical(
    alloc: Global,
    kind: &TimestampType,
    days: &ArrayRef,
    seconds: &ArrayRef,
    subseconds: &ArrayRef,
) -> bool
    requires days { IsTrue (is_integer (tree_type days.now)) }
    requires seconds { IsTrue (is_integer (tree_type seconds.now)) }
    requires subseconds { IsTrue (is_integer (tree_type subseconds.now)) }
    requires seconds_length { length (rows seconds.now) ≡ length (rows days.now) }
    requires subseconds_length { length (rows subseconds.now) ≡ length (rows days.now) }
    ensures { result ≡ are_canonical (units_per_second kind.now.unit) (rows days.now) (rows seconds.now) (rows subseconds.now) }
{
    let divisor = units_in_second(kind.unit());
    if days.is_linear() && seconds.is_linear() && subseconds.is_linear() {
        return linear_are_canonical(divisor, days, seconds, subseconds);
    }
    if !days.is_paid() || !seconds.is_paid() || !subseconds.is_paid() {
        return rows_are_canonical(divisor, days, seconds, subseconds);
    }
    match decoded_are_canonical(alloc, divisor, days, seconds, subseconds) {
        Ok(held) => held,
        Err(_) => rows_are_canonical(divisor, days, seconds, subseconds),
    }
}

// `are_canonical` of the decoded columns, by the units in a second.
fn decoded_are_canonical(
    alloc: Global,
    divisor: i64,
    days: &ArrayRef,
    seconds: &ArrayRef,
    subseconds: &ArrayRef,
) -> VortexResult<bool>
    requires days { IsTrue (is_integer (tree_type days.now)) }
    requires seconds { IsTrue (is_integer (tree_type seconds.now)) }
    requires subseconds { IsTrue (is_integer (tree_type subseconds.now)) }
    requires seconds_length { length (rows seconds.now) ≡ length (rows days.now) }
    requires subseconds_length { length (rows subseconds.now) ≡ length (rows days.now) }
    ensures { OrMemory result (λ held. held ≡ are_canonical divisor (rows days.now) (rows seconds.now) (rows subseconds.now)) }
{
    let (days, valid) = days.integers(alloc)?;
    let (seconds, _) = seconds.integers(alloc)?;
    let (rest, _) = subseconds.integers(alloc)?;
    let (days, seconds) = (days.as_ints(), seconds.as_ints());
    Ok(parts_are_canonical(divisor, days, &valid, seconds, rest.as_ints()))
}

// `are_canonical` row by row.
fn rows_are_canonical(
    divisor: i64,
    days: &ArrayRef,
    seconds: &ArrayRef,
    subseconds: &ArrayRef,
) -> bool
    requires days { IsTrue (is_integer (tree_type days.now)) }
    requires seconds { IsTrue (is_integer (tree_type seconds.now)) }
    requires subseconds { IsTrue (is_integer (tree_type subseconds.now)) }
    requires seconds_length { length (rows seconds.now) ≡ length (rows days.now) }
    requires subseconds_length { length (rows subseconds.now) ≡ length (rows days.now) }
    ensures { result ≡ are_canonical divisor (rows days.now) (rows seconds.now) (rows subseconds.now) }
{
    for row in 0..days.len() {
        if !is_canonical_row(divisor, days, seconds, subseconds, row) {
            return false;
        }
    }
    true
}

// Whether a row is null or canonical.
pub(super) fn is_canonical_row(
    divisor: i64,
    days: &ArrayRef,
    seconds: &ArrayRef,
    subseconds: &ArrayRef,
    row: u64,
) -> bool
    requires days { IsTrue (is_integer (tree_type days.now)) }
    requires seconds { IsTrue (is_integer (tree_type seconds.now)) }
    requires subseconds { IsTrue (is_integer (tree_type subseconds.now)) }
    requires in_days { row < length (rows days.now) }
    requires in_seconds { row < length (rows seconds.now) }
    requires in_subseconds { row < length (rows subseconds.now) }
    ensures { result ≡ is_canonical_at divisor (rows days.now) (rows seconds.now) (rows subseconds.now) row }
{
    match days.integer_at(row) {
        Some(day) => {
            let second = whole_at(seconds, row);
            let subsecond = whole_at(subseconds, row);
            is_canonical(day, second, subsecond, divisor)
        }
        None => true,
    }
}

// The timestamp of a row's parts, null where there is no day.
pub(crate) fn combined_at(
    kind: &TimestampType,
    day: Option<i128>,
    second: i128,
    subsecond: i128,
) -> Cell<'static>
    requires { (z : ℤ) → day ≡ Some z → is_canonical (units_per_second kind.now.unit) (parts z second subsecond) ≡ true }
    ensures { cell_value result ≡ each_int (λ z. sum_of (units_per_second kind.now.unit) (parts z second subsecond)) (cell day) }
{
    match day {
        Some(day) => {
            let divisor = units_in_second(kind.unit());
            Cell::Int(i128::from(sum_of(day, second, subsecond, divisor)))
        }
        None => Cell::Null,
    }
}
