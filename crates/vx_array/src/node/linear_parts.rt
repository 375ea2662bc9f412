//! Whether timestamps in parts are canonical, where each of the three columns is in a line.

ghost use Rattle.std.specs.Prelude.{◌≡◌, ◌<◌, ◌≤◌, IsTrue, length};
ghost use Rattle.vx_array.specs.Linear.{IsLinear, are_canonical_between, are_down, are_up, keep_sign, parts_at};
ghost use Rattle.vx_base.specs.PlainType.{is_integer};
ghost use Rattle.vx_base.specs.PlainValue.{whole_or_zero};
ghost use Rattle.vx_model.specs.Rows.{rows, row_at};
ghost use Rattle.vx_model.specs.TreeType.{tree_type};
ghost use Rattle.vx_model.specs.WellFormed.{are_canonical, is_canonical_at};

use super::offsets::whole_at;
use super::parts_rows::is_canonical_row;
use crate::array::ArrayRef;

// `are_canonical` of linear columns. Reads O(log rows) rows, since a few bytes name 2^31 of them. Linear days are null in every
// row or in none.
pub(super) fn linear_are_canonical(
    divisor: i64,
    days: &ArrayRef,
    seconds: &ArrayRef,
    subseconds: &ArrayRef,
) -> bool
    requires days { IsTrue (is_integer (tree_type days.now)) }
    requires seconds { IsTrue (is_integer (tree_type seconds.now)) }
    requires subseconds { IsTrue (is_integer (tree_type subseconds.now)) }
    requires seconds_length { length (rows seconds.now) ≡ length (rows days.now) }
    requires subseconds_length { length (rows subseconds.now) ≡ length (rows days.now) }
    requires linear_days { IsLinear (rows days.now) }
    requires linear_seconds { IsLinear (rows seconds.now) }
    requires linear_subseconds { IsLinear (rows subseconds.now) }
    ensures { result ≡ are_canonical divisor (rows days.now) (rows seconds.now) (rows subseconds.now) }
{
    let len = days.len();
    if len == 0 || days.is_null_at(0) {
        return true;
    }
    if !is_canonical_row(divisor, days, seconds, subseconds, 0) {
        return false;
    }
    if !is_canonical_row(divisor, days, seconds, subseconds, len - 1) {
        return false;
    }
    are_canonical_between(divisor, days, seconds, subseconds, 0, len - 1)
}

// Whether each row of linear columns from `first` to `last` is canonical, where these two are. By bisection: between ends that
// keep a sign, each row is canonical. Other ends, if not null, have opposite signs, so a canonical middle keeps the sign of one
// of them, and at most one half is halved again.
fn are_canonical_between(
    divisor: i64,
    days: &ArrayRef,
    seconds: &ArrayRef,
    subseconds: &ArrayRef,
    first: u64,
    last: u64,
) -> bool
    requires days { IsTrue (is_integer (tree_type days.now)) }
    requires seconds { IsTrue (is_integer (tree_type seconds.now)) }
    requires subseconds { IsTrue (is_integer (tree_type subseconds.now)) }
    requires seconds_length { length (rows seconds.now) ≡ length (rows days.now) }
    requires subseconds_length { length (rows subseconds.now) ≡ length (rows days.now) }
    requires linear_days { IsLinear (rows days.now) }
    requires linear_seconds { IsLinear (rows seconds.now) }
    requires linear_subseconds { IsLinear (rows subseconds.now) }
    requires in_order { first ≤ last }
    requires in_days { last < length (rows days.now) }
    requires first_row { IsTrue (is_canonical_at divisor (rows days.now) (rows seconds.now) (rows subseconds.now) first) }
    requires last_row { IsTrue (is_canonical_at divisor (rows days.now) (rows seconds.now) (rows subseconds.now) last) }
    ensures { result ≡ are_canonical_between divisor (rows days.now) (rows seconds.now) (rows subseconds.now) first last }
{
    if last - first <= 1 || keep_sign(days, seconds, subseconds, first, last) {
        return true;
    }
    let middle = first + (last - first) / 2;
    if !is_canonical_row(divisor, days, seconds, subseconds, middle) {
        return false;
    }
    are_canonical_between(divisor, days, seconds, subseconds, first, middle)
        && are_canonical_between(divisor, days, seconds, subseconds, middle, last)
}

// Whether the rows of linear columns from `first` to `last` share a sign where these two each do.
fn keep_sign(
    days: &ArrayRef,
    seconds: &ArrayRef,
    subseconds: &ArrayRef,
    first: u64,
    last: u64,
) -> bool
    requires days { IsTrue (is_integer (tree_type days.now)) }
    requires seconds { IsTrue (is_integer (tree_type seconds.now)) }
    requires subseconds { IsTrue (is_integer (tree_type subseconds.now)) }
    requires seconds_length { length (rows seconds.now) ≡ length (rows days.now) }
    requires subseconds_length { length (rows subseconds.now) ≡ length (rows days.now) }
    requires in_order { first ≤ last }
    requires in_days { last < length (rows days.now) }
    ensures { result ≡ keep_sign (parts_at (rows days.now) (rows seconds.now) (rows subseconds.now) first) (parts_at (rows days.now) (rows seconds.now) (rows subseconds.now) last) }
{
    let (days_up, days_down) = signs(days, first, last);
    let (seconds_up, seconds_down) = signs(seconds, first, last);
    let (rest_up, rest_down) = signs(subseconds, first, last);
    let days_zero = days_up & days_down;
    let seconds_zero = seconds_up & seconds_down;
    let rest_zero = rest_up & rest_down;
    (days_up & seconds_up & rest_up)
        | (days_down & seconds_down & rest_down)
        | (days_zero & seconds_zero)
        | (days_zero & rest_zero)
        | (seconds_zero & rest_zero)
}

// Whether neither of two rows of a column is negative, and whether neither is positive.
fn signs(column: &ArrayRef, first: u64, last: u64) -> (bool, bool)
    requires integers { IsTrue (is_integer (tree_type column.now)) }
    requires in_order { first ≤ last }
    requires in_range { last < length (rows column.now) }
    ensures up { result.0 ≡ are_up (whole_or_zero (row_at (rows column.now) first)) (whole_or_zero (row_at (rows column.now) last)) }
    ensures down { result.1 ≡ are_down (whole_or_zero (row_at (rows column.now) first)) (whole_or_zero (row_at (rows column.now) last)) }
{
    let (first, last) = (whole_at(column, first), whole_at(column, last));
    ((first >= 0) & (last >= 0), (first <= 0) & (last <= 0))
}
