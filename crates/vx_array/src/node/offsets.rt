//! Offsets into bytes or elements: tests, and single ones.

ghost use Rattle.std.specs.List.{list_all};
ghost use Rattle.std.specs.Prelude.{◌≡◌, ◌<◌, ◌≤◌, ◌≤ℤ◌, ◌+◌, ◌-◌, ◌^◌, ◌&&◌, IsTrue, not, int_le, int_lt, length, pos, negsuc};
ghost use Rattle.vx_array.specs.Linear.{IsLinear};
ghost use Rattle.vx_base.specs.PlainType.{is_integer, is_nullable};
ghost use Rattle.vx_base.specs.PlainValue.{cell, whole_or_zero};
ghost use Rattle.vx_base.specs.TypeOf.{type_of};
ghost use Rattle.vx_model.specs.Rows.{rows, row_at, offset_at};
ghost use Rattle.vx_model.specs.TreeType.{tree_type};
ghost use Rattle.vx_model.specs.WellFormed.{are_offsets, lies_between, never_falls};

use crate::array::ArrayRef;
use crate::patches::as_index;
use vx_base::DType;

// Whether the type is one of non-nullable integers.
pub(crate) fn are_integers(dtype: &DType) -> bool
    ensures { result ≡ (is_integer (type_of dtype.now) && not (is_nullable (type_of dtype.now))) }
{
    dtype.is_integer() && !dtype.is_nullable()
}

// The number of rows between offsets: one less than there are.
pub(crate) fn row_count(offsets: &ArrayRef) -> u64
    ensures { result ≡ length (rows offsets.now) - 1 }
{
    offsets.len().saturating_sub(1)
}

// The offset at a place, 0 where there is no unsigned number.
#[cycle(cell_at)]
#[tactic(auto, using(crate::proofs::Flat::flats))]
pub(crate) fn offset_at(offsets: &ArrayRef, place: u64) -> u128
    requires integers { IsTrue (is_integer (tree_type offsets.now)) }
    requires in_range { place < length (rows offsets.now) }
    ensures { result ≡ offset_at (rows offsets.now) place }
{
    match as_index(offsets.cell_at(place).integer()) {
        Some(offset) => offset,
        None => 0,
    }
}

// Whether the offsets begin at 0, never fall and end at the number of items.
pub(crate) fn hold_offsets(offsets: &ArrayRef, items: u64) -> bool
    requires integers { IsTrue (is_integer (tree_type offsets.now)) }
    requires some { 1 ≤ length (rows offsets.now) }
    ensures { result ≡ are_offsets items (rows offsets.now) }
{
    let plain = offsets.summed();
    are_offsets(offsets.or(&plain), items)
}

// `hold_offsets`, one offset after another.
pub(crate) fn are_offsets(offsets: &ArrayRef, items: u64) -> bool
    requires integers { IsTrue (is_integer (tree_type offsets.now)) }
    requires some { 1 ≤ length (rows offsets.now) }
    ensures { result ≡ are_offsets items (rows offsets.now) }
{
    let last = offsets.len() - 1;
    lie_within(offsets, items)
        && offset_at(offsets, 0) == 0
        && offset_at(offsets, last) == u128::from(items)
        && never_fall(offsets)
}

// Whether each offset lies in `0 ..= items`.
fn lie_within(offsets: &ArrayRef, items: u64) -> bool
    requires { IsTrue (is_integer (tree_type offsets.now)) }
    ensures { result ≡ list_all (lies_between 0 (items + 1)) (rows offsets.now) }
{
    if offsets.is_linear() {
        return ends_lie_within(offsets, items);
    }
    for place in 0..offsets.len() {
        if !lies_within(offsets.integer_at(place), items) {
            return false;
        }
    }
    true
}

// `lie_within` of linear offsets, by the first and the last.
fn ends_lie_within(offsets: &ArrayRef, items: u64) -> bool
    requires integers { IsTrue (is_integer (tree_type offsets.now)) }
    requires linear { IsLinear (rows offsets.now) }
    ensures { result ≡ list_all (lies_between 0 (items + 1)) (rows offsets.now) }
{
    let len = offsets.len();
    if len == 0 {
        return true;
    }
    lies_within(offsets.integer_at(0), items) && lies_within(offsets.integer_at(len - 1), items)
}

fn lies_within(offset: Option<i128>, items: u64) -> bool
    ensures { result ≡ lies_between 0 (items + 1) (cell offset) }
{
    match offset {
        Some(offset) => offset >= 0 && offset <= i128::from(items),
        None => false,
    }
}

// Whether the offsets never fall.
#[tactic(auto, using(crate::proofs::Falls::falls))]
fn never_fall(offsets: &ArrayRef) -> bool
    requires { IsTrue (is_integer (tree_type offsets.now)) }
    ensures { result ≡ never_falls (rows offsets.now) }
{
    if offsets.is_linear() {
        return ends_never_fall(offsets);
    }
    for place in 1..offsets.len() {
        if !is_at_most(offsets, place) {
            return false;
        }
    }
    true
}

// `never_fall` of linear offsets, by the first and the last.
fn ends_never_fall(offsets: &ArrayRef) -> bool
    requires integers { IsTrue (is_integer (tree_type offsets.now)) }
    requires linear { IsLinear (rows offsets.now) }
    ensures { result ≡ never_falls (rows offsets.now) }
{
    let len = offsets.len();
    if len == 0 {
        return true;
    }
    is_first_at_most(offsets, len - 1)
}

// Whether the first whole number is at most the one at a place.
fn is_first_at_most(offsets: &ArrayRef, place: u64) -> bool
    requires integers { IsTrue (is_integer (tree_type offsets.now)) }
    requires in_range { place < length (rows offsets.now) }
    ensures { result ≡ int_le (whole_or_zero (row_at (rows offsets.now) 0)) (whole_or_zero (row_at (rows offsets.now) place)) }
{
    whole_at(offsets, 0) <= whole_at(offsets, place)
}

// Whether the first whole number is below the one at a place.
pub(crate) fn is_first_below(offsets: &ArrayRef, place: u64) -> bool
    requires integers { IsTrue (is_integer (tree_type offsets.now)) }
    requires in_range { place < length (rows offsets.now) }
    ensures { result ≡ int_lt (whole_or_zero (row_at (rows offsets.now) 0)) (whole_or_zero (row_at (rows offsets.now) place)) }
{
    whole_at(offsets, 0) < whole_at(offsets, place)
}

// The whole number at a place, 0 of null.
#[cycle(cell_at)]
#[tactic(auto, using(crate::proofs::Flat::flats))]
pub(crate) fn whole_at(offsets: &ArrayRef, place: u64) -> i128
    requires integers { IsTrue (is_integer (tree_type offsets.now)) }
    requires in_range { place < length (rows offsets.now) }
    ensures whole { result ≡ whole_or_zero (row_at (rows offsets.now) place) }
    ensures least { negsuc (2 ^ 63 - 1) ≤ℤ result }
    ensures most { result ≤ℤ pos (2 ^ 64 - 1) }
{
    offsets.known();
    offsets.cell_at(place).whole()
}

// Whether the offset before a place is at most the one there.
fn is_at_most(offsets: &ArrayRef, place: u64) -> bool
    requires integers { IsTrue (is_integer (tree_type offsets.now)) }
    requires second { 1 ≤ place }
    requires in_range { place < length (rows offsets.now) }
    ensures { result ≡ int_le (whole_or_zero (row_at (rows offsets.now) (place - 1))) (whole_or_zero (row_at (rows offsets.now) place)) }
{
    whole_at(offsets, place - 1) <= whole_at(offsets, place)
}
