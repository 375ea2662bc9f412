//! One pass over integers: how often they change, the least and the greatest. With a mask, 64 rows at a time.

ghost use Rattle.std.specs.Prelude.{◌≡◌, ◌<◌, ◌≤◌, ◌+◌, ◌^◌, length, map, true, if◌then◌else◌};
ghost use Rattle.std.specs.List.{list_all, list_any};
ghost use Rattle.std.specs.Ordering.{int_eq};
ghost use Rattle.vx_base.specs.PlainValue.{int};
ghost use Rattle.vx_model.specs.Refusals.{validity_length};
ghost use Rattle.vx_model.specs.Rows.{masked_rows, valid_rows};
ghost use Rattle.vx_stats.specs.Stats.{valid_wholes};
ghost use Rattle.vx_stats.specs.Tally.{IsTallyAfter, IsTallyOf, SpansLast, tally_of};

use vx_base::{Integer, Mask};
use vx_blocks::{GROUP_ROWS, greater, lesser};

/// How often an integer differs from the one before, the least, the greatest and the last.
#[derive(Drop)]
pub(crate) struct Tally<T: Integer> {
    pub(crate) changes: u32,
    pub(crate) min: T,
    pub(crate) max: T,
    pub(crate) last: T,
}

impl<T: Integer> Tally<T> {
    // The tally of one integer.
    fn of(first: T) -> Self
        ensures { result ≡ tally_of first }
    {
        Tally {
            changes: 0,
            min: first,
            max: first,
            last: first,
        }
    }
}

/// 1 where an integer differs from the one before, else 0.
#[inline(always)]
pub(crate) fn change<T: Integer>(last: T, item: T) -> u32
    ensures value { result ≡ (if int_eq (T.whole last) (T.whole item) then 0 else 1) }
    ensures most { result ≤ 1 }
{
    if last == item { 0 } else { 1 }
}

/// The item where a bit is true, else the other one. Picked by a mask: an `if` becomes a branch in a loop that carries
/// the other one, and scattered nulls make that unpredictable.
#[inline(always)]
pub(crate) fn item_or<T: Integer>(bit: bool, item: T, other: T) -> T
    ensures { T.whole result ≡ (if bit then T.whole item else T.whole other) }
{
    let (_item, _other) = (item.to_whole(), other.to_whole());
    let mask = 0u64.wrapping_sub(u64::from(bit));
    let bits = other.to_bits();
    T::from_low_bits(bits ^ ((bits ^ item.to_bits()) & mask))
}

// A tally after more integers.
fn tally_all<T: Integer>(items: &[T], before: Tally<T>) -> Tally<T>
    requires { before.changes + length items.now < 2 ^ 32 }
    ensures most { result.changes ≤ before.changes + length items.now }
    ensures tally { IsTallyAfter T.whole before (map T.whole items.now) result }
{
    let (mut changes, mut min) = (before.changes, before.min);
    let (mut max, mut last) = (before.max, before.last);
    for row in 0..items.len() {
        let item = items[row];
        changes += change(last, item);
        min = lesser(min, item);
        max = greater(max, item);
        last = item;
    }
    Tally {
        changes,
        min,
        max,
        last,
    }
}

// A tally after more integers, those whose bit is true. Where a bit is false, the last one is taken again, which changes
// nothing and needs no branch.
fn tally_valid<T: Integer>(items: &[T], bits: &[bool], before: Tally<T>) -> Tally<T>
    requires few { before.changes + length items.now < 2 ^ 32 }
    requires bits { length bits.now ≡ length items.now }
    requires last { SpansLast T.whole before }
    ensures most { result.changes ≤ before.changes + length items.now }
    ensures tally { IsTallyAfter T.whole before (valid_wholes (masked_rows bits.now (map int (map T.whole items.now)))) result }
{
    let (mut changes, mut min) = (before.changes, before.min);
    let (mut max, mut last) = (before.max, before.last);
    for row in 0..items.len() {
        let item = item_or(bits[row], items[row], last);
        changes += change(last, item);
        min = lesser(min, item);
        max = greater(max, item);
        last = item;
    }
    Tally {
        changes,
        min,
        max,
        last,
    }
}

// Whether some row of a group is valid, and whether all are, by `|` and `&` over all of them: no branch per row.
fn some_and_all(bits: &[bool]) -> (bool, bool)
    ensures some { result.0 ≡ list_any (λ bit. bit) bits.now }
    ensures all { result.1 ≡ list_all (λ bit. bit) bits.now }
{
    let (mut some, mut all) = (false, true);
    for bit in bits {
        some |= *bit;
        all &= *bit;
    }
    (some, all)
}

// A tally after the valid rows of a group. Where all or none are valid, no row asks for its bit.
fn tally_group<T: Integer>(items: &[T], bits: &[bool], before: Tally<T>) -> Tally<T>
    requires few { before.changes + length items.now < 2 ^ 32 }
    requires bits { length bits.now ≡ length items.now }
    requires last { SpansLast T.whole before }
    ensures most { result.changes ≤ before.changes + length items.now }
    ensures tally { IsTallyAfter T.whole before (valid_wholes (masked_rows bits.now (map int (map T.whole items.now)))) result }
{
    let (some, all) = some_and_all(bits);
    if all {
        tally_all(items, before)
    } else if some {
        tally_valid(items, bits, before)
    } else {
        before
    }
}

// The tally of a first integer and then of those whose bit is true. Nulls mostly stand in clusters, so most groups have
// valid rows alone or none, and take a fraction of the time of a group that has both.
fn tally_groups<T: Integer>(items: &[T], bits: &[bool], first: T) -> Tally<T>
    requires few { length items.now < 2 ^ 32 }
    requires bits { length bits.now ≡ length items.now }
    ensures { IsTallyAfter T.whole (tally_of first) (valid_wholes (masked_rows bits.now (map int (map T.whole items.now)))) result }
{
    let mut tally = Tally::of(first);
    let mut start = 0;
    while start < items.len() {
        let end = start + (items.len() - start).min(GROUP_ROWS);
        tally = tally_group(&items[start..end], &bits[start..end], tally);
        start = end;
    }
    tally
}

// The tally of the integers whose bit is true; None where there is none.
fn tally_masked<T: Integer>(items: &[T], mask: &Mask) -> Option<Tally<T>>
    requires few { length items.now < 2 ^ 32 }
    requires bits { length mask.now ≡ length items.now }
    ensures { IsTallyOf T.whole T.kind (valid_wholes (masked_rows mask.now (map int (map T.whole items.now)))) result }
{
    match mask.first() {
        Some(row) => {
            let first = items[row as usize];
            let _whole = first.to_whole();
            Some(tally_groups(items, mask.as_slice(), first))
        }
        None => None,
    }
}

// The tally of all integers; None where there is none.
fn tally_unmasked<T: Integer>(items: &[T]) -> Option<Tally<T>>
    requires { length items.now < 2 ^ 32 }
    ensures { IsTallyOf T.whole T.kind (map T.whole items.now) result }
{
    if items.is_empty() {
        return None;
    }
    let first = items[0];
    let _whole = first.to_whole();
    Some(tally_all(items, Tally::of(first)))
}

/// The tally of the valid rows; None where there is none.
pub(crate) fn tally_rows<T: Integer>(items: &[T], valid: &Option<Mask>) -> Option<Tally<T>>
    requires mask { validity_length valid.now (length items.now) ≡ true }
    requires few { length items.now < 2 ^ 32 }
    ensures { IsTallyOf T.whole T.kind (valid_wholes (valid_rows valid.now (map int (map T.whole items.now)))) result }
{
    match valid {
        Some(mask) => tally_masked(items, mask),
        None => tally_unmasked(items),
    }
}
