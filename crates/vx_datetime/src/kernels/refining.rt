//! The orders of the rows of a block, refined in place by one more part: where a row is equal to the other one so far, its order
//! becomes that of their integers. One loop for each type, without a branch per row.

ghost use Rattle.std.specs.Ordering.{int_cmp, is_eq, ordering_then};
ghost use Rattle.std.specs.Prelude.{◌≡◌, ◌<◌, ◌≤◌, ℕ, false, length, map, true};
ghost use Rattle.vx_base.specs.Integers.{lies_in};
ghost use Rattle.vx_datetime.specs.Orders.{AreOrdered, order_in, refined_at, whole_in};
ghost use Rattle.vx_values.specs.IntsOf.{wholes_of};

use super::ints::{with_ints, with_pairs};
use std::cmp::Ordering;
use vx_base::Integer;
use vx_values::Ints;

/// In the rows from `start` to `end - 1`, by the order of the integers of a part and one other integer.
pub(super) fn refine(orders: &mut [Ordering], part: &Ints, whole: i128, start: usize, end: usize)
    requires part { length (wholes_of part.now) ≡ length orders.old }
    requires order { start ≤ end }
    requires room { end ≤ length orders.old }
    ensures { AreOrdered (refined_at orders.old (wholes_of part.now) (λ i. whole)) orders.old orders.new start end }
{
    with_ints!(part, items => refine_with(orders, items.as_slice(), whole, start, end))
}

/// By the order of the integers of two parts, row by row.
pub(super) fn refine_pairs(
    orders: &mut [Ordering],
    part: &Ints,
    other: &Ints,
    start: usize,
    end: usize,
)
    requires part { length (wholes_of part.now) ≡ length orders.old }
    requires other { length (wholes_of other.now) ≡ length orders.old }
    requires order { start ≤ end }
    requires room { end ≤ length orders.old }
    ensures { AreOrdered (refined_at orders.old (wholes_of part.now) (whole_in (wholes_of other.now))) orders.old orders.new start end }
{
    with_pairs!(
        part, other, items, others => refine_each(orders, items.as_slice(), others.as_slice(), start, end),
        refine_unlike(orders, part, other, start, end)
    )
}

// `refine_pairs` of lists of any types.
fn refine_unlike(orders: &mut [Ordering], part: &Ints, other: &Ints, start: usize, end: usize)
    requires part { length (wholes_of part.now) ≡ length orders.old }
    requires other { length (wholes_of other.now) ≡ length orders.old }
    requires order { start ≤ end }
    requires room { end ≤ length orders.old }
    ensures { AreOrdered (refined_at orders.old (wholes_of part.now) (whole_in (wholes_of other.now))) orders.old orders.new start end }
{
    for row in start..end {
        orders[row] = orders[row].then(order_at(part, other, row as u64));
    }
}

// The order of the integers of a row.
fn order_at(part: &Ints, other: &Ints, row: u64) -> Ordering
    requires part { row < length (wholes_of part.now) }
    requires other { row < length (wholes_of other.now) }
    ensures { result ≡ int_cmp (whole_in (wholes_of part.now) row) (whole_in (wholes_of other.now) row) }
{
    part.whole_at(row).cmp(&other.whole_at(row))
}

// `refine` by items of one type. All of them are below a number that the type doesn't hold, or all above it, as 0 is.
fn refine_with<T: Integer>(
    orders: &mut [Ordering],
    items: &[T],
    whole: i128,
    start: usize,
    end: usize,
)
    requires items { length items.now ≡ length orders.old }
    requires order { start ≤ end }
    requires room { end ≤ length orders.old }
    ensures { AreOrdered (refined_at orders.old (map T.whole items.now) (λ i. whole)) orders.old orders.new start end }
{
    match T::from_whole(whole) {
        Some(other) => refine_by(orders, items, other, start, end),
        None => {
            known(items, start, end);
            refine_all(orders, 0.cmp(&whole), start, end);
        }
    }
}

// Each item is in the range of its type, as the contract of `to_whole` says; the loop has no effect.
fn known<T: Integer>(items: &[T], start: usize, end: usize)
    requires order { start ≤ end }
    requires room { end ≤ length items.now }
    ensures { (i : ℕ) → start ≤ i → i < end → lies_in T.kind (whole_in (map T.whole items.now) i) ≡ true }
{
    for row in start..end {
        let _whole = items[row].to_whole();
    }
}

// By one order for all rows.
fn refine_all(orders: &mut [Ordering], order: Ordering, start: usize, end: usize)
    requires order { start ≤ end }
    requires room { end ≤ length orders.old }
    ensures { AreOrdered (λ i. ordering_then (order_in orders.old i) order) orders.old orders.new start end }
{
    for row in start..end {
        orders[row] = orders[row].then(order);
    }
}

// By the order of each item and one other.
fn refine_by<T: Integer>(orders: &mut [Ordering], items: &[T], other: T, start: usize, end: usize)
    requires items { length items.now ≡ length orders.old }
    requires order { start ≤ end }
    requires room { end ≤ length orders.old }
    ensures { AreOrdered (refined_at orders.old (map T.whole items.now) (λ i. T.whole other)) orders.old orders.new start end }
{
    for row in start..end {
        orders[row] = refined(orders[row], items[row], other);
    }
}

// By the order of the items of each row.
fn refine_each<T: Integer>(
    orders: &mut [Ordering],
    items: &[T],
    others: &[T],
    start: usize,
    end: usize,
)
    requires items { length items.now ≡ length orders.old }
    requires others { length others.now ≡ length orders.old }
    requires order { start ≤ end }
    requires room { end ≤ length orders.old }
    ensures { AreOrdered (refined_at orders.old (map T.whole items.now) (whole_in (map T.whole others.now))) orders.old orders.new start end }
{
    for row in start..end {
        orders[row] = refined(orders[row], items[row], others[row]);
    }
}

// An order, and where it is Equal that of two items.
#[inline(always)]
fn refined<T: Integer>(order: Ordering, item: T, other: T) -> Ordering
    ensures { result ≡ ordering_then order (int_cmp (T.whole item) (T.whole other)) }
{
    order.then(item.cmp(&other))
}

/// Whether some order from `start` to `end - 1` is Equal. By `|` over all of them: no branch per row.
pub(super) fn some_equal(orders: &[Ordering], start: usize, end: usize) -> bool
    requires order { start ≤ end }
    requires room { end ≤ length orders.now }
    ensures { result ≡ false → (i : ℕ) → start ≤ i → i < end → is_eq (order_in orders.now i) ≡ false }
{
    let mut found = false;
    for row in start..end {
        found = found | orders[row].is_eq();
    }
    found
}
