//! The order of each row in parts and one moment, or the row of its number in another array: by the days, where these are equal by
//! the seconds, and where these are too by the subseconds. Block by block, so that the orders of a block stay at hand from part to
//! part; the seconds and subseconds of a block are read only where some days in it are equal.

ghost use Rattle.std.specs.Prelude.{◌≡◌, ◌≤◌, ℕ, length, replicate};
ghost use Rattle.std.specs.declared.cmp.Ordering.TheVariants.{Equal};
ghost use Rattle.vx_base.specs.Answers.{OrMemory};
ghost use Rattle.vx_model.specs.Rows.{below};
ghost use Rattle.vx_datetime.specs.Moments.{moment_parts, row_parts};
ghost use Rattle.vx_datetime.specs.Orders.{AreOrdered, order_in};
ghost use Rattle.vx_time.specs.CanonicalParts.{parts_cmp};
ghost use Rattle.vx_values.specs.IntsOf.{wholes_of};

use super::moments::Moment;
use super::part_rows::PartRows;
use super::refining::{refine, refine_pairs, some_equal};
use std::alloc::Global;
use std::cmp::Ordering;
use vx_base::VortexResult;

// The rows of a block.
const BLOCK_ROWS: usize = 1024;

/// The order of each row and a moment.
pub(super) fn orders_with(
    alloc: Global,
    rows: &PartRows<'_>,
    moment: &Moment,
) -> VortexResult<Vec<Ordering>>
    requires seconds { length (wholes_of rows.now.seconds.now) ≡ length (wholes_of rows.now.days.now) }
    requires subseconds { length (wholes_of rows.now.subseconds.now) ≡ length (wholes_of rows.now.days.now) }
    ensures { OrMemory result (λ orders. orders.items ≡ below (λ i. parts_cmp (row_parts rows.now i) (moment_parts moment.now)) (length (wholes_of rows.now.days.now))) }
{
    let mut orders = vec![in alloc; Ordering::Equal; rows.days.len() as usize]?;
    order_with(orders.as_mut_slice(), rows, moment);
    Ok(orders)
}

// From Equal to the order of each row and a moment.
fn order_with(orders: &mut [Ordering], rows: &PartRows<'_>, moment: &Moment)
    requires seconds { length (wholes_of rows.now.seconds.now) ≡ length (wholes_of rows.now.days.now) }
    requires subseconds { length (wholes_of rows.now.subseconds.now) ≡ length (wholes_of rows.now.days.now) }
    requires equal { orders.old ≡ replicate (length (wholes_of rows.now.days.now)) Equal }
    ensures { orders.new ≡ below (λ i. parts_cmp (row_parts rows.now i) (moment_parts moment.now)) (length (wholes_of rows.now.days.now)) }
{
    let mut start = 0;
    while start < orders.len() {
        let end = start + (orders.len() - start).min(BLOCK_ROWS);
        order_block(orders, rows, moment, start, end);
        start = end;
    }
}

// `order_with` of the rows from `start` to `end - 1`.
fn order_block(
    orders: &mut [Ordering],
    rows: &PartRows<'_>,
    moment: &Moment,
    start: usize,
    end: usize,
)
    requires days { length (wholes_of rows.now.days.now) ≡ length orders.old }
    requires seconds { length (wholes_of rows.now.seconds.now) ≡ length orders.old }
    requires subseconds { length (wholes_of rows.now.subseconds.now) ≡ length orders.old }
    requires order { start ≤ end }
    requires room { end ≤ length orders.old }
    requires equal { (i : ℕ) → start ≤ i → order_in orders.old i ≡ Equal }
    ensures { AreOrdered (λ i. parts_cmp (row_parts rows.now i) (moment_parts moment.now)) orders.old orders.new start end }
{
    refine(orders, rows.days, moment.days, start, end);
    if some_equal(orders, start, end) {
        refine(orders, rows.seconds, moment.seconds, start, end);
        refine(orders, rows.subseconds, moment.subseconds, start, end);
    }
}

/// The order of each row and another array's row of its number.
pub(super) fn orders_in_pairs(
    alloc: Global,
    rows: &PartRows<'_>,
    others: &PartRows<'_>,
) -> VortexResult<Vec<Ordering>>
    requires seconds { length (wholes_of rows.now.seconds.now) ≡ length (wholes_of rows.now.days.now) }
    requires subseconds { length (wholes_of rows.now.subseconds.now) ≡ length (wholes_of rows.now.days.now) }
    requires other_days { length (wholes_of others.now.days.now) ≡ length (wholes_of rows.now.days.now) }
    requires other_seconds { length (wholes_of others.now.seconds.now) ≡ length (wholes_of rows.now.days.now) }
    requires other_subseconds { length (wholes_of others.now.subseconds.now) ≡ length (wholes_of rows.now.days.now) }
    ensures { OrMemory result (λ orders. orders.items ≡ below (λ i. parts_cmp (row_parts rows.now i) (row_parts others.now i)) (length (wholes_of rows.now.days.now))) }
{
    let mut orders = vec![in alloc; Ordering::Equal; rows.days.len() as usize]?;
    order_pairs(orders.as_mut_slice(), rows, others);
    Ok(orders)
}

// From Equal to the order of each row and another array's row of its number.
fn order_pairs(orders: &mut [Ordering], rows: &PartRows<'_>, others: &PartRows<'_>)
    requires seconds { length (wholes_of rows.now.seconds.now) ≡ length (wholes_of rows.now.days.now) }
    requires subseconds { length (wholes_of rows.now.subseconds.now) ≡ length (wholes_of rows.now.days.now) }
    requires other_days { length (wholes_of others.now.days.now) ≡ length (wholes_of rows.now.days.now) }
    requires other_seconds { length (wholes_of others.now.seconds.now) ≡ length (wholes_of rows.now.days.now) }
    requires other_subseconds { length (wholes_of others.now.subseconds.now) ≡ length (wholes_of rows.now.days.now) }
    requires equal { orders.old ≡ replicate (length (wholes_of rows.now.days.now)) Equal }
    ensures { orders.new ≡ below (λ i. parts_cmp (row_parts rows.now i) (row_parts others.now i)) (length (wholes_of rows.now.days.now)) }
{
    let mut start = 0;
    while start < orders.len() {
        let end = start + (orders.len() - start).min(BLOCK_ROWS);
        order_block_pairs(orders, rows, others, start, end);
        start = end;
    }
}

// `order_pairs` of the rows from `start` to `end - 1`.
fn order_block_pairs(
    orders: &mut [Ordering],
    rows: &PartRows<'_>,
    others: &PartRows<'_>,
    start: usize,
    end: usize,
)
    requires days { length (wholes_of rows.now.days.now) ≡ length orders.old }
    requires seconds { length (wholes_of rows.now.seconds.now) ≡ length orders.old }
    requires subseconds { length (wholes_of rows.now.subseconds.now) ≡ length orders.old }
    requires other_days { length (wholes_of others.now.days.now) ≡ length orders.old }
    requires other_seconds { length (wholes_of others.now.seconds.now) ≡ length orders.old }
    requires other_subseconds { length (wholes_of others.now.subseconds.now) ≡ length orders.old }
    requires order { start ≤ end }
    requires room { end ≤ length orders.old }
    requires equal { (i : ℕ) → start ≤ i → order_in orders.old i ≡ Equal }
    ensures { AreOrdered (λ i. parts_cmp (row_parts rows.now i) (row_parts others.now i)) orders.old orders.new start end }
{
    refine_pairs(orders, rows.days, others.days, start, end);
    if some_equal(orders, start, end) {
        refine_pairs(orders, rows.seconds, others.seconds, start, end);
        refine_pairs(orders, rows.subseconds, others.subseconds, start, end);
    }
}
