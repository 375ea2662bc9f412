//! Whether operators hold of the orders of rows. What an operator answers of each of the three orders is found once, and not for each
//! row: one loop for all operators, without a branch per row.

ghost use Rattle.std.specs.Prelude.{◌≡◌, ◌&&◌, length};
ghost use Rattle.std.specs.declared.cmp.Ordering.{Ordering};
ghost use Rattle.vx_base.specs.Answers.{Answers};
ghost use Rattle.vx_model.specs.Rows.{below};
ghost use Rattle.vx_datetime.specs.Orders.{order_in, verdict};
ghost use Rattle.vx_rules.specs.Comparisons.{holds};

use std::alloc::Global;
use std::cmp::Ordering;
use vx_base::{Mask, VortexResult};
use vx_rules::CompareOperator;

/// What an operator answers of each order.
#[derive(Clone, Copy)]
struct Verdicts {
    less: bool,
    equal: bool,
    greater: bool,
}

/// Whether the operator holds of each order.
pub(super) fn holds_of_each(
    alloc: Global,
    operator: CompareOperator,
    orders: &[Ordering],
) -> VortexResult<Mask>
    ensures { Answers result (below (λ i. holds operator (order_in orders.now i)) (length orders.now)) }
{
    let mut bits = vec![in alloc; false; orders.len()]?;
    write_holds(operator, orders, bits.as_mut_slice());
    Ok(Mask::from_bits(bits))
}

// Writes whether the operator holds of each order.
fn write_holds(operator: CompareOperator, orders: &[Ordering], bits: &mut [bool])
    requires { length bits.old ≡ length orders.now }
    ensures { bits.new ≡ below (λ i. holds operator (order_in orders.now i)) (length orders.now) }
{
    let verdicts = verdicts_of(operator);
    for row in 0..bits.len() {
        bits[row] = verdict(verdicts, orders[row]);
    }
}

/// Whether one operator holds of each order by a lower bound, and another of that by an upper one.
pub(super) fn both_hold_of_each(
    alloc: Global,
    floor: CompareOperator,
    lows: &[Ordering],
    ceiling: CompareOperator,
    highs: &[Ordering],
) -> VortexResult<Mask>
    requires { length highs.now ≡ length lows.now }
    ensures { Answers result (below (λ i. holds floor (order_in lows.now i) && holds ceiling (order_in highs.now i)) (length lows.now)) }
{
    let mut bits = vec![in alloc; false; lows.len()]?;
    write_both(floor, lows, ceiling, highs, bits.as_mut_slice());
    Ok(Mask::from_bits(bits))
}

// Writes whether both operators hold.
fn write_both(
    floor: CompareOperator,
    lows: &[Ordering],
    ceiling: CompareOperator,
    highs: &[Ordering],
    bits: &mut [bool],
)
    requires highs { length highs.now ≡ length lows.now }
    requires room { length bits.old ≡ length lows.now }
    ensures { bits.new ≡ below (λ i. holds floor (order_in lows.now i) && holds ceiling (order_in highs.now i)) (length lows.now) }
{
    let above = verdicts_of(floor);
    let beneath = verdicts_of(ceiling);
    for row in 0..bits.len() {
        bits[row] = verdict(above, lows[row]) & verdict(beneath, highs[row]);
    }
}

// What the operator answers of each order.
fn verdicts_of(operator: CompareOperator) -> Verdicts
    ensures { (order : Ordering) → verdict result order ≡ holds operator order }
{
    Verdicts {
        less: operator.holds(Ordering::Less),
        equal: operator.holds(Ordering::Equal),
        greater: operator.holds(Ordering::Greater),
    }
}

// The answer of an order. By `&` and `|`, since `match` is a branch.
#[inline(always)]
fn verdict(verdicts: Verdicts, order: Ordering) -> bool
    ensures { result ≡ verdict verdicts order }
{
    (order.is_lt() & verdicts.less)
        | (order.is_eq() & verdicts.equal)
        | (order.is_gt() & verdicts.greater)
}
