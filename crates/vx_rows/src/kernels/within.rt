//! Whether integers lie between two others.

ghost use Rattle.std.specs.Ordering.{int_cmp};
ghost use Rattle.std.specs.Prelude.{◌≡◌, ◌&&◌, length, map};
ghost use Rattle.vx_base.specs.Answers.{Answers};
ghost use Rattle.vx_rules.specs.Comparisons.{bound_operator, holds};
ghost use Rattle.vx_rows.specs.Pairs.{whole_within};
ghost use Rattle.vx_values.specs.IntsOf.{wholes_of};

use super::blocks::{WholeTest, test_each};
use super::holding::item_holds;
use crate::ints::with_ints;
use std::alloc::Global;
use vx_base::{Integer, Mask, VortexResult};
use vx_rules::{BetweenOptions, CompareOperator};
use vx_values::Ints;

/// Whether each integer lies between two others, each bound strict or not.
pub(crate) fn holds_within(
    alloc: Global,
    options: BetweenOptions,
    values: &Ints,
    low: i128,
    high: i128,
) -> VortexResult<Mask>
    ensures { Answers result (map (whole_within options low high) (wholes_of values.now)) }
{
    with_ints!(values, items => within_wholes(alloc, options, items.as_slice(), low, high))
}

// Two bounds, each strict or not.
#[derive(Drop)]
struct Bounds {
    options: BetweenOptions,
    low: i128,
    high: i128,
}

impl WholeTest for Bounds {
    ghost passes = { λ test z. whole_within test.options test.low test.high z };

    // In the items' type, where it holds both numbers.
    fn write<T: Integer>(&self, items: &[T], bits: &mut [bool]) {
        let Bounds { options, low, high } = *self;
        match (T::from_whole(low), T::from_whole(high)) {
            (Some(low), Some(high)) => write_by_options(options, items, low, high, bits),
            _ => {
                let (lower, upper) = (options.lower_operator(), options.upper_operator());
                write_wide(lower, upper, items, low, high, bits);
            }
        }
    }
}

// `holds_within` of items of one type.
fn within_wholes<T: Integer>(
    alloc: Global,
    options: BetweenOptions,
    items: &[T],
    low: i128,
    high: i128,
) -> VortexResult<Mask>
    ensures { Answers result (map (whole_within options low high) (map T.whole items.now)) }
{
    let bounds = Bounds { options, low, high };
    test_each(alloc, &bounds, items)
}

// Writes whether each item lies within: one loop for each pair of operators, which are constants in it.
fn write_by_options<T: Integer>(
    options: BetweenOptions,
    items: &[T],
    low: T,
    high: T,
    bits: &mut [bool],
)
    requires { length bits.old ≡ length items.now }
    ensures { bits.new ≡ map (whole_within options (T.whole low) (T.whole high)) (map T.whole items.now) }
{
    let (below, above) = (CompareOperator::Lt, CompareOperator::Lte);
    match (options.lower_strict, options.upper_strict) {
        (true, true) => write_within(below, below, items, low, high, bits),
        (true, false) => write_within(below, above, items, low, high, bits),
        (false, true) => write_within(above, below, items, low, high, bits),
        (false, false) => write_within(above, above, items, low, high, bits),
    }
}

// Writes whether each item lies within, by the operator of each bound.
#[inline(always)]
fn write_within<T: Integer>(
    lower: CompareOperator,
    upper: CompareOperator,
    items: &[T],
    low: T,
    high: T,
    bits: &mut [bool],
)
    requires { length bits.old ≡ length items.now }
    ensures { bits.new ≡ map (λ z. holds lower (int_cmp (T.whole low) z) && holds upper (int_cmp z (T.whole high))) (map T.whole items.now) }
{
    for row in 0..items.len() {
        let item = items[row];
        bits[row] = item_holds(lower, low, item) & item_holds(upper, item, high);
    }
}

// Writes whether each item lies between two numbers of which the items' type doesn't hold both.
fn write_wide<T: Integer>(
    lower: CompareOperator,
    upper: CompareOperator,
    items: &[T],
    low: i128,
    high: i128,
    bits: &mut [bool],
)
    requires { length bits.old ≡ length items.now }
    ensures { bits.new ≡ map (λ z. holds lower (int_cmp low z) && holds upper (int_cmp z high)) (map T.whole items.now) }
{
    for row in 0..items.len() {
        let whole = items[row].to_whole();
        bits[row] = lower.holds(low.cmp(&whole)) & upper.holds(whole.cmp(&high));
    }
}
