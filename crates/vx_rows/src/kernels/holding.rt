//! An operator between each integer of a list and one other.

ghost use Rattle.std.specs.Ordering.{int_cmp};
ghost use Rattle.std.specs.Prelude.{◌≡◌, length, map};
ghost use Rattle.vx_base.specs.Answers.{Answers};
ghost use Rattle.vx_rows.specs.Pairs.{whole_holds};
ghost use Rattle.vx_rules.specs.Comparisons.{holds};
ghost use Rattle.vx_values.specs.IntsOf.{wholes_of};

use super::blocks::{WholeTest, test_each};
use crate::ints::with_ints;
use std::alloc::Global;
use std::cmp::Ordering;
use vx_base::{Integer, Mask, VortexResult};
use vx_rules::CompareOperator;
use vx_values::Ints;

/// Whether the operator holds between each integer and one other.
pub(crate) fn holds_with(
    alloc: Global,
    operator: CompareOperator,
    values: &Ints,
    whole: i128,
) -> VortexResult<Mask>
    ensures { Answers result (map (whole_holds operator whole) (wholes_of values.now)) }
{
    with_ints!(values, items => holds_with_whole(alloc, operator, items.as_slice(), whole))
}

// An operator, and the number on its right.
#[derive(Drop)]
struct Compared {
    operator: CompareOperator,
    whole: i128,
}

impl WholeTest for Compared {
    ghost passes = { λ test z. whole_holds test.operator test.whole z };

    fn write<T: Integer>(&self, items: &[T], bits: &mut [bool]) {
        match T::from_whole(self.whole) {
            Some(other) => write_by_operator(self.operator, items, other, bits),
            None => write_wide(self.operator, items, self.whole, bits),
        }
    }
}

// `holds_with` of items of one type.
fn holds_with_whole<T: Integer>(
    alloc: Global,
    operator: CompareOperator,
    items: &[T],
    whole: i128,
) -> VortexResult<Mask>
    ensures { Answers result (map (whole_holds operator whole) (map T.whole items.now)) }
{
    test_each(alloc, &Compared { operator, whole }, items)
}

// Writes whether the operator holds: one loop for each operator, which is a constant in it.
fn write_by_operator<T: Integer>(
    operator: CompareOperator,
    items: &[T],
    other: T,
    bits: &mut [bool],
)
    requires { length bits.old ≡ length items.now }
    ensures { bits.new ≡ map (whole_holds operator (T.whole other)) (map T.whole items.now) }
{
    match operator {
        CompareOperator::Eq => write_holds(CompareOperator::Eq, items, other, bits),
        CompareOperator::NotEq => write_holds(CompareOperator::NotEq, items, other, bits),
        CompareOperator::Gt => write_holds(CompareOperator::Gt, items, other, bits),
        CompareOperator::Gte => write_holds(CompareOperator::Gte, items, other, bits),
        CompareOperator::Lt => write_holds(CompareOperator::Lt, items, other, bits),
        CompareOperator::Lte => write_holds(CompareOperator::Lte, items, other, bits),
    }
}

// Writes whether the operator holds between each item and the other one.
#[inline(always)]
fn write_holds<T: Integer>(operator: CompareOperator, items: &[T], other: T, bits: &mut [bool])
    requires { length bits.old ≡ length items.now }
    ensures { bits.new ≡ map (whole_holds operator (T.whole other)) (map T.whole items.now) }
{
    for row in 0..items.len() {
        bits[row] = item_holds(operator, items[row], other);
    }
}

/// Whether the operator holds of two items.
#[inline(always)]
pub(super) fn item_holds<T: Integer>(operator: CompareOperator, item: T, other: T) -> bool
    ensures { result ≡ holds operator (int_cmp (T.whole item) (T.whole other)) }
{
    holds(operator, item.cmp(&other))
}

/// `CompareOperator::holds`, inlined: the operator is a constant in each loop.
#[inline(always)]
pub(super) fn holds(operator: CompareOperator, ordering: Ordering) -> bool
    ensures { result ≡ holds operator ordering }
{
    match operator {
        CompareOperator::Eq => ordering.is_eq(),
        CompareOperator::NotEq => ordering.is_ne(),
        CompareOperator::Gt => ordering.is_gt(),
        CompareOperator::Gte => ordering.is_ge(),
        CompareOperator::Lt => ordering.is_lt(),
        CompareOperator::Lte => ordering.is_le(),
    }
}

// Writes whether the operator holds between each item and a number that their type doesn't hold.
fn write_wide<T: Integer>(operator: CompareOperator, items: &[T], whole: i128, bits: &mut [bool])
    requires { length bits.old ≡ length items.now }
    ensures { bits.new ≡ map (whole_holds operator whole) (map T.whole items.now) }
{
    for row in 0..items.len() {
        bits[row] = operator.holds(items[row].to_whole().cmp(&whole));
    }
}
