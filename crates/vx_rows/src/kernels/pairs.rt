//! An operator between two lists of integers of one type, item by item.

ghost use Rattle.std.specs.Ordering.{int_cmp};
ghost use Rattle.std.specs.Prelude.{◌≡◌, IfSome, length, map};
ghost use Rattle.vx_base.specs.Answers.{OrMemory, Answers};
ghost use Rattle.vx_rows.specs.Pairs.{each_pair};
ghost use Rattle.vx_rules.specs.Comparisons.{holds};
ghost use Rattle.vx_values.specs.IntsOf.{wholes_of};

use super::blocks::BLOCK_ROWS;
use super::holding::item_holds;
use crate::ints::with_pairs;
use std::alloc::Global;
use vx_base::{Integer, Mask, VortexResult};
use vx_rules::CompareOperator;
use vx_values::Ints;

/// Whether the operator holds between the integers of each row, None where the two lists are of different types.
pub(crate) fn holds_between(
    alloc: Global,
    operator: CompareOperator,
    values: &Ints,
    others: &Ints,
) -> VortexResult<Option<Mask>>
    requires { length (wholes_of values.now) ≡ length (wholes_of others.now) }
    ensures { OrMemory result (λ answer. IfSome answer (λ bits. bits ≡ each_pair (λ z w. holds operator (int_cmp z w)) (wholes_of values.now) (wholes_of others.now))) }
{
    with_pairs!(
        values, others, xs, ys => Ok(Some(holds_each(alloc, operator, xs.as_slice(), ys.as_slice())?)),
        Ok(None)
    )
}

// `holds_between` of items of one type, block by block.
fn holds_each<T: Integer>(
    alloc: Global,
    operator: CompareOperator,
    items: &[T],
    others: &[T],
) -> VortexResult<Mask>
    requires { length items.now ≡ length others.now }
    ensures { Answers result (each_pair (λ z w. holds operator (int_cmp z w)) (map T.whole items.now) (map T.whole others.now)) }
{
    let mut bits = Vec::with_capacity(alloc, items.len())?;
    for block in 0..items.len().div_ceil(BLOCK_ROWS) {
        let start = BLOCK_ROWS * block;
        let end = start + (items.len() - start).min(BLOCK_ROWS);
        bits.resize(end, false)?;
        write_by_operator(
            operator,
            &items[start..end],
            &others[start..end],
            bits.slice_mut(start..),
        );
    }
    Ok(Mask::from_bits(bits))
}

// Writes whether the operator holds: one loop for each operator, which is a constant in it.
fn write_by_operator<T: Integer>(
    operator: CompareOperator,
    items: &[T],
    others: &[T],
    bits: &mut [bool],
)
    requires lengths { length items.now ≡ length others.now }
    requires room { length bits.old ≡ length items.now }
    ensures { bits.new ≡ each_pair (λ z w. holds operator (int_cmp z w)) (map T.whole items.now) (map T.whole others.now) }
{
    match operator {
        CompareOperator::Eq => write_each(CompareOperator::Eq, items, others, bits),
        CompareOperator::NotEq => write_each(CompareOperator::NotEq, items, others, bits),
        CompareOperator::Gt => write_each(CompareOperator::Gt, items, others, bits),
        CompareOperator::Gte => write_each(CompareOperator::Gte, items, others, bits),
        CompareOperator::Lt => write_each(CompareOperator::Lt, items, others, bits),
        CompareOperator::Lte => write_each(CompareOperator::Lte, items, others, bits),
    }
}

// Writes whether the operator holds between the items of each row.
#[inline(always)]
fn write_each<T: Integer>(operator: CompareOperator, items: &[T], others: &[T], bits: &mut [bool])
    requires lengths { length items.now ≡ length others.now }
    requires room { length bits.old ≡ length items.now }
    ensures { bits.new ≡ each_pair (λ z w. holds operator (int_cmp z w)) (map T.whole items.now) (map T.whole others.now) }
{
    for row in 0..items.len() {
        bits[row] = item_holds(operator, items[row], others[row]);
    }
}
