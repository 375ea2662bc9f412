//! Comparisons of rows that are read where they stand: integers in their own type, and texts and binaries with one value, by a
//! kernel, others value by value.

ghost use Rattle.std.specs.Prelude.{◌≡◌, IsTrue, length, map, replicate, true};
ghost use Rattle.vx_base.specs.Answers.{Answers};
ghost use Rattle.vx_base.specs.CellValue.{cell_value};
ghost use Rattle.vx_base.specs.PlainValue.{int, truth};
ghost use Rattle.vx_model.specs.Refusals.{validity_length};
ghost use Rattle.vx_model.specs.Rows.{valid_rows};
ghost use Rattle.vx_rows.specs.Pairs.{both_valid, compared_rows, turned, whole_holds};
ghost use Rattle.vx_rows.specs.Readable.{is_whole, lent_rows};
ghost use Rattle.vx_rows.specs.Truths.{truth_or_null};
ghost use Rattle.vx_rules.specs.Comparisons.{compared};
ghost use Rattle.vx_values.specs.IntsOf.{wholes_of};

use super::byte_rows::byte_rows_with_same;
use crate::kernels::{both_valid, holds_between, holds_with};
use crate::lent::Lent;
use crate::ordering::value_cmp;
use crate::truths::{Truths, TruthsBuilder};
use std::alloc::Global;
use vx_base::{Cell, Mask, VortexResult};
use vx_rules::CompareOperator;
use vx_values::{Ints, copy_validity};

/// Whether the operator holds, row by row of two columns that are equally long.
pub(crate) fn compared_rows(
    alloc: Global,
    operator: CompareOperator,
    left: Lent<'_>,
    right: Lent<'_>,
) -> VortexResult<Truths>
    requires left { IsTrue (is_whole left) }
    requires right { IsTrue (is_whole right) }
    requires lengths { length (lent_rows left) ≡ length (lent_rows right) }
    ensures { Answers result (compared_rows operator (lent_rows left.entry) (lent_rows right.entry)) }
{
    match (left, right) {
        (Lent::Ints(values, valid), Lent::Ints(others, other_valid)) => {
            compared_pairs(alloc, operator, values, valid, others, other_valid)
        }
        (Lent::Ints(values, valid), Lent::Same(value, len)) => {
            compared_with_same(alloc, operator, values, valid, value, len)
        }
        (Lent::Same(value, len), Lent::Ints(values, valid)) => {
            compared_with_same(alloc, turned(operator), values, valid, value, len)
        }
        (Lent::Bytes(rows, valid), Lent::Same(value, len)) => {
            byte_rows_with_same(alloc, operator, rows, valid, value, len)
        }
        (Lent::Same(value, len), Lent::Bytes(rows, valid)) => {
            byte_rows_with_same(alloc, turned(operator), rows, valid, value, len)
        }
        _ => compared_cells(alloc, operator, left, right),
    }
}

// The operator that holds of two values exchanged.
fn turned(operator: CompareOperator) -> CompareOperator
    ensures { result ≡ turned operator }
{
    match operator {
        CompareOperator::Gt => CompareOperator::Lt,
        CompareOperator::Gte => CompareOperator::Lte,
        CompareOperator::Lt => CompareOperator::Gt,
        CompareOperator::Lte => CompareOperator::Gte,
        CompareOperator::Eq | CompareOperator::NotEq => operator,
    }
}

// `compared_rows` of two columns of integers: those of one type by a kernel.
fn compared_pairs(
    alloc: Global,
    operator: CompareOperator,
    values: &Ints,
    valid: &Option<Mask>,
    others: &Ints,
    other_valid: &Option<Mask>,
) -> VortexResult<Truths>
    requires left { validity_length valid.now (length (wholes_of values.now)) ≡ true }
    requires right { validity_length other_valid.now (length (wholes_of others.now)) ≡ true }
    requires lengths { length (wholes_of values.now) ≡ length (wholes_of others.now) }
    ensures { Answers result (compared_rows operator (valid_rows valid.now (map int (wholes_of values.now))) (valid_rows other_valid.now (map int (wholes_of others.now)))) }
{
    let found = holds_between(alloc, operator, values, others)?;
    match found {
        Some(bits) => with_both_valid(alloc, bits, valid, other_valid),
        None => {
            let (left, right) = (Lent::Ints(values, valid), Lent::Ints(others, other_valid));
            compared_cells(alloc, operator, left, right)
        }
    }
}

// Bits that are valid where the rows of both columns are.
fn with_both_valid(
    alloc: Global,
    bits: Mask,
    left: &Option<Mask>,
    right: &Option<Mask>,
) -> VortexResult<Truths>
    requires left { validity_length left.now (length bits) ≡ true }
    requires right { validity_length right.now (length bits) ≡ true }
    ensures { Answers result (valid_rows (both_valid left.now right.now) (map truth bits)) }
{
    let valid = both_valid(alloc, left, right, bits.len())?;
    Ok(Truths::new(bits, valid))
}

// `compared_rows` of a column of integers and one value in every row.
fn compared_with_same(
    alloc: Global,
    operator: CompareOperator,
    values: &Ints,
    valid: &Option<Mask>,
    value: Cell<'_>,
    len: u64,
) -> VortexResult<Truths>
    requires whole { validity_length valid.now (length (wholes_of values.now)) ≡ true }
    requires lengths { length (valid_rows valid.now (map int (wholes_of values.now))) ≡ len }
    ensures { Answers result (compared_rows operator (valid_rows valid.now (map int (wholes_of values.now))) (replicate len (cell_value value.entry))) }
{
    let found = value.integer();
    match found {
        Some(whole) => compared_with_whole(alloc, operator, values, valid, whole),
        None => {
            let (left, right) = (Lent::Ints(values, valid), Lent::Same(value, len));
            compared_cells(alloc, operator, left, right)
        }
    }
}

// Whether the operator holds between each integer and one other.
fn compared_with_whole(
    alloc: Global,
    operator: CompareOperator,
    values: &Ints,
    valid: &Option<Mask>,
    whole: i128,
) -> VortexResult<Truths>
    requires { validity_length valid.now (length (wholes_of values.now)) ≡ true }
    ensures { Answers result (valid_rows valid.now (map truth (map (whole_holds operator whole) (wholes_of values.now)))) }
{
    let bits = holds_with(alloc, operator, values, whole)?;
    let valid = copy_validity(alloc, valid)?;
    Ok(Truths::new(bits, valid))
}

/// `compared_rows`, value by value.
pub(super) fn compared_cells(
    alloc: Global,
    operator: CompareOperator,
    left: Lent<'_>,
    right: Lent<'_>,
) -> VortexResult<Truths>
    requires left { IsTrue (is_whole left) }
    requires right { IsTrue (is_whole right) }
    requires lengths { length (lent_rows left) ≡ length (lent_rows right) }
    ensures { Answers result (compared_rows operator (lent_rows left.entry) (lent_rows right.entry)) }
{
    let mut truths = TruthsBuilder::nulls(alloc, left.len())?;
    for row in 0..left.len() {
        truths.set(row, compared(operator, left.cell(row), right.cell(row)));
    }
    Ok(truths.finish())
}

// Whether the operator holds of two values, None where either is null.
#[inline(always)]
fn compared(operator: CompareOperator, left: Cell<'_>, right: Cell<'_>) -> Option<bool>
    ensures { truth_or_null result ≡ compared operator (cell_value left.entry) (cell_value right.entry) }
{
    if left.is_null() || right.is_null() {
        None
    } else {
        Some(operator.holds(value_cmp(left, right)))
    }
}
