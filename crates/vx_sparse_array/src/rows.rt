//! Which rows of a column of any type are patches of a fill, and the values of some rows.

ghost use Rattle.std.specs.List.{list_all};
ghost use Rattle.std.specs.Prelude.{◌≡◌, IsTrue, length, map, nat_lt, not, ◌+◌, ◌||◌};
ghost use Rattle.vx_base.specs.Answers.{Answers, OrMemory};
ghost use Rattle.vx_base.specs.PlainValue.{is_null, same_value};
ghost use Rattle.vx_base.specs.TypeOf.{value_of};
ghost use Rattle.vx_model.specs.Column.{column};
ghost use Rattle.vx_model.specs.Plain.{IsPlain, plain};
ghost use Rattle.vx_model.specs.Rows.{rows, row_at};
ghost use Rattle.vx_model.specs.TreeType.{tree_type};
ghost use Rattle.vx_sparse_array.specs.Filling.{null_filling, value_filling, patched_rows};

use crate::integers::push_where;
use std::alloc::Global;
use vx_array::ArrayRef;
use vx_base::{IntList, Scalar, Value, VortexResult};

/// The numbers of the valid rows.
#[tactic(auto, using(crate::proofs::LoopLemmas::row_loops))]
pub(crate) fn rows_with_values(alloc: Global, array: &ArrayRef) -> VortexResult<IntList<u64>>
    ensures { Answers result (patched_rows null_filling (rows array.now)) }
{
    let mut numbers = Vec::new(alloc);
    for row in 0..array.len() {
        push_where(&mut numbers, row, !array.is_null_at(row))?;
    }
    Ok(IntList::from_vec(numbers))
}

// Whether a value is null or differs from the fill.
fn is_other(value: &Value, fill: &Scalar) -> bool
    ensures { result ≡ (is_null (value_of value.now) || not (same_value (value_of value.now) fill.now.value)) }
{
    match value {
        Value::Null => true,
        _ => *value != *fill.value(),
    }
}

/// The numbers of the rows that are null or differ from the fill.
#[tactic(auto, using(crate::proofs::LoopLemmas::row_loops))]
pub(crate) fn rows_with_others(
    alloc: Global,
    array: &ArrayRef,
    fill: &Scalar,
) -> VortexResult<IntList<u64>>
    ensures { Answers result (patched_rows (value_filling fill.now.value) (rows array.now)) }
{
    let mut numbers = Vec::new(alloc);
    for row in 0..array.len() {
        let value = array.value_at(alloc, row)?;
        push_where(&mut numbers, row, is_other(&value, fill))?;
    }
    Ok(IntList::from_vec(numbers))
}

/// The values of the given rows of a plain tree, as a plain tree.
#[tactic(auto, using(crate::proofs::RowsAt::single_rows))]
pub fn rows_at(alloc: Global, array: &ArrayRef, numbers: &[u64]) -> VortexResult<ArrayRef>
    requires plain { IsPlain array.now }
    requires within { IsTrue (list_all (λ row. nat_lt row (length (rows array.now))) numbers.now) }
    ensures { Answers result (plain (column (tree_type array.now) (map (row_at (rows array.now)) numbers.now))) }
{
    if !array.dtype().is_flat() {
        return values_at(alloc, array, numbers);
    }
    let ranges = each_alone(alloc, numbers, array.len())?;
    array.gather(alloc, ranges.as_slice())
}

// Each row as the range of one row.
fn each_alone(alloc: Global, numbers: &[u64], len: u64) -> VortexResult<Vec<(u64, u64)>>
    requires { IsTrue (list_all (λ row. nat_lt row len) numbers.now) }
    ensures { OrMemory result (λ ranges. ranges.items ≡ map (λ row. (row, row + 1)) numbers.now) }
{
    let mut ranges = Vec::with_capacity(alloc, numbers.len())?;
    for place in 0..numbers.len() {
        let row = numbers[place];
        ranges.push((row, row + 1))?;
    }
    Ok(ranges)
}

// The values of the given rows of a tree, collected one by one: for types whose rows aren't flat.
#[tactic(auto, using(crate::proofs::RowsAt::fit_at))]
fn values_at(alloc: Global, array: &ArrayRef, numbers: &[u64]) -> VortexResult<ArrayRef>
    requires { IsTrue (list_all (λ row. nat_lt row (length (rows array.now))) numbers.now) }
    ensures { Answers result (plain (column (tree_type array.now) (map (row_at (rows array.now)) numbers.now))) }
{
    array.known();
    let mut values = Vec::with_capacity(alloc, numbers.len())?;
    for place in 0..numbers.len() {
        values.push(array.value_at(alloc, numbers[place])?)?;
    }
    ArrayRef::of_values(alloc, array.dtype(), values)
}
