//! Values with a fill in place of nulls.

ghost use Rattle.std.specs.List.{list_all};
ghost use Rattle.std.specs.Prelude.{◌≡◌, ◌<◌, ◌==◌, ◌||◌, IsTrue, length, map, replicate};
ghost use Rattle.vx_base.specs.Answers.{OrMemory};
ghost use Rattle.vx_base.specs.CellValue.{cell_value};
ghost use Rattle.vx_base.specs.Defaults.{or_default};
ghost use Rattle.vx_base.specs.PlainScalar.{fits};
ghost use Rattle.vx_base.specs.PlainValue.{is_null};
ghost use Rattle.vx_base.specs.TypeOf.{value_of};
ghost use Rattle.vx_model.specs.Column.{column, column_of};
ghost use Rattle.vx_model.specs.Rows.{rows, row_at};
ghost use Rattle.vx_rows.specs.Readable.{is_whole, lent_rows};

use crate::lent::Lent;
use std::alloc::Global;
use vx_array::ArrayRef;
use vx_base::{Cell, Scalar, Value, VortexResult};

// `fill_null` of one value in every row, as a constant.
pub(super) fn filled_same(
    alloc: Global,
    value: Cell<'_>,
    len: u64,
    fill: &Scalar,
) -> VortexResult<ArrayRef>
    requires { IsTrue (list_all (fits fill.now.dtype) (map (or_default fill.now.value) (replicate len (cell_value value)))) }
    ensures { OrMemory result (λ out. column_of out ≡ column fill.now.dtype (map (or_default fill.now.value) (replicate len (cell_value value.entry)))) }
{
    if is_filled(value, len) {
        return Ok(ArrayRef::constant(fill.copy(alloc)?, len));
    }
    let scalar = Scalar::of_cell(alloc, fill.dtype(), value)?;
    Ok(ArrayRef::constant(scalar, len))
}

// Whether one value in every row gives way to a fill: it is null, or there are no rows.
fn is_filled(value: Cell<'_>, len: u64) -> bool
    ensures { result ≡ (is_null (cell_value value.entry) || len == 0) }
{
    value.is_null() || len == 0
}

// The values of flat rows, the fill of null.
pub(super) fn cells_or(alloc: Global, rows: Lent<'_>, fill: &Scalar) -> VortexResult<Vec<Value>>
    requires { IsTrue (is_whole rows) }
    ensures { OrMemory result (λ out. map value_of out.items ≡ map (or_default fill.now.value) (lent_rows rows.entry)) }
{
    let len = rows.len();
    let mut values = Vec::with_capacity(alloc, len as usize)?;
    for row in 0..len {
        values.push(cell_or(alloc, rows.cell(row), fill)?)?;
    }
    Ok(values)
}

// A cell's value, the fill of null.
fn cell_or(alloc: Global, cell: Cell<'_>, fill: &Scalar) -> VortexResult<Value>
    ensures { OrMemory result (λ value. value_of value ≡ or_default fill.now.value (cell_value cell.entry)) }
{
    if cell.is_null() {
        fill.value().copy(alloc)
    } else {
        cell.to_value(alloc)
    }
}

// The values of any rows, the fill of null.
pub(super) fn values_or(alloc: Global, array: &ArrayRef, fill: &Scalar) -> VortexResult<Vec<Value>>
    ensures { OrMemory result (λ out. map value_of out.items ≡ map (or_default fill.now.value) (rows array.now)) }
{
    let plain = array.canonical(alloc)?;
    plain_values_or(alloc, &plain, fill)
}

// `values_or` of a tree that is decoded already.
fn plain_values_or(alloc: Global, tree: &ArrayRef, fill: &Scalar) -> VortexResult<Vec<Value>>
    ensures { OrMemory result (λ out. map value_of out.items ≡ map (or_default fill.now.value) (rows tree.now)) }
{
    let len = tree.len();
    let mut values = Vec::with_capacity(alloc, len as usize)?;
    for row in 0..len {
        values.push(value_or(alloc, tree, row, fill)?)?;
    }
    Ok(values)
}

// A row's value, the fill of null.
fn value_or(alloc: Global, tree: &ArrayRef, row: u64, fill: &Scalar) -> VortexResult<Value>
    requires { row < length (rows tree.now) }
    ensures { OrMemory result (λ value. value_of value ≡ or_default fill.now.value (row_at (rows tree.now) row)) }
{
    if tree.is_null_at(row) {
        fill.value().copy(alloc)
    } else {
        tree.value_at(alloc, row)
    }
}
