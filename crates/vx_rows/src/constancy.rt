//! Whether all rows of a column are equal.

ghost use Rattle.std.specs.List.{list_all};
ghost use Rattle.std.specs.Prelude.{◌≡◌, ◌<◌, ◌↔◌, ◌||◌, ◌++◌, IsTrue, false, length, not, replicate, slice_index_or};
ghost use Rattle.vx_base.specs.Answers.{Answers};
ghost use Rattle.vx_base.specs.CellValue.{cell_value};
ghost use Rattle.vx_base.specs.PlainType.{is_flat};
ghost use Rattle.vx_base.specs.PlainValue.{null, same_value};
ghost use Rattle.vx_base.specs.TypeOf.{value_of};
ghost use Rattle.vx_model.specs.Column.{column_of};
ghost use Rattle.vx_model.specs.Rows.{row_at, rows};
ghost use Rattle.vx_model.specs.Tree.{dict};
ghost use Rattle.vx_model.specs.TreeType.{tree_type};
ghost use Rattle.vx_rows.specs.Extremes.{valid_items};
ghost use Rattle.vx_rows.specs.Readable.{is_whole, lent_rows};
ghost use Rattle.vx_rules.specs.Aggregates.{all_equal, is_constant};

use crate::held::readable;
use crate::lent::{Lent, rows_of};
use crate::used::{Used, used_by};
use std::alloc::Global;
use vx_array::{ArrayRef, Node};
use vx_base::{Cell, ExecutionCtx, Mask, Value, VortexResult};

/// Whether there is a row, and all are equal; null is equal to null. Of every type; nested rows are compared value by value, and of a
/// dictionary the values that its codes name. Refuses NoMemory alone.
pub fn is_constant(array: &ArrayRef, ctx: &mut ExecutionCtx) -> VortexResult<bool>
    ensures answer { Answers result (is_constant (column_of array.now)) }
    ensures ctx { ctx.new ≡ ctx.old }
{
    constancy(ctx.alloc(), array)
}

// `is_constant` by the root.
#[tactic(auto, using(crate::proofs::ConstantLemmas::same_rows))]
fn constancy(alloc: Global, array: &ArrayRef) -> VortexResult<bool>
    ensures { Answers result (is_constant (column_of array.now)) }
{
    match array.node() {
        Node::Constant(_, len) => Ok(*len > 0),
        Node::Null(len) => Ok(*len > 0),
        Node::Dict(codes, values) => dict_is_constant(alloc, array, &codes.array, &values.array),
        _ if array.dtype().is_flat() => flat_is_constant(alloc, array),
        _ => nested_is_constant(alloc, array),
    }
}

// `is_constant` of a flat type.
fn flat_is_constant(alloc: Global, array: &ArrayRef) -> VortexResult<bool>
    requires { IsTrue (is_flat (tree_type array.now)) }
    ensures { Answers result (is_constant (column_of array.now)) }
{
    let read = readable(alloc, array)?;
    let rows = rows_of(&read);
    Ok(are_equal(rows))
}

// `is_constant` of a dictionary: each value that its codes name, and null if a code is, is compared with the first row.
fn dict_is_constant(
    alloc: Global,
    array: &ArrayRef,
    codes: &ArrayRef,
    values: &ArrayRef,
) -> VortexResult<bool>
    requires { array.now ≡ dict codes.now values.now }
    ensures { Answers result (is_constant (column_of array.now)) }
{
    if array.len() == 0 {
        return Ok(false);
    }
    array.known();
    let found = used_by(alloc, codes, values.len())?;
    match found {
        Some(used) => used_are(alloc, array.cell_at(0), values, &used),
        None => flat_is_constant(alloc, array),
    }
}

// Whether every value that a code names is this one, and null too if a code is null.
fn used_are(alloc: Global, value: Cell<'_>, values: &ArrayRef, used: &Used) -> VortexResult<bool>
    requires flat { IsTrue (is_flat (tree_type values.now)) }
    requires long { length used.now.named ≡ length (rows values.now) }
    ensures { Answers result (list_all (same_value (cell_value value.entry)) (replicate used.now.nulls null ++ valid_items used.now.named (rows values.now))) }
{
    if !nulls_are(value, used.nulls) {
        return Ok(false);
    }
    let read = readable(alloc, values)?;
    let rows = rows_of(&read);
    Ok(named_are(value, rows, &used.named))
}

// Whether the value is null, or there are no nulls.
fn nulls_are(value: Cell<'_>, nulls: u64) -> bool
    ensures { result ≡ list_all (same_value (cell_value value.entry)) (replicate nulls null) }
{
    nulls == 0 || value.is_null()
}

// Whether each row whose bit is true has this value.
fn named_are(value: Cell<'_>, rows: Lent<'_>, named: &Mask) -> bool
    requires whole { IsTrue (is_whole rows) }
    requires long { length named.now ≡ length (lent_rows rows) }
    ensures { result ≡ list_all (same_value (cell_value value.entry)) (valid_items named.now (lent_rows rows.entry)) }
{
    let len = rows.len();
    let mut equal = true;
    for row in 0..len {
        equal &= is_if_named(value, rows, named, row);
    }
    equal
}

// Whether a row has this value, or its bit is false.
fn is_if_named(value: Cell<'_>, rows: Lent<'_>, named: &Mask, row: u64) -> bool
    requires whole { IsTrue (is_whole rows) }
    requires in_range { row < length (lent_rows rows) }
    ensures { result ≡ (not (slice_index_or named.now row false) || same_value (cell_value value.entry) (row_at (lent_rows rows.entry) row)) }
{
    !named.is_set(row) || has_cell(value, rows.cell(row))
}

// `same_cell`, by the word of the definitions.
fn has_cell(left: Cell<'_>, right: Cell<'_>) -> bool
    ensures { result ≡ same_value (cell_value left.entry) (cell_value right.entry) }
{
    same_cell(left, right)
}

// Whether there is a row, and all are equal, cell by cell.
fn are_equal(rows: Lent<'_>) -> bool
    requires { IsTrue (is_whole rows) }
    ensures { result ≡ all_equal (lent_rows rows.entry) }
{
    let len = rows.len();
    if len == 0 {
        return false;
    }
    let first = rows.cell(0);
    for row in 1..len {
        if !same_cell(first, rows.cell(row)) {
            return false;
        }
    }
    true
}

// Whether two cells are equal.
fn same_cell(left: Cell<'_>, right: Cell<'_>) -> bool
    ensures { IsTrue result ↔ (cell_value left.entry ≡ cell_value right.entry) }
{
    match (left, right) {
        (Cell::Null, Cell::Null) => true,
        (Cell::Bool(left), Cell::Bool(right)) => left == right,
        (Cell::Int(left), Cell::Int(right)) => left == right,
        (Cell::Bytes(left), Cell::Bytes(right)) => left == right,
        _ => false,
    }
}

// `is_constant` of any type, by the plain tree.
fn nested_is_constant(alloc: Global, array: &ArrayRef) -> VortexResult<bool>
    ensures { Answers result (is_constant (column_of array.now)) }
{
    let plain = array.canonical(alloc)?;
    values_are_equal(alloc, &plain)
}

// Whether there is a row, and all are equal, value by value.
fn values_are_equal(alloc: Global, tree: &ArrayRef) -> VortexResult<bool>
    ensures { Answers result (all_equal (rows tree.now)) }
{
    let len = tree.len();
    if len == 0 {
        return Ok(false);
    }
    let first = tree.value_at(alloc, 0)?;
    for row in 1..len {
        let equal = has_value(alloc, tree, row, &first)?;
        if !equal {
            return Ok(false);
        }
    }
    Ok(true)
}

// Whether a row has this value.
fn has_value(alloc: Global, tree: &ArrayRef, row: u64, value: &Value) -> VortexResult<bool>
    requires { row < length (rows tree.now) }
    ensures { Answers result (same_value (value_of value.now) (row_at (rows tree.now) row)) }
{
    let own = tree.value_at(alloc, row)?;
    Ok(*value == own)
}
