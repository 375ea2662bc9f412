//! Few rows of a long encoded column, each found by itself: the others aren't decoded.

ghost use Rattle.std.specs.List.{list_all};
ghost use Rattle.std.specs.Prelude.{◌≡◌, ◌/◌, IsTrue, length, map, nat_lt, true};
ghost use Rattle.vx_base.specs.Answers.{OrMemory};
ghost use Rattle.vx_base.specs.CellValue.{cell_value};
ghost use Rattle.vx_base.specs.Masks.{is_part, rows_between};
ghost use Rattle.vx_base.specs.PlainValue.{int};
ghost use Rattle.vx_base.specs.TypeOf.{value_of};
ghost use Rattle.vx_model.specs.Column.{column_of};
ghost use Rattle.vx_model.specs.Refusals.{validity_length};
ghost use Rattle.vx_model.specs.Rows.{looked_up, rows, valid_rows};
ghost use Rattle.vx_model.specs.Tree.{primitive};
ghost use Rattle.vx_model.specs.WellFormed.{WellFormed, is_place};
ghost use Rattle.vx_rules.specs.Selections.{sliced, taken};
ghost use Rattle.vx_values.specs.IntsOf.{ptype_of, wholes_of};

use std::alloc::Global;
use vx_array::ArrayRef;
use vx_base::{Cell, Mask, Nullability, Value, VortexResult};
use vx_flat::primitive_at;
use vx_values::Ints;

// By estimate a row that is found by itself takes some tens of times as long as one of a column that is decoded as a whole.
const DECODED_A_ROW: u64 = 64;

/// Whether so few rows are wanted that it takes longer to decode all.
pub(crate) fn are_few(wanted: u64, len: u64) -> bool
    ensures { result ≡ nat_lt wanted (len / 64) }
{
    wanted < len / DECODED_A_ROW
}

/// The rows `start` to `end - 1`.
pub(crate) fn part_by_rows(
    alloc: Global,
    tree: &ArrayRef,
    start: u64,
    end: u64,
) -> VortexResult<ArrayRef>
    requires { IsTrue (is_part (length (rows tree.now)) start end) }
    ensures { OrMemory result (λ out. column_of out ≡ sliced (column_of tree.now) start end) }
{
    tree.known();
    let values = values_between(alloc, tree, start, end)?;
    ArrayRef::of_values(alloc, tree.dtype(), values)
}

// The values in the rows `start` to `end - 1`.
fn values_between(alloc: Global, tree: &ArrayRef, start: u64, end: u64) -> VortexResult<Vec<Value>>
    requires { IsTrue (is_part (length (rows tree.now)) start end) }
    ensures { OrMemory result (λ values. map value_of values.items ≡ rows_between (rows tree.now) start end) }
{
    let mut values = Vec::new(alloc);
    for row in start..end {
        let value = tree.value_at(alloc, row)?;
        values.push(value)?;
    }
    Ok(values)
}

/// For each code the row with that number, null where the code is null.
pub(crate) fn taken_by_rows(
    alloc: Global,
    tree: &ArrayRef,
    codes: &Ints,
    valid: &Option<Mask>,
    nulls: Nullability,
) -> VortexResult<ArrayRef>
    requires well { WellFormed (primitive (ptype_of codes.now) (wholes_of codes.now) valid.now nulls) }
    requires places { IsTrue (list_all (is_place (length (rows tree.now))) (rows (primitive (ptype_of codes.now) (wholes_of codes.now) valid.now nulls))) }
    ensures { OrMemory result (λ out. column_of out ≡ taken (column_of tree.now) (column_of (primitive (ptype_of codes.now) (wholes_of codes.now) valid.now nulls))) }
{
    tree.known();
    let dtype = tree.dtype();
    let wide = dtype.with_nullability(alloc, dtype.nullability().or(nulls))?;
    let values = values_at(alloc, tree, codes, valid)?;
    ArrayRef::of_values(alloc, &wide, values)
}

// The value in the row of each code, null of a null code.
fn values_at(
    alloc: Global,
    tree: &ArrayRef,
    codes: &Ints,
    valid: &Option<Mask>,
) -> VortexResult<Vec<Value>>
    requires whole { validity_length valid.now (length (wholes_of codes.now)) ≡ true }
    requires places { IsTrue (list_all (is_place (length (rows tree.now))) (valid_rows valid.now (map int (wholes_of codes.now)))) }
    ensures { OrMemory result (λ values. map value_of values.items ≡ map (looked_up (rows tree.now)) (valid_rows valid.now (map int (wholes_of codes.now)))) }
{
    let mut values = Vec::new(alloc);
    for row in 0..codes.len() {
        let value = value_of_code(alloc, tree, primitive_at(codes, valid, row))?;
        values.push(value)?;
    }
    Ok(values)
}

// The value in the row of a code, null of a null code.
fn value_of_code(alloc: Global, tree: &ArrayRef, code: Cell<'_>) -> VortexResult<Value>
    requires { IsTrue (is_place (length (rows tree.now)) (cell_value code)) }
    ensures { OrMemory result (λ value. value_of value ≡ looked_up (rows tree.now) (cell_value code.entry)) }
{
    let _places = tree.len();
    match code {
        Cell::Int(place) => tree.value_at(alloc, place as u64),
        Cell::Null | Cell::Bool(_) | Cell::Bytes(_) => Ok(Value::Null),
    }
}
