//! The values of nested columns, out of those of structs and lists.

ghost use Rattle.std.specs.Prelude.{◌≡◌, ◌++◌, [], OnOk, IfErr, map, replicate};
ghost use Rattle.std.specs.Vec.Iter.{into_iter_items};
ghost use Rattle.vx_flat.specs.Columns.{columns_of, with_row};
ghost use Rattle.vx_base.specs.Answers.{OrMemory};
ghost use Rattle.vx_base.specs.PlainValue.{items_or_empty, of_list};
ghost use Rattle.vx_base.specs.TypeOf.{value_of};
ghost use Rattle.vx_base.specs.declared.error.VortexError.TheVariants.{NoMemory};
ghost use Rattle.vx_model.specs.Nested.{within, first_within, rest_within, list_rows, elements};
ghost use Rattle.vx_model.specs.Offsets.{offsets_of};

use std::alloc::Global;
use std::vec::IntoIter;
use vx_base::{Value, VortexResult};

/// One column of values for each of `count` fields of structs, null where a struct has fewer values. The values are moved;
/// NoMemory drops them.
pub fn field_columns(alloc: Global, count: u64, values: Vec<Value>) -> VortexResult<Vec<Vec<Value>>>
    ensures { OrMemory result (λ columns. map (λ column. map value_of column.items) columns.items ≡ columns_of count (map within (map value_of values.items))) }
{
    let mut columns = empty_columns(alloc, count, values.len())?;
    for value in values {
        push_row(&mut columns, field_row(alloc, value))?;
    }
    Ok(columns)
}

// `count` empty columns, each with room for `len` values.
fn empty_columns(alloc: Global, count: u64, len: usize) -> VortexResult<Vec<Vec<Value>>>
    ensures { OrMemory result (λ columns. map (λ column. map value_of column.items) columns.items ≡ replicate count []) }
{
    let mut columns = Vec::new(alloc);
    for _ in 0..count {
        columns.push(Vec::with_capacity(alloc, len)?)?;
    }
    Ok(columns)
}

// Adds a row, one value to each column, null where the row has fewer values than there are columns.
fn push_row(columns: &mut Vec<Vec<Value>>, row: Vec<Value>) -> VortexResult<()>
    ensures ok { OnOk result (map (λ column. map value_of column.items) columns.new.items ≡ with_row (map (λ column. map value_of column.items) columns.old.items) (of_list (map value_of row.items))) }
    ensures err { IfErr result (λ e. e ≡ NoMemory) }
{
    let mut values = row.into_iter();
    for place in 0..columns.len() {
        columns[place].push(next_or_null(&mut values))?;
    }
    Ok(())
}

// The next value, null where there is none.
fn next_or_null(values: &mut IntoIter<Value>) -> Value
    ensures first { value_of result ≡ first_within (of_list (map value_of (into_iter_items values.old))) }
    ensures rest { of_list (map value_of (into_iter_items values.new)) ≡ rest_within (of_list (map value_of (into_iter_items values.old))) }
{
    match values.next() {
        Some(value) => value,
        None => Value::Null,
    }
}

// The values of one struct's fields.
fn field_row(alloc: Global, value: Value) -> Vec<Value>
    ensures { of_list (map value_of result.items) ≡ within (value_of value) }
{
    value.into_values(alloc).into_vec()
}

/// All lists' items, concatenated, and the offsets between the lists; a null list has no items. The values are moved;
/// NoMemory drops them.
pub fn list_items(alloc: Global, values: Vec<Value>) -> VortexResult<(Vec<Value>, Vec<u64>)>
    ensures { OrMemory result (λ parts. (map value_of parts.0.items ≡ elements (map value_of values.items)) × (parts.1.items ≡ offsets_of (list_rows (map value_of values.items)))) }
{
    let mut items = Vec::new(alloc);
    let mut offsets = Vec::new(alloc);
    offsets.push(0)?;
    for value in values {
        push_items(alloc, &mut items, value)?;
        offsets.push(items.len() as u64)?;
    }
    Ok((items, offsets))
}

// Moves the values within a value to the end of `items`.
fn push_items(alloc: Global, items: &mut Vec<Value>, value: Value) -> VortexResult<()>
    ensures ok { OnOk result (map value_of items.new.items ≡ map value_of items.old.items ++ items_or_empty (value_of value)) }
    ensures err { IfErr result (λ e. e ≡ NoMemory) }
{
    for item in value.into_values(alloc).into_vec() {
        items.push(item)?;
    }
    Ok(())
}
