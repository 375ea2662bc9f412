//! Reads rows of any type as values, row by row.

ghost use Rattle.std.specs.Prelude.{◌≡◌, false, is_some, map, option_map};
ghost use Rattle.serde_json.specs.Data.{null};
ghost use Rattle.serde_json.specs.Find.{as_null, as_array};
ghost use Rattle.serde_json.specs.View.{view, items_view};
ghost use Rattle.vx_base.specs.declared.dtype.Nullability.TheVariants.{NonNullable};
ghost use Rattle.vx_base.specs.PlainType.{primitive};
ghost use Rattle.vx_base.specs.TypeOf.{type_of, value_of, fields_of};
ghost use Rattle.vx_document.specs.Reading.{Gives, all_by};
ghost use Rattle.vx_document.specs.RowsOf.{row_of, field_rows, struct_row, list_row, fixed_list_row};

use crate::document::kinds::{Binaries, Kind, Texts, Truths, Wholes};
use crate::document::unread::Unread;
use serde_json::Value as Json;
use std::alloc::Global;
use vx_base::{DType, Fields, PType, Value, Values};

/// A row of a type, of the value of JSON that stands for it in a document. Refuses BadDocument exactly where it is none, and
/// NoMemory where memory runs out.
pub fn read_row(alloc: Global, json: Json, dtype: &DType) -> Result<Value, Unread>
    ensures { Gives value_of result (row_of (type_of dtype.now) (view json)) }
{
    read_cell(alloc, json, dtype)
}

// A row of the type.
#[cycle(cell)]
fn read_cell(alloc: Global, json: Json, dtype: &DType) -> Result<Value, Unread>
    ensures { Gives value_of result (row_of (type_of dtype.now) (view json)) }
{
    if json.is_null() {
        return read_null(dtype);
    }
    match dtype {
        DType::Null => Err(Unread::BadDocument),
        DType::Bool(_) => read_item::<Truths>(alloc, json),
        DType::Primitive(ptype, _) => read_whole(alloc, json, *ptype),
        DType::Utf8(_) => read_item::<Texts>(alloc, json),
        DType::Binary(_) => read_item::<Binaries>(alloc, json),
        DType::Timestamp(_, _) => read_whole(alloc, json, PType::I64),
        DType::Struct(fields, _) => read_struct(alloc, json, fields),
        DType::List(items, _) => read_list(alloc, json, items),
        DType::FixedSizeList(items, size, _) => read_fixed_list(alloc, json, items, *size),
    }
}

// A null, refused where the type is not nullable.
fn read_null(dtype: &DType) -> Result<Value, Unread>
    ensures { Gives value_of result (row_of (type_of dtype.now) null) }
{
    if dtype.is_nullable() {
        Ok(Value::Null)
    } else {
        Err(Unread::BadDocument)
    }
}

// A row of a leaf type that isn't null.
fn read_item<K: Kind>(alloc: Global, json: Json) -> Result<Value, Unread>
    ensures { Gives value_of result (row_of K.dtype (view json)) }
{
    Ok(K::into_value(K::read(alloc, json)?))
}

// A row of an integer type that isn't null.
fn read_whole(alloc: Global, json: Json, ptype: PType) -> Result<Value, Unread>
    ensures { Gives value_of result (row_of (primitive ptype NonNullable) (view json)) }
{
    match ptype {
        PType::U8 => read_item::<Wholes<u8>>(alloc, json),
        PType::U16 => read_item::<Wholes<u16>>(alloc, json),
        PType::U32 => read_item::<Wholes<u32>>(alloc, json),
        PType::U64 => read_item::<Wholes<u64>>(alloc, json),
        PType::I8 => read_item::<Wholes<i8>>(alloc, json),
        PType::I16 => read_item::<Wholes<i16>>(alloc, json),
        PType::I32 => read_item::<Wholes<i32>>(alloc, json),
        PType::I64 => read_item::<Wholes<i64>>(alloc, json),
    }
}

// The items of a list.
fn list_of(json: Json) -> Result<Vec<Json>, Unread>
    ensures { Gives (λ list. items_view list.items) result (as_array (view json)) }
{
    match json {
        Json::Array(list) => Ok(list),
        _ => Err(Unread::BadDocument),
    }
}

// A struct: a list of one value for each field.
#[cycle(cell)]
fn read_struct(alloc: Global, json: Json, fields: &Fields) -> Result<Value, Unread>
    ensures { Gives value_of result (struct_row (fields_of fields.now) (view json)) }
{
    let values = read_fields(alloc, list_of(json)?, fields)?;
    Ok(Value::List(Values::from_vec(values)))
}

// A list: its values in a list.
#[cycle(cell)]
fn read_list(alloc: Global, json: Json, items: &DType) -> Result<Value, Unread>
    ensures { Gives value_of result (list_row (type_of items.now) (view json)) }
{
    let values = read_cells(alloc, list_of(json)?, items)?;
    Ok(Value::List(Values::from_vec(values)))
}

// A list of `size` values.
#[cycle(cell)]
fn read_fixed_list(alloc: Global, json: Json, items: &DType, size: u32) -> Result<Value, Unread>
    ensures { Gives value_of result (fixed_list_row (type_of items.now) size (view json)) }
{
    let list = list_of(json)?;
    if list.len() as u64 != size as u64 {
        return Err(Unread::BadDocument);
    }
    let values = read_cells(alloc, list, items)?;
    Ok(Value::List(Values::from_vec(values)))
}

// A value for each field, by its type.
#[cycle(cell)]
fn read_fields(alloc: Global, list: Vec<Json>, fields: &Fields) -> Result<Vec<Value>, Unread>
    ensures { Gives (λ values. map value_of values.items) result (field_rows (fields_of fields.now) (items_view list.items)) }
{
    let parts = fields.as_slice();
    if list.len() != parts.len() {
        return Err(Unread::BadDocument);
    }
    let mut values = Vec::with_capacity(alloc, list.len())?;
    for json in list {
        let field = &parts[values.len()];
        values.push(read_cell(alloc, json, &field.1)?)?;
    }
    Ok(values)
}

// The rows of a list. Each value of JSON is dropped as it is read.
#[cycle(cell)]
pub(crate) fn read_cells(
    alloc: Global,
    list: Vec<Json>,
    dtype: &DType,
) -> Result<Vec<Value>, Unread>
    ensures { Gives (λ values. map value_of values.items) result (all_by (row_of (type_of dtype.now)) (items_view list.items)) }
{
    let mut values = Vec::with_capacity(alloc, list.len())?;
    for json in list {
        values.push(read_cell(alloc, json, dtype)?)?;
    }
    Ok(values)
}
