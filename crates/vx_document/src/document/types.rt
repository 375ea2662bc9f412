//! Reads a type from a text or an object.

ghost use Rattle.std.specs.Prelude.{option_map, option_and_then, codes};
ghost use Rattle.serde_json.specs.Data.{object};
ghost use Rattle.serde_json.specs.View.{view, items_view, members_view};
ghost use Rattle.vx_base.specs.TypeOf.{type_of, field_of, fields_of};
ghost use Rattle.vx_document.specs.Reading.{Gives, all_by};
ghost use Rattle.vx_document.specs.Types.{type_read, fields_in, field_read, structs_of, lists_of, fixed_lists_of, type_at, fields_at};

use crate::document::members::{has_member, has_only, pair_of, take_member};
use crate::document::named_types::type_named;
use crate::document::timestamps::read_timestamp;
use crate::document::type_parts::{read_nullability, read_size};
use crate::document::unread::Unread;
use serde_json::{Map, Value};
use std::alloc::Global;
use vx_base::{DType, Fields, Text};

// The type that a value of JSON names.
#[cycle(types)]
pub(crate) fn read_type(alloc: Global, value: Value) -> Result<DType, Unread>
    ensures { Gives type_of result (type_read (view value)) }
{
    match value {
        Value::String(text) => type_named(text.as_str()).ok_or(Unread::BadDocument),
        Value::Object(map) => read_object(alloc, map),
        _ => Err(Unread::BadDocument),
    }
}

// The type that an object names, by the key that it has.
#[cycle(types)]
fn read_object(alloc: Global, map: Map<String, Value>) -> Result<DType, Unread>
    ensures { Gives type_of result (type_read (object (members_view map.entries))) }
{
    if has_member(&map, "struct") {
        return read_structs(alloc, map);
    }
    if has_member(&map, "list") {
        return read_lists(alloc, map);
    }
    if has_member(&map, "fixed") {
        return read_fixed_lists(alloc, map);
    }
    read_timestamp(map)
}

// A type of structs.
#[cycle(types)]
#[tactic(auto, using(crate::proofs::DocumentTypes::keyed))]
fn read_structs(alloc: Global, mut map: Map<String, Value>) -> Result<DType, Unread>
    ensures { Gives type_of result (structs_of (members_view map.entries) (fields_at (codes "struct") (members_view map.entries))) }
{
    if !has_only(&map, &["struct", "nullable"]) {
        return Err(Unread::BadDocument);
    }
    let fields = read_fields(alloc, take_member(&mut map, "struct"))?;
    let nullability = read_nullability(take_member(&mut map, "nullable"))?;
    Ok(DType::structure(fields, nullability))
}

// A type of lists.
#[cycle(types)]
#[tactic(auto, using(crate::proofs::DocumentTypes::keyed))]
fn read_lists(alloc: Global, mut map: Map<String, Value>) -> Result<DType, Unread>
    ensures { Gives type_of result (lists_of (members_view map.entries) (type_at (codes "list") (members_view map.entries))) }
{
    if !has_only(&map, &["list", "nullable"]) {
        return Err(Unread::BadDocument);
    }
    let items = read_items(alloc, take_member(&mut map, "list"))?;
    let nullability = read_nullability(take_member(&mut map, "nullable"))?;
    Ok(DType::list(items, nullability))
}

// A type of fixed-size lists.
#[cycle(types)]
#[tactic(auto, using(crate::proofs::DocumentTypes::keyed))]
fn read_fixed_lists(alloc: Global, mut map: Map<String, Value>) -> Result<DType, Unread>
    ensures { Gives type_of result (fixed_lists_of (members_view map.entries) (type_at (codes "fixed") (members_view map.entries))) }
{
    if !has_only(&map, &["fixed", "size", "nullable"]) {
        return Err(Unread::BadDocument);
    }
    let items = read_items(alloc, take_member(&mut map, "fixed"))?;
    let size = read_size(take_member(&mut map, "size"))?;
    let nullability = read_nullability(take_member(&mut map, "nullable"))?;
    Ok(DType::fixed_size_list(items, size, nullability))
}

// The type of the items of lists.
#[cycle(types)]
fn read_items(alloc: Global, value: Option<Value>) -> Result<Box<DType>, Unread>
    ensures { Gives (λ items. type_of items.value) result (option_and_then type_read (option_map view value)) }
{
    let Some(value) = value else {
        return Err(Unread::BadDocument);
    };
    let items = read_type(alloc, value)?;
    Ok(Box::new(alloc, items)?)
}

// The fields of a struct type, from a list of pairs.
#[cycle(types)]
fn read_fields(alloc: Global, value: Option<Value>) -> Result<Fields, Unread>
    ensures { Gives fields_of result (option_and_then fields_in (option_map view value)) }
{
    let Some(value) = value else {
        return Err(Unread::BadDocument);
    };
    match value {
        Value::Array(list) => read_field_list(alloc, list),
        _ => Err(Unread::BadDocument),
    }
}

// The fields, one for each item of the list.
#[cycle(types)]
fn read_field_list(alloc: Global, list: Vec<Value>) -> Result<Fields, Unread>
    ensures { Gives fields_of result (all_by field_read (items_view list.items)) }
{
    let mut fields = Vec::with_capacity(alloc, list.len())?;
    for value in list {
        fields.push(read_field(alloc, value)?)?;
    }
    Ok(Fields::from_vec(fields))
}

// A field: a pair of its name and its type.
#[cycle(types)]
fn read_field(alloc: Global, value: Value) -> Result<(Text, DType), Unread>
    ensures { Gives field_of result (field_read (view value)) }
{
    let Value::Array(list) = value else {
        return Err(Unread::BadDocument);
    };
    let Some((name, dtype)) = pair_of(list) else {
        return Err(Unread::BadDocument);
    };
    let Value::String(name) = name else {
        return Err(Unread::BadDocument);
    };
    let dtype = read_type(alloc, dtype)?;
    Ok((Text::from_string(name), dtype))
}
