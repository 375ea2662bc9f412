//! Types as JSON, as a document has them.

ghost use Rattle.std.specs.Prelude.{◌≡◌, ◌++◌, OnOk, Some, codes};
ghost use Rattle.json.specs.Print.{quoted};
ghost use Rattle.vx_base.specs.PlainType.{of_fields, structure};
ghost use Rattle.vx_base.specs.TypeOf.{fields_of, type_of};
ghost use Rattle.vx_document.specs.CappedText.{put};
ghost use Rattle.vx_document.specs.Writing.{fields_json, named_type, nullable_member, timestamp_type, type_json};

use crate::writing::capped_text::CappedText;
use crate::writing::cells::push_quoted;
use itoa::Buffer;
use std::alloc::{AllocError, Global};
use vx_base::{DType, Fields, Nullability, Text, TimestampType};

// Appends a type by its name.
fn push_named(alloc: Global, text: &mut CappedText, dtype: &DType) -> Result<(), AllocError>
    ensures { OnOk result (text.new ≡ put text.old (named_type (type_of dtype.now))) }
{
    let name = format!(in alloc; "\"{dtype}\"")?;
    text.push(name.as_str())
}

// Appends the member that makes an object's type nullable, and closes the object.
fn push_end(text: &mut CappedText, nullability: Nullability) -> Result<(), AllocError>
    ensures { OnOk result (text.new ≡ put text.old (nullable_member nullability ++ codes "}")) }
{
    match nullability {
        Nullability::NonNullable => text.push("}"),
        Nullability::Nullable => text.push(",\"nullable\":true}"),
    }
}

// Appends a type of timestamps with a zone, as an object.
fn push_zoned(
    alloc: Global,
    text: &mut CappedText,
    kind: &TimestampType,
    zone: &Text,
    nullability: Nullability,
) -> Result<(), AllocError>
    requires { kind.now.zone ≡ Some zone.now }
    ensures { OnOk result (text.new ≡ put text.old (timestamp_type kind.now.unit kind.now.zone nullability)) }
{
    text.push("{\"timestamp\":\"")?;
    text.push(kind.unit().name())?;
    text.push("\",\"zone\":")?;
    push_quoted(alloc, text, zone.as_str())?;
    push_end(text, nullability)
}

/// Appends a type: its name, where it has one, else an object.
#[cycle(types)]
#[tactic(auto, using(vx_base::proofs::FallLemmas::falls))]
pub(super) fn push_type(
    alloc: Global,
    text: &mut CappedText,
    dtype: &DType,
) -> Result<(), AllocError>
    ensures { OnOk result (text.new ≡ put text.old (type_json (type_of dtype.now))) }
{
    match dtype {
        DType::Struct(fields, nullability) => push_structs(alloc, text, fields, *nullability),
        DType::List(items, nullability) => {
            text.push("{\"list\":")?;
            push_type(alloc, text, items)?;
            push_end(text, *nullability)
        }
        DType::FixedSizeList(items, size, nullability) => {
            text.push("{\"fixed\":")?;
            push_type(alloc, text, items)?;
            text.push(",\"size\":")?;
            text.push(Buffer::new().format(*size))?;
            push_end(text, *nullability)
        }
        DType::Timestamp(kind, nullability) => match kind.zone() {
            Some(zone) => push_zoned(alloc, text, kind, zone, *nullability),
            None => push_named(alloc, text, dtype),
        },
        _ => push_named(alloc, text, dtype),
    }
}

// Appends a type of structs.
#[cycle(types)]
#[tactic(auto, using(vx_base::proofs::FallLemmas::falls))]
fn push_structs(
    alloc: Global,
    text: &mut CappedText,
    fields: &Fields,
    nullability: Nullability,
) -> Result<(), AllocError>
    ensures { OnOk result (text.new ≡ put text.old (type_json (structure (of_fields (fields_of fields.now)) nullability))) }
{
    text.push("{\"struct\":[")?;
    let mut before = "";
    for field in fields.as_slice() {
        text.push(before)?;
        push_field(alloc, text, field)?;
        before = ",";
    }
    text.push("]")?;
    push_end(text, nullability)
}

// Appends a field: a pair of its name and its type.
#[cycle(types)]
#[tactic(auto, using(vx_base::proofs::FallLemmas::falls))]
fn push_field(alloc: Global, text: &mut CappedText, field: &(Text, DType)) -> Result<(), AllocError>
    ensures { OnOk result (text.new ≡ put text.old (codes "[" ++ quoted field.now.0 ++ codes "," ++ type_json (type_of field.now.1) ++ codes "]")) }
{
    text.push("[")?;
    push_quoted(alloc, text, field.0.as_str())?;
    text.push(",")?;
    push_type(alloc, text, &field.1)?;
    text.push("]")
}
