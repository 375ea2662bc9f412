//! The writer of types.

ghost use Rattle.std.specs.Prelude.{◌≡◌, ◌≤◌, ◌++◌, ◌∷◌, OnOk};
ghost use Rattle.vx_base.specs.PlainType.{of_fields};
ghost use Rattle.vx_base.specs.TypeOf.{type_of, fields_of};
ghost use Rattle.vx_spelling.specs.Fields.{name, nullability};
ghost use Rattle.vx_spelling.specs.TypeSpelling.{field_types_body, field_types_depth, type_depth, type_text};

use super::fields::{put_kind, put_name, put_nullability, put_ptype};
use std::alloc::AllocError;
use vx_base::{DType, Fields, Nullability, Text};
use vx_codec::{put_byte, put_varint};

// Appends the byte of a kind of types, and the nullability.
fn put_head(out: &mut Vec<u8>, kind: u8, nulls: Nullability) -> Result<(), AllocError>
    ensures { OnOk result (out.new.items ≡ out.old.items ++ kind ∷ nullability.spell nulls) }
{
    put_byte(out, kind)?;
    put_nullability(out, nulls)
}

/// Appends a type in which at most `limit` types nest.
#[cycle(put_type)]
pub(super) fn put_type(out: &mut Vec<u8>, dtype: &DType, limit: u8) -> Result<(), AllocError>
    requires { type_depth (type_of dtype.now) ≤ limit }
    ensures { OnOk result (out.new.items ≡ out.old.items ++ type_text (type_of dtype.now)) }
{
    match dtype {
        DType::Null => put_byte(out, 0),
        DType::Bool(nullability) => put_head(out, 1, *nullability),
        DType::Primitive(ptype, nullability) => {
            put_head(out, 2, *nullability)?;
            put_ptype(out, *ptype)
        }
        DType::Utf8(nullability) => put_head(out, 3, *nullability),
        DType::Binary(nullability) => put_head(out, 4, *nullability),
        DType::Timestamp(kind, nullability) => {
            put_head(out, 5, *nullability)?;
            put_kind(out, kind)
        }
        DType::Struct(fields, nullability) => {
            put_head(out, 6, *nullability)?;
            put_varint(out, fields.len())?;
            put_fields(out, fields, limit - 1)
        }
        DType::List(items, nullability) => {
            put_head(out, 7, *nullability)?;
            put_type(out, items, limit - 1)
        }
        DType::FixedSizeList(items, size, nullability) => {
            put_head(out, 8, *nullability)?;
            put_varint(out, u64::from(*size))?;
            put_type(out, items, limit - 1)
        }
    }
}

// Appends the name and the type of a field.
#[cycle(put_type)]
fn put_field(out: &mut Vec<u8>, field: &(Text, DType), limit: u8) -> Result<(), AllocError>
    requires { type_depth (type_of field.now.1) ≤ limit }
    ensures { OnOk result (out.new.items ≡ out.old.items ++ (name.spell field.now.0 ++ type_text (type_of field.now.1))) }
{
    put_name(out, &field.0)?;
    put_type(out, &field.1, limit)
}

// Appends each field.
#[cycle(put_type)]
fn put_fields(out: &mut Vec<u8>, fields: &Fields, limit: u8) -> Result<(), AllocError>
    requires { field_types_depth (of_fields (fields_of fields.now)) ≤ limit }
    ensures { OnOk result (out.new.items ≡ out.old.items ++ field_types_body (of_fields (fields_of fields.now))) }
{
    for field in fields.as_slice() {
        put_field(out, field, limit)?;
    }
    Ok(())
}
