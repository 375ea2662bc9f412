//! The writer of values and of scalars.

ghost use Rattle.std.specs.Prelude.{◌≡◌, ◌≤◌, ◌++◌, IsTrue, OnOk};
ghost use Rattle.vx_base.specs.PlainScalar.{fields_fit, fits, items_fit};
ghost use Rattle.vx_base.specs.PlainType.{of_fields};
ghost use Rattle.vx_base.specs.PlainValue.{of_list};
ghost use Rattle.vx_base.specs.TypeOf.{type_of, fields_of, value_of};
ghost use Rattle.vx_file.specs.Writing.{content_text};
ghost use Rattle.vx_spelling.specs.TypeSpelling.{field_types_depth, type_depth};
ghost use Rattle.vx_spelling.specs.ValueSpelling.{each_field_text, each_text, scalar_parts, value_text};

use super::fields::put_truth;
use super::integers::put_integer;
use super::types::put_type;
use crate::nesting::MOST_TYPES;
use std::alloc::AllocError;
use vx_base::{DType, Fields, PType, Scalar, Value, Values};
use vx_codec::{put_byte, put_delimited, put_varint};

/// Appends a scalar in whose type at most 64 types nest: the type and the value.
pub(super) fn put_scalar(out: &mut Vec<u8>, scalar: &Scalar) -> Result<(), AllocError>
    requires { type_depth scalar.now.dtype ≤ 64 }
    ensures { OnOk result (out.new.items ≡ out.old.items ++ scalar_parts.spell (scalar.now.dtype, scalar.now.value)) }
{
    scalar.known();
    put_type(out, scalar.dtype(), MOST_TYPES)?;
    put_value(out, scalar.value(), scalar.dtype(), MOST_TYPES)
}

/// Appends a value of a type in which at most `limit` types nest: 0 for null, else 1 and the value.
#[cycle(put_value)]
fn put_value(out: &mut Vec<u8>, value: &Value, dtype: &DType, limit: u8) -> Result<(), AllocError>
    requires nests { type_depth (type_of dtype.now) ≤ limit }
    requires fits { IsTrue (fits (type_of dtype.now) (value_of value.now)) }
    ensures { OnOk result (out.new.items ≡ out.old.items ++ value_text (value_of value.now) (type_of dtype.now)) }
{
    match value {
        Value::Null => put_byte(out, 0),
        Value::Bool(_) | Value::Int(_) | Value::Bytes(_) | Value::List(_) => {
            put_byte(out, 1)?;
            put_content(out, value, dtype, limit)
        }
    }
}

// Appends a value that isn't null.
#[cycle(put_value)]
fn put_content(out: &mut Vec<u8>, value: &Value, dtype: &DType, limit: u8) -> Result<(), AllocError>
    requires nests { type_depth (type_of dtype.now) ≤ limit }
    requires fits { IsTrue (fits (type_of dtype.now) (value_of value.now)) }
    ensures { OnOk result (out.new.items ≡ out.old.items ++ content_text (value_of value.now) (type_of dtype.now)) }
{
    match (value, dtype) {
        (Value::Bool(bit), DType::Bool(_)) => put_truth(out, *bit),
        (Value::Int(whole), DType::Primitive(ptype, _)) => put_integer(out, *ptype, *whole),
        (Value::Int(whole), DType::Timestamp(_, _)) => put_integer(out, PType::I64, *whole),
        (Value::Bytes(bytes), DType::Utf8(_) | DType::Binary(_)) => {
            put_delimited(out, bytes.as_slice())
        }
        (Value::List(values), DType::Struct(fields, _)) => {
            put_each_field(out, values, fields, limit - 1)
        }
        (Value::List(values), DType::List(items, _)) => {
            put_varint(out, values.len())?;
            put_each(out, values, items, limit - 1)
        }
        (Value::List(values), DType::FixedSizeList(items, _, _)) => {
            put_each(out, values, items, limit - 1)
        }
        // No value of its type.
        _ => Ok(()),
    }
}

// Appends a value for each field.
#[cycle(put_value)]
fn put_each_field(
    out: &mut Vec<u8>,
    values: &Values,
    fields: &Fields,
    limit: u8,
) -> Result<(), AllocError>
    requires nests { field_types_depth (of_fields (fields_of fields.now)) ≤ limit }
    requires fits { IsTrue (fields_fit (of_fields (fields_of fields.now)) (of_list values.now)) }
    ensures { OnOk result (out.new.items ≡ out.old.items ++ each_field_text (of_list values.now) (of_fields (fields_of fields.now))) }
{
    let fields = fields.as_slice();
    let values = values.as_slice();
    for place in 0..values.len() {
        put_value(out, &values[place], &fields[place].1, limit)?;
    }
    Ok(())
}

// Appends values of one type.
#[cycle(put_value)]
fn put_each(out: &mut Vec<u8>, values: &Values, dtype: &DType, limit: u8) -> Result<(), AllocError>
    requires nests { type_depth (type_of dtype.now) ≤ limit }
    requires fits { IsTrue (items_fit (type_of dtype.now) (of_list values.now)) }
    ensures { OnOk result (out.new.items ≡ out.old.items ++ each_text (of_list values.now) (type_of dtype.now)) }
{
    for value in values.as_slice() {
        put_value(out, value, dtype, limit)?;
    }
    Ok(())
}
