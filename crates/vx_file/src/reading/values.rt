//! The reader of values and of scalars.

ghost use Rattle.std.specs.Prelude.{◌≡◌, ◌≤◌, ◌<◌, length, Some};
ghost use Rattle.vx_base.specs.PlainType.{of_fields};
ghost use Rattle.vx_base.specs.PlainValue.{int, of_list, truth};
ghost use Rattle.vx_base.specs.PlainValue as vals;
ghost use Rattle.vx_base.specs.TypeOf.{type_of, fields_of, value_of};
ghost use Rattle.vx_codec.specs.Format.{made_at};
ghost use Rattle.vx_codec.specs.Lists.{delimited, repeated_at};
ghost use Rattle.vx_codec.specs.Reads.{Reads};
ghost use Rattle.vx_file.specs.Made.{behind_flag_at, field_type_at};
ghost use Rattle.vx_spelling.specs.Fields.{integer, truth_value};
ghost use Rattle.vx_spelling.specs.TypeSpelling.{field_types_depth, type_depth};
ghost use Rattle.vx_spelling.specs.ValueSpelling.{fields_at, scalar_parts, value_at};

use super::fields::read_truth;
use super::integers::read_integer;
use super::types::read_type;
use crate::nesting::MOST_TYPES;
use std::alloc::Global;
use vx_base::{Bytes, DType, Fields, PType, Scalar, Value, Values};
use vx_codec::{ReadError, read_byte, read_delimited, read_varint};

/// A scalar: its type, and a value of it.
pub(super) fn read_scalar(alloc: Global, bytes: &[u8]) -> Result<(Scalar, &[u8]), ReadError>
    ensures { Reads (λ x. ((x.0.dtype, x.0.value), x.1.now)) result (scalar_parts.parse bytes.now) }
{
    let (dtype, rest) = read_type(alloc, bytes, MOST_TYPES)?;
    let (value, rest) = read_value(alloc, rest, &dtype, MOST_TYPES)?;
    match Scalar::new(dtype, value) {
        Ok(scalar) => Ok((scalar, rest)),
        Err(_) => Err(ReadError::Malformed),
    }
}

/// A value of a type in which at most `depth` types nest: 0 for null, or 1 and the value.
#[cycle(read_value)]
#[tactic(auto, using(crate::proofs::ValueReading::value_steps))]
pub(super) fn read_value<'b>(
    alloc: Global,
    bytes: &'b [u8],
    dtype: &DType,
    depth: u8,
) -> Result<(Value, &'b [u8]), ReadError>
    requires { type_depth (type_of dtype.now) ≤ depth }
    ensures { Reads (λ x. (value_of x.0, x.1.now)) result (value_at (type_of dtype.now) bytes.now) }
{
    let (flag, rest) = read_byte(bytes)?;
    match flag {
        0 if dtype.is_nullable() => Ok((Value::Null, rest)),
        1 => read_content(alloc, rest, dtype, depth),
        _ => Err(ReadError::Malformed),
    }
}

// A value that isn't null.
#[cycle(read_value)]
#[tactic(auto, using(crate::proofs::ValueReading::value_steps))]
fn read_content<'b>(
    alloc: Global,
    bytes: &'b [u8],
    dtype: &DType,
    depth: u8,
) -> Result<(Value, &'b [u8]), ReadError>
    requires { type_depth (type_of dtype.now) ≤ depth }
    ensures { Reads (λ x. (value_of x.0, x.1.now)) result (behind_flag_at (type_of dtype.now) bytes.now) }
{
    match dtype {
        DType::Null => Err(ReadError::Malformed),
        DType::Bool(_) => read_bit(bytes),
        DType::Primitive(ptype, _) => read_whole(bytes, *ptype),
        DType::Timestamp(_, _) => read_whole(bytes, PType::I64),
        DType::Utf8(_) | DType::Binary(_) => read_bytes(alloc, bytes),
        DType::Struct(fields, _) => {
            let (values, rest) = read_each(alloc, bytes, fields, depth - 1)?;
            Ok((Value::List(values), rest))
        }
        DType::List(items, _) => {
            let (count, rest) = read_varint(bytes)?;
            let (values, rest) = read_values(alloc, rest, items, count, depth - 1)?;
            Ok((Value::List(values), rest))
        }
        DType::FixedSizeList(items, size, _) => {
            let (values, rest) = read_values(alloc, bytes, items, u64::from(*size), depth - 1)?;
            Ok((Value::List(values), rest))
        }
    }
}

// A truth value, as a value.
fn read_bit(bytes: &[u8]) -> Result<(Value, &[u8]), ReadError>
    ensures { Reads (λ x. (value_of x.0, x.1.now)) result (made_at truth truth_value.parse bytes.now) }
{
    let (bit, rest) = read_truth(bytes)?;
    Ok((Value::Bool(bit), rest))
}

// An integer of a type, as a value.
fn read_whole(bytes: &[u8], ptype: PType) -> Result<(Value, &[u8]), ReadError>
    ensures { Reads (λ x. (value_of x.0, x.1.now)) result (made_at int (integer ptype).parse bytes.now) }
{
    let (whole, rest) = read_integer(bytes, ptype)?;
    Ok((Value::Int(whole), rest))
}

// The bytes behind their length, as a value.
fn read_bytes(alloc: Global, bytes: &[u8]) -> Result<(Value, &[u8]), ReadError>
    ensures { Reads (λ x. (value_of x.0, x.1.now)) result (made_at vals.bytes delimited.parse bytes.now) }
{
    let (content, rest) = read_owned(alloc, bytes)?;
    Ok((Value::Bytes(content), rest))
}

/// The bytes behind their length, copied.
pub(super) fn read_owned(alloc: Global, bytes: &[u8]) -> Result<(Bytes, &[u8]), ReadError>
    ensures { Reads (λ x. (x.0, x.1.now)) result (delimited.parse bytes.now) }
{
    let (content, rest) = read_delimited(bytes)?;
    Ok((Bytes::from_vec(Vec::from_slice(alloc, content)?), rest))
}

// The type of a field.
fn field_type(fields: &Fields, place: u64) -> &DType
    requires { place < length (fields_of fields.now) }
    ensures { field_type_at (fields_of fields.now) place ≡ Some (type_of result.now) }
{
    match fields.get(place) {
        Some(field) => &field.1,
        None => unreachable!(),
    }
}

// A value for each field.
#[cycle(read_value)]
fn read_each<'b>(
    alloc: Global,
    bytes: &'b [u8],
    fields: &Fields,
    depth: u8,
) -> Result<(Values, &'b [u8]), ReadError>
    requires { field_types_depth (of_fields (fields_of fields.now)) ≤ depth }
    ensures { Reads (λ x. (of_list x.0, x.1.now)) result (fields_at (of_fields (fields_of fields.now)) bytes.now) }
{
    let mut values = Vec::new(alloc);
    let mut rest = bytes;
    for place in 0..fields.len() {
        let (value, after) = read_value(alloc, rest, field_type(fields, place), depth)?;
        values.push(value)?;
        rest = after;
    }
    Ok((Values::from_vec(values), rest))
}

// `count` values of one type. Each has its flag at least, so the list grows with the bytes that are read.
#[cycle(read_value)]
fn read_values<'b>(
    alloc: Global,
    bytes: &'b [u8],
    dtype: &DType,
    count: u64,
    depth: u8,
) -> Result<(Values, &'b [u8]), ReadError>
    requires { type_depth (type_of dtype.now) ≤ depth }
    ensures { Reads (λ x. (x.0, x.1.now)) result (repeated_at (value_at (type_of dtype.now)) count bytes.now) }
{
    let mut values = Vec::new(alloc);
    let mut rest = bytes;
    for _ in 0..count {
        let (value, after) = read_value(alloc, rest, dtype, depth)?;
        values.push(value)?;
        rest = after;
    }
    Ok((Values::from_vec(values), rest))
}
