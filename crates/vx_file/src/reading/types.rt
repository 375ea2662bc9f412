//! The reader of types.

ghost use Rattle.std.specs.Prelude.{map};
ghost use Rattle.vx_base.specs.TypeOf.{type_of, field_of, fields_of};
ghost use Rattle.vx_codec.specs.Format.{both};
ghost use Rattle.vx_codec.specs.Lists.{repeated_at};
ghost use Rattle.vx_codec.specs.Reads.{Reads};
ghost use Rattle.vx_spelling.specs.Fields.{name};
ghost use Rattle.vx_spelling.specs.TypeSpelling.{type_at, type_behind, type_fields, types_by};
ghost use Rattle.vx_spelling.specs.declared.kinds.TypeKind.TheVariants as kinds;

use super::fields::{read_list_size, read_name, read_nullability};
use super::flat_types::{
    read_binary_type, read_bool_type, read_primitive_type, read_timestamp_type, read_type_kind,
    read_utf8_type,
};
use std::alloc::Global;
use vx_base::{DType, Fields, Text};
use vx_codec::{ReadError, read_varint};
use vx_spelling::TypeKind;

/// A type in which at most `depth` types nest.
#[cycle(read_type)]
pub(super) fn read_type(alloc: Global, bytes: &[u8], depth: u8) -> Result<(DType, &[u8]), ReadError>
    ensures { Reads (λ x. (type_of x.0, x.1.now)) result (type_at depth bytes.now) }
{
    if depth == 0 {
        return Err(ReadError::Malformed);
    }
    let (kind, rest) = read_type_kind(bytes)?;
    read_behind(alloc, rest, kind, depth - 1)
}

// What stands behind a kind.
#[cycle(read_type)]
fn read_behind(
    alloc: Global,
    bytes: &[u8],
    kind: TypeKind,
    depth: u8,
) -> Result<(DType, &[u8]), ReadError>
    ensures { Reads (λ x. (type_of x.0, x.1.now)) result (type_behind (types_by (type_at depth)) kind bytes.now) }
{
    match kind {
        TypeKind::Null => Ok((DType::null(), bytes)),
        TypeKind::Bool => read_bool_type(bytes),
        TypeKind::Primitive => read_primitive_type(bytes),
        TypeKind::Utf8 => read_utf8_type(bytes),
        TypeKind::Binary => read_binary_type(bytes),
        TypeKind::Timestamp => read_timestamp_type(alloc, bytes),
        TypeKind::Struct => read_struct_type(alloc, bytes, depth),
        TypeKind::List => read_list_type(alloc, bytes, depth),
        TypeKind::FixedSizeList => read_fixed_type(alloc, bytes, depth),
    }
}

// A struct type: nullability, the fields.
#[cycle(read_type)]
fn read_struct_type(alloc: Global, bytes: &[u8], depth: u8) -> Result<(DType, &[u8]), ReadError>
    ensures { Reads (λ x. (type_of x.0, x.1.now)) result (type_behind (types_by (type_at depth)) kinds.Struct bytes.now) }
{
    let (nullability, rest) = read_nullability(bytes)?;
    let (fields, rest) = read_fields(alloc, rest, depth)?;
    Ok((DType::structure(fields, nullability), rest))
}

// A list type: nullability, the type of the elements.
#[cycle(read_type)]
fn read_list_type(alloc: Global, bytes: &[u8], depth: u8) -> Result<(DType, &[u8]), ReadError>
    ensures { Reads (λ x. (type_of x.0, x.1.now)) result (type_behind (types_by (type_at depth)) kinds.List bytes.now) }
{
    let (nullability, rest) = read_nullability(bytes)?;
    let (items, rest) = read_boxed(alloc, rest, depth)?;
    Ok((DType::list(items, nullability), rest))
}

// A fixed-size list type: nullability, the size of each list, the type of the elements.
#[cycle(read_type)]
fn read_fixed_type(alloc: Global, bytes: &[u8], depth: u8) -> Result<(DType, &[u8]), ReadError>
    ensures { Reads (λ x. (type_of x.0, x.1.now)) result (type_behind (types_by (type_at depth)) kinds.FixedSizeList bytes.now) }
{
    let (nullability, rest) = read_nullability(bytes)?;
    let (size, rest) = read_list_size(rest)?;
    let (items, rest) = read_boxed(alloc, rest, depth)?;
    Ok((DType::fixed_size_list(items, size, nullability), rest))
}

// A type within another one.
#[cycle(read_type)]
fn read_boxed(alloc: Global, bytes: &[u8], depth: u8) -> Result<(Box<DType>, &[u8]), ReadError>
    ensures { Reads (λ x. (type_of x.0.value, x.1.now)) result (type_at depth bytes.now) }
{
    let (dtype, rest) = read_type(alloc, bytes, depth)?;
    Ok((Box::new(alloc, dtype)?, rest))
}

// The name and the type of a field.
#[cycle(read_type)]
fn read_field(alloc: Global, bytes: &[u8], depth: u8) -> Result<((Text, DType), &[u8]), ReadError>
    ensures { Reads (λ x. (field_of x.0, x.1.now)) result ((both name (types_by (type_at depth))).parse bytes.now) }
{
    let (name, rest) = read_name(alloc, bytes)?;
    let (dtype, rest) = read_type(alloc, rest, depth)?;
    Ok(((name, dtype), rest))
}

// The number of a struct's fields, and the fields.
#[cycle(read_type)]
fn read_fields(alloc: Global, bytes: &[u8], depth: u8) -> Result<(Fields, &[u8]), ReadError>
    ensures { Reads (λ x. (fields_of x.0, x.1.now)) result ((type_fields (types_by (type_at depth))).parse bytes.now) }
{
    let (count, rest) = read_varint(bytes)?;
    let (fields, rest) = read_each_field(alloc, rest, count, depth)?;
    Ok((Fields::from_vec(fields), rest))
}

// `count` fields.
#[cycle(read_type)]
fn read_each_field(
    alloc: Global,
    bytes: &[u8],
    count: u64,
    depth: u8,
) -> Result<(Vec<(Text, DType)>, &[u8]), ReadError>
    ensures { Reads (λ x. (map field_of x.0.items, x.1.now)) result (repeated_at (both name (types_by (type_at depth))).parse count bytes.now) }
{
    let mut fields = Vec::new(alloc);
    let mut rest = bytes;
    for _ in 0..count {
        let (field, after) = read_field(alloc, rest, depth)?;
        fields.push(field)?;
        rest = after;
    }
    Ok((fields, rest))
}
