//! Readers of the kinds of types, and of what stands behind those that have no types inside.

ghost use Rattle.vx_base.specs.PlainType.{binary, boolean, utf8};
ghost use Rattle.vx_base.specs.TypeOf.{type_of};
ghost use Rattle.vx_codec.specs.Format.{both, made_at};
ghost use Rattle.vx_codec.specs.Reads.{Reads};
ghost use Rattle.vx_spelling.specs.Fields.{nullability, ptype, timestamp_kind};
ghost use Rattle.vx_spelling.specs.TypeSpelling.{primitive_type_of, timestamp_type_of, type_kind};

use super::fields::{read_nullability, read_ptype};
use super::timestamp_kinds::read_kind;
use std::alloc::Global;
use vx_base::DType;
use vx_codec::{ReadError, read_byte};
use vx_spelling::TypeKind;

/// A kind of types: 0 to 8.
pub(super) fn read_type_kind(bytes: &[u8]) -> Result<(TypeKind, &[u8]), ReadError>
    ensures { Reads (λ x. (x.0, x.1.now)) result (type_kind.parse bytes.now) }
{
    let (number, rest) = read_byte(bytes)?;
    match number {
        0 => Ok((TypeKind::Null, rest)),
        1 => Ok((TypeKind::Bool, rest)),
        2 => Ok((TypeKind::Primitive, rest)),
        3 => Ok((TypeKind::Utf8, rest)),
        4 => Ok((TypeKind::Binary, rest)),
        5 => Ok((TypeKind::Timestamp, rest)),
        6 => Ok((TypeKind::Struct, rest)),
        7 => Ok((TypeKind::List, rest)),
        8 => Ok((TypeKind::FixedSizeList, rest)),
        _ => Err(ReadError::Malformed),
    }
}

/// A type of truth values: nullability.
pub(super) fn read_bool_type(bytes: &[u8]) -> Result<(DType, &[u8]), ReadError>
    ensures { Reads (λ x. (type_of x.0, x.1.now)) result (made_at boolean nullability.parse bytes.now) }
{
    let (nullability, rest) = read_nullability(bytes)?;
    Ok((DType::bool(nullability), rest))
}

/// A type of integers: nullability, integer type.
pub(super) fn read_primitive_type(bytes: &[u8]) -> Result<(DType, &[u8]), ReadError>
    ensures { Reads (λ x. (type_of x.0, x.1.now)) result (made_at primitive_type_of (both nullability ptype).parse bytes.now) }
{
    let (nullability, rest) = read_nullability(bytes)?;
    let (ptype, rest) = read_ptype(rest)?;
    Ok((DType::primitive(ptype, nullability), rest))
}

/// A type of texts: nullability.
pub(super) fn read_utf8_type(bytes: &[u8]) -> Result<(DType, &[u8]), ReadError>
    ensures { Reads (λ x. (type_of x.0, x.1.now)) result (made_at utf8 nullability.parse bytes.now) }
{
    let (nullability, rest) = read_nullability(bytes)?;
    Ok((DType::utf8(nullability), rest))
}

/// A type of binaries: nullability.
pub(super) fn read_binary_type(bytes: &[u8]) -> Result<(DType, &[u8]), ReadError>
    ensures { Reads (λ x. (type_of x.0, x.1.now)) result (made_at binary nullability.parse bytes.now) }
{
    let (nullability, rest) = read_nullability(bytes)?;
    Ok((DType::binary(nullability), rest))
}

/// A type of timestamps: nullability, kind.
pub(super) fn read_timestamp_type(alloc: Global, bytes: &[u8]) -> Result<(DType, &[u8]), ReadError>
    ensures { Reads (λ x. (type_of x.0, x.1.now)) result (made_at timestamp_type_of (both nullability timestamp_kind).parse bytes.now) }
{
    let (nullability, rest) = read_nullability(bytes)?;
    let (kind, rest) = read_kind(alloc, rest)?;
    Ok((DType::timestamp(kind, nullability), rest))
}
