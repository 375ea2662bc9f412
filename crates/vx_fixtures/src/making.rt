//! Masks, integers, rows of bytes, packed bytes, flat trees and lists as scalars, made of slices.

use std::alloc::Global;
use vx_array::ArrayRef;
use vx_base::{
    ByteRows, Bytes, DType, IntList, Integer, Mask, Nullability, PType, Refused, Scalar, Value,
    Values, VortexError, VortexResult,
};
use vx_blocks::pack;
use vx_values::Ints;

/// What is made, or why it is refused.
pub fn accepted<T: Drop, I: Drop>(made: Result<T, Refused<I>>) -> VortexResult<T> {
    match made {
        Ok(made) => Ok(made),
        Err(refused) => Err(refused.error),
    }
}

/// A mask of these bits.
pub fn bits(alloc: Global, values: &[bool]) -> VortexResult<Mask> {
    Ok(Mask::from_bits(Vec::from_slice(alloc, values)?))
}

/// Rows of these bytes.
pub fn byte_rows(alloc: Global, rows: &[&[u8]]) -> VortexResult<ByteRows> {
    let mut items = Vec::new(alloc);
    for row in rows {
        items.push(Bytes::from_vec(Vec::from_slice(alloc, *row)?))?;
    }
    Ok(ByteRows::from_vec(items))
}

/// A list of integers of a type. Refuses OutOfBounds where the type doesn't hold one of them.
pub fn list<T: Integer>(alloc: Global, wholes: &[i128]) -> VortexResult<IntList<T>> {
    let mut items = Vec::new(alloc);
    for whole in wholes {
        items.push(T::from_whole(*whole).ok_or(VortexError::OutOfBounds)?)?;
    }
    Ok(IntList::from_vec(items))
}

/// Integers of a type that is given as a value. Refuses OutOfBounds where the type doesn't hold one of them.
pub fn integers(alloc: Global, ptype: PType, wholes: &[i128]) -> VortexResult<Ints> {
    match ptype {
        PType::U8 => Ok(Ints::U8(list(alloc, wholes)?)),
        PType::U16 => Ok(Ints::U16(list(alloc, wholes)?)),
        PType::U32 => Ok(Ints::U32(list(alloc, wholes)?)),
        PType::U64 => Ok(Ints::U64(list(alloc, wholes)?)),
        PType::I8 => Ok(Ints::I8(list(alloc, wholes)?)),
        PType::I16 => Ok(Ints::I16(list(alloc, wholes)?)),
        PType::I32 => Ok(Ints::I32(list(alloc, wholes)?)),
        PType::I64 => Ok(Ints::I64(list(alloc, wholes)?)),
    }
}

/// A flat tree without nulls.
pub fn flat(
    alloc: Global,
    ptype: PType,
    nullability: Nullability,
    wholes: &[i128],
) -> VortexResult<ArrayRef> {
    accepted(ArrayRef::primitive(integers(alloc, ptype, wholes)?, None, nullability))
}

/// A flat nullable tree that is null where a bit is false.
pub fn with_nulls(
    alloc: Global,
    ptype: PType,
    wholes: &[i128],
    valid: &[bool],
) -> VortexResult<ArrayRef> {
    let values = integers(alloc, ptype, wholes)?;
    accepted(ArrayRef::primitive(values, Some(bits(alloc, valid)?), Nullability::Nullable))
}

/// The bytes of the rows, each at a width in bits. Refuses OutOfBounds where the type has fewer.
pub fn packed<T: Integer>(alloc: Global, values: &[T], width: u32) -> VortexResult<Bytes> {
    if width > T::ptype().bit_width() {
        return Err(VortexError::OutOfBounds);
    }
    let valid = Mask::from_bits(vec![in alloc; true; values.len()]?);
    Ok(Bytes::from_vec(pack(alloc, values, &valid, width)?))
}

/// A list of integers of i32 as a scalar.
pub fn list_scalar(alloc: Global, wholes: &[i128]) -> VortexResult<Scalar> {
    let items = Box::new(
        alloc,
        DType::primitive(PType::I32, Nullability::NonNullable),
    )?;
    let mut values = Vec::new(alloc);
    for whole in wholes {
        values.push(Value::Int(*whole))?;
    }
    let dtype = DType::list(items, Nullability::NonNullable);
    accepted(Scalar::new(dtype, Value::List(Values::from_vec(values))))
}
