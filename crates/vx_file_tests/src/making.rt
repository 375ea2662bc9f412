//! Trees of slices, and files of trees.

use std::alloc::Global;
use vx_array::{ArrayRef, Arrays};
use vx_base::{
    Bytes, DType, IntList, Integer, Mask, Nullability, PType, Refused, Scalar, Text, Value,
    VortexError, VortexResult,
};
use vx_file::{FileError, read_file, write_file};
use vx_values::Ints;

/// What is made, or why it is refused.
pub fn accepted<T: Drop, I: Drop>(made: Result<T, Refused<I>>) -> VortexResult<T> {
    match made {
        Ok(made) => Ok(made),
        Err(refused) => Err(refused.error),
    }
}

/// A mask of these bits.
pub fn bits(alloc: Global, values: &[bool]) -> VortexResult<Mask> {
    Ok(Mask::from_bits(Vec::from_slice(alloc, values)?))
}

/// Bytes of a slice.
pub fn bytes(alloc: Global, content: &[u8]) -> VortexResult<Bytes> {
    Ok(Bytes::from_vec(Vec::from_slice(alloc, content)?))
}

/// A text.
pub fn text(alloc: Global, content: &str) -> VortexResult<Text> {
    Ok(Text::from_string(String::from_str(alloc, content)?))
}

fn list<T: Integer>(alloc: Global, wholes: &[i128]) -> VortexResult<IntList<T>> {
    let mut items = Vec::new(alloc);
    for whole in wholes {
        items.push(T::from_whole(*whole).ok_or(VortexError::OutOfBounds)?)?;
    }
    Ok(IntList::from_vec(items))
}

/// Integers of a type. Refuses OutOfBounds where the type doesn't hold one of them.
pub fn integers(alloc: Global, ptype: PType, wholes: &[i128]) -> VortexResult<Ints> {
    match ptype {
        PType::U8 => Ok(Ints::U8(list(alloc, wholes)?)),
        PType::U16 => Ok(Ints::U16(list(alloc, wholes)?)),
        PType::U32 => Ok(Ints::U32(list(alloc, wholes)?)),
        PType::U64 => Ok(Ints::U64(list(alloc, wholes)?)),
        PType::I8 => Ok(Ints::I8(list(alloc, wholes)?)),
        PType::I16 => Ok(Ints::I16(list(alloc, wholes)?)),
        PType::I32 => Ok(Ints::I32(list(alloc, wholes)?)),
        PType::I64 => Ok(Ints::I64(list(alloc, wholes)?)),
    }
}

/// A flat tree without nulls, of a type that allows none.
pub fn flat(alloc: Global, ptype: PType, wholes: &[i128]) -> VortexResult<ArrayRef> {
    let values = integers(alloc, ptype, wholes)?;
    accepted(ArrayRef::primitive(values, None, Nullability::NonNullable))
}

/// An integer as a scalar.
pub fn integer(ptype: PType, whole: i128) -> VortexResult<Scalar> {
    let dtype = DType::primitive(ptype, Nullability::NonNullable);
    accepted(Scalar::new(dtype, Value::Int(whole)))
}

/// The list of one tree.
pub fn one(alloc: Global, tree: ArrayRef) -> VortexResult<Arrays> {
    let mut trees = Arrays::new_in(alloc);
    match trees.push(tree) {
        Ok(()) => Ok(trees),
        Err(_) => Err(VortexError::NoMemory),
    }
}

/// Whether the file of the trees is these bytes, and the bytes are read as trees with that file.
pub fn is_file(alloc: Global, trees: &Arrays, expected: &[u8]) -> Result<bool, FileError> {
    let file = write_file(alloc, trees)?;
    let read = read_file(alloc, &file)?;
    let again = write_file(alloc, &read)?;
    Ok(file.as_slice() == expected && again.as_slice() == expected && read.len() == trees.len())
}

/// Whether the bytes are no file.
pub fn is_bad(alloc: Global, content: &[u8]) -> VortexResult<bool> {
    let file = bytes(alloc, content)?;
    Ok(matches!(read_file(alloc, &file), Err(FileError::BadFile)))
}

/// The bytes that two texts of hexadecimal digits spell, one after the other.
pub fn of_hex(alloc: Global, head: &str, tail: &str) -> VortexResult<Bytes> {
    let mut content = Vec::new(alloc);
    for digits in [head, tail] {
        for pair in digits.as_bytes().chunks(2) {
            let high = digit(pair[0]);
            let low = if pair.len() == 2 { digit(pair[1]) } else { 0 };
            content.push(high << 4 | low)?;
        }
    }
    Ok(Bytes::from_vec(content))
}

// The value of a hexadecimal digit, 0 of any other byte.
fn digit(byte: u8) -> u8 {
    match byte {
        b'0'..=b'9' => byte - b'0',
        b'a'..=b'f' => byte - b'a' + 10,
        _ => 0,
    }
}
