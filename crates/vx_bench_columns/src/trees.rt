//! Texts in one piece, and dictionaries.

use crate::columns::{column, random, steps, validity};
use crate::rows::values;
use std::alloc::Global;
use vx_array::ArrayRef;
use vx_base::{Bytes, DType, Nullability, VortexResult};

// The bytes of a text.
const TEXT_BYTES: u64 = 8;

// The bits of a byte of texts.
const ASCII_BITS: u32 = 7;

// The bits of a code, and the values of a dictionary.
const CODE_BITS: u32 = 9;

const DICTIONARY: usize = 512;

/// Texts of 8 random bytes each, as var_bin.
pub fn texts(alloc: Global, rows: usize, nullability: Nullability) -> VortexResult<ArrayRef> {
    let ends = steps(alloc, rows.saturating_add(1), 0, TEXT_BYTES)?;
    let offsets = column(alloc, ends, Nullability::NonNullable)?;
    let size = rows.saturating_mul(TEXT_BYTES as usize);
    let bytes = Bytes::from_vec(values::<u8>(alloc, size, ASCII_BITS)?);
    let valid = validity(alloc, rows, nullability)?;
    Ok(ArrayRef::var_bin(alloc, offsets, bytes, valid, DType::utf8(nullability))?)
}

/// Codes of 9 random bits, in 16.
pub fn codes(alloc: Global, len: usize, nullability: Nullability) -> VortexResult<ArrayRef> {
    column(alloc, values::<u16>(alloc, len, CODE_BITS)?, nullability)
}

/// A dictionary of 512 random values under these codes.
pub fn dict(alloc: Global, codes: ArrayRef) -> VortexResult<ArrayRef> {
    let values = random(alloc, DICTIONARY, Nullability::NonNullable)?;
    Ok(ArrayRef::dict(alloc, codes, values)?)
}

/// A dictionary with a code a row, null where the code is.
pub fn row_dict(alloc: Global, rows: usize, nullability: Nullability) -> VortexResult<ArrayRef> {
    dict(alloc, codes(alloc, rows, nullability)?)
}
