//! Columns that the tests share, and what they are compared with.

use std::alloc::Global;
use vx_array::{ArrayRef, Arrays};
use vx_base::Nullability::{NonNullable, Nullable};
use vx_base::PType::{I32, U8, U16};
use vx_base::{DType, Names, Nullability, PType, Scalar, Text, VortexError, VortexResult};
use vx_fixtures::{accepted, bits, byte_rows, flat, with_nulls};

/// Texts without nulls.
pub fn texts(alloc: Global, rows: &[&str]) -> VortexResult<ArrayRef> {
    let mut items = Vec::new(alloc);
    for row in rows {
        items.push(row.as_bytes())?;
    }
    let rows = byte_rows(alloc, items.as_slice())?;
    accepted(ArrayRef::var_bin_view(rows, None, DType::utf8(NonNullable)))
}

/// Texts, null where a bit is false.
pub fn texts_with_nulls(alloc: Global, rows: &[&str], valid: &[bool]) -> VortexResult<ArrayRef> {
    let mut items = Vec::new(alloc);
    for row in rows {
        items.push(row.as_bytes())?;
    }
    let rows = byte_rows(alloc, items.as_slice())?;
    let valid = Some(bits(alloc, valid)?);
    accepted(ArrayRef::var_bin_view(rows, valid, DType::utf8(Nullable)))
}

/// A text.
pub fn text(alloc: Global, value: &str) -> VortexResult<Scalar> {
    let value = Text::from_string(String::from_str(alloc, value)?);
    accepted(Scalar::text(value, NonNullable))
}

/// An integer of a type.
pub fn whole(value: i128, ptype: PType, nullability: Nullability) -> VortexResult<Scalar> {
    Scalar::primitive(value, ptype, nullability)
}

/// Truth values, None of null.
pub fn truths(alloc: Global, rows: &[Option<bool>]) -> VortexResult<ArrayRef> {
    let mut values = Vec::new(alloc);
    let mut valid = Vec::new(alloc);
    for row in rows {
        values.push(row.unwrap_or(true))?;
        valid.push(row.is_some())?;
    }
    let values = bits(alloc, values.as_slice())?;
    let valid = Some(bits(alloc, valid.as_slice())?);
    accepted(ArrayRef::bool(values, valid, Nullable))
}

/// Whether a tree has these truth values, None of null.
pub fn has_truths(array: &ArrayRef, rows: &[Option<bool>]) -> bool {
    if !matches!(array.dtype(), DType::Bool(_)) || array.len() != rows.len() as u64 {
        return false;
    }
    for row in 0..rows.len() {
        if array.bool_at(row as u64) != rows[row] {
            return false;
        }
    }
    true
}

/// Whether an array of truth values is true from row `start` to `end - 1`, and false elsewhere.
pub fn is_true_between(array: &ArrayRef, start: u64, end: u64) -> bool {
    if !matches!(array.dtype(), DType::Bool(_)) {
        return false;
    }
    for row in 0..array.len() {
        if array.bool_at(row) != Some(start <= row && row < end) {
            return false;
        }
    }
    true
}

/// The numbers from 0 up to 2,049: kernels take them in three blocks, the last one short.
pub fn rising(alloc: Global) -> VortexResult<ArrayRef> {
    let mut items = Vec::new(alloc);
    for row in 0..2_050_u16 {
        items.push(i128::from(row))?;
    }
    flat(alloc, U16, NonNullable, items.as_slice())
}

/// The numbers from 2,049 down to 0.
pub fn falling(alloc: Global) -> VortexResult<ArrayRef> {
    let mut items = Vec::new(alloc);
    for row in 0..2_050_u16 {
        items.push(i128::from(2_049 - row))?;
    }
    flat(alloc, U16, NonNullable, items.as_slice())
}

/// 5, null, 5, 9 and null of i32, by codes.
pub fn by_codes(alloc: Global) -> VortexResult<ArrayRef> {
    let codes = with_nulls(
        alloc,
        U8,
        &[0, 0, 0, 1, 1],
        &[true, false, true, true, false],
    )?;
    let values = flat(alloc, I32, NonNullable, &[5, 9])?;
    accepted(ArrayRef::dict(alloc, codes, values))
}

/// Structs of one i32 each: of 1, null over 8, and of 1.
pub fn structs(alloc: Global) -> VortexResult<ArrayRef> {
    let mut names = Names::new_in(alloc);
    let name = Text::from_string(String::from_str(alloc, "a")?);
    names.push(name).ok().ok_or(VortexError::NoMemory)?;
    let mut fields = Arrays::new_in(alloc);
    fields
        .push(flat(alloc, I32, NonNullable, &[1, 8, 1])?)
        .ok()
        .ok_or(VortexError::NoMemory)?;
    let valid = Some(bits(alloc, &[true, false, true])?);
    accepted(ArrayRef::structure(alloc, names, fields, 3, valid, Nullable))
}

/// The bytes of a text or binary scalar are these.
pub fn is_text(scalar: &Scalar, text: &str) -> bool {
    if !scalar.dtype().is_flat() {
        return false;
    }
    scalar.cell().bytes() == text.as_bytes()
}

/// The rows of a text column are these, None of null.
pub fn has_texts(array: &ArrayRef, rows: &[Option<&str>]) -> bool {
    if !array.dtype().is_flat() || array.len() != rows.len() as u64 {
        return false;
    }
    for row in 0..rows.len() {
        let cell = array.cell_at(row as u64);
        match rows[row] {
            Some(text) if cell.is_null() || cell.bytes() != text.as_bytes() => return false,
            None if !cell.is_null() => return false,
            _ => {}
        }
    }
    true
}

/// Whether the least and the greatest are these numbers.
pub fn lie_between(found: &Option<(Scalar, Scalar)>, least: i128, greatest: i128) -> bool {
    let Some((low, high)) = found else {
        return false;
    };
    if !low.dtype().is_integer() || !high.dtype().is_integer() {
        return false;
    }
    low.integer() == Some(least) && high.integer() == Some(greatest)
}
