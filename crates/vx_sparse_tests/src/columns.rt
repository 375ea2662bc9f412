//! Sparse columns for tests, each with flat and with chunked patches.

use std::alloc::Global;
use vx_array::{ArrayRef, Patches};
use vx_base::Nullability::{NonNullable, Nullable};
use vx_base::PType::{I32, U8, U16};
use vx_base::{ArrayId, DType, PType, Scalar, Text, VortexResult};
use vx_fixtures::{accepted, bits, byte_rows, flat, list_scalar, with_nulls};
use vx_sparse::{Sparse, SparseArray};

/// How patches are kept.
#[derive(Clone, Copy)]
pub(crate) enum Form {
    Flat,
    /// With chunk offsets, of fewer than 1,024 rows.
    Chunked,
}

/// Both forms.
pub(crate) const FORMS: [Form; 2] = [Form::Flat, Form::Chunked];

/// A sparse array of 1 to 1,024 rows.
pub(crate) fn sparse(
    alloc: Global,
    form: Form,
    indices: &[i128],
    values: ArrayRef,
    len: u64,
    fill: Scalar,
) -> VortexResult<SparseArray> {
    let indices = flat(alloc, U16, NonNullable, indices)?;
    let patches = match form {
        Form::Flat => accepted(Patches::new(len, 0, indices, values))?,
        Form::Chunked => {
            let chunks = flat(alloc, U8, NonNullable, &[0])?;
            accepted(Patches::new_chunked(len, 0, indices, values, chunks))?
        }
    };
    accepted(Sparse::try_new_from_patches(alloc, patches, fill))
}

/// A sparse array of integers of a type.
pub(crate) fn wholes(
    alloc: Global,
    form: Form,
    ptype: PType,
    (indices, values): (&[i128], &[i128]),
    len: u64,
    fill: i128,
) -> VortexResult<SparseArray> {
    let values = flat(alloc, ptype, NonNullable, values)?;
    let fill = Scalar::primitive(fill, ptype, NonNullable)?;
    sparse(alloc, form, indices, values, len, fill)
}

/// The rows 1, 10, 1, 20, 1, 30, 1, 1 of `i32`, with another fill in place of 1.
pub(crate) fn s_over(alloc: Global, form: Form, fill: i128) -> VortexResult<SparseArray> {
    wholes(alloc, form, I32, (&[1, 3, 5], &[10, 20, 30]), 8, fill)
}

/// Patches of `i32?` in eight rows, null in the others.
pub(crate) fn over_nulls(
    alloc: Global,
    form: Form,
    indices: &[i128],
    values: &[i128],
) -> VortexResult<SparseArray> {
    let values = flat(alloc, I32, Nullable, values)?;
    let fill = accepted(Scalar::null(DType::primitive(I32, Nullable)))?;
    sparse(alloc, form, indices, values, 8, fill)
}

/// A sparse array of `i32?`, None for null.
pub(crate) fn holes(
    alloc: Global,
    form: Form,
    (indices, values): (&[i128], &[Option<i128>]),
    len: u64,
    fill: Option<i128>,
) -> VortexResult<SparseArray> {
    let mut wholes = Vec::new(alloc);
    let mut valid = Vec::new(alloc);
    for value in values {
        wholes.push(value.unwrap_or(0))?;
        valid.push(value.is_some())?;
    }
    let values = with_nulls(alloc, I32, wholes.as_slice(), valid.as_slice())?;
    let fill = match fill {
        Some(whole) => Scalar::primitive(whole, I32, Nullable)?,
        None => accepted(Scalar::null(DType::primitive(I32, Nullable)))?,
    };
    sparse(alloc, form, indices, values, len, fill)
}

/// `b`, `ab`, `b`.
pub(crate) fn texts(alloc: Global, form: Form) -> VortexResult<SparseArray> {
    let rows = byte_rows(alloc, &[b"ab"])?;
    let values = accepted(ArrayRef::var_bin_view(rows, None, DType::Utf8(NonNullable)))?;
    let text = Text::from_string(String::from_str(alloc, "b")?);
    let fill = accepted(Scalar::text(text, NonNullable))?;
    sparse(alloc, form, &[1], values, 3, fill)
}

/// False, true, true, false, false.
pub(crate) fn truths(alloc: Global, form: Form) -> VortexResult<SparseArray> {
    let values = accepted(ArrayRef::bool(bits(alloc, &[true, true])?, None, NonNullable))?;
    sparse(
        alloc,
        form,
        &[1, 2],
        values,
        5,
        Scalar::bool(false, NonNullable),
    )
}

/// The list 7, 8 in rows 1 and 2 of four, over another list.
pub(crate) fn lists(alloc: Global, form: Form, fill: &[i128]) -> VortexResult<SparseArray> {
    let values = ArrayRef::constant(list_scalar(alloc, &[7, 8])?, 2);
    let fill = list_scalar(alloc, fill)?;
    sparse(alloc, form, &[1, 2], values, 4, fill)
}

/// Truth values over another one, None of null.
pub(crate) fn truths_over(
    alloc: Global,
    form: Form,
    (indices, rows): (&[i128], &[Option<bool>]),
    len: u64,
    fill: Option<bool>,
) -> VortexResult<SparseArray> {
    let mut values = Vec::new(alloc);
    let mut valid = Vec::new(alloc);
    for row in rows {
        values.push(row.unwrap_or(true))?;
        valid.push(row.is_some())?;
    }
    let valid = Some(bits(alloc, valid.as_slice())?);
    let values = bits(alloc, values.as_slice())?;
    let values = accepted(ArrayRef::bool(values, valid, Nullable))?;
    let fill = match fill {
        Some(bit) => Scalar::bool(bit, Nullable),
        None => accepted(Scalar::null(DType::Bool(Nullable)))?,
    };
    sparse(alloc, form, indices, values, len, fill)
}

/// `world`, `help` and `foo` in the rows 1, 3 and 5 of eight, null in the others.
pub(crate) fn words(alloc: Global, form: Form) -> VortexResult<SparseArray> {
    let rows = byte_rows(alloc, &[b"world", b"help", b"foo"])?;
    let values = accepted(ArrayRef::var_bin_view(rows, None, DType::Utf8(Nullable)))?;
    let fill = accepted(Scalar::null(DType::Utf8(Nullable)))?;
    sparse(alloc, form, &[1, 3, 5], values, 8, fill)
}

/// A text in some number of rows.
pub(crate) fn same_texts(alloc: Global, text: &str, len: u64) -> VortexResult<ArrayRef> {
    let text = Text::from_string(String::from_str(alloc, text)?);
    let text = accepted(Scalar::text(text, NonNullable))?;
    Ok(ArrayRef::constant(text, len))
}

/// An integer of a type in some number of rows.
pub(crate) fn same_wholes(ptype: PType, whole: i128, len: u64) -> VortexResult<ArrayRef> {
    let whole = Scalar::primitive(whole, ptype, NonNullable)?;
    Ok(ArrayRef::constant(whole, len))
}

/// Null of a type in some number of rows.
pub(crate) fn nulls_of(dtype: DType, len: u64) -> VortexResult<ArrayRef> {
    Ok(ArrayRef::constant(accepted(Scalar::null(dtype))?, len))
}

/// Whether a tree is of an encoding and has these truth values, None of null.
pub(crate) fn has_truths(array: &ArrayRef, root: ArrayId, rows: &[Option<bool>]) -> bool {
    if !matches!(array.dtype(), DType::Bool(_)) || array.len() != rows.len() as u64 {
        return false;
    }
    for row in 0..rows.len() {
        if array.bool_at(row as u64) != rows[row] {
            return false;
        }
    }
    array.encoding_id() == root
}
