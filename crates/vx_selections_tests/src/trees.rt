//! Trees of every type, of four rows each.

use std::alloc::Global;
use vx_array::{ArrayRef, Arrays, Patches};
use vx_base::Nullability::{NonNullable, Nullable};
use vx_base::PType::{I32, I64, U8};
use vx_base::{DType, Names, Scalar, Text, TimeUnit, VortexError, VortexResult};
use vx_fixtures::{accepted, bits, byte_rows, flat, list_scalar, stamps, utc, with_nulls};

// true, false, null, true.
pub(crate) fn truths(alloc: Global) -> VortexResult<ArrayRef> {
    let values = bits(alloc, &[true, false, true, true])?;
    let valid = Some(bits(alloc, &[true, true, false, true])?);
    accepted(ArrayRef::bool(values, valid, Nullable))
}

// 10, 20, 30 and 40.
pub(crate) fn wholes(alloc: Global) -> VortexResult<ArrayRef> {
    flat(alloc, I64, NonNullable, &[10, 20, 30, 40])
}

// 10, null, 30 and null.
pub(crate) fn holes(alloc: Global) -> VortexResult<ArrayRef> {
    with_nulls(alloc, I32, &[10, 20, 30, 40], &[true, false, true, false])
}

// `a`, `bc`, no text, and `def`.
pub(crate) fn texts(alloc: Global) -> VortexResult<ArrayRef> {
    let rows = byte_rows(alloc, &[b"a", b"bc", b"", b"def"])?;
    let valid = Some(bits(alloc, &[true, true, false, true])?);
    accepted(ArrayRef::var_bin_view(rows, valid, DType::utf8(Nullable)))
}

// Seconds -1, null, 5 and 86,400 in the zone UTC.
pub(crate) fn moments(alloc: Global) -> VortexResult<ArrayRef> {
    let kind = utc(alloc, TimeUnit::Seconds)?;
    stamps(alloc, kind, &[Some(-1), None, Some(5), Some(86_400)])
}

// Lists of 1 and 2, of nothing, null over 9, and of 3.
pub(crate) fn lists(alloc: Global) -> VortexResult<ArrayRef> {
    let elements = flat(alloc, I32, NonNullable, &[1, 2, 9, 3])?;
    let offsets = flat(alloc, U8, NonNullable, &[0, 2, 2, 3, 4])?;
    let valid = Some(bits(alloc, &[true, true, false, true])?);
    accepted(ArrayRef::list(alloc, elements, offsets, valid, Nullable))
}

// Pairs 1 and 2, 3 and 4, 5 and 6, 7 and 8.
pub(crate) fn pairs(alloc: Global) -> VortexResult<ArrayRef> {
    let elements = flat(alloc, U8, NonNullable, &[1, 2, 3, 4, 5, 6, 7, 8])?;
    accepted(ArrayRef::fixed_size_list(alloc, elements, 2, 4, None, NonNullable))
}

// Structs of a number and a list each, none of them null.
pub(crate) fn structs(alloc: Global) -> VortexResult<ArrayRef> {
    let mut names = Names::new_in(alloc);
    let mut fields = Arrays::new_in(alloc);
    for name in ["a", "b"] {
        let name = Text::from_string(String::from_str(alloc, name)?);
        names.push(name).ok().ok_or(VortexError::NoMemory)?;
    }
    fields
        .push(wholes(alloc)?)
        .ok()
        .ok_or(VortexError::NoMemory)?;
    fields
        .push(lists(alloc)?)
        .ok()
        .ok_or(VortexError::NoMemory)?;
    accepted(ArrayRef::structure(alloc, names, fields, 4, None, NonNullable))
}

// The list of 1 and 2 in each of four rows.
pub(crate) fn equal_lists(alloc: Global) -> VortexResult<ArrayRef> {
    Ok(ArrayRef::constant(list_scalar(alloc, &[1, 2])?, 4))
}

// Of seven rows 33, 44 and 55 in rows 0, 3 and 6, null in the others.
pub(crate) fn sparse(alloc: Global) -> VortexResult<ArrayRef> {
    let indices = flat(alloc, U8, NonNullable, &[0, 3, 6])?;
    let values = flat(alloc, I32, Nullable, &[33, 44, 55])?;
    let patches = accepted(Patches::new(7, 0, indices, values))?;
    let fill = accepted(Scalar::null(DType::primitive(I32, Nullable)))?;
    accepted(ArrayRef::sparse(alloc, patches, fill))
}

// 7, null, 7 and 8 by a dictionary.
pub(crate) fn dictionary(alloc: Global) -> VortexResult<ArrayRef> {
    let codes = flat(alloc, U8, NonNullable, &[0, 1, 0, 2])?;
    let values = with_nulls(alloc, I32, &[7, 0, 8], &[true, false, true])?;
    accepted(ArrayRef::dict(alloc, codes, values))
}
