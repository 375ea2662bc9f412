//! Plain columns: without nulls, or with a null in each tenth row where they are nullable.

use crate::listed::Listed;
use crate::rows::values;
use std::alloc::Global;
use vx_array::ArrayRef;
use vx_base::{Mask, Nullability, PType, Scalar, VortexResult};

// The distance between null rows: the last one of each ten is null.
const NULL_STEP: u32 = 10;

/// The bits of the rows of `random`.
pub const WIDE: u32 = 63;

/// Validity bits, of which each tenth is false.
pub fn each_tenth_null(alloc: Global, rows: usize) -> VortexResult<Mask> {
    let mut bits = vec![in alloc; true; rows]?;
    let mut left = NULL_STEP;
    for bit in bits.iter_mut() {
        left = left.saturating_sub(1);
        if left == 0 {
            *bit = false;
            left = NULL_STEP;
        }
    }
    Ok(Mask::from_bits(bits))
}

/// The validity of a column: none where it isn't nullable.
pub fn validity(
    alloc: Global,
    rows: usize,
    nullability: Nullability,
) -> VortexResult<Option<Mask>> {
    match nullability {
        Nullability::NonNullable => Ok(None),
        Nullability::Nullable => Ok(Some(each_tenth_null(alloc, rows)?)),
    }
}

/// A plain column of these rows.
pub fn column<T: Listed>(
    alloc: Global,
    rows: Vec<T>,
    nullability: Nullability,
) -> VortexResult<ArrayRef> {
    let valid = validity(alloc, rows.len(), nullability)?;
    Ok(ArrayRef::primitive(T::list(rows), valid, nullability)?)
}

/// A plain column of random rows.
pub fn random(alloc: Global, rows: usize, nullability: Nullability) -> VortexResult<ArrayRef> {
    column(alloc, values::<u64>(alloc, rows, WIDE)?, nullability)
}

/// The numbers `first`, `first + step` and so on, modulo 2^64.
pub fn steps(alloc: Global, len: usize, first: u64, step: u64) -> VortexResult<Vec<u64>> {
    let mut items = Vec::with_capacity(alloc, len)?;
    let mut next = first;
    for _ in 0..len {
        items.push(next)?;
        next = next.wrapping_add(step);
    }
    Ok(items)
}

/// A `u64` as a scalar.
pub fn scalar(value: u64, nullability: Nullability) -> VortexResult<Scalar> {
    Scalar::primitive(i128::from(value), PType::U64, nullability)
}
