//! The arguments of row functions.

use std::alloc::Global;
use vx_array::ArrayRef;
use vx_base::{Mask, Nullability, Scalar, Text, VortexResult};
use vx_bench_columns::{column_of, values};

/// The bits of a row. The sum of as many rows as any machine holds fits 64 bits.
pub const ROW_BITS: u32 = 32;

// A bit is true by the last two decimal digits of a random number, which don't depend on the row's highest bits.
const HUNDRED: u32 = 100;

/// Random bits, of which `percent` of a hundred are true.
pub fn chosen(alloc: Global, rows: usize, percent: u32) -> VortexResult<Mask> {
    let mut bits = Vec::with_capacity(alloc, rows)?;
    for number in values::<u32>(alloc, rows, ROW_BITS)?.as_slice() {
        bits.push(*number % HUNDRED < percent)?;
    }
    Ok(Mask::from_bits(bits))
}

/// Random numbers of rows, for at most 2^32 rows: `number * rows / 2^32` of random numbers of 32 bits.
pub fn places(alloc: Global, len: usize, rows: usize) -> VortexResult<Vec<u64>> {
    let mut places = values::<u64>(alloc, len, ROW_BITS)?;
    for place in places.iter_mut() {
        *place = place.wrapping_mul(rows as u64) >> ROW_BITS;
    }
    Ok(places)
}

/// Random indices, half as many as rows.
pub fn indices(alloc: Global, rows: usize) -> VortexResult<ArrayRef> {
    Ok(column_of(places(alloc, rows / 2, rows)?))
}

/// The middle half of the rows: the first of them, and the one behind the last.
pub fn middle(rows: usize) -> (u64, u64) {
    let (rows, quarter) = (rows as u64, rows as u64 / 4);
    (quarter, rows.saturating_sub(quarter))
}

/// A text as a scalar.
pub fn text(alloc: Global, text: &str) -> VortexResult<Scalar> {
    let text = Text::from_string(String::from_str(alloc, text)?);
    Ok(Scalar::text(text, Nullability::NonNullable)?)
}
