//! Packed columns.

use std::alloc::Global;
use vx_array::ArrayRef;
use vx_base::{Bytes, Mask, Nullability, PType, VortexResult};
use vx_bench_columns::{validity, values};
use vx_blocks::pack;

/// The bits of packed rows.
pub(super) const WIDTH: u32 = 12;

/// `WIDTH` bits of each of some random rows.
pub(super) fn packed_bytes(alloc: Global, rows: usize) -> VortexResult<Bytes> {
    let items = values::<u64>(alloc, rows, WIDTH)?;
    let valid = Mask::from_bits(vec![in alloc; true; items.len()]?);
    let bytes = pack(alloc, items.as_slice(), &valid, WIDTH)?;
    Ok(Bytes::from_vec(bytes))
}

/// A column of packed rows.
pub fn packed(alloc: Global, rows: usize, nullability: Nullability) -> VortexResult<ArrayRef> {
    let valid = validity(alloc, rows, nullability)?;
    let bytes = packed_bytes(alloc, rows)?;
    let (len, ptype) = (rows as u64, PType::U64);
    Ok(ArrayRef::bit_packed(alloc, ptype, WIDTH, bytes, len, valid, None, nullability)?)
}
