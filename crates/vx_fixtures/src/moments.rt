//! Columns of timestamps made of slices, and compared with them.

use crate::columns::column;
use crate::making::accepted;
use std::alloc::Global;
use vx_array::ArrayRef;
use vx_base::PType::I64;
use vx_base::{Text, TimeUnit, TimestampType, VortexResult};

/// Timestamps of a unit in the zone UTC.
pub fn utc(alloc: Global, unit: TimeUnit) -> VortexResult<TimestampType> {
    let zone = Text::from_string(String::from_str(alloc, "UTC")?);
    accepted(TimestampType::new(unit, Some(zone)))
}

/// The plain column of a kind with these rows, None for null; nullable where some row is null.
pub fn stamps(alloc: Global, kind: TimestampType, rows: &[Option<i128>]) -> VortexResult<ArrayRef> {
    accepted(ArrayRef::timestamp(alloc, column(alloc, I64, rows)?, kind))
}

/// Whether a column has these numbers as its rows, None for null.
pub fn has_stamps(array: &ArrayRef, rows: &[Option<i128>]) -> bool {
    if !array.dtype().is_flat() || array.len() != rows.len() as u64 {
        return false;
    }
    for row in 0..rows.len() {
        if array.cell_at(row as u64).integer() != rows[row] {
            return false;
        }
    }
    true
}
