//! Rows of bytes concatenated, and the offsets between them.

ghost use Rattle.std.specs.Prelude.{◌≡◌, ◌-◌, ◌^◌, length, min};
ghost use Rattle.vx_base.specs.Answers.{Answers};
ghost use Rattle.vx_model.specs.Nested.{concatenated};
ghost use Rattle.vx_model.specs.Offsets.{offsets_of};

use std::alloc::Global;
use vx_base::{ByteRows, Bytes, IntList, VortexError, VortexResult};

/// The bytes of all rows, one row after another. They are allocated at once.
pub fn concatenated(alloc: Global, rows: &ByteRows) -> VortexResult<Bytes>
    ensures { Answers result (concatenated rows.now) }
{
    let mut bytes = Vec::with_capacity(alloc, byte_count(rows.as_slice()))?;
    for row in rows.as_slice() {
        bytes.extend_from_slice(row.as_slice())?;
    }
    Ok(Bytes::from_vec(bytes))
}

// The number of bytes of all rows, 2^64 - 1 where there are more.
fn byte_count(rows: &[Bytes]) -> usize
    ensures { result ≡ min (length (concatenated rows.now)) (2 ^ 64 - 1) }
{
    let mut count: usize = 0;
    for row in rows {
        count = count.saturating_add(row.as_slice().len());
    }
    count
}

/// The offset of each row in the concatenated bytes, and the end of the last one. Answers NoMemory where there are 2^64 bytes
/// or more, which no memory holds.
pub fn offsets(alloc: Global, rows: &ByteRows) -> VortexResult<IntList<u64>>
    ensures { Answers result (offsets_of rows.now) }
{
    let mut offsets = Vec::with_capacity(alloc, rows.as_slice().len() + 1)?;
    let mut end: u64 = 0;
    offsets.push(end)?;
    for row in rows.as_slice() {
        end = end.checked_add(row.len()).ok_or(VortexError::NoMemory)?;
        offsets.push(end)?;
    }
    Ok(IntList::from_vec(offsets))
}
