//! Rows of bytes filled by runs or by patches.

ghost use Rattle.std.specs.Prelude.{◌≡◌, ◌++◌, ◌+◌, ◌^◌, [], IsTrue, true, length, map, replicate, slice_index_or};
ghost use Rattle.vx_base.specs.Answers.{Answers, OrMemory};
ghost use Rattle.vx_base.specs.PlainValue.{int};
ghost use Rattle.vx_model.specs.WellFormed.{ascend};
ghost use Rattle.vx_values.specs.IntsOf.{wholes_of};
ghost use Rattle.vx_values.specs.Placed.{by_runs, by_patches};

use super::{filled, row_of};
use crate::ints::{Ints, with_ints};
use crate::patch_rows::patch_row;
use crate::run_rows::{end_at, row_count};
use std::alloc::Global;
use vx_base::{ByteRows, Bytes, Integer, VortexResult};

/// In each row a copy of its run's row, of runs by their ends, which are exclusive. Empty where a run has no row.
pub fn in_runs(alloc: Global, ends: &Ints, rows: &ByteRows) -> VortexResult<ByteRows>
    requires { IsTrue (ascend 1 (2 ^ 64) (map int (wholes_of ends.now))) }
    ensures { Answers result (by_runs (map int (wholes_of ends.now)) rows.now []) }
{
    with_ints!(ends, ends => fill_runs(alloc, ends.as_slice(), rows))
}

// `in_runs` by ends of one type. The list of rows is allocated at once.
fn fill_runs<C: Integer>(alloc: Global, ends: &[C], rows: &ByteRows) -> VortexResult<ByteRows>
    requires { IsTrue (ascend 1 (2 ^ 64) (map int (map C.whole ends.now))) }
    ensures { Answers result (by_runs (map int (map C.whole ends.now)) rows.now []) }
{
    let mut all = Vec::with_capacity(alloc, row_count(ends))?;
    for run in 0..ends.len() {
        let count = end_at(ends, run) - all.len();
        let row = bytes_or_none(rows, run as u64);
        add_copies(alloc, &mut all, row, count as u64)?;
    }
    Ok(ByteRows::from_vec(all))
}

// The bytes of a row, none out of bounds.
fn bytes_or_none(rows: &ByteRows, row: u64) -> &[u8]
    ensures { result.now ≡ slice_index_or rows.now row [] }
{
    match rows.get(row) {
        Some(bytes) => bytes.as_slice(),
        None => &[],
    }
}

// Appends `count` rows with these bytes.
fn add_copies(alloc: Global, all: &mut Vec<Bytes>, bytes: &[u8], count: u64) -> VortexResult<()>
    ensures { OrMemory result (λ _. all.new.items ≡ all.old.items ++ replicate count bytes.now) }
{
    for _copy in 0..count {
        all.push(row_of(alloc, bytes)?)?;
    }
    Ok(())
}

/// The fill in each of `len` rows, and then a copy of each patch's row in its row, `index - offset`.
pub fn with_patches(
    alloc: Global,
    fill: &[u8],
    rows: &ByteRows,
    indices: &Ints,
    offset: u64,
    len: u64,
) -> VortexResult<ByteRows>
    requires rising { ascend offset (offset + len) (map int (wholes_of indices.now)) ≡ true }
    requires lengths { length rows.now ≡ length (wholes_of indices.now) }
    ensures { Answers result (by_patches (map int (wholes_of indices.now)) offset len rows.now fill.now) }
{
    let rows = rows.as_slice();
    with_ints!(indices, indices => write_patches(alloc, fill, rows, indices.as_slice(), offset, len))
}

// `with_patches` by indices of one type.
fn write_patches<C: Integer>(
    alloc: Global,
    fill: &[u8],
    patches: &[Bytes],
    indices: &[C],
    offset: u64,
    len: u64,
) -> VortexResult<ByteRows>
    requires rising { ascend offset (offset + len) (map int (map C.whole indices.now)) ≡ true }
    requires lengths { length patches.now ≡ length indices.now }
    ensures { Answers result (by_patches (map int (map C.whole indices.now)) offset len patches.now fill.now) }
{
    let mut rows = filled(alloc, fill, len)?.into_vec();
    for place in 0..patches.len() {
        let row = patch_row(indices, place, offset, len);
        rows[row] = patches[place].copy(alloc)?;
    }
    Ok(ByteRows::from_vec(rows))
}
