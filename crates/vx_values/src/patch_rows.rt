//! The fill in every row, and then patches in the rows that have one.

ghost use Rattle.std.specs.Prelude.{◌≡◌, ◌<◌, ◌+◌, true, length, map};
ghost use Rattle.vx_base.specs.Answers.{OrMemory};
ghost use Rattle.vx_base.specs.PlainValue.{int};
ghost use Rattle.vx_model.specs.Rows.{offset_at};
ghost use Rattle.vx_model.specs.WellFormed.{ascend};
ghost use Rattle.vx_values.specs.IntsOf.{wholes_of};
ghost use Rattle.vx_values.specs.Placed.{by_patches};

use crate::ints::{Ints, with_ints};
use std::alloc::Global;
use vx_base::{Integer, VortexResult};

/// The fill in each of `len` rows, and then each patch's item in its row, `index - offset`.
pub(crate) fn with_patches<T: Copy>(
    alloc: Global,
    fill: T,
    items: &[T],
    indices: &Ints,
    offset: u64,
    len: u64,
) -> VortexResult<Vec<T>>
    requires rising { ascend offset (offset + len) (map int (wholes_of indices.now)) ≡ true }
    requires lengths { length items.now ≡ length (wholes_of indices.now) }
    ensures { OrMemory result (λ rows. rows.items ≡ by_patches (map int (wholes_of indices.now)) offset len items.now fill) }
{
    with_ints!(indices, indices => write_patches(alloc, fill, items, indices.as_slice(), offset, len))
}

// `with_patches` by indices of one type.
fn write_patches<C: Integer, T: Copy>(
    alloc: Global,
    fill: T,
    items: &[T],
    indices: &[C],
    offset: u64,
    len: u64,
) -> VortexResult<Vec<T>>
    requires rising { ascend offset (offset + len) (map int (map C.whole indices.now)) ≡ true }
    requires lengths { length items.now ≡ length indices.now }
    ensures { OrMemory result (λ rows. rows.items ≡ by_patches (map int (map C.whole indices.now)) offset len items.now fill) }
{
    let mut rows = Vec::with_capacity(alloc, len as usize)?;
    rows.resize(len as usize, fill)?;
    for place in 0..items.len() {
        let row = patch_row(indices, place, offset, len);
        rows[row] = items[place];
    }
    Ok(rows)
}

/// The row of a patch: its index less the offset.
#[inline(always)]
pub(crate) fn patch_row<C: Integer>(indices: &[C], place: usize, offset: u64, len: u64) -> usize
    requires rising { ascend offset (offset + len) (map int (map C.whole indices.now)) ≡ true }
    requires in_indices { place < length indices.now }
    ensures within { result < len }
    ensures row { offset + result ≡ offset_at (map int (map C.whole indices.now)) place }
{
    (indices[place].to_bits() - offset) as usize
}
