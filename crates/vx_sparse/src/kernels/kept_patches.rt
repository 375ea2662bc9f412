//! Which patches a mask keeps, and the numbers of their rows among the kept rows.

ghost use Rattle.std.specs.Prelude.{◌≡◌, ◌<◌, ◌≤◌, ◌^◌, length, map};
ghost use Rattle.vx_base.specs.Answers.{Answers, OrMemory};
ghost use Rattle.vx_base.specs.Masks.{rank, true_count};
ghost use Rattle.vx_model.specs.Rows.{row_at, rows};
ghost use Rattle.vx_sparse.specs.Filters.{kept_bits, kept_rank, patched_row};

use crate::kernels::slices::index_at;
use std::alloc::Global;
use vx_array::Patches;
use vx_base::{Mask, VortexResult};

/// For each patch whether the mask keeps its row.
pub(crate) fn patch_bits(alloc: Global, patches: &Patches, keep: &Mask) -> VortexResult<Mask>
    ensures { Answers result (kept_bits keep.now patches.now.offset (rows patches.now.indices)) }
{
    let mut bits = Vec::new(alloc);
    for place in 0..patches.num_patches() {
        let row = patch_row(patches, place);
        let bit = keep.is_set(row);
        bits.push(bit)?;
    }
    Ok(Mask::from_bits(bits))
}

/// For each patch the number of kept rows before its row. What lies between two patches is counted once.
pub(crate) fn patch_ranks(alloc: Global, patches: &Patches, keep: &[bool]) -> VortexResult<Vec<u64>>
    requires { length keep.now ≡ patches.now.array_len }
    ensures { OrMemory result (λ ranks. ranks.items ≡ map (kept_rank keep.now patches.now.offset) (rows patches.now.indices)) }
{
    patches.known();
    let mut ranks = Vec::new(alloc);
    let mut from = 0;
    let mut count = 0;
    for place in 0..patches.num_patches() {
        let row = patch_row(patches, place);
        count = rank_from(keep, from, row, count);
        from = row;
        ranks.push(count)?;
    }
    Ok(ranks)
}

// The row of a patch.
fn patch_row(patches: &Patches, place: u64) -> u64
    requires { place < length (rows patches.now.indices) }
    ensures row { result ≡ patched_row patches.now.offset (row_at (rows patches.now.indices) place) }
    ensures below { result < patches.now.array_len }
{
    patches.known();
    counted(patches);
    let index = index_at(patches.indices(), place);
    let row = index - u128::from(patches.offset());
    row as u64
}

// Tells a proof that there are fewer than 2^64 rows.
fn counted(patches: &Patches)
    ensures { patches.now.array_len < 2 ^ 64 }
{
    let _len = patches.array_len();
}

// The number of true bits before a row, from that before an earlier one.
fn rank_from(keep: &[bool], from: u64, row: u64, count: u64) -> u64
    requires order { from ≤ row }
    requires within { row ≤ length keep.now }
    requires count { count ≡ rank keep.now from }
    ensures { result ≡ rank keep.now row }
{
    let more = trues(&keep[from as usize..row as usize]);
    count + more
}

// The number of true bits.
fn trues(bits: &[bool]) -> u64
    ensures { result ≡ true_count bits.now }
{
    let mut count = 0;
    for bit in bits {
        count += u64::from(*bit);
    }
    count
}
