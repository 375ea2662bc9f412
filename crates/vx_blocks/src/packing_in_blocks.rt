//! Bit packing at a width for each block of 1,024 rows.

ghost use Rattle.std.specs.Prelude.{◌≡◌, ◌<◌, ◌≤◌, ◌^◌, ℕ, length, map, slice_index};
ghost use Rattle.vx_base.specs.Answers.{OrMemory};
ghost use Rattle.vx_base.specs.Integers.{bits_in, bits_of};
ghost use Rattle.vx_base.specs.Packed.{block_count};
ghost use Rattle.vx_blocks.specs.InBlocks.{ArePackedBlocks};

use crate::packing::pack_behind;
use crate::parts::BLOCK_ROWS;
use crate::widths::total;
use std::alloc::Global;
use vx_base::{Integer, Mask, VortexError, VortexResult, Words};

// The bytes of a block for each bit of its width.
const BYTES_PER_BIT: usize = BLOCK_ROWS / 8;

// Tells a proof that each byte is below 2^8, so that the number of some bytes determines them.
fn known_bytes(bytes: &[u8])
    ensures { (k : ℕ) → slice_index bytes.now k < 2 ^ 8 }
{}

fn pack_blocks_of<T: Integer>(
    alloc: Global,
    values: &[T],
    valid: &[bool],
    widths: &[u64],
) -> VortexResult<Vec<u8>>
    requires same { length valid.now ≡ length values.now }
    requires blocks { length widths.now ≡ block_count (length values.now) }
    requires within { (block : ℕ) → block < length widths.now → slice_index widths.now block ≤ 64 }
    ensures { OrMemory result (λ bytes. ArePackedBlocks widths.now (map (bits_in T.kind) (map T.whole values.now)) valid.now bytes.items) }
{
    let Some(size) = (total(widths) as usize).checked_mul(BYTES_PER_BIT) else {
        return Err(VortexError::NoMemory);
    };
    let mut out = Vec::with_capacity(alloc, size)?;
    for block in 0..widths.len() {
        let start = BLOCK_ROWS * block;
        let end = start + (values.len() - start).min(BLOCK_ROWS);
        let width = widths[block] as u32;
        let next = out.len() + BYTES_PER_BIT * width as usize;
        out = pack_behind(out, &values[start..end], &valid[start..end], width, next)?;
        known_bytes(out.as_slice());
    }
    Ok(out)
}

/// Packs each block of 1,024 rows at its own width, as `pack` does, one block after another: 128 * width bytes each. There is
/// a width per block, of at most the type's bits. `valid` has a truth value per row.
pub fn pack_blocks<T: Integer>(
    alloc: Global,
    values: &[T],
    valid: &Mask,
    widths: &Words,
) -> VortexResult<Vec<u8>>
    requires same { length valid.now ≡ length values.now }
    requires blocks { length widths.now ≡ block_count (length values.now) }
    requires within { (block : ℕ) → block < length widths.now → slice_index widths.now block ≤ bits_of T.kind }
    ensures { OrMemory result (λ bytes. ArePackedBlocks widths.now (map (bits_in T.kind) (map T.whole values.now)) valid.now bytes.items) }
{
    pack_blocks_of(alloc, values, valid.as_slice(), widths.as_slice())
}
