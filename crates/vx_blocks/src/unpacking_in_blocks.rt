//! Bit unpacking at a width for each block of 1,024 rows.

ghost use Rattle.std.specs.Prelude.{◌≡◌, ◌<◌, ◌≤◌, ◌+◌, ◌-◌, ◌*◌, pos, length, map, drop, slice_index, IfOk};
ghost use Rattle.std.specs.List.{range_with_len};
ghost use Rattle.vx_base.specs.Answers.{OrMemory};
ghost use Rattle.vx_base.specs.Integers.{natural_bits};
ghost use Rattle.vx_base.specs.Packed.{block_count};
ghost use Rattle.vx_base.specs.PackedBlocks.{block_row};
ghost use Rattle.vx_base.specs.Wrapping.{wrap};
ghost use Rattle.vx_blocks.specs.Appended.{AppendsRows};
ghost use Rattle.vx_blocks.specs.InBlocks.{AreBlockOffsets};

use crate::parts::BLOCK_ROWS;
use crate::unpacking::read_rows;
use std::alloc::{AllocError, Global};
use vx_base::{Integer, VortexResult};

// Appends the first `count` rows of the block from `first` to `next`, both in units of 128 bytes. The bytes behind the block are
// handed on too, so that its last rows are read by whole words.
fn read_block<T: Integer>(
    made: &mut Vec<T>,
    packed: &[u8],
    first: u64,
    next: u64,
    count: u64,
) -> Result<(), AllocError>
    requires order { first ≤ next }
    requires narrow { next ≤ first + 64 }
    requires few { count ≤ 1024 }
    requires bytes { 128 * next ≤ length packed.now }
    ensures { IfOk result (λ _. AppendsRows (λ n. wrap T.kind (pos n)) (drop (128 * first) packed.now) (next - first) 0 count (map T.whole made.old.items) (map T.whole made.new.items)) }
{
    let bytes = &packed[BLOCK_ROWS / 8 * first as usize..];
    read_rows(made, bytes, (next - first) as u32, 0, count)?;
    Ok(())
}

/// The first `rows` rows as integers of a type. Block b begins at byte 128 * `offsets[b]`, and its width is the difference of
/// the next offset, at most the bits of the type's greatest value. The last offset ends the last block, in bounds of `packed`.
/// One row is read by `get`, from its block's first byte on.
pub fn unpack_blocks<T: Integer>(
    alloc: Global,
    packed: &[u8],
    offsets: &[u64],
    rows: u64,
) -> VortexResult<Vec<T>>
    requires blocks { length offsets.now ≡ block_count rows + 1 }
    requires offsets { AreBlockOffsets (natural_bits T.kind) offsets.now }
    requires bytes { 128 * slice_index offsets.now (block_count rows) ≤ length packed.now }
    ensures { OrMemory result (λ made. map T.whole made.items ≡ map (λ row. pos (block_row packed.now offsets.now row)) (range_with_len 0 rows)) }
{
    let len = rows as usize;
    let mut made = Vec::with_capacity(alloc, len)?;
    for block in 0..len.div_ceil(BLOCK_ROWS) {
        let count = (len - BLOCK_ROWS * block).min(BLOCK_ROWS);
        read_block(
            &mut made,
            packed,
            offsets[block],
            offsets[block + 1],
            count as u64,
        )?;
    }
    Ok(made)
}
