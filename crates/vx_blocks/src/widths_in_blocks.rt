//! The cheapest width of each block of 1,024 rows.

ghost use Rattle.std.specs.Prelude.{◌≡◌, ◌<◌, ◌≤◌, ℕ, length, map, slice_index};
ghost use Rattle.vx_base.specs.Answers.{OrMemory};
ghost use Rattle.vx_base.specs.Integers.{bits_in, bits_of};
ghost use Rattle.vx_base.specs.Packed.{block_count, kept_rows};
ghost use Rattle.vx_blocks.specs.InBlocks.{AreBestWidths};

use crate::parts::BLOCK_ROWS;
use crate::widths::best_width_of;
use std::alloc::Global;
use vx_base::{Integer, Mask, VortexResult, Words};

fn best_widths_of<T: Integer>(alloc: Global, values: &[T], valid: &[bool]) -> VortexResult<Vec<u64>>
    requires { length valid.now ≡ length values.now }
    ensures { OrMemory result (λ widths. AreBestWidths T.kind (kept_rows 64 (map (bits_in T.kind) (map T.whole values.now)) valid.now) widths.items) }
{
    let blocks = values.len().div_ceil(BLOCK_ROWS);
    let mut widths = Vec::with_capacity(alloc, blocks)?;
    for block in 0..blocks {
        let start = BLOCK_ROWS * block;
        let end = start + (values.len() - start).min(BLOCK_ROWS);
        let width = best_width_of(&values[start..end], &valid[start..end]);
        widths.push(width as u64)?;
    }
    Ok(widths)
}

/// For each block of 1,024 rows its `best_width`, by the histogram of the block's rows alone. A null has 0 digits, a negative
/// number those of its two's complement. `valid` has a truth value per row. There is a width per block (`blocks`), of at most
/// the type's bits (`within`), as `pack_blocks` asks.
pub fn best_widths<T: Integer>(alloc: Global, values: &[T], valid: &Mask) -> VortexResult<Words>
    requires { length valid.now ≡ length values.now }
    ensures best { OrMemory result (λ widths. AreBestWidths T.kind (kept_rows 64 (map (bits_in T.kind) (map T.whole values.now)) valid.now) widths) }
    ensures blocks { OrMemory result (λ widths. length widths ≡ block_count (length values.now)) }
    ensures within { OrMemory result (λ widths. (block : ℕ) → block < length widths → slice_index widths block ≤ bits_of T.kind) }
{
    let widths = best_widths_of(alloc, values, valid.as_slice())?;
    Ok(Words::from_vec(widths))
}
