//! Runs within blocks of 1,024 rows.

ghost use Rattle.std.specs.Prelude.{◌≡◌, ◌<◌, ◌≤◌, ◌+◌, ◌%◌, ℕ, length, map, slice_index_or};
ghost use Rattle.vx_base.specs.Answers.{OrMemory};
ghost use Rattle.vx_blocks.specs.Optional.{optional_rows};
ghost use Rattle.vx_blocks.specs.Runs.{heads, heads_before, offsets, run_number, run_numbers};

use crate::parts::BLOCK_ROWS;
use crate::run_ends::is_other;
use std::alloc::Global;
use vx_base::{Integer, Mask, VortexError, VortexResult, Words};

/// Runs of equal rows, each within one block.
#[derive(Debug, Drop)]
pub struct BlockRuns {
    /// The first row of each run.
    pub heads: Words,
    /// For each row the number of its run within its block, from 0; 0 in the padding of the last block.
    pub numbers: Words,
    /// For each block the number of runs that begin before it.
    pub offsets: Words,
}

// Writes the run numbers of a block, from row `start` on, and appends the first row of each of its runs to `heads`.
#[inline(always)]
fn number_block<T: Integer>(
    heads: &mut Vec<u64>,
    values: &[T],
    valid: &[bool],
    start: usize,
    numbers: &mut [u64],
) -> VortexResult<()>
    requires same { length valid.now ≡ length values.now }
    requires start { start % 1024 ≡ 0 }
    requires some { 0 < length numbers.old }
    requires few { length numbers.old ≤ 1024 }
    requires room { start + length numbers.old ≤ length values.now }
    requires heads { heads.old.items ≡ heads_before (optional_rows (map T.whole values.now) valid.now) start }
    ensures heads { OrMemory result (λ _. heads.new.items ≡ heads_before (optional_rows (map T.whole values.now) valid.now) (start + length numbers.old)) }
    ensures numbers { OrMemory result (λ _. (k : ℕ) → k < length numbers.new → slice_index_or numbers.new k 0 ≡ run_number (optional_rows (map T.whole values.now) valid.now) (start + k)) }
{
    heads.push(start as u64)?;
    numbers[0] = 0;
    let mut run = 0;
    for k in 1..numbers.len() {
        let row = start + k;
        if is_other(values[row - 1], valid[row - 1], values[row], valid[row]) {
            heads.push(row as u64)?;
            run += 1;
        }
        numbers[k] = run;
    }
    Ok(())
}

fn block_runs_of<T: Integer>(alloc: Global, values: &[T], valid: &[bool]) -> VortexResult<BlockRuns>
    requires { length valid.now ≡ length values.now }
    ensures heads { OrMemory result (λ made. made.heads ≡ heads (optional_rows (map T.whole values.now) valid.now)) }
    ensures numbers { OrMemory result (λ made. made.numbers ≡ run_numbers (optional_rows (map T.whole values.now) valid.now)) }
    ensures offsets { OrMemory result (λ made. made.offsets ≡ offsets (optional_rows (map T.whole values.now) valid.now)) }
{
    let blocks = values.len().div_ceil(BLOCK_ROWS);
    let Some(size) = blocks.checked_mul(BLOCK_ROWS) else {
        return Err(VortexError::NoMemory);
    };
    let mut heads = Vec::new(alloc);
    let mut numbers = Vec::with_capacity(alloc, size)?;
    let mut offsets = Vec::with_capacity(alloc, blocks)?;
    for block in 0..blocks {
        let start = BLOCK_ROWS * block;
        let rows = (values.len() - start).min(BLOCK_ROWS);
        offsets.push(heads.len() as u64)?;
        // What `resize` writes is still in the cache when it is written over.
        numbers.resize(start + rows, 0)?;
        number_block(&mut heads, values, valid, start, numbers.slice_mut(start..))?;
    }
    // The padding of the last block.
    numbers.resize(size, 0)?;
    Ok(BlockRuns {
        heads: Words::from_vec(heads),
        numbers: Words::from_vec(numbers),
        offsets: Words::from_vec(offsets),
    })
}

/// The runs of equal rows within blocks of 1,024 rows. A null equals a null, whatever the values beneath. `valid` has a truth
/// value per row.
pub fn block_runs<T: Integer>(alloc: Global, values: &[T], valid: &Mask) -> VortexResult<BlockRuns>
    requires { length valid.now ≡ length values.now }
    ensures heads { OrMemory result (λ made. made.heads ≡ heads (optional_rows (map T.whole values.now) valid.now)) }
    ensures numbers { OrMemory result (λ made. made.numbers ≡ run_numbers (optional_rows (map T.whole values.now) valid.now)) }
    ensures offsets { OrMemory result (λ made. made.offsets ≡ offsets (optional_rows (map T.whole values.now) valid.now)) }
{
    block_runs_of(alloc, values, valid.as_slice())
}
