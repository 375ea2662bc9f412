//! Delta decoding, in blocks of 1,024 rows.

ghost use Rattle.std.specs.Prelude.{◌≡◌, ◌<◌, ◌+◌, ◌*◌, ◌+ℤ◌, ℕ, pos, length, map, take, slice_index_or, IfOk};
ghost use Rattle.std.specs.List.{range_with_len};
ghost use Rattle.vx_base.specs.Answers.{OrMemory};
ghost use Rattle.vx_base.specs.Wrapping.{wrap};
ghost use Rattle.vx_base.specs.Undelta.{total, undelta, undelta_row};

use crate::arithmetic::sum;
use crate::parts::{BLOCK_ROWS, rows_at_once};
use std::alloc::{AllocError, Global};
use vx_base::{Integer, VortexResult};

// Writes the rows of a part of a block: `before` plus the prefix sums of the deltas, wrapping. Returns the last row.
#[inline(always)]
fn undelta_part<T: Integer>(before: T, deltas: &[T], rows: &mut [T]) -> T
    requires { length rows.old ≡ length deltas.now }
    ensures last { T.whole result ≡ wrap T.kind (T.whole before +ℤ total (map T.whole deltas.now)) }
    ensures rows { (k : ℕ) → k < length rows.new → slice_index_or (map T.whole rows.new) k (pos 0) ≡ wrap T.kind (T.whole before +ℤ total (take (k + 1) (map T.whole deltas.now))) }
{
    let _before = before.to_whole();
    let mut last = before;
    for k in 0..deltas.len() {
        last = sum(last, deltas[k]);
        rows[k] = last;
    }
    last
}

// Appends the rows of a block, part by part, so that what `resize` writes is still in the cache when it is written over.
fn undelta_block<T: Integer>(
    bases: &[T],
    deltas: &[T],
    block: usize,
    rows: &mut Vec<T>,
) -> Result<(), AllocError>
    requires same { length deltas.now ≡ 1024 * length bases.now }
    requires block { block < length bases.now }
    requires rows { map T.whole rows.old.items ≡ map (undelta_row T.kind (map T.whole bases.now) (map T.whole deltas.now)) (range_with_len 0 (1024 * block)) }
    ensures { IfOk result (λ _. map T.whole rows.new.items ≡ map (undelta_row T.kind (map T.whole bases.now) (map T.whole deltas.now)) (range_with_len 0 (1024 * (block + 1)))) }
{
    let most = rows_at_once::<T>();
    let end = BLOCK_ROWS * (block + 1);
    let mut last = bases[block];
    let mut at = BLOCK_ROWS * block;
    while at < end {
        let next = at + (end - at).min(most);
        rows.resize(next, T::zero())?;
        last = undelta_part(last, &deltas[at..next], rows.slice_mut(at..));
        at = next;
    }
    Ok(())
}

/// The rows from bases and deltas: row r of a block is its base plus the sum of the block's deltas 0 to r, wrapping. There are
/// 1,024 deltas for each base.
pub fn undelta<T: Integer>(alloc: Global, bases: &[T], deltas: &[T]) -> VortexResult<Vec<T>>
    requires { length deltas.now ≡ 1024 * length bases.now }
    ensures size { OrMemory result (λ rows. length rows.items ≡ length deltas.now) }
    ensures rows { OrMemory result (λ rows. map T.whole rows.items ≡ undelta T.kind (map T.whole bases.now) (map T.whole deltas.now)) }
{
    let mut rows = Vec::with_capacity(alloc, deltas.len())?;
    for block in 0..bases.len() {
        undelta_block(bases, deltas, block, &mut rows)?;
    }
    Ok(rows)
}

/// `undelta` in place: the deltas become the rows.
pub fn undelta_in_place<T: Integer>(bases: &[T], rows: &mut [T])
    requires { length rows.old ≡ 1024 * length bases.now }
    ensures { map T.whole rows.new ≡ undelta T.kind (map T.whole bases.now) (map T.whole rows.old) }
{
    for block in 0..bases.len() {
        let mut last = bases[block];
        for row in BLOCK_ROWS * block..BLOCK_ROWS * (block + 1) {
            last = sum(last, rows[row]);
            rows[row] = last;
        }
    }
}
