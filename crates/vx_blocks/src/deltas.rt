//! Delta encoding, in blocks of 1,024 rows.

ghost use Rattle.std.specs.Prelude.{◌≡◌, ◌≢◌, ◌<◌, ◌≤◌, ◌+◌, ◌-◌, ◌*◌, ◌%◌, ◌∷◌, ℕ, pos, length, map, slice_index_or, IfOk, IsTrue, false};
ghost use Rattle.std.specs.Bool.{OnTrue};
ghost use Rattle.std.specs.List.{range_with_len};
ghost use Rattle.vx_base.specs.Answers.{OrMemory};
ghost use Rattle.vx_blocks.specs.Deltas.{bases, delta, deltas, filled};
ghost use Rattle.vx_blocks.specs.Optional.{optional_rows};

use crate::arithmetic::{difference, item_or};
use crate::parts::{BLOCK_ROWS, rows_at_once};
use std::alloc::{AllocError, Global};
use vx_base::{Integer, Mask, VortexError, VortexResult};

// Whether the rows `start` to `end - 1` are all valid, by `&` over all of them: no branch per row.
#[inline(always)]
fn are_valid(valid: &[bool], start: usize, end: usize) -> bool
    requires rising { start ≤ end }
    requires ends { end ≤ length valid.now }
    ensures { OnTrue result ((k : ℕ) → start ≤ k → k < end → IsTrue (slice_index_or valid.now k false)) }
{
    let mut all = true;
    for i in start..end {
        all &= valid[i];
    }
    all
}

// Writes the deltas of a part of a block, from `start` on, the first from `before`: the row before it, or the first row of
// the block itself. Returns the last row. Where all rows are valid, each delta is computed from the slice alone, so that
// the loop carries nothing from row to row.
#[inline(always)]
fn delta_part<T: Integer>(
    values: &[T],
    valid: &[bool],
    start: usize,
    before: T,
    deltas: &mut [T],
) -> T
    requires same { length valid.now ≡ length values.now }
    requires some { 0 < length deltas.old }
    requires part { start % 1024 + length deltas.old ≤ 1024 }
    requires room { start + length deltas.old ≤ length values.now }
    requires first { start % 1024 ≡ 0 → T.whole before ≡ slice_index_or (filled (optional_rows (map T.whole values.now) valid.now)) start (pos 0) }
    requires other { start % 1024 ≢ 0 → T.whole before ≡ slice_index_or (filled (optional_rows (map T.whole values.now) valid.now)) (start - 1) (pos 0) }
    ensures last { T.whole result ≡ slice_index_or (filled (optional_rows (map T.whole values.now) valid.now)) (start + length deltas.old - 1) (pos 0) }
    ensures deltas { (k : ℕ) → k < length deltas.new → slice_index_or (map T.whole deltas.new) k (pos 0) ≡ delta T.kind (filled (optional_rows (map T.whole values.now) valid.now)) (start + k) }
{
    let first = item_or(valid[start], values[start], before);
    deltas[0] = difference(first, before);
    if are_valid(valid, start, start + deltas.len()) {
        for k in 1..deltas.len() {
            deltas[k] = difference(values[start + k], values[start + k - 1]);
        }
        return values[start + deltas.len() - 1];
    }
    let mut last = first;
    for k in 1..deltas.len() {
        let item = item_or(valid[start + k], values[start + k], last);
        deltas[k] = difference(item, last);
        last = item;
    }
    last
}

// Appends the deltas of a block, rows `start` to `end - 1`: part by part, so that what `resize` writes is still in the
// cache when it is written over. Returns the base and the last row.
fn delta_block<T: Integer>(
    values: &[T],
    valid: &[bool],
    start: usize,
    end: usize,
    before: T,
    deltas: &mut Vec<T>,
) -> Result<(T, T), AllocError>
    requires same { length valid.now ≡ length values.now }
    requires start { start % 1024 ≡ 0 }
    requires some { start < end }
    requires few { end ≤ start + 1024 }
    requires room { end ≤ length values.now }
    requires before { T.whole before ≡ slice_index_or (pos 0 ∷ filled (optional_rows (map T.whole values.now) valid.now)) start (pos 0) }
    requires deltas { map T.whole deltas.old.items ≡ map (delta T.kind (filled (optional_rows (map T.whole values.now) valid.now))) (range_with_len 0 start) }
    ensures base { IfOk result (λ made. T.whole made.0 ≡ slice_index_or (filled (optional_rows (map T.whole values.now) valid.now)) start (pos 0)) }
    ensures last { IfOk result (λ made. T.whole made.1 ≡ slice_index_or (pos 0 ∷ filled (optional_rows (map T.whole values.now) valid.now)) end (pos 0)) }
    ensures deltas { IfOk result (λ _. map T.whole deltas.new.items ≡ map (delta T.kind (filled (optional_rows (map T.whole values.now) valid.now))) (range_with_len 0 end)) }
{
    let most = rows_at_once::<T>();
    let base = item_or(valid[start], values[start], before);
    let mut last = base;
    let mut at = start;
    while at < end {
        let next = at + (end - at).min(most);
        deltas.resize(next, T::zero())?;
        last = delta_part(values, valid, at, last, deltas.slice_mut(at..));
        at = next;
    }
    Ok((base, last))
}

fn deltas_of<T: Integer>(
    alloc: Global,
    values: &[T],
    valid: &[bool],
) -> VortexResult<(Vec<T>, Vec<T>)>
    requires { length valid.now ≡ length values.now }
    ensures size { OrMemory result (λ made. length made.1.items ≡ 1024 * length made.0.items) }
    ensures bases { OrMemory result (λ made. map T.whole made.0.items ≡ bases (filled (optional_rows (map T.whole values.now) valid.now))) }
    ensures deltas { OrMemory result (λ made. map T.whole made.1.items ≡ deltas T.kind (filled (optional_rows (map T.whole values.now) valid.now))) }
{
    let blocks = values.len().div_ceil(BLOCK_ROWS);
    let Some(size) = blocks.checked_mul(BLOCK_ROWS) else {
        return Err(VortexError::NoMemory);
    };
    let mut bases = Vec::with_capacity(alloc, blocks)?;
    let mut deltas = Vec::with_capacity(alloc, size)?;
    let mut last = T::zero();
    for block in 0..blocks {
        let start = BLOCK_ROWS * block;
        let end = start + (values.len() - start).min(BLOCK_ROWS);
        let made = delta_block(values, valid, start, end, last, &mut deltas)?;
        bases.push(made.0)?;
        last = made.1;
    }
    // The padding of the last block.
    deltas.resize(size, T::zero())?;
    Ok((bases, deltas))
}

/// The bases and the deltas of blocks of 1,024 rows, where each null takes the last valid row before it, and 0 before the
/// first. A base is its block's first row. A delta is the difference from the row before, wrapped into the type; it is 0
/// at a block's first row, and for the rows that fill the last block. `valid` has a truth value for each row.
pub fn delta_blocks<T: Integer>(
    alloc: Global,
    values: &[T],
    valid: &Mask,
) -> VortexResult<(Vec<T>, Vec<T>)>
    requires { length valid.now ≡ length values.now }
    ensures size { OrMemory result (λ made. length made.1.items ≡ 1024 * length made.0.items) }
    ensures bases { OrMemory result (λ made. map T.whole made.0.items ≡ bases (filled (optional_rows (map T.whole values.now) valid.now))) }
    ensures deltas { OrMemory result (λ made. map T.whole made.1.items ≡ deltas T.kind (filled (optional_rows (map T.whole values.now) valid.now))) }
{
    deltas_of(alloc, values, valid.as_slice())
}
