//! Pieces of lists of plain items.

ghost use Rattle.std.specs.Prelude.{◌≡◌, ◌++◌, length, IsTrue, replicate};
ghost use Rattle.vx_base.specs.Answers.{Answers, OrMemory};
ghost use Rattle.vx_base.specs.Masks.{rows_between, is_part};
ghost use Rattle.vx_pieces.specs.Pieces.{repeated, piece_items, pieced, is_piece, are_pieces};

use crate::piece::{Piece, total};
use std::alloc::Global;
use vx_base::{Mask, VortexError, VortexResult};

/// The items that pieces give. They are allocated at once.
pub(crate) fn pieced<T: Copy>(
    alloc: Global,
    items: &[T],
    pieces: &[Piece],
    filling: T,
) -> VortexResult<Vec<T>>
    requires { IsTrue (are_pieces (length items.now) pieces.now) }
    ensures { OrMemory result (λ all. all.items ≡ pieced filling pieces.now items.now) }
{
    let count = total(pieces).ok_or(VortexError::NoMemory)?;
    let mut all = Vec::with_capacity(alloc, count as usize)?;
    for piece in pieces {
        add_piece(&mut all, items, *piece, filling)?;
    }
    Ok(all)
}

// Appends the items that a piece gives.
fn add_piece<T: Copy>(all: &mut Vec<T>, items: &[T], piece: Piece, filling: T) -> VortexResult<()>
    requires { IsTrue (is_piece (length items.now) piece) }
    ensures { OrMemory result (λ _. all.new.items ≡ all.old.items ++ piece_items filling items.now piece) }
{
    match piece {
        Piece::Rows { start, end, times } => add_blocks(all, part(items, start, end), times),
        Piece::Filled(count) => add_copies(all, filling, count),
    }
}

/// The rows `start` to `end - 1`.
pub(crate) fn part<T>(rows: &[T], start: u64, end: u64) -> &[T]
    requires { IsTrue (is_part (length rows.now) start end) }
    ensures { result.now ≡ rows_between rows.now start end }
{
    &rows[start as usize..end as usize]
}

// Appends a block `times` times. A block of one item is filled in at once, and no time is spent on an empty block.
fn add_blocks<T: Copy>(all: &mut Vec<T>, block: &[T], times: u64) -> VortexResult<()>
    ensures { OrMemory result (λ _. all.new.items ≡ all.old.items ++ repeated times block.now) }
{
    match block {
        [] => Ok(()),
        [item] => add_copies(all, *item, times),
        _ => add_each_block(all, block, times),
    }
}

fn add_each_block<T: Copy>(all: &mut Vec<T>, block: &[T], times: u64) -> VortexResult<()>
    ensures { OrMemory result (λ _. all.new.items ≡ all.old.items ++ repeated times block.now) }
{
    for _time in 0..times {
        all.extend_from_slice(block)?;
    }
    Ok(())
}

// Appends `count` copies of an item.
fn add_copies<T: Copy>(all: &mut Vec<T>, item: T, count: u64) -> VortexResult<()>
    ensures { OrMemory result (λ _. all.new.items ≡ all.old.items ++ replicate count item) }
{
    let len = (all.len() as u64)
        .checked_add(count)
        .ok_or(VortexError::NoMemory)?;
    Ok(all.resize(len as usize, item)?)
}

/// The truth values that pieces give, with `filling` for a filled row. `pieces` are in bounds of `bits`.
pub fn pieced_bits(
    alloc: Global,
    bits: &Mask,
    pieces: &[Piece],
    filling: bool,
) -> VortexResult<Mask>
    requires { IsTrue (are_pieces (length bits.now) pieces.now) }
    ensures { Answers result (pieced filling pieces.now bits.now) }
{
    Ok(Mask::from_bits(pieced(alloc, bits.as_slice(), pieces, filling)?))
}
