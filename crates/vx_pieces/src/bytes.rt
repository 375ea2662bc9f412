//! Pieces of rows of bytes.

ghost use Rattle.std.specs.Prelude.{◌≡◌, ◌++◌, length, IsTrue, replicate};
ghost use Rattle.vx_base.specs.Answers.{Answers, OrMemory};
ghost use Rattle.vx_pieces.specs.Pieces.{repeated, piece_items, pieced, is_piece, are_pieces};

use crate::piece::{Piece, total};
use crate::pieced::part;
use std::alloc::Global;
use vx_base::{ByteRows, Bytes, VortexError, VortexResult};

/// Copies of the rows that pieces give, with the bytes of `filling` for a filled row. `pieces` are in bounds of `rows`.
pub fn pieced_bytes(
    alloc: Global,
    rows: &ByteRows,
    pieces: &[Piece],
    filling: &[u8],
) -> VortexResult<ByteRows>
    requires { IsTrue (are_pieces (length rows.now) pieces.now) }
    ensures { Answers result (pieced filling.now pieces.now rows.now) }
{
    let rows = rows.as_slice();
    let count = total(pieces).ok_or(VortexError::NoMemory)?;
    let mut all = Vec::with_capacity(alloc, count as usize)?;
    for piece in pieces {
        add_piece(alloc, &mut all, rows, *piece, filling)?;
    }
    Ok(ByteRows::from_vec(all))
}

// Appends copies of the rows that a piece gives.
fn add_piece(
    alloc: Global,
    all: &mut Vec<Bytes>,
    rows: &[Bytes],
    piece: Piece,
    filling: &[u8],
) -> VortexResult<()>
    requires { IsTrue (is_piece (length rows.now) piece) }
    ensures { OrMemory result (λ _. all.new.items ≡ all.old.items ++ piece_items filling.now rows.now piece) }
{
    match piece {
        Piece::Rows { start, end, times } => add_blocks(alloc, all, part(rows, start, end), times),
        Piece::Filled(count) => add_copies(alloc, all, filling, count),
    }
}

// Appends copies of a block of rows `times` times. No time is spent on an empty block.
fn add_blocks(alloc: Global, all: &mut Vec<Bytes>, block: &[Bytes], times: u64) -> VortexResult<()>
    ensures { OrMemory result (λ _. all.new.items ≡ all.old.items ++ repeated times block.now) }
{
    match block {
        [] => Ok(()),
        _ => add_each_block(alloc, all, block, times),
    }
}

fn add_each_block(
    alloc: Global,
    all: &mut Vec<Bytes>,
    block: &[Bytes],
    times: u64,
) -> VortexResult<()>
    ensures { OrMemory result (λ _. all.new.items ≡ all.old.items ++ repeated times block.now) }
{
    for _time in 0..times {
        add_copied(alloc, all, block)?;
    }
    Ok(())
}

// Appends a copy of each row.
fn add_copied(alloc: Global, all: &mut Vec<Bytes>, rows: &[Bytes]) -> VortexResult<()>
    ensures { OrMemory result (λ _. all.new.items ≡ all.old.items ++ rows.now) }
{
    for row in rows {
        all.push(row.copy(alloc)?)?;
    }
    Ok(())
}

// Appends `count` rows with the same bytes.
fn add_copies(alloc: Global, all: &mut Vec<Bytes>, bytes: &[u8], count: u64) -> VortexResult<()>
    ensures { OrMemory result (λ _. all.new.items ≡ all.old.items ++ replicate count bytes.now) }
{
    for _copy in 0..count {
        all.push(Bytes::from_vec(Vec::from_slice(alloc, bytes)?))?;
    }
    Ok(())
}
