//! Pieces of lists by offsets: the pieces of their elements, and the offsets of the lists that they give.

ghost use Rattle.std.specs.Prelude.{◌≡◌, ◌<◌, ◌-◌, ◌≤◌, IsTrue, length, slice_index_or};
ghost use Rattle.vx_base.specs.Answers.{OrMemory};
ghost use Rattle.vx_pieces.specs.Lengths.{lengths_between, sums_from};
ghost use Rattle.vx_pieces.specs.Pieces.{are_pieces, inner_piece, inner_pieces, is_piece, pieced};

use crate::piece::Piece;
use crate::pieced::pieced;
use std::alloc::Global;
use vx_base::{VortexError, VortexResult};

/// What pieces of lists are for their elements, where list i begins at element `offsets[i]`; a filling is an empty list.
/// `pieces` are in bounds of the lists, of which there is one less than offsets.
pub fn list_inner_pieces(
    alloc: Global,
    pieces: &[Piece],
    offsets: &[u64],
) -> VortexResult<Vec<Piece>>
    requires some { 1 ≤ length offsets.now }
    requires pieces { IsTrue (are_pieces (length offsets.now - 1) pieces.now) }
    ensures { OrMemory result (λ inner. inner.items ≡ inner_pieces (λ row. slice_index_or offsets.now row 0) 0 pieces.now) }
{
    let mut inner = Vec::with_capacity(alloc, pieces.len())?;
    for piece in pieces {
        inner.push(list_inner_piece(*piece, offsets))?;
    }
    Ok(inner)
}

fn list_inner_piece(piece: Piece, offsets: &[u64]) -> Piece
    requires some { 1 ≤ length offsets.now }
    requires piece { IsTrue (is_piece (length offsets.now - 1) piece) }
    ensures { result ≡ inner_piece (λ row. slice_index_or offsets.now row 0) 0 piece }
{
    match piece {
        Piece::Rows { start, end, times } => Piece::Rows {
            start: offsets[start as usize],
            end: offsets[end as usize],
            times,
        },
        Piece::Filled(_) => Piece::Filled(0),
    }
}

/// The offsets of the lists that pieces give, from 0 on, where `offsets` are those of all lists; a filling is an empty list.
/// Answers NoMemory also where an offset is 2^64 or more: no memory holds that many elements.
pub fn pieced_offsets(alloc: Global, pieces: &[Piece], offsets: &[u64]) -> VortexResult<Vec<u64>>
    requires some { 1 ≤ length offsets.now }
    requires pieces { IsTrue (are_pieces (length offsets.now - 1) pieces.now) }
    ensures { OrMemory result (λ sums. sums.items ≡ sums_from 0 (pieced 0 pieces.now (lengths_between offsets.now))) }
{
    let lengths = lengths_between(alloc, offsets)?;
    let lengths = pieced(alloc, lengths.as_slice(), pieces, 0)?;
    sums(alloc, lengths.as_slice())
}

// The differences between offsets, 0 where they fall.
fn lengths_between(alloc: Global, offsets: &[u64]) -> VortexResult<Vec<u64>>
    requires { 1 ≤ length offsets.now }
    ensures { OrMemory result (λ lengths. lengths.items ≡ lengths_between offsets.now) }
{
    let mut lengths = Vec::with_capacity(alloc, offsets.len() - 1)?;
    for place in 1..offsets.len() {
        lengths.push(offsets[place].saturating_sub(offsets[place - 1]))?;
    }
    Ok(lengths)
}

// The prefix sums of lengths, from 0 on.
fn sums(alloc: Global, lengths: &[u64]) -> VortexResult<Vec<u64>>
    ensures { OrMemory result (λ sums. sums.items ≡ sums_from 0 lengths.now) }
{
    let mut sums = Vec::with_capacity(alloc, lengths.len())?;
    let mut end: u64 = 0;
    sums.push(end)?;
    for length in lengths {
        end = end.checked_add(*length).ok_or(VortexError::NoMemory)?;
        sums.push(end)?;
    }
    Ok(sums)
}
