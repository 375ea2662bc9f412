//! Pieces of lists as pieces of their elements.

ghost use Rattle.std.specs.Prelude.{◌≡◌, ◌*◌, IfSome};
ghost use Rattle.vx_base.specs.Answers.{OrMemory};
ghost use Rattle.vx_pieces.specs.Pieces.{inner_piece, inner_pieces};

use crate::piece::Piece;
use std::alloc::Global;
use vx_base::{VortexError, VortexResult};

/// What pieces of lists of `size` elements each are for the elements, one list after another: row i begins at element
/// `i * size`, and a filling has `size` elements. Answers NoMemory also where such a number is 2^64 or more: no memory holds
/// that many elements.
pub fn fixed_inner_pieces(alloc: Global, pieces: &[Piece], size: u64) -> VortexResult<Vec<Piece>>
    ensures { OrMemory result (λ inner. inner.items ≡ inner_pieces (λ row. row * size) size pieces.now) }
{
    let mut inner = Vec::with_capacity(alloc, pieces.len())?;
    for piece in pieces {
        inner.push(fixed_inner_piece(*piece, size).ok_or(VortexError::NoMemory)?)?;
    }
    Ok(inner)
}

fn fixed_inner_piece(piece: Piece, size: u64) -> Option<Piece>
    ensures { IfSome result (λ inner. inner ≡ inner_piece (λ row. row * size) size piece) }
{
    match piece {
        Piece::Rows { start, end, times } => Some(Piece::Rows {
            start: start.checked_mul(size)?,
            end: end.checked_mul(size)?,
            times,
        }),
        Piece::Filled(count) => Some(Piece::Filled(count.checked_mul(size)?)),
    }
}
