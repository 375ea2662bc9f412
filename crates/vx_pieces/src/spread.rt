//! Pieces of a column of fewer rows than they give: of the rows that a mask keeps, and of one row in place of equal ones.

ghost use Rattle.std.specs.Prelude.{◌≡◌, List, length, map};
ghost use Rattle.vx_base.specs.Answers.{OrMemory};
ghost use Rattle.vx_base.specs.PlainValue.{PlainValue, null};
ghost use Rattle.vx_model.specs.Rows.{masked_rows};
ghost use Rattle.vx_pieces.specs.Kept.{kept_items};
ghost use Rattle.vx_pieces.specs.Pieces.{Gives, in_one_row};

use crate::growing::{add_filled, add_row};
use crate::piece::Piece;
use std::alloc::Global;
use vx_base::{VortexError, VortexResult};

/// Pieces of the kept rows alone that give the whole column, with a filling in place of each row that isn't kept: of any
/// column with a row per bit, and null as the filling.
pub fn spread_pieces(alloc: Global, keep: &[bool]) -> VortexResult<Vec<Piece>>
    ensures { OrMemory result (λ pieces. (values : List PlainValue) → length values ≡ length keep.now → Gives null pieces.items (kept_items keep.now values) (masked_rows keep.now values)) }
{
    let mut pieces = Vec::new(alloc);
    let mut next = 0;
    for row in 0..keep.len() {
        if keep[row] {
            add_row(&mut pieces, next)?;
            next += 1;
        } else {
            add_filled(&mut pieces, 1)?;
        }
    }
    Ok(pieces)
}

/// Pieces of a column of equal rows as pieces of one such row. Answers NoMemory also where a piece gives 2^64 rows or more:
/// no memory holds them.
pub fn one_row_pieces(alloc: Global, pieces: &[Piece]) -> VortexResult<Vec<Piece>>
    ensures { OrMemory result (λ made. made.items ≡ map in_one_row pieces.now) }
{
    let mut made = Vec::with_capacity(alloc, pieces.len())?;
    for piece in pieces {
        made.push(one_row_piece(*piece)?)?;
    }
    Ok(made)
}

fn one_row_piece(piece: Piece) -> VortexResult<Piece>
    ensures { OrMemory result (λ made. made ≡ in_one_row piece) }
{
    match piece {
        Piece::Rows { start, end, times } => Ok(Piece::Rows {
            start: 0,
            end: 1,
            times: times
                .checked_mul(end.saturating_sub(start))
                .ok_or(VortexError::NoMemory)?,
        }),
        Piece::Filled(count) => Ok(Piece::Filled(count)),
    }
}
