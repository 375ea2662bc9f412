//! The pieces that a mask stands for.

ghost use Rattle.std.specs.Prelude.{◌≡◌, List, length};
ghost use Rattle.vx_base.specs.Answers.{OrMemory};
ghost use Rattle.vx_base.specs.PlainValue.{PlainValue, null};
ghost use Rattle.vx_model.specs.Rows.{masked_rows};
ghost use Rattle.vx_pieces.specs.Kept.{kept_items};
ghost use Rattle.vx_pieces.specs.Pieces.{Gives};

use crate::growing::{add_filled, add_row};
use crate::piece::Piece;
use std::alloc::Global;
use vx_base::VortexResult;

/// The rows whose bit is true: of any column with a row per bit, the pieces give exactly these rows.
pub fn kept_pieces(alloc: Global, keep: &[bool]) -> VortexResult<Vec<Piece>>
    ensures { OrMemory result (λ pieces. (item : PlainValue) (values : List PlainValue) → length values ≡ length keep.now → Gives item pieces.items values (kept_items keep.now values)) }
{
    let mut pieces = Vec::new(alloc);
    for row in 0..keep.len() {
        if keep[row] {
            add_row(&mut pieces, row as u64)?;
        }
    }
    Ok(pieces)
}

/// The rows, with a filling where the bit is false: of any column with a row per bit, the pieces give exactly its rows with
/// null in place of those, where the filling is null.
pub fn masked_pieces(alloc: Global, keep: &[bool]) -> VortexResult<Vec<Piece>>
    ensures { OrMemory result (λ pieces. (values : List PlainValue) → length values ≡ length keep.now → Gives null pieces.items values (masked_rows keep.now values)) }
{
    let mut pieces = Vec::new(alloc);
    for row in 0..keep.len() {
        if keep[row] {
            add_row(&mut pieces, row as u64)?;
        } else {
            add_filled(&mut pieces, 1)?;
        }
    }
    Ok(pieces)
}
