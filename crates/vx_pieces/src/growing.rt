//! Lists of pieces that grow by rows and fillings. After an Err a list is not to be used again: its last piece may be missing.

ghost use Rattle.std.specs.Prelude.{◌≡◌, ◌<◌, ◌≤◌, ◌+◌, ◌^◌, ◌∷◌, ◌++◌, [], List, length, replicate};
ghost use Rattle.vx_base.specs.Answers.{OrMemory};
ghost use Rattle.vx_base.specs.Masks.{rows_between};
ghost use Rattle.vx_base.specs.PlainValue.{PlainValue};
ghost use Rattle.vx_model.specs.Rows.{row_at};
ghost use Rattle.vx_pieces.specs.Pieces.{Gives};

use crate::piece::Piece;
use vx_base::VortexResult;

/// Appends the row `row`: pieces that give some rows of a column give that row of the column behind them. A range of rows
/// that ends at `row` is extended.
pub fn add_row(pieces: &mut Vec<Piece>, row: u64) -> VortexResult<()>
    requires { row + 1 < 2 ^ 64 }
    ensures { OrMemory result (λ _. (item : PlainValue) (values rows : List PlainValue) → row < length values → Gives item pieces.old.items values rows → Gives item pieces.new.items values (rows ++ row_at values row ∷ [])) }
{
    add_rows(pieces, row, row + 1)
}

/// Appends the rows `start` to `end - 1`: pieces that give some rows of a column give those rows of the column behind them. A
/// range of rows that ends at `start` is extended.
pub fn add_rows(pieces: &mut Vec<Piece>, start: u64, end: u64) -> VortexResult<()>
    requires { start ≤ end }
    ensures { OrMemory result (λ _. (item : PlainValue) (values rows : List PlainValue) → end ≤ length values → Gives item pieces.old.items values rows → Gives item pieces.new.items values (rows ++ rows_between values start end)) }
{
    match pieces.pop() {
        Some(
            Piece::Rows {
                start: first,
                end: last,
                times: 1,
            },
        ) if last == start && first <= last => Ok(pieces.push(Piece::Rows {
            start: first,
            end,
            times: 1,
        })?),
        Some(piece) => {
            pieces.push(piece)?;
            Ok(pieces.push(Piece::Rows {
                start,
                end,
                times: 1,
            })?)
        }
        None => Ok(pieces.push(Piece::Rows {
            start,
            end,
            times: 1,
        })?),
    }
}

/// Appends `count` fillings: pieces that give some rows give `count` copies of the filling behind them. Fillings at the end
/// are extended.
pub fn add_filled(pieces: &mut Vec<Piece>, count: u64) -> VortexResult<()>
    ensures { OrMemory result (λ _. (item : PlainValue) (values rows : List PlainValue) → Gives item pieces.old.items values rows → Gives item pieces.new.items values (rows ++ replicate count item)) }
{
    match pieces.pop() {
        Some(Piece::Filled(before)) if before <= u64::MAX - count => {
            Ok(pieces.push(Piece::Filled(before + count))?)
        }
        Some(piece) => {
            pieces.push(piece)?;
            Ok(pieces.push(Piece::Filled(count))?)
        }
        None => Ok(pieces.push(Piece::Filled(count))?),
    }
}
