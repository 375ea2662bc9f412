//! The validity of the rows that pieces give, and whether pieces are a whole column.

ghost use Rattle.std.specs.Prelude.{◌≡◌, ◌||◌, IsTrue, not, true};
ghost use Rattle.vx_base.specs.Answers.{Answers};
ghost use Rattle.vx_model.specs.Refusals.{validity_length};
ghost use Rattle.vx_pieces.specs.Bits.{are_whole, have_filled, is_filled, is_whole, pieced_validity};
ghost use Rattle.vx_pieces.specs.Pieces.{are_pieces};

use crate::piece::Piece;
use crate::pieced::pieced_bits;
use std::alloc::Global;
use vx_base::{Mask, VortexResult};
use vx_values::{bits, keep};

/// The validity of the rows that pieces give of a column of `len` rows, None where all of them are valid. `filling` says
/// whether a filled row is valid, as the default of a type that isn't nullable is.
pub fn pieced_validity(
    alloc: Global,
    valid: &Option<Mask>,
    len: u64,
    pieces: &[Piece],
    filling: bool,
) -> VortexResult<Option<Mask>>
    requires pieces { IsTrue (are_pieces len pieces.now) }
    requires bits { validity_length valid.now len ≡ true }
    ensures { Answers result (pieced_validity filling pieces.now valid.now len) }
{
    match valid {
        Some(bits) => Ok(keep(Some(pieced_bits(alloc, bits, pieces, filling)?))),
        None if stay_valid(pieces, filling) => Ok(None),
        None => {
            let bits = bits::filled(alloc, true, len)?;
            Ok(keep(Some(pieced_bits(alloc, &bits, pieces, filling)?)))
        }
    }
}

// Whether pieces of valid rows give valid rows alone: a filled row is valid, or none is filled.
fn stay_valid(pieces: &[Piece], filling: bool) -> bool
    ensures { result ≡ (filling || not (have_filled pieces.now)) }
{
    filling || !have_filled(pieces)
}

// Whether some piece is of fillings.
fn have_filled(pieces: &[Piece]) -> bool
    ensures { result ≡ have_filled pieces.now }
{
    pieces.iter().any(|piece| is_filled(*piece))
}

fn is_filled(piece: Piece) -> bool
    ensures { result ≡ is_filled piece }
{
    match piece {
        Piece::Rows { .. } => false,
        Piece::Filled(_) => true,
    }
}

/// Whether pieces are all rows of a column of `len` rows, once and in their order: they give the column itself.
pub fn are_whole(pieces: &[Piece], len: u64) -> bool
    ensures { result ≡ are_whole len pieces.now }
{
    match pieces {
        [piece] => is_whole(*piece, len),
        _ => false,
    }
}

fn is_whole(piece: Piece, len: u64) -> bool
    ensures { result ≡ is_whole len piece }
{
    match piece {
        Piece::Rows { start, end, times } => start == 0 && end == len && times == 1,
        Piece::Filled(_) => false,
    }
}
