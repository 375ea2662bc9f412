//! A piece of a column, and the number of rows that pieces give.

ghost use Rattle.std.specs.Prelude.{◌≡◌, ◌^◌, nat_lt, Some, None, if◌then◌else◌};
ghost use Rattle.vx_pieces.specs.Pieces.{piece_count, pieces_count};

/// Rows of a column, chosen by position.
#[derive(Clone, Copy, Debug)]
pub enum Piece {
    /// The rows `start` to `end - 1`, as a block that is repeated `times` times. A plain range of rows has `times` 1, and a
    /// run is one row that is repeated.
    Rows { start: u64, end: u64, times: u64 },
    /// `count` copies of a filling, which is null or the default of a type.
    Filled(u64),
}

// The number of rows that a piece gives, None where it is 2^64 or more.
fn piece_count(piece: Piece) -> Option<u64>
    ensures { result ≡ (if nat_lt (piece_count piece) (2 ^ 64) then Some (piece_count piece) else None) }
{
    match piece {
        Piece::Rows { start, end, times } => times.checked_mul(end.saturating_sub(start)),
        Piece::Filled(count) => Some(count),
    }
}

/// The number of rows that pieces give, None where it is 2^64 or more.
pub fn total(pieces: &[Piece]) -> Option<u64>
    ensures { result ≡ (if nat_lt (pieces_count pieces.now) (2 ^ 64) then Some (pieces_count pieces.now) else None) }
{
    let mut count: u64 = 0;
    for piece in pieces {
        count = count.checked_add(piece_count(*piece)?)?;
    }
    Some(count)
}
