//! Reads all that a source gives, up to a limit.

ghost use Rattle.std.specs.Prelude.{◌≡◌, ◌<◌, ◌≤◌, ◌+◌, IfOk, OnErr, vec_len, length};
ghost use Rattle.vx_program.specs.Reading.{limit, Came, Blames, TakesAtMost, Adds, TurnBlames};

use crate::outside::Source;
use std::alloc::{AllocError, Global};

/// The greatest number of bytes that is read whole, 64 MiB: it bounds the memory that a document can take.
pub const LIMIT: usize = 1 << 26;

/// The bytes that one read has room for: 64 KiB, the most that a pipe of Linux holds by default.
const PIECE: usize = 1 << 16;

/// What came from a source.
#[derive(Drop)]
pub enum Input {
    /// All bytes, at most `LIMIT`.
    Whole(Vec<u8>),
    /// More than `LIMIT` bytes came; one above it was read.
    TooLong,
    /// A read failed.
    Fault,
}

// What one read came to.
enum Turn {
    // At least one byte.
    More,
    // The end.
    End,
    // A failure.
    Fault,
}

// `len` zeros. The length is a parameter: of a constant length a proof would write the list out.
fn zeros(alloc: Global, len: usize) -> Result<Vec<u8>, AllocError>
    ensures { IfOk result (λ v. vec_len v ≡ len) }
{
    vec![in alloc; 0u8; len]
}

// Appends to `bytes` what one read into `piece` gives.
fn read_more<I: Source>(
    source: &mut I,
    piece: &mut [u8],
    bytes: &mut Vec<u8>,
) -> Result<Turn, AllocError>
    requires { 0 < length piece.old }
    ensures bytes { IfOk result (Adds (I.left source.old) (I.left source.new) bytes.old.items
        bytes.new.items (length piece.old)) }
    ensures cause { IfOk result (TurnBlames (I.faults source.old) (I.faults source.new)) }
    ensures no_memory { OnErr result (I.faults source.new ≡ I.faults source.old) }
    ensures most { TakesAtMost (I.left source.old) (I.left source.new) (length piece.old) }
{
    let Ok(count) = source.read(piece) else {
        return Ok(Turn::Fault);
    };
    if count == 0 {
        return Ok(Turn::End);
    }
    bytes.extend_from_slice(&piece[..count])?;
    Ok(Turn::More)
}

/// Reads until a fault, the end, or one byte above `LIMIT`, whichever comes first. An Err means that memory ran out; the
/// count of faults is then as it was.
pub fn read_all<I: Source>(alloc: Global, source: &mut I) -> Result<Input, AllocError>
    ensures bytes { IfOk result (Came (I.left source.old) (I.left source.new)) }
    ensures cause { IfOk result (Blames (I.faults source.old) (I.faults source.new)) }
    ensures no_memory { OnErr result (I.faults source.new ≡ I.faults source.old) }
    ensures most { TakesAtMost (I.left source.old) (I.left source.new) (limit + 1) }
{
    let mut bytes = Vec::new(alloc);
    let mut piece = zeros(alloc, PIECE)?;
    // Each turn but the last takes at least one byte, so LIMIT + 1 turns reach one of the three.
    for _turn in 0..LIMIT + 1 {
        let room = piece.len().min(LIMIT + 1 - bytes.len());
        match read_more(source, &mut piece[..room], &mut bytes)? {
            Turn::Fault => return Ok(Input::Fault),
            Turn::End => return Ok(Input::Whole(bytes)),
            Turn::More => {
                if bytes.len() > LIMIT {
                    return Ok(Input::TooLong);
                }
            }
        }
    }
    Ok(Input::TooLong)
}
