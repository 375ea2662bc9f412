//! Pieces of a column with nulls: of its items they choose those of the valid rows, and a filling in place of each null row.

ghost use Rattle.std.specs.Prelude.{◌≡◌, ◌<◌, ◌≤◌, ◌-◌, ◌++◌, IfSome, IsTrue, List, false, if◌then◌else◌, length, replicate, slice_index_or, true};
ghost use Rattle.vx_base.specs.Answers.{OrMemory};
ghost use Rattle.vx_base.specs.Masks.{rows_between, is_part};
ghost use Rattle.vx_base.specs.PlainValue.{PlainValue, null};
ghost use Rattle.vx_model.specs.Refusals.{validity_length};
ghost use Rattle.vx_model.specs.Rows.{masked_rows, valid_rows};
ghost use Rattle.vx_pieces.specs.Pieces.{Gives, are_pieces, is_piece, piece_items, pieced, repeated};

use crate::growing::{add_filled, add_rows};
use crate::piece::Piece;
use std::alloc::Global;
use vx_base::{Mask, VortexResult};

/// Pieces that give of any column what `pieces` give of it with null where `valid` is false. Rows that are null become
/// fillings, so that what stands beneath a null is never read. Never more pieces than rows and pieces together.
pub fn valid_pieces(
    alloc: Global,
    pieces: &[Piece],
    valid: &Option<Mask>,
) -> VortexResult<Vec<Piece>>
    requires { IfSome valid.now (λ bits. IsTrue (are_pieces (length bits) pieces.now)) }
    ensures { OrMemory result (λ out. (values : List PlainValue) → are_pieces (length values) pieces.now ≡ true → validity_length valid.now (length values) ≡ true → Gives null out.items values (pieced null pieces.now (valid_rows valid.now values))) }
{
    match valid {
        Some(mask) => unmasked_pieces(alloc, pieces, mask.as_slice()),
        None => Ok(Vec::from_slice(alloc, pieces)?),
    }
}

// `valid_pieces` by a mask.
fn unmasked_pieces(alloc: Global, pieces: &[Piece], mask: &[bool]) -> VortexResult<Vec<Piece>>
    requires { IsTrue (are_pieces (length mask.now) pieces.now) }
    ensures { OrMemory result (λ out. (values : List PlainValue) → length values ≡ length mask.now → Gives null out.items values (pieced null pieces.now (masked_rows mask.now values))) }
{
    let mut out = Vec::new(alloc);
    for piece in pieces {
        add_piece(&mut out, mask, *piece)?;
    }
    Ok(out)
}

// Appends what a piece gives of the column with null where the mask is false.
fn add_piece(out: &mut Vec<Piece>, mask: &[bool], piece: Piece) -> VortexResult<()>
    requires { IsTrue (is_piece (length mask.now) piece) }
    ensures { OrMemory result (λ _. (values rows : List PlainValue) → length values ≡ length mask.now → Gives null out.old.items values rows → Gives null out.new.items values (rows ++ piece_items null (masked_rows mask.now values) piece)) }
{
    match piece {
        Piece::Rows { start, end, times } => add_blocks(out, mask, start, end, times),
        Piece::Filled(count) => add_filled(out, count),
    }
}

// Appends a block `times` times. No time is spent on an empty block.
fn add_blocks(
    out: &mut Vec<Piece>,
    mask: &[bool],
    start: u64,
    end: u64,
    times: u64,
) -> VortexResult<()>
    requires { IsTrue (is_part (length mask.now) start end) }
    ensures { OrMemory result (λ _. (values rows : List PlainValue) → length values ≡ length mask.now → Gives null out.old.items values rows → Gives null out.new.items values (rows ++ repeated times (rows_between (masked_rows mask.now values) start end))) }
{
    if start == end {
        return Ok(());
    }
    for _time in 0..times {
        add_part(out, mask, start, end)?;
    }
    Ok(())
}

// Appends the rows `start` to `end - 1`, one run of equal bits after another.
fn add_part(out: &mut Vec<Piece>, mask: &[bool], start: u64, end: u64) -> VortexResult<()>
    requires { IsTrue (is_part (length mask.now) start end) }
    ensures { OrMemory result (λ _. (values rows : List PlainValue) → length values ≡ length mask.now → Gives null out.old.items values rows → Gives null out.new.items values (rows ++ rows_between (masked_rows mask.now values) start end)) }
{
    let mut row = start;
    while row < end {
        let next = run_end(mask, row, end);
        add_run(out, mask[row as usize], row, next)?;
        row = next;
    }
    Ok(())
}

// The end of the run of equal bits that begins at `start`, `end` at the latest.
fn run_end(mask: &[bool], start: u64, end: u64) -> u64
    requires some { start < end }
    requires within { end ≤ length mask.now }
    ensures rising { start < result }
    ensures within { result ≤ end }
    ensures run { rows_between mask.now start result ≡ replicate (result - start) (slice_index_or mask.now start false) }
{
    for row in start + 1..end {
        if mask[row as usize] != mask[start as usize] {
            return row;
        }
    }
    end
}

// Appends the rows `start` to `end - 1` where the bit is true, else as many fillings.
fn add_run(out: &mut Vec<Piece>, bit: bool, start: u64, end: u64) -> VortexResult<()>
    requires { start ≤ end }
    ensures { OrMemory result (λ _. (values rows : List PlainValue) → end ≤ length values → Gives null out.old.items values rows → Gives null out.new.items values (rows ++ (if bit then rows_between values start end else replicate (end - start) null))) }
{
    if bit {
        add_rows(out, start, end)
    } else {
        add_filled(out, end - start)
    }
}
