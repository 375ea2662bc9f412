//! Arithmetic sequences: which fit their type, a row, decoding.

ghost use Rattle.std.specs.Prelude.{◌≡◌, ◌<◌, ◌-◌, ◌&&◌, ◌||◌, ◌==◌, ◌+ℤ◌, ◌*ℤ◌, IsTrue, None, map, pos};
ghost use Rattle.vx_base.specs.Answers.{OrMemory};
ghost use Rattle.vx_base.specs.CellValue.{cell_value};
ghost use Rattle.vx_base.specs.Integers.{lies_in};
ghost use Rattle.vx_base.specs.PlainValue.{int};
ghost use Rattle.vx_blocks.specs.Sequence.{sequence_row};
ghost use Rattle.vx_model.specs.Rows.{below};
ghost use Rattle.vx_model.specs.Tree.{sequence};
ghost use Rattle.vx_model.specs.WellFormed.{IsSequence};
ghost use Rattle.vx_values.specs.ValuesOf.{ints, AreRows};

use std::alloc::Global;
use vx_base::{Cell, PType, VortexResult};
use vx_values::{Decoded, Ints, Values};

/// Whether the first and the last row lie in the type, where there are rows. Then all rows between them do too.
pub fn are_held(ptype: PType, first: i128, step: i128, len: u64) -> bool
    ensures { result ≡ (len == 0 || lies_in ptype first && lies_in ptype (first +ℤ pos (len - 1) *ℤ step)) }
{
    len == 0 || is_held(ptype, first) && is_held_behind(ptype, first, step, len - 1)
}

/// Whether a whole number lies in the type.
pub fn is_held(ptype: PType, whole: i128) -> bool
    ensures { result ≡ lies_in ptype whole }
{
    whole >= ptype.least() && whole <= ptype.greatest()
}

// Whether `first + steps * step` lies in the type. A sum that needs more than 128 bits doesn't.
fn is_held_behind(ptype: PType, first: i128, step: i128, steps: u64) -> bool
    requires { IsTrue (lies_in ptype first) }
    ensures { result ≡ lies_in ptype (first +ℤ pos steps *ℤ step) }
{
    let Some(moved) = i128::from(steps).checked_mul(step) else {
        return false;
    };
    match first.checked_add(moved) {
        Some(whole) => is_held(ptype, whole),
        None => false,
    }
}

/// `first + row * step`.
pub fn sequence_at(ptype: PType, first: i128, step: i128, len: u64, row: u64) -> Cell<'static>
    requires sequence { IsSequence ptype first step len }
    requires in_range { row < len }
    ensures { cell_value result ≡ int (first +ℤ pos row *ℤ step) }
{
    Cell::Int(number_at(ptype, first, step, len, row))
}

// `sequence_at` as a number, which lies in the type.
fn number_at(ptype: PType, first: i128, step: i128, len: u64, row: u64) -> i128
    requires sequence { IsSequence ptype first step len }
    requires in_range { row < len }
    ensures whole { result ≡ first +ℤ pos row *ℤ step }
    ensures held { IsTrue (lies_in ptype result) }
{
    first + i128::from(row) * step
}

/// The rows of a sequence, which has no nulls.
pub fn decoded_sequence(
    alloc: Global,
    ptype: PType,
    first: i128,
    step: i128,
    len: u64,
) -> VortexResult<Decoded>
    requires { IsSequence ptype first step len }
    ensures { OrMemory result (AreRows (ints ptype) (map int (below (sequence_row first step) len)) None) }
{
    Ok(Decoded {
        values: Values::Ints(Ints::stepped(alloc, ptype, first, step, len)?),
        valid: None,
    })
}
