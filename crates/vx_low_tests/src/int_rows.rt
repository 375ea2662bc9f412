//! Runs, sequences and deltas of lists of integers, once each. A list is dropped before the only exit of a test, since each exit
//! that drops one is proved by itself.

ghost use Rattle.std.specs.Prelude.{◌≡◌, length};
ghost use Rattle.vx_base.specs.Answers.{OrMemory};
ghost use Rattle.vx_values.specs.IntsOf.{wholes_of};

use crate::ints::{are_wholes, shows};
use std::alloc::Global;
use std::test::Fail;
use vx_base::PType::{I16, I32};
use vx_base::{IntList, Mask, VortexResult};
use vx_blocks::BlockRuns;
use vx_values::Ints;

// Whether a block of 1,024 rows is `first`, `second`, and `others` in the remaining rows.
fn is_block(rows: &Ints, first: i128, second: i128, others: i128) -> bool {
    if rows.len() != 1024 || rows.whole_at(0) != first || rows.whole_at(1) != second {
        return false;
    }
    for row in 2..1024 {
        if rows.whole_at(row) != others {
            return false;
        }
    }
    true
}

// 5, 5, null, null, 5.
fn fives(alloc: Global) -> VortexResult<(Ints, Mask)>
    ensures { OrMemory result (λ made. length made.1 ≡ length (wholes_of made.0)) }
{
    let valid = Mask::from_bits(vec![in alloc; true, true, false, false, true]?);
    let values = Ints::I32(IntList::from_vec(vec![in alloc; 5, 5, 6, 7, 5]?));
    Ok((values, valid))
}

#[test]
fn runs_end(rt: HostRuntime) -> Result<(), Fail> {
    let (values, valid) = fives(rt.alloc())?;
    let ends = values.runs(rt.alloc(), &valid)?;
    assert!(rt; ends.as_slice() == [2, 4, 5].as_slice());
    Ok(())
}

// Whether the runs of one block have these heads, and row 3 is in the second one.
fn begin_at(made: &BlockRuns, heads: &[u64]) -> bool {
    made.heads.as_slice() == heads
        && made.offsets.as_slice() == [0].as_slice()
        && made.numbers.get(3) == Some(&1)
}

#[test]
fn runs_begin_in_their_block(rt: HostRuntime) -> Result<(), Fail> {
    let (values, valid) = fives(rt.alloc())?;
    let made = values.block_runs(rt.alloc(), &valid)?;
    assert!(rt; begin_at(&made, &[0, 2, 4]));
    Ok(())
}

#[test]
fn sequences_are_found(rt: HostRuntime) -> Result<(), Fail> {
    let falling = Ints::I8(IntList::from_vec(vec![in rt.alloc(); 3, 2]?));
    let found = falling.sequence();
    drop(falling);
    assert_eq!(rt; found, Some((3, -1)));
    Ok(())
}

#[test]
fn unsigned_steps_do_not_fall(rt: HostRuntime) -> Result<(), Fail> {
    let falling = Ints::U8(IntList::from_vec(vec![in rt.alloc(); 3, 2]?));
    let found = falling.sequence();
    drop(falling);
    assert_eq!(rt; found, None);
    Ok(())
}

#[test]
fn sequences_are_made(rt: HostRuntime) -> Result<(), Fail> {
    let made = shows(
        Ints::stepped(rt.alloc(), I16, 3, -2, 4),
        I16,
        &[3, 1, -1, -3],
    );
    assert!(rt; made?);
    Ok(())
}

// Whether these are the base 5 and a block of the deltas 0, 2, 0, .., 0.
fn are_deltas(made: VortexResult<(Ints, Ints)>) -> VortexResult<bool> {
    let (bases, deltas) = made?;
    Ok(are_wholes(&bases, I32, &[5]) && is_block(&deltas, 0, 2, 0))
}

#[test]
fn deltas_are_made(rt: HostRuntime) -> Result<(), Fail> {
    let valid = Mask::from_bits(vec![in rt.alloc(); true, true, true]?);
    let values = Ints::I32(IntList::from_vec(vec![in rt.alloc(); 5, 7, 7]?));
    let made = are_deltas(values.delta_blocks(rt.alloc(), &valid));
    drop(values);
    assert!(rt; made?);
    Ok(())
}

// Whether they decode to 5, 7, .., 7.
fn are_rows(alloc: Global, bases: &Ints, deltas: &Ints) -> VortexResult<bool> {
    if bases.len() != 1 || deltas.len() != 1024 || deltas.ptype() != bases.ptype() {
        return Ok(false);
    }
    Ok(is_block(&deltas.copy(alloc)?.rows_from(bases), 5, 7, 7))
}

#[test]
fn deltas_are_summed(rt: HostRuntime) -> Result<(), Fail> {
    let mut items = vec![in rt.alloc(); 0i32; 1024]?;
    items[1] = 2;
    let bases = IntList::from_vec(vec![in rt.alloc(); 5]?);
    let (bases, deltas) = (Ints::I32(bases), Ints::I32(IntList::from_vec(items)));
    let rows = are_rows(rt.alloc(), &bases, &deltas);
    drop(bases);
    drop(deltas);
    assert!(rt; rows?);
    Ok(())
}

#[test]
fn first_rows_are_left(rt: HostRuntime) -> Result<(), Fail> {
    let values = Ints::I16(IntList::from_vec(vec![in rt.alloc(); 300, 9, -7, 8]?));
    let two = shows(Ok(values.truncated(2)), I16, &[300, 9]);
    assert!(rt; two?);
    Ok(())
}
