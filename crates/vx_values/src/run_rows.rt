//! Rows filled run by run, of runs by their ends.

ghost use Rattle.std.specs.Prelude.{◌≡◌, ◌<◌, ◌-◌, ◌^◌, IsTrue, length, map, slice_index_or};
ghost use Rattle.vx_base.specs.Answers.{OrMemory};
ghost use Rattle.vx_base.specs.PlainValue.{int};
ghost use Rattle.vx_model.specs.Rows.{offset_at};
ghost use Rattle.vx_model.specs.WellFormed.{ascend};
ghost use Rattle.vx_values.specs.IntsOf.{wholes_of};
ghost use Rattle.vx_values.specs.Placed.{by_runs};

use crate::ints::{Ints, with_ints};
use std::alloc::Global;
use vx_base::{Integer, VortexResult};

/// In each row the item of its run, `other` where the run has none.
pub(crate) fn in_runs<T: Copy>(
    alloc: Global,
    ends: &Ints,
    items: &[T],
    other: T,
) -> VortexResult<Vec<T>>
    requires { IsTrue (ascend 1 (2 ^ 64) (map int (wholes_of ends.now))) }
    ensures { OrMemory result (λ rows. rows.items ≡ by_runs (map int (wholes_of ends.now)) items.now other) }
{
    with_ints!(ends, ends => fill_runs(alloc, ends.as_slice(), items, other))
}

// `in_runs` by ends of one type. The rows are allocated at once.
fn fill_runs<C: Integer, T: Copy>(
    alloc: Global,
    ends: &[C],
    items: &[T],
    other: T,
) -> VortexResult<Vec<T>>
    requires { IsTrue (ascend 1 (2 ^ 64) (map int (map C.whole ends.now))) }
    ensures { OrMemory result (λ rows. rows.items ≡ by_runs (map int (map C.whole ends.now)) items.now other) }
{
    let mut rows = Vec::with_capacity(alloc, row_count(ends))?;
    for run in 0..ends.len() {
        rows.resize(end_at(ends, run), item_at(items, run, other))?;
    }
    Ok(rows)
}

/// The number of rows: the last end.
pub(crate) fn row_count<C: Integer>(ends: &[C]) -> usize
    requires { IsTrue (ascend 1 (2 ^ 64) (map int (map C.whole ends.now))) }
    ensures { let ends = map int (map C.whole ends.now) in result ≡ offset_at ends (length ends - 1) }
{
    match ends.len() {
        0 => 0,
        count => end_at(ends, count - 1),
    }
}

/// The end of a run, exclusive: the row after its last.
#[inline(always)]
pub(crate) fn end_at<C: Integer>(ends: &[C], run: usize) -> usize
    requires rising { IsTrue (ascend 1 (2 ^ 64) (map int (map C.whole ends.now))) }
    requires in_ends { run < length ends.now }
    ensures { result ≡ offset_at (map int (map C.whole ends.now)) run }
{
    ends[run].to_bits() as usize
}

// The item at a place, `other` out of bounds.
#[inline(always)]
fn item_at<T: Copy>(items: &[T], place: usize, other: T) -> T
    ensures { result ≡ slice_index_or items.now place other }
{
    match items.get(place) {
        Some(item) => *item,
        None => other,
    }
}
