//! Rows gathered by ranges, or one by one.

ghost use Rattle.std.specs.List.{list_all};
ghost use Rattle.std.specs.Prelude.{◌≡◌, length, slice_index_or, pos, IsTrue, map, nat_lt};
ghost use Rattle.vx_base.specs.Answers.{OrMemory};
ghost use Rattle.vx_base.specs.Gathered.{gathered, are_parts};
ghost use Rattle.vx_model.specs.Rows.{rows};
ghost use Rattle.vx_values.specs.IntsOf.{ptype_of, wholes_of};

use super::Ints;
use std::alloc::Global;
use vx_base::{IntList, Integer, VortexResult};

impl Ints {
    /// The rows of half-open ranges, in the order of the ranges.
    pub fn gather(&self, alloc: Global, ranges: &[(u64, u64)]) -> VortexResult<Ints>
        requires { IsTrue (are_parts (length (wholes_of self.now)) ranges.now) }
        ensures { OrMemory result (λ ints. (ptype_of ints ≡ ptype_of self.now) × (wholes_of ints ≡ gathered ranges.now (wholes_of self.now))) }
    {
        map_ints!(self, items => gathered_parts(alloc, items, ranges)?)
    }

    /// The rows with these numbers, in the order in which they are given.
    pub fn gathered(&self, alloc: Global, rows: &[u64]) -> VortexResult<Ints>
        requires { IsTrue (list_all (λ row. nat_lt row (length (wholes_of self.now))) rows.now) }
        ensures { OrMemory result (λ ints. (ptype_of ints ≡ ptype_of self.now) × (wholes_of ints ≡ map (λ row. slice_index_or (wholes_of self.now) row (pos 0)) rows.now)) }
    {
        map_ints!(self, items => gathered_rows(alloc, items.as_slice(), rows)?)
    }
}

// The rows of the ranges.
fn gathered_parts<T: Integer>(
    alloc: Global,
    items: &IntList<T>,
    ranges: &[(u64, u64)],
) -> VortexResult<IntList<T>>
    requires { IsTrue (are_parts (length (map T.whole items.now)) ranges.now) }
    ensures { OrMemory result (λ list. map T.whole list ≡ gathered ranges.now (map T.whole items.now)) }
{
    items.gather(alloc, ranges)
}

// The items with these numbers, in the order in which they are given.
fn gathered_rows<T: Integer>(alloc: Global, items: &[T], rows: &[u64]) -> VortexResult<IntList<T>>
    requires { IsTrue (list_all (λ row. nat_lt row (length items.now)) rows.now) }
    ensures { OrMemory result (λ list. map T.whole list ≡ map (λ row. slice_index_or (map T.whole items.now) row (pos 0)) rows.now) }
{
    let mut gathered = Vec::with_capacity(alloc, rows.len())?;
    for place in 0..rows.len() {
        gathered.push(items[rows[place] as usize])?;
    }
    Ok(IntList::from_vec(gathered))
}
