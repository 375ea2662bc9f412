//! Integers filled by runs or by patches.

ghost use Rattle.std.specs.Prelude.{◌≡◌, ◌+◌, ◌^◌, IsTrue, true, length, map, pos};
ghost use Rattle.vx_base.specs.Answers.{OrMemory};
ghost use Rattle.vx_base.specs.Integers.{lies_in};
ghost use Rattle.vx_base.specs.PlainValue.{int};
ghost use Rattle.vx_model.specs.WellFormed.{ascend};
ghost use Rattle.vx_values.specs.IntsOf.{ptype_of, wholes_of};
ghost use Rattle.vx_values.specs.Placed.{by_runs, by_patches};

use super::Ints;
use crate::patch_rows::with_patches;
use crate::run_rows::in_runs;
use std::alloc::Global;
use vx_base::{IntList, Integer, VortexResult};

impl Ints {
    /// In each row the integer of its run, of runs by their ends, which are exclusive. 0 where a run has no integer.
    pub fn in_runs(&self, alloc: Global, ends: &Ints) -> VortexResult<Ints>
        requires { IsTrue (ascend 1 (2 ^ 64) (map int (wholes_of ends.now))) }
        ensures { OrMemory result (λ ints. (ptype_of ints ≡ ptype_of self.now) × (wholes_of ints ≡ by_runs (map int (wholes_of ends.now)) (wholes_of self.now) (pos 0))) }
    {
        map_ints!(self, items => list_in_runs(alloc, ends, items.as_slice())?)
    }

    /// The fill in each of `len` rows, and then the integer of each patch in its row, `index - offset`.
    pub fn with_patches(
        &self,
        alloc: Global,
        fill: i128,
        indices: &Ints,
        offset: u64,
        len: u64,
    ) -> VortexResult<Ints>
        requires fits { IsTrue (lies_in (ptype_of self.now) fill) }
        requires rising { ascend offset (offset + len) (map int (wholes_of indices.now)) ≡ true }
        requires lengths { length (wholes_of self.now) ≡ length (wholes_of indices.now) }
        ensures { OrMemory result (λ ints. (ptype_of ints ≡ ptype_of self.now) × (wholes_of ints ≡ by_patches (map int (wholes_of indices.now)) offset len (wholes_of self.now) fill)) }
    {
        map_ints!(self, items => list_with_patches(alloc, fill, items.as_slice(), indices, offset, len)?)
    }
}

// `in_runs` of a list of one type.
fn list_in_runs<T: Integer>(alloc: Global, ends: &Ints, items: &[T]) -> VortexResult<IntList<T>>
    requires { IsTrue (ascend 1 (2 ^ 64) (map int (wholes_of ends.now))) }
    ensures { OrMemory result (λ list. map T.whole list ≡ by_runs (map int (wholes_of ends.now)) (map T.whole items.now) (pos 0)) }
{
    Ok(IntList::from_vec(in_runs(alloc, ends, items, T::zero())?))
}

// `with_patches` of a list of one type.
fn list_with_patches<T: Integer>(
    alloc: Global,
    fill: i128,
    items: &[T],
    indices: &Ints,
    offset: u64,
    len: u64,
) -> VortexResult<IntList<T>>
    requires fits { IsTrue (lies_in T.kind fill) }
    requires rising { ascend offset (offset + len) (map int (wholes_of indices.now)) ≡ true }
    requires lengths { length items.now ≡ length (wholes_of indices.now) }
    ensures { OrMemory result (λ list. map T.whole list ≡ by_patches (map int (wholes_of indices.now)) offset len (map T.whole items.now) fill) }
{
    let rows = with_patches(alloc, item_of(fill), items, indices, offset, len)?;
    Ok(IntList::from_vec(rows))
}

// The item that is this integer, which is in the range of the type.
fn item_of<T: Integer>(whole: i128) -> T
    requires { IsTrue (lies_in T.kind whole) }
    ensures { T.whole result ≡ whole }
{
    let Some(item) = T::from_whole(whole) else {
        unreachable!();
    };
    item
}
