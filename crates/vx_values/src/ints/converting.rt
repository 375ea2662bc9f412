//! Integers in another type, and single rows overwritten.

ghost use Rattle.std.specs.List.{list_all, list_any};
ghost use Rattle.std.specs.Prelude.{◌≡◌, ◌<◌, length, pos, IsTrue, map, slice_set, int_lt};
ghost use Rattle.vx_base.specs.Answers.{OrMemory};
ghost use Rattle.vx_base.specs.Integers.{lies_in, unsigned_of};
ghost use Rattle.vx_base.specs.declared.ptype.PType.TheVariants.{U64};
ghost use Rattle.vx_values.specs.IntsOf.{ptype_of, wholes_of};

use super::Ints;
use std::alloc::Global;
use vx_base::{IntList, Integer, PType, VortexResult};
use vx_blocks::GROUP_ROWS;

impl Ints {
    /// Whether some integer is negative.
    pub fn has_negative(&self) -> bool
        ensures { result ≡ list_any (λ z. int_lt z (pos 0)) (wholes_of self.now) }
    {
        with_ints!(self, items => has_negative(items.as_slice()))
    }

    /// The integers converted to an unsigned type that holds all of them.
    #[tactic(auto, using(vx_model::proofs::FrameOfReferenceLemmas::unsigned_wholes))]
    pub fn in_unsigned(&self, alloc: Global, ptype: PType) -> VortexResult<Ints>
        requires unsigned { unsigned_of ptype ≡ ptype }
        requires held { IsTrue (list_all (lies_in ptype) (wholes_of self.now)) }
        ensures { OrMemory result (λ ints. (ptype_of ints ≡ ptype) × (wholes_of ints ≡ wholes_of self.now)) }
    {
        let words = self.words(alloc)?;
        let words = words.as_slice();
        match ptype {
            PType::U8 => Ok(Ints::U8(converted(alloc, words)?)),
            PType::U16 => Ok(Ints::U16(converted(alloc, words)?)),
            PType::U32 => Ok(Ints::U32(converted(alloc, words)?)),
            PType::U64 => Ok(Ints::U64(converted(alloc, words)?)),
            _ => unreachable!(),
        }
    }

    // The integers as words of 64 bits.
    pub(super) fn words(&self, alloc: Global) -> VortexResult<IntList<u64>>
        requires { IsTrue (list_all (lies_in U64) (wholes_of self.now)) }
        ensures { OrMemory result (λ words. map pos words ≡ wholes_of self.now) }
    {
        with_ints!(self, items => converted(alloc, items.as_slice()))
    }

    /// The list with one row overwritten.
    pub fn with_whole(self, row: u64, whole: i128) -> Ints
        requires held { IsTrue (lies_in (ptype_of self) whole) }
        requires in_range { row < length (wholes_of self) }
        ensures ptype { ptype_of result ≡ ptype_of self }
        ensures wholes { wholes_of result ≡ slice_set (wholes_of self) row whole }
    {
        map_ints_surely!(self, items => with_whole(items, row, whole))
    }
}

// Whether some item is negative. There is one branch for each group of rows.
fn has_negative<T: Integer>(items: &[T]) -> bool
    ensures { result ≡ list_any (λ z. int_lt z (pos 0)) (map T.whole items.now) }
{
    for rows in items.chunks(GROUP_ROWS) {
        if some_negative(rows) {
            return true;
        }
    }
    false
}

// Whether some item of a group is negative, by `|` over all of them: no branch per row.
fn some_negative<T: Integer>(items: &[T]) -> bool
    ensures { result ≡ list_any (λ z. int_lt z (pos 0)) (map T.whole items.now) }
{
    let mut some = false;
    for item in items {
        some |= item.to_whole() < 0;
    }
    some
}

#[inline(always)]
fn convert<T: Integer, U: Integer>(item: T) -> U
    requires { IsTrue (lies_in U.kind (T.whole item)) }
    ensures { U.whole result ≡ T.whole item }
{
    let Some(item) = U::from_whole(item.to_whole()) else {
        unreachable!();
    };
    item
}

// The items in another type.
fn converted<T: Integer, U: Integer>(alloc: Global, items: &[T]) -> VortexResult<IntList<U>>
    requires { IsTrue (list_all (lies_in U.kind) (map T.whole items.now)) }
    ensures { OrMemory result (λ list. map U.whole list ≡ map T.whole items.now) }
{
    let mut converted = Vec::with_capacity(alloc, items.len())?;
    for row in 0..items.len() {
        converted.push(convert(items[row]))?;
    }
    Ok(IntList::from_vec(converted))
}

// The list with one row overwritten.
fn with_whole<T: Integer>(items: IntList<T>, row: u64, whole: i128) -> IntList<T>
    requires held { IsTrue (lies_in T.kind whole) }
    requires in_range { row < length items }
    ensures { map T.whole result ≡ slice_set (map T.whole items) row whole }
{
    let Some(item) = T::from_whole(whole) else {
        unreachable!();
    };
    let mut items = items.into_vec();
    items[row as usize] = item;
    IntList::from_vec(items)
}
