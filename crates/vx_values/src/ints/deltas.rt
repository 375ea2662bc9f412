//! Delta encoding of integers, in blocks of 1,024 rows.

ghost use Rattle.std.specs.Prelude.{◌≡◌, ◌≤◌, ◌*◌, length, map, take};
ghost use Rattle.vx_base.specs.Answers.{OrMemory};
ghost use Rattle.vx_base.specs.Undelta.{undelta};
ghost use Rattle.vx_blocks.specs.Deltas.{bases, deltas, filled};
ghost use Rattle.vx_blocks.specs.Optional.{optional_rows};
ghost use Rattle.vx_values.specs.IntsOf.{ptype_of, wholes_of};

use super::Ints;
use std::alloc::Global;
use vx_base::{IntList, Integer, Mask, VortexResult};
use vx_blocks::{delta_blocks, undelta_in_place};

// `Ok` of two lists of the same type, from each of the eight lists.
macro_rules! map_pair {
    ($ints:expr, $items:ident => $answer:expr; $($kind:ident),*) => {
        match $ints {
            $(Ints::$kind($items) => {
                let (bases, deltas) = $answer;
                Ok((Ints::$kind(bases), Ints::$kind(deltas)))
            })*
        }
    };
}

// The rows from deltas and bases of the same type, of each of the eight.
macro_rules! with_bases {
    ($deltas:expr, $bases:expr; $($kind:ident),*) => {
        match $deltas {
            $(Ints::$kind(deltas) => match $bases {
                Ints::$kind(bases) => Ints::$kind(rows_of(bases, deltas)),
                _ => unreachable!(),
            })*
        }
    };
}

impl Ints {
    /// The bases and the deltas of blocks of 1,024 rows, in the same type. A null counts as the last valid row before it, and
    /// as 0 before the first. A base is the first row of its block. A delta is the difference from the row before, wrapping;
    /// it is 0 at the first row of a block, and in the padding of the last one. `valid` has a truth value per row.
    pub fn delta_blocks(&self, alloc: Global, valid: &Mask) -> VortexResult<(Ints, Ints)>
        requires { length valid.now ≡ length (wholes_of self.now) }
        ensures bases { OrMemory result (λ made. (ptype_of made.0 ≡ ptype_of self.now) × (wholes_of made.0 ≡ bases (filled (optional_rows (wholes_of self.now) valid.now)))) }
        ensures deltas { OrMemory result (λ made. (ptype_of made.1 ≡ ptype_of self.now) × (wholes_of made.1 ≡ deltas (ptype_of self.now) (filled (optional_rows (wholes_of self.now) valid.now)))) }
    {
        map_pair!(self, items => blocks_of(alloc, items.as_slice(), valid)?; U8, U16, U32, U64, I8, I16, I32, I64)
    }

    /// The rows from these deltas and from bases of the same type, one for each 1,024 deltas: row r of a block is its base plus
    /// the sum of the block's deltas 0 to r, wrapping. They are written over the deltas.
    pub fn rows_from(self, bases: &Ints) -> Ints
        requires kinds { ptype_of self ≡ ptype_of bases.now }
        requires lengths { length (wholes_of self) ≡ 1024 * length (wholes_of bases.now) }
        ensures ptype { ptype_of result ≡ ptype_of bases.now }
        ensures wholes { wholes_of result ≡ undelta (ptype_of bases.now) (wholes_of bases.now) (wholes_of self) }
    {
        with_bases!(self, bases; U8, U16, U32, U64, I8, I16, I32, I64)
    }

    /// The first `len` integers.
    pub fn truncated(self, len: u64) -> Ints
        requires { len ≤ length (wholes_of self) }
        ensures ptype { ptype_of result ≡ ptype_of self }
        ensures wholes { wholes_of result ≡ take len (wholes_of self) }
    {
        map_ints_surely!(self, items => first_items(items, len))
    }
}

// Bases and deltas as two lists.
fn blocks_of<T: Integer>(
    alloc: Global,
    items: &[T],
    valid: &Mask,
) -> VortexResult<(IntList<T>, IntList<T>)>
    requires { length valid.now ≡ length items.now }
    ensures bases { OrMemory result (λ made. map T.whole made.0 ≡ bases (filled (optional_rows (map T.whole items.now) valid.now))) }
    ensures deltas { OrMemory result (λ made. map T.whole made.1 ≡ deltas T.kind (filled (optional_rows (map T.whole items.now) valid.now))) }
{
    let (bases, deltas) = delta_blocks(alloc, items, valid)?;
    Ok((IntList::from_vec(bases), IntList::from_vec(deltas)))
}

// The rows, written over the deltas.
fn rows_of<T: Integer>(bases: &IntList<T>, deltas: IntList<T>) -> IntList<T>
    requires { length deltas ≡ 1024 * length bases.now }
    ensures { map T.whole result ≡ undelta T.kind (map T.whole bases.now) (map T.whole deltas) }
{
    let mut rows = deltas.into_vec();
    undelta_in_place(bases.as_slice(), rows.as_mut_slice());
    IntList::from_vec(rows)
}

// The first items.
fn first_items<T: Integer>(items: IntList<T>, len: u64) -> IntList<T>
    requires { len ≤ length items }
    ensures { map T.whole result ≡ take len (map T.whole items) }
{
    let mut items = items.into_vec();
    items.truncate(len as usize);
    IntList::from_vec(items)
}
