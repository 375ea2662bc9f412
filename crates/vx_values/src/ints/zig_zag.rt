//! Zigzag encoding of integers, and decoding.

ghost use Rattle.std.specs.Prelude.{◌≡◌, length, pos, IsTrue, true, map, not, unsigned_abs};
ghost use Rattle.vx_base.specs.Answers.{OrMemory};
ghost use Rattle.vx_base.specs.Integers.{is_signed, lies_in, signed_of, unsigned_of};
ghost use Rattle.vx_base.specs.ZigZag.{unzigzag, zigzag};
ghost use Rattle.vx_base.specs.declared.ptype.PType.TheVariants.{I64};
ghost use Rattle.vx_values.specs.IntsOf.{ptype_of, wholes_of};

use super::Ints;
use std::alloc::Global;
use vx_base::{IntList, Integer, VortexResult};
use vx_blocks::{unzigzag, zigzag};

impl Ints {
    /// The zigzag of each integer of a signed type, in the unsigned type of its width. That of 0 is 0, so defaults beneath nulls
    /// stay defaults.
    pub fn zigzagged(&self, alloc: Global) -> VortexResult<Ints>
        requires { is_signed (ptype_of self.now) ≡ true }
        ensures { OrMemory result (λ words. (ptype_of words ≡ unsigned_of (ptype_of self.now)) × (wholes_of words ≡ map (λ z. pos (zigzag z)) (wholes_of self.now))) }
    {
        match self {
            Ints::I8(items) => Ok(Ints::U8(zigzagged(alloc, items.as_slice())?)),
            Ints::I16(items) => Ok(Ints::U16(zigzagged(alloc, items.as_slice())?)),
            Ints::I32(items) => Ok(Ints::U32(zigzagged(alloc, items.as_slice())?)),
            Ints::I64(items) => Ok(Ints::U64(zigzagged(alloc, items.as_slice())?)),
            _ => unreachable!(),
        }
    }

    /// The inverse of `zigzagged`, in the signed type of the width.
    pub fn unzigzagged(&self, alloc: Global) -> VortexResult<Ints>
        requires { not (is_signed (ptype_of self.now)) ≡ true }
        ensures { OrMemory result (λ ints. (ptype_of ints ≡ signed_of (ptype_of self.now)) × (wholes_of ints ≡ map (λ z. unzigzag (unsigned_abs z)) (wholes_of self.now))) }
    {
        match self {
            Ints::U8(words) => Ok(Ints::I8(unzigzagged(alloc, words.as_slice())?)),
            Ints::U16(words) => Ok(Ints::I16(unzigzagged(alloc, words.as_slice())?)),
            Ints::U32(words) => Ok(Ints::I32(unzigzagged(alloc, words.as_slice())?)),
            Ints::U64(words) => Ok(Ints::I64(unzigzagged(alloc, words.as_slice())?)),
            _ => unreachable!(),
        }
    }
}

// The zigzag of a number in the range of i64.
#[inline(always)]
fn zigzag_of(whole: i128) -> u64
    requires { IsTrue (lies_in I64 whole) }
    ensures { result ≡ zigzag whole }
{
    zigzag(whole as i64)
}

// The zigzag of an item, in the unsigned type of its width.
#[inline(always)]
#[tactic(auto, using(vx_base::proofs::ZigZagLemmas::zigzags))]
fn zigzagged_item<T: Integer, W: Integer>(item: T) -> W
    requires kinds { W.kind ≡ unsigned_of T.kind }
    requires signed { is_signed T.kind ≡ true }
    ensures { W.whole result ≡ pos (zigzag (T.whole item)) }
{
    W::from_low_bits(zigzag_of(item.to_whole()))
}

// The zigzag of each item, written to a slice.
fn write_zigzags<T: Integer, W: Integer>(items: &[T], words: &mut [W])
    requires kinds { W.kind ≡ unsigned_of T.kind }
    requires signed { is_signed T.kind ≡ true }
    requires length { length words.old ≡ length items.now }
    ensures { map W.whole words.new ≡ map (λ z. pos (zigzag z)) (map T.whole items.now) }
{
    for row in 0..items.len() {
        words[row] = zigzagged_item(items[row]);
    }
}

// The zigzag of each item, as a list.
fn zigzagged<T: Integer, W: Integer>(alloc: Global, items: &[T]) -> VortexResult<IntList<W>>
    requires kinds { W.kind ≡ unsigned_of T.kind }
    requires signed { is_signed T.kind ≡ true }
    ensures { OrMemory result (λ words. map W.whole words ≡ map (λ z. pos (zigzag z)) (map T.whole items.now)) }
{
    let mut words = vec![in alloc; W::zero(); items.len()]?;
    write_zigzags(items, words.as_mut_slice());
    Ok(IntList::from_vec(words))
}

// The integer with this zigzag, in the signed type of its width.
#[inline(always)]
#[tactic(auto, using(vx_base::proofs::ZigZagLemmas::unzigzags))]
fn unzigzagged_item<W: Integer, T: Integer>(word: W) -> T
    requires kinds { T.kind ≡ signed_of W.kind }
    requires unsigned { not (is_signed W.kind) ≡ true }
    ensures { T.whole result ≡ unzigzag (unsigned_abs (W.whole word)) }
{
    let _whole = word.to_whole();
    T::from_low_bits(unzigzag(word.to_bits()).to_bits())
}

// The integer of each zigzag, written to a slice.
pub(super) fn write_integers<W: Integer, T: Integer>(words: &[W], items: &mut [T])
    requires kinds { T.kind ≡ signed_of W.kind }
    requires unsigned { not (is_signed W.kind) ≡ true }
    requires length { length items.old ≡ length words.now }
    ensures { map T.whole items.new ≡ map (λ z. unzigzag (unsigned_abs z)) (map W.whole words.now) }
{
    for row in 0..words.len() {
        items[row] = unzigzagged_item(words[row]);
    }
}

// The integer of each zigzag, as a list.
fn unzigzagged<W: Integer, T: Integer>(alloc: Global, words: &[W]) -> VortexResult<IntList<T>>
    requires kinds { T.kind ≡ signed_of W.kind }
    requires unsigned { not (is_signed W.kind) ≡ true }
    ensures { OrMemory result (λ list. map T.whole list ≡ map (λ z. unzigzag (unsigned_abs z)) (map W.whole words.now)) }
{
    let mut items = vec![in alloc; T::zero(); words.len()]?;
    write_integers(words, items.as_mut_slice());
    Ok(IntList::from_vec(items))
}
