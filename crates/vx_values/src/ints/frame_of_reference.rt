//! Differences from a reference, and sums with it.

ghost use Rattle.std.specs.Prelude.{◌≡◌, length, pos, IsTrue, map, ◌+ℤ◌, ◌-ℤ◌};
ghost use Rattle.vx_base.specs.Answers.{OrMemory};
ghost use Rattle.vx_base.specs.Integers.{lies_in, unsigned_of};
ghost use Rattle.vx_base.specs.Wrapping.{wrap};
ghost use Rattle.vx_base.specs.declared.ptype.PType.TheVariants.{U64};
ghost use Rattle.vx_values.specs.IntsOf.{ptype_of, wholes_of};

use super::Ints;
use std::alloc::Global;
use vx_base::{IntList, Integer, PType, VortexResult};
use vx_blocks::BLOCK_ROWS;

impl Ints {
    /// Each integer less the reference, wrapping, in the unsigned type of the same width.
    pub fn differences(&self, alloc: Global, reference: i128) -> VortexResult<Ints>
        requires { IsTrue (lies_in (ptype_of self.now) reference) }
        ensures { OrMemory result (λ ints. (ptype_of ints ≡ unsigned_of (ptype_of self.now)) × (wholes_of ints ≡ map (λ z. wrap (unsigned_of (ptype_of self.now)) (z -ℤ reference)) (wholes_of self.now))) }
    {
        match self {
            Ints::U8(items) => Ok(Ints::U8(differences(alloc, reference, items.as_slice())?)),
            Ints::U16(items) => Ok(Ints::U16(differences(alloc, reference, items.as_slice())?)),
            Ints::U32(items) => Ok(Ints::U32(differences(alloc, reference, items.as_slice())?)),
            Ints::U64(items) => Ok(Ints::U64(differences(alloc, reference, items.as_slice())?)),
            Ints::I8(items) => Ok(Ints::U8(differences(alloc, reference, items.as_slice())?)),
            Ints::I16(items) => Ok(Ints::U16(differences(alloc, reference, items.as_slice())?)),
            Ints::I32(items) => Ok(Ints::U32(differences(alloc, reference, items.as_slice())?)),
            Ints::I64(items) => Ok(Ints::U64(differences(alloc, reference, items.as_slice())?)),
        }
    }

    /// The reference plus each integer, wrapping, in the reference's type, which has the width of the integers'.
    pub fn moved(&self, alloc: Global, ptype: PType, reference: i128) -> VortexResult<Ints>
        requires held { IsTrue (lies_in ptype reference) }
        requires unsigned { ptype_of self.now ≡ unsigned_of ptype }
        ensures { OrMemory result (λ ints. (ptype_of ints ≡ ptype) × (wholes_of ints ≡ map (λ z. wrap ptype (reference +ℤ z)) (wholes_of self.now))) }
    {
        match (ptype, self) {
            (PType::U8, Ints::U8(d)) => Ok(Ints::U8(moved(alloc, reference, d.as_slice())?)),
            (PType::U16, Ints::U16(d)) => Ok(Ints::U16(moved(alloc, reference, d.as_slice())?)),
            (PType::U32, Ints::U32(d)) => Ok(Ints::U32(moved(alloc, reference, d.as_slice())?)),
            (PType::U64, Ints::U64(d)) => Ok(Ints::U64(moved(alloc, reference, d.as_slice())?)),
            (PType::I8, Ints::U8(d)) => Ok(Ints::I8(moved(alloc, reference, d.as_slice())?)),
            (PType::I16, Ints::U16(d)) => Ok(Ints::I16(moved(alloc, reference, d.as_slice())?)),
            (PType::I32, Ints::U32(d)) => Ok(Ints::I32(moved(alloc, reference, d.as_slice())?)),
            (PType::I64, Ints::U64(d)) => Ok(Ints::I64(moved(alloc, reference, d.as_slice())?)),
            _ => unreachable!(),
        }
    }
}

// `item - reference`, wrapping, in the unsigned type of their width.
#[inline(always)]
#[tactic(auto, using(vx_base::proofs::WrapBitsLemmas::wrap_differences))]
fn difference<T: Integer, D: Integer>(reference: T, item: T) -> D
    requires { D.kind ≡ unsigned_of T.kind }
    ensures { D.whole result ≡ wrap (unsigned_of T.kind) (T.whole item -ℤ T.whole reference) }
{
    let _reference = reference.to_whole();
    let _item = item.to_whole();
    D::from_low_bits(item.to_bits().wrapping_sub(reference.to_bits()))
}

// The difference of each item, written to a slice.
pub(super) fn write_differences<T: Integer, D: Integer>(
    reference: T,
    items: &[T],
    differences: &mut [D],
)
    requires kind { D.kind ≡ unsigned_of T.kind }
    requires length { length differences.old ≡ length items.now }
    ensures { map D.whole differences.new ≡ map (λ z. wrap (unsigned_of T.kind) (z -ℤ T.whole reference)) (map T.whole items.now) }
{
    for row in 0..items.len() {
        differences[row] = difference(reference, items[row]);
    }
}

// The difference of each item, as a list.
fn differences_from<T: Integer, D: Integer>(
    alloc: Global,
    reference: T,
    items: &[T],
) -> VortexResult<IntList<D>>
    requires { D.kind ≡ unsigned_of T.kind }
    ensures { OrMemory result (λ list. map D.whole list ≡ map (λ z. wrap (unsigned_of T.kind) (z -ℤ T.whole reference)) (map T.whole items.now)) }
{
    let mut differences = vec![in alloc; D::zero(); items.len()]?;
    write_differences(reference, items, differences.as_mut_slice());
    Ok(IntList::from_vec(differences))
}

// The differences, from the reference as a whole number.
fn differences<T: Integer, D: Integer>(
    alloc: Global,
    reference: i128,
    items: &[T],
) -> VortexResult<IntList<D>>
    requires held { IsTrue (lies_in T.kind reference) }
    requires unsigned { D.kind ≡ unsigned_of T.kind }
    ensures { OrMemory result (λ list. map D.whole list ≡ map (λ z. wrap (unsigned_of T.kind) (z -ℤ reference)) (map T.whole items.now)) }
{
    let Some(reference) = T::from_whole(reference) else {
        unreachable!();
    };
    differences_from(alloc, reference, items)
}

// `reference + difference`, wrapping, in the reference's type.
#[inline(always)]
#[tactic(auto, using(vx_base::proofs::WrapBitsLemmas::wrap_words))]
fn summed<T: Integer>(reference: T, difference: u64) -> T
    ensures { T.whole result ≡ wrap T.kind (T.whole reference +ℤ pos difference) }
{
    let _whole = reference.to_whole();
    T::from_low_bits(reference.to_bits().wrapping_add(difference))
}

// `reference + difference` of a difference in the unsigned type of the width.
#[inline(always)]
fn summed_with<T: Integer, D: Integer>(reference: T, difference: D) -> T
    requires { D.kind ≡ unsigned_of T.kind }
    ensures { T.whole result ≡ wrap T.kind (T.whole reference +ℤ D.whole difference) }
{
    let _whole = difference.to_whole();
    summed(reference, difference.to_bits())
}

// The sum with each difference, written to a slice.
pub(super) fn write_sums<T: Integer, D: Integer>(reference: T, differences: &[D], items: &mut [T])
    requires kind { D.kind ≡ unsigned_of T.kind }
    requires length { length items.old ≡ length differences.now }
    ensures { map T.whole items.new ≡ map (λ z. wrap T.kind (T.whole reference +ℤ z)) (map D.whole differences.now) }
{
    for row in 0..differences.len() {
        items[row] = summed_with(reference, differences[row]);
    }
}

// The sum with each difference, as a list, which grows by a block of 1,024 rows at a time.
fn sums<T: Integer, D: Integer>(
    alloc: Global,
    reference: T,
    differences: &[D],
) -> VortexResult<IntList<T>>
    requires { D.kind ≡ unsigned_of T.kind }
    ensures { OrMemory result (λ list. map T.whole list ≡ map (λ z. wrap T.kind (T.whole reference +ℤ z)) (map D.whole differences.now)) }
{
    let len = differences.len();
    let mut items = Vec::with_capacity(alloc, len)?;
    for block in 0..len.div_ceil(BLOCK_ROWS) {
        let start = BLOCK_ROWS * block;
        let end = start + (len - start).min(BLOCK_ROWS);
        items.resize(end, T::zero())?;
        write_sums(
            reference,
            &differences[start..end],
            items.slice_mut(start..),
        );
    }
    Ok(IntList::from_vec(items))
}

// The sums, from the reference as a whole number.
fn moved<T: Integer, D: Integer>(
    alloc: Global,
    reference: i128,
    differences: &[D],
) -> VortexResult<IntList<T>>
    requires held { IsTrue (lies_in T.kind reference) }
    requires unsigned { D.kind ≡ unsigned_of T.kind }
    ensures { OrMemory result (λ list. map T.whole list ≡ map (λ z. wrap T.kind (reference +ℤ z)) (map D.whole differences.now)) }
{
    let Some(reference) = T::from_whole(reference) else {
        unreachable!();
    };
    sums(alloc, reference, differences)
}

// `reference + difference` of whole numbers, wrapping, in an integer type.
fn summed_wholes<T: Integer>(reference: i128, difference: i128) -> i128
    requires reference { IsTrue (lies_in T.kind reference) }
    requires difference { IsTrue (lies_in U64 difference) }
    ensures { result ≡ wrap T.kind (reference +ℤ difference) }
{
    let Some(reference) = T::from_whole(reference) else {
        unreachable!();
    };
    let Ok(difference) = u64::try_from(difference) else {
        unreachable!();
    };
    summed(reference, difference).to_whole()
}

/// `reference + difference`, wrapping, in an integer type.
pub fn summed_in(ptype: PType, reference: i128, difference: i128) -> i128
    requires reference { IsTrue (lies_in ptype reference) }
    requires difference { IsTrue (lies_in U64 difference) }
    ensures { result ≡ wrap ptype (reference +ℤ difference) }
{
    match ptype {
        PType::U8 => summed_wholes::<u8>(reference, difference),
        PType::U16 => summed_wholes::<u16>(reference, difference),
        PType::U32 => summed_wholes::<u32>(reference, difference),
        PType::U64 => summed_wholes::<u64>(reference, difference),
        PType::I8 => summed_wholes::<i8>(reference, difference),
        PType::I16 => summed_wholes::<i16>(reference, difference),
        PType::I32 => summed_wholes::<i32>(reference, difference),
        PType::I64 => summed_wholes::<i64>(reference, difference),
    }
}
