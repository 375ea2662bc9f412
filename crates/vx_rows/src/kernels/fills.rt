//! Integers with another one in place of nulls.

ghost use Rattle.std.specs.Prelude.{◌≡◌, ◌<◌, IsTrue, if◌then◌else◌, length, map, slice_index_or, slice_set, true};
ghost use Rattle.vx_base.specs.Answers.{OrMemory};
ghost use Rattle.vx_base.specs.Integers.{lies_in};
ghost use Rattle.vx_model.specs.Decoded.{zeroed, zeroed_by};
ghost use Rattle.vx_model.specs.Refusals.{validity_length};
ghost use Rattle.vx_values.specs.IntsOf.{ptype_of, wholes_of};

use std::alloc::Global;
use vx_base::{IntList, Integer, Mask, VortexResult};
use vx_values::Ints;

/// The integers, with one of their type in place of those beneath nulls.
pub(crate) fn filled_beneath(
    alloc: Global,
    values: &Ints,
    valid: &Option<Mask>,
    fill: i128,
) -> VortexResult<Ints>
    requires whole { validity_length valid.now (length (wholes_of values.now)) ≡ true }
    requires held { IsTrue (lies_in (ptype_of values.now) fill) }
    ensures { OrMemory result (λ out. (ptype_of out ≡ ptype_of values.now) × (wholes_of out ≡ zeroed_by fill valid.now (wholes_of values.now))) }
{
    match values {
        Ints::U8(items) => Ok(Ints::U8(filled_items(alloc, items, valid, fill)?)),
        Ints::U16(items) => Ok(Ints::U16(filled_items(alloc, items, valid, fill)?)),
        Ints::U32(items) => Ok(Ints::U32(filled_items(alloc, items, valid, fill)?)),
        Ints::U64(items) => Ok(Ints::U64(filled_items(alloc, items, valid, fill)?)),
        Ints::I8(items) => Ok(Ints::I8(filled_items(alloc, items, valid, fill)?)),
        Ints::I16(items) => Ok(Ints::I16(filled_items(alloc, items, valid, fill)?)),
        Ints::I32(items) => Ok(Ints::I32(filled_items(alloc, items, valid, fill)?)),
        Ints::I64(items) => Ok(Ints::I64(filled_items(alloc, items, valid, fill)?)),
    }
}

// `filled_beneath` of items of one type.
fn filled_items<T: Integer>(
    alloc: Global,
    items: &IntList<T>,
    valid: &Option<Mask>,
    fill: i128,
) -> VortexResult<IntList<T>>
    requires whole { validity_length valid.now (length items.now) ≡ true }
    requires held { IsTrue (lies_in T.kind fill) }
    ensures { OrMemory result (λ out. map T.whole out ≡ zeroed_by fill valid.now (map T.whole items.now)) }
{
    let Some(fill) = T::from_whole(fill) else {
        unreachable!();
    };
    let mut filled = items.copy(alloc)?.into_vec();
    if let Some(mask) = valid {
        write_beneath(filled.as_mut_slice(), mask.as_slice(), fill);
    }
    Ok(IntList::from_vec(filled))
}

// Writes the fill where the mask is false.
#[tactic(auto, using(vx_model::proofs::ZeroLemmas::zeroing))]
fn write_beneath<T: Integer>(items: &mut [T], mask: &[bool], fill: T)
    requires { length mask.now ≡ length items.old }
    ensures { map T.whole items.new ≡ zeroed (T.whole fill) mask.now (map T.whole items.old) }
{
    for row in 0..mask.len() {
        fill_at(items, row, mask[row], fill);
    }
}

// Writes the fill unless the bit is true.
#[inline(always)]
fn fill_at<T: Integer>(items: &mut [T], row: usize, bit: bool, fill: T)
    requires { row < length items.old }
    ensures { map T.whole items.new ≡ slice_set (map T.whole items.old) row (if bit then slice_index_or (map T.whole items.old) row (T.whole fill) else T.whole fill) }
{
    items[row] = kept_or(items[row], bit, fill);
}

#[inline(always)]
fn kept_or<T: Integer>(item: T, bit: bool, fill: T) -> T
    ensures { T.whole result ≡ (if bit then T.whole item else T.whole fill) }
{
    if bit { item } else { fill }
}
