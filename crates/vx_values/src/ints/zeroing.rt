//! 0 beneath nulls.

ghost use Rattle.std.specs.Prelude.{◌≡◌, ◌<◌, ◌≤◌, length, slice_index_or, pos, true, map, take, slice_set, if◌then◌else◌, ◌||◌, false};
ghost use Rattle.vx_base.specs.Answers.{OrMemory};
ghost use Rattle.vx_model.specs.Decoded.{zeroed, zeroed_by, zero_beneath, is_zero};
ghost use Rattle.vx_model.specs.Refusals.{validity_length};
ghost use Rattle.vx_values.specs.IntsOf.{ptype_of, wholes_of};

use super::Ints;
use std::alloc::Global;
use vx_base::{IntList, Integer, Mask, VortexResult};
use vx_blocks::GROUP_ROWS;

// The rows that are copied before those of them that are null become 0: 8 KiB of the widest type.
const BLOCK_ROWS: usize = 1024;

impl Ints {
    /// A copy, with 0 where a row is null.
    pub fn decoded(&self, alloc: Global, valid: &Option<Mask>) -> VortexResult<Ints>
        requires { validity_length valid.now (length (wholes_of self.now)) ≡ true }
        ensures { OrMemory result (λ ints. (ptype_of ints ≡ ptype_of self.now) × (wholes_of ints ≡ zeroed_by (pos 0) valid.now (wholes_of self.now))) }
    {
        map_ints!(self, items => decoded(alloc, items.as_slice(), valid)?)
    }

    /// The rows, with 0 where the mask is false.
    pub fn zeroed(self, mask: &Mask) -> Ints
        requires { length mask.now ≡ length (wholes_of self) }
        ensures ptype { ptype_of result ≡ ptype_of self }
        ensures wholes { wholes_of result ≡ zeroed (pos 0) mask.now (wholes_of self) }
    {
        map_ints_surely!(self, items => zeroed(items, mask.as_slice()))
    }

    /// The rows, with 0 where a row is null.
    pub fn zeroed_by(self, valid: &Option<Mask>) -> Ints
        requires { validity_length valid.now (length (wholes_of self)) ≡ true }
        ensures ptype { ptype_of result ≡ ptype_of self }
        ensures wholes { wholes_of result ≡ zeroed_by (pos 0) valid.now (wholes_of self) }
    {
        match valid {
            Some(mask) => self.zeroed(mask),
            None => self,
        }
    }

    /// Whether each row is 0 where the mask is false.
    pub fn is_zero_beneath(&self, mask: &Mask) -> bool
        requires { length mask.now ≡ length (wholes_of self.now) }
        ensures { result ≡ zero_beneath is_zero mask.now (wholes_of self.now) }
    {
        with_ints!(self, items => is_zero_beneath(items.as_slice(), mask.as_slice()))
    }
}

#[inline(always)]
fn kept_or_zero<T: Integer>(item: T, bit: bool) -> T
    ensures { T.whole result ≡ (if bit then T.whole item else pos 0) }
{
    if bit { item } else { T::zero() }
}

// Writes 0 unless the bit is true.
#[inline(always)]
fn zero_at<T: Integer>(items: &mut [T], row: usize, bit: bool)
    requires { row < length items.old }
    ensures { map T.whole items.new ≡ slice_set (map T.whole items.old) row (if bit then slice_index_or (map T.whole items.old) row (pos 0) else pos 0) }
{
    items[row] = kept_or_zero(items[row], bit);
}

// Writes 0 where the mask is false.
#[tactic(auto, using(vx_model::proofs::ZeroLemmas::zeroing))]
fn zero_beneath<T: Integer>(items: &mut [T], bits: &[bool])
    requires { length bits.now ≡ length items.old }
    ensures { map T.whole items.new ≡ zeroed (pos 0) bits.now (map T.whole items.old) }
{
    for row in 0..bits.len() {
        zero_at(items, row, bits[row]);
    }
}

fn zeroed<T: Integer>(items: IntList<T>, bits: &[bool]) -> IntList<T>
    requires { length bits.now ≡ length items }
    ensures { map T.whole result ≡ zeroed (pos 0) bits.now (map T.whole items) }
{
    let mut items = items.into_vec();
    zero_beneath(items.as_mut_slice(), bits);
    IntList::from_vec(items)
}

// A copy, with 0 where a row is null.
fn decoded<T: Integer>(alloc: Global, items: &[T], valid: &Option<Mask>) -> VortexResult<IntList<T>>
    requires { validity_length valid.now (length items.now) ≡ true }
    ensures { OrMemory result (λ copy. map T.whole copy ≡ zeroed_by (pos 0) valid.now (map T.whole items.now)) }
{
    let copy = match valid {
        Some(mask) => copied_and_zeroed(alloc, items, mask.as_slice())?,
        None => Vec::from_slice(alloc, items)?,
    };
    Ok(IntList::from_vec(copy))
}

// A copy, with 0 where the mask is false. Block by block, so that the zeros are written while a cache still holds the copied rows.
fn copied_and_zeroed<T: Integer>(alloc: Global, items: &[T], bits: &[bool]) -> VortexResult<Vec<T>>
    requires { length bits.now ≡ length items.now }
    ensures { OrMemory result (λ copy. map T.whole copy.items ≡ zeroed (pos 0) bits.now (map T.whole items.now)) }
{
    let mut copy = Vec::with_capacity(alloc, items.len())?;
    let mut start = 0;
    while start < items.len() {
        let end = start + (items.len() - start).min(BLOCK_ROWS);
        copy.extend_from_slice(&items[start..end])?;
        zero_beneath(&mut copy.as_mut_slice()[start..], &bits[start..end]);
        start = end;
    }
    Ok(copy)
}

// Whether the item is 0, or its bit is true. By `|`, since `||` is a branch.
#[inline(always)]
fn is_zero_at<T: Integer>(items: &[T], bits: &[bool], row: usize) -> bool
    requires in_items { row < length items.now }
    requires in_bits { row < length bits.now }
    ensures { result ≡ (slice_index_or bits.now row false || is_zero (slice_index_or (map T.whole items.now) row (pos 0))) }
{
    bits[row] | (items[row].to_whole() == 0)
}

// Whether each of the rows before `end` is 0 or has a true bit, where those before `start` are known to; by `&` over the
// others: no branch per row.
fn part_is_zero_beneath<T: Integer>(items: &[T], bits: &[bool], start: usize, end: usize) -> bool
    requires same { length bits.now ≡ length items.now }
    requires order { start ≤ end }
    requires room { end ≤ length items.now }
    requires before { zero_beneath is_zero (take start bits.now) (map T.whole items.now) ≡ true }
    ensures { result ≡ zero_beneath is_zero (take end bits.now) (map T.whole items.now) }
{
    let mut all = true;
    for row in start..end {
        all &= is_zero_at(items, bits, row);
    }
    all
}

// Whether each row is 0 or has a true bit. There is one branch for each group of rows.
#[tactic(auto, using(vx_model::proofs::ZeroLemmas::zeroing))]
fn is_zero_beneath<T: Integer>(items: &[T], bits: &[bool]) -> bool
    requires { length bits.now ≡ length items.now }
    ensures { result ≡ zero_beneath is_zero bits.now (map T.whole items.now) }
{
    let mut start = 0;
    while start < bits.len() {
        let end = start + (bits.len() - start).min(GROUP_ROWS);
        if !part_is_zero_beneath(items, bits, start, end) {
            return false;
        }
        start = end;
    }
    true
}
