//! Counting of integers in hash slots. A slot counts one integer and evicts it, with its count, when another one falls
//! into the slot; the entries of one integer are merged later.

ghost use Rattle.std.specs.Prelude.{◌≡◌, ◌<◌, ◌+◌, ◌-◌, ◌/◌, ◌^◌, nat_lt, vec_len, ℤ, [], length, map, true, IfSome};
ghost use Rattle.std.specs.Ordering.{int_eq};
ghost use Rattle.vx_base.specs.Answers.{OrMemory};
ghost use Rattle.vx_base.specs.PlainValue.{int};
ghost use Rattle.vx_model.specs.Refusals.{validity_length};
ghost use Rattle.vx_model.specs.Rows.{masked_rows, valid_rows};
ghost use Rattle.vx_stats.specs.Seen.{share, total, empties, times_seen, AreSeen};
ghost use Rattle.vx_stats.specs.Stats.{valid_wholes};

use crate::integer::slots::slot_of;
use std::alloc::Global;
use vx_base::{Integer, Mask, VortexResult};

// At most 2^17 slots of 8 or 16 bytes, so that they stay in the processor's cache.
const MOST_SLOT_BITS: u32 = 17;

// Slots pay while at most one integer is evicted per 8 rows; above that hardly any value repeats, and sorting all of them
// is faster.
const ROWS_PER_EVICTION: usize = 8;

// Evictions to spare, so that the first rows alone don't decide.
const SPARE_EVICTIONS: usize = 1024;

/// Integers with counts: the one in each slot, with count 0 where the slot is free, and the evicted ones.
#[derive(Drop)]
pub(crate) struct Seen<T: Integer> {
    pub(crate) slots: Vec<(T, u32)>,
    pub(crate) evicted: Vec<(T, u32)>,
    pub(crate) shift: u32,
}

#[inline(always)]
pub(crate) fn is_same<T: Integer>(a: T, b: T) -> bool
    ensures { result ≡ int_eq (T.whole a) (T.whole b) }
{
    a == b
}

// Appends an entry unless its count is 0.
#[inline(always)]
fn push_some<T: Integer>(counts: &mut Vec<(T, u32)>, count: (T, u32)) -> VortexResult<()>
    ensures totals { OrMemory result (λ _. (z : ℤ) → total T.whole counts.new.items z ≡ total T.whole counts.old.items z + share z (T.whole count.0, count.1)) }
    ensures some { OrMemory result (λ _. empties counts.new.items ≡ empties counts.old.items) }
{
    if count.1 > 0 {
        counts.push(count)?;
    }
    Ok(())
}

impl<T: Integer> Seen<T> {
    // Nothing counted yet, with a slot for every four to eight of `items` integers.
    fn none(alloc: Global, items: u32) -> VortexResult<Self>
        ensures { OrMemory result (λ seen. AreSeen T.whole [] seen) }
    {
        let bits = (29u32.saturating_sub(items.leading_zeros())).min(MOST_SLOT_BITS);
        let slots = vec![in alloc; (T::zero(), 0u32); 1usize << bits]?;
        Ok(Seen {
            slots,
            evicted: Vec::new(alloc),
            shift: 64 - bits,
        })
    }

    // Counts one more integer.
    #[inline(always)]
    fn see(&mut self, item: T) -> VortexResult<()>
        requires { times_seen T.whole self.old (T.whole item) < 2 ^ 32 - 1 }
        ensures totals { OrMemory result (λ _. (z : ℤ) → times_seen T.whole self.new z ≡ times_seen T.whole self.old z + share z (T.whole item, 1)) }
        ensures some { OrMemory result (λ _. empties self.new.evicted.items ≡ empties self.old.evicted.items) }
    {
        let slot = slot_of(item, self.shift);
        if slot >= self.slots.len() {
            return push_some(&mut self.evicted, (item, 1));
        }
        let there = self.slots[slot];
        if is_same(there.0, item) {
            self.slots[slot] = (there.0, there.1 + 1);
        } else {
            push_some(&mut self.evicted, there)?;
            self.slots[slot] = (item, 1);
        }
        Ok(())
    }

    // Whether more integers of the first `rows` rows were evicted than slots pay for.
    #[inline(always)]
    fn is_crowded(&self, rows: usize) -> bool
        ensures { result ≡ nat_lt (rows / ROWS_PER_EVICTION + SPARE_EVICTIONS) (vec_len self.now.evicted) }
    {
        self.evicted.len() > rows / ROWS_PER_EVICTION + SPARE_EVICTIONS
    }

    /// All entries: the evicted ones, then those in slots.
    pub(crate) fn into_counts(self) -> VortexResult<Vec<(T, u32)>>
        ensures totals { OrMemory result (λ counts. (z : ℤ) → total T.whole counts.items z ≡ times_seen T.whole self z) }
        ensures some { OrMemory result (λ counts. empties counts.items ≡ empties self.evicted.items) }
    {
        let Seen {
            slots,
            evicted: mut counts,
            shift: _,
        } = self;
        for place in 0..slots.len() {
            push_some(&mut counts, slots[place])?;
        }
        Ok(counts)
    }
}

// Counts all integers; None where too many were evicted.
fn seen_of_all<T: Integer>(alloc: Global, items: &[T]) -> VortexResult<Option<Seen<T>>>
    requires { length items.now < 2 ^ 32 }
    ensures { OrMemory result (λ seen. IfSome seen (AreSeen T.whole (map T.whole items.now))) }
{
    let mut seen = Seen::none(alloc, items.len() as u32)?;
    for row in 0..items.len() {
        if seen.is_crowded(row) {
            return Ok(None);
        }
        seen.see(items[row])?;
    }
    Ok(Some(seen))
}

// Counts the integers whose bit is true; None where too many were evicted.
fn seen_of_masked<T: Integer>(
    alloc: Global,
    items: &[T],
    bits: &[bool],
) -> VortexResult<Option<Seen<T>>>
    requires few { length items.now < 2 ^ 32 }
    requires bits { length bits.now ≡ length items.now }
    ensures { OrMemory result (λ seen. IfSome seen (AreSeen T.whole (valid_wholes (masked_rows bits.now (map int (map T.whole items.now)))))) }
{
    let mut seen = Seen::none(alloc, items.len() as u32)?;
    for row in 0..items.len() {
        if seen.is_crowded(row) {
            return Ok(None);
        }
        let item = items[row];
        if bits[row] {
            seen.see(item)?;
        }
    }
    Ok(Some(seen))
}

/// Counts the integers of the valid rows; None where so many were evicted that sorting all is faster.
pub(crate) fn seen_of<T: Integer>(
    alloc: Global,
    items: &[T],
    valid: &Option<Mask>,
) -> VortexResult<Option<Seen<T>>>
    requires mask { validity_length valid.now (length items.now) ≡ true }
    requires few { length items.now < 2 ^ 32 }
    ensures { OrMemory result (λ seen. IfSome seen (AreSeen T.whole (valid_wholes (valid_rows valid.now (map int (map T.whole items.now)))))) }
{
    match valid {
        Some(mask) => seen_of_masked(alloc, items, mask.as_slice()),
        None => seen_of_all(alloc, items),
    }
}
