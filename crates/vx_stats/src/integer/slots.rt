//! A lower bound on the number of distinct integers: integers in different hash slots are distinct.

ghost use Rattle.std.specs.Prelude.{◌≡◌, ◌<◌, ◌≤◌, ◌^◌, ◌/◌, ℤ, List, [], ◌∷◌, length, map, true, if◌then◌else◌};
ghost use Rattle.vx_base.specs.Answers.{OrMemory};
ghost use Rattle.vx_base.specs.Integers.{bits_in};
ghost use Rattle.vx_base.specs.PlainValue.{int};
ghost use Rattle.vx_base.specs.declared.ptype.PType.{PType};
ghost use Rattle.vx_model.specs.Refusals.{validity_length};
ghost use Rattle.vx_model.specs.Rows.{masked_rows, valid_rows};
ghost use Rattle.vx_stats.specs.Distinct.{distinct};
ghost use Rattle.vx_stats.specs.Slots.{slot_of, TakenBy};
ghost use Rattle.vx_stats.specs.Stats.{valid_wholes, distinct_count};

use std::alloc::Global;
use vx_base::{Integer, Mask, VortexResult};

// 2^64 / phi, the factor of Fibonacci hashing: it spreads neighbouring integers over the highest bits of the product.
const SPREAD: u64 = 0x9E37_79B9_7F4A_7C15;

/// Which slots are taken, and how many.
#[derive(Drop)]
pub(crate) struct Slots {
    pub(crate) taken: Vec<bool>,
    pub(crate) shift: u32,
    pub(crate) count: usize,
}

// The slot of an item: the bits of its product above the lowest `shift`.
#[inline(always)]
pub(crate) fn slot_of<T: Integer>(item: T, shift: u32) -> usize
    ensures { result ≡ slot_of shift (bits_in T.kind (T.whole item)) }
{
    item.to_bits().wrapping_mul(SPREAD).wrapping_shr(shift) as usize
}

impl Slots {
    // One to two free slots for each of `items` integers.
    fn free(alloc: Global, items: u32) -> VortexResult<Self>
        ensures { OrMemory result (λ slots. (p : PType) → TakenBy p [] slots) }
    {
        let bits = 32 - items.leading_zeros();
        let taken = vec![in alloc; false; 1usize << bits]?;
        Ok(Slots {
            taken,
            shift: 64 - bits,
            count: 0,
        })
    }

    // Takes the slot of an item whose bit is true, and counts it where it was free. Without a branch on the bit: scattered
    // nulls would make it unpredictable.
    #[inline(always)]
    fn take<T: Integer>(&mut self, item: T, bit: bool)
        ensures { (zs : List ℤ) → TakenBy T.kind zs self.old → TakenBy T.kind (if bit then T.whole item ∷ zs else zs) self.new }
    {
        let slot = slot_of(item, self.shift);
        if slot < self.taken.len() {
            let taken = self.taken[slot];
            self.taken[slot] = taken | bit;
            self.count = self.count.saturating_add(usize::from(bit & !taken));
        }
    }
}

// The number of slots that integers take; stops above `enough`.
fn taken_by_all<T: Integer>(alloc: Global, items: &[T], enough: usize) -> VortexResult<usize>
    requires { length items.now < 2 ^ 32 }
    ensures { OrMemory result (λ count. count ≤ length (distinct (map T.whole items.now))) }
{
    let mut slots = Slots::free(alloc, items.len() as u32)?;
    for row in 0..items.len() {
        if slots.count > enough {
            return Ok(slots.count);
        }
        slots.take(items[row], true);
    }
    Ok(slots.count)
}

// The number of slots that the integers whose bit is true take; stops above `enough`.
fn taken_by_valid<T: Integer>(
    alloc: Global,
    items: &[T],
    bits: &[bool],
    enough: usize,
) -> VortexResult<usize>
    requires few { length items.now < 2 ^ 32 }
    requires bits { length bits.now ≡ length items.now }
    ensures { OrMemory result (λ count. count ≤ length (distinct (valid_wholes (masked_rows bits.now (map int (map T.whole items.now)))))) }
{
    let mut slots = Slots::free(alloc, items.len() as u32)?;
    for row in 0..items.len() {
        if slots.count > enough {
            return Ok(slots.count);
        }
        slots.take(items[row], bits[row]);
    }
    Ok(slots.count)
}

/// A lower bound on the distinct count of the valid rows; stops above `enough`. With one to two slots an integer it is
/// more than half of the rows where nearly all are distinct.
pub(crate) fn distinct_lower_bound<T: Integer>(
    alloc: Global,
    items: &[T],
    valid: &Option<Mask>,
    enough: usize,
) -> VortexResult<usize>
    requires mask { validity_length valid.now (length items.now) ≡ true }
    requires few { length items.now < 2 ^ 32 }
    ensures { OrMemory result (λ count. count ≤ distinct_count (valid_rows valid.now (map int (map T.whole items.now)))) }
{
    match valid {
        Some(mask) => taken_by_valid(alloc, items, mask.as_slice(), enough),
        None => taken_by_all(alloc, items, enough),
    }
}
