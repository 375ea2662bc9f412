//! Codes of integers among ascending values: their places, by binary search, with a direct-mapped cache of recent codes.

ghost use Rattle.std.specs.Prelude.{◌≡◌, ◌<◌, ◌*◌, ◌/◌, ◌%◌, ◌^◌, map, All};
ghost use Rattle.std.specs.List.Sorted.{IsStrictlySortedBy};
ghost use Rattle.std.specs.Ordering.{int_cmp};
ghost use Rattle.vx_base.specs.Answers.{Answers, OrMemory};
ghost use Rattle.vx_base.specs.Integers.{bits_in};
ghost use Rattle.vx_schemes.specs.Dictionary.Codes.{as_code, IsCoded};
ghost use Rattle.vx_schemes.specs.Dictionary.Tree.{code_of};

use std::alloc::Global;
use std::marker::Model;
use vx_base::{Integer, VortexResult};

// The cache has SLOTS slots from SLOTS items on. For fewer items it has none: filling it would cost more than it saves.
const SLOTS: usize = 4096;

// The cache has MOST_SLOTS slots from MOST_SLOTS items on: enough that even some thousands of values seldom share one.
const MOST_SLOTS: usize = 65_536;

// 2^64 / golden ratio (Fibonacci hashing): its products with numbers near one another differ in their highest bits.
const SPREAD: u64 = 0x9E37_79B9_7F4A_7C15;

/// Ascending values with a direct-mapped cache of items and their codes, of 2^(64 - shift) slots or none. An item's slot
/// is the highest bits of its product with SPREAD. Contracts see the values.
#[derive(Drop)]
pub(crate) struct RecentCodes<'a, T: Integer, C: Integer> {
    values: &'a [T],
    slots: Vec<(T, C)>,
    shift: u32,
}

impl<'a, T: Integer, C: Integer> Model for RecentCodes<'a, T, C> {
    ghost use Rattle.std.specs.Prelude.{◌<◌, ℤ, List, map, All};
    ghost use Rattle.std.specs.List.Sorted.{IsStrictlySortedBy};
    ghost use Rattle.std.specs.Ordering.{int_cmp};
    ghost use Rattle.vx_schemes.specs.Dictionary.Codes.{IsCoded};

    ghost Value = { List ℤ };

    ghost view = { λ a. map T.whole a.values.now };

    ghost invariant = { λ a. (a.shift < 64) × IsStrictlySortedBy int_cmp (map T.whole a.values.now) × All (IsCoded T.whole C.whole C.kind (map T.whole a.values.now)) a.slots.items };
}

// The place of an integer among ascending values; their number where it isn't among them.
fn code_of<T: Integer>(values: &[T], item: T) -> usize
    requires { IsStrictlySortedBy int_cmp (map T.whole values.now) }
    ensures { result ≡ code_of (map T.whole values.now) (T.whole item) }
{
    match values.binary_search(&item) {
        Ok(place) => place,
        Err(_) => values.len(),
    }
}

// The place as a code of its type. Never inlined, so that a loop in which most items hit the cache stays short.
#[inline(never)]
fn as_code<T: Integer, C: Integer>(values: &[T], item: T) -> C
    requires { IsStrictlySortedBy int_cmp (map T.whole values.now) }
    ensures { C.whole result ≡ as_code C.kind (map T.whole values.now) (T.whole item) }
{
    C::from_low_bits(code_of(values, item) as u64)
}

// The slot of an item: the product of its bits with SPREAD without the lowest `shift` bits.
#[inline(always)]
fn slot_of<T: Integer>(item: T, shift: u32) -> usize
    requires { shift < 64 }
    ensures { result ≡ bits_in T.kind (T.whole item) * SPREAD % 2 ^ 64 / 2 ^ shift }
{
    (item.to_bits().wrapping_mul(SPREAD) >> shift) as usize
}

// A cache with one item and its code in every slot, so that no slot has to be marked as empty.
fn filled<T: Integer, C: Integer>(
    alloc: Global,
    values: &[T],
    item: T,
    count: usize,
) -> VortexResult<Vec<(T, C)>>
    requires { IsStrictlySortedBy int_cmp (map T.whole values.now) }
    ensures { OrMemory result (λ slots. All (IsCoded T.whole C.whole C.kind (map T.whole values.now)) slots.items) }
{
    let code = as_code(values, item);
    let mut slots = Vec::with_capacity(alloc, count)?;
    for _ in 0..count {
        slots.push((item, code))?;
    }
    Ok(slots)
}

impl<'a, T: Integer, C: Integer> RecentCodes<'a, T, C> {
    /// For look-ups of `items` items among `values`.
    pub(crate) fn new(alloc: Global, values: &'a [T], items: usize) -> VortexResult<Self>
        requires { IsStrictlySortedBy int_cmp (map T.whole values.now) }
        ensures { Answers result (map T.whole values.now) }
    {
        // The shift leaves log2 of the slots: 12 and 16 bits of 64.
        let (count, shift) = if items < SLOTS {
            (0, 63)
        } else if items < MOST_SLOTS {
            (SLOTS, 52)
        } else {
            (MOST_SLOTS, 48)
        };
        let slots = filled(alloc, values, T::zero(), count)?;
        Ok(RecentCodes {
            values,
            slots,
            shift,
        })
    }

    /// The code of an item: from its slot on a hit; on a miss by binary search, after which the item has the slot.
    #[inline(always)]
    pub(crate) fn code_of(&mut self, item: T) -> C
        ensures code { C.whole result ≡ as_code C.kind self.old (T.whole item) }
        ensures values { self.new ≡ self.old }
    {
        let slot = slot_of(item, self.shift);
        if slot >= self.slots.len() {
            return as_code(self.values, item);
        }
        let (met, code) = self.slots[slot];
        if met == item {
            return code;
        }
        let code = as_code(self.values, item);
        self.slots[slot] = (item, code);
        code
    }
}
