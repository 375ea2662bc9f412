//! Sums of integers of one type, which no number of rows makes overflow: of a signed type in 128 signed bits, since 2^63 * 2^64 is
//! the most that they come to, of an unsigned one in 128 bits.
//!
//! Numbers of an unsigned type are added up by halves of 32 bits, each in 64 bits. No carry goes from one half to the other, so that
//! a processor adds several at once, and the high halves of the narrower types cost nothing.

ghost use Rattle.std.specs.Prelude.{◌≡◌, ◌≤◌, ◌+◌, ◌-◌, ◌*◌, ◌^◌, ◌+ℤ◌, IsTrue, false, if◌then◌else◌, length, map, pos, take, true};
ghost use Rattle.vx_base.specs.Integers.{is_signed, lies_in};
ghost use Rattle.vx_base.specs.PlainValue.{int};
ghost use Rattle.vx_base.specs.Undelta.{total};
ghost use Rattle.vx_model.specs.Rows.{masked_rows};
ghost use Rattle.vx_rules.specs.Aggregates.{summand};

use vx_base::Integer;

/// One more than the greatest half.
const HALF: u64 = 1 << 32;
/// The rows of a block: the halves of so many numbers add up within 64 bits.
const BLOCK_ROWS: usize = 1 << 32;

/// The sum of all items of a signed type.
pub(crate) fn signed_total<T: Integer>(items: &[T]) -> i128
    requires { is_signed T.kind ≡ true }
    ensures { result ≡ total (map T.whole items.now) }
{
    let mut total = 0i128;
    let len = row_count(items);
    for row in 0..len {
        total += items[row].to_whole();
    }
    total
}

/// The sum of all items of an unsigned type.
pub(crate) fn unsigned_total<T: Integer>(items: &[T]) -> u128
    requires { is_signed T.kind ≡ false }
    ensures { pos result ≡ total (map T.whole items.now) }
{
    let len = row_count(items);
    let mut total = 0u128;
    let mut start = 0;
    while start < len {
        let end = start + (len - start).min(BLOCK_ROWS);
        total += block_total(items, start, end);
        start = end;
    }
    total
}

// The sum of a block of items of an unsigned type.
fn block_total<T: Integer>(items: &[T], start: usize, end: usize) -> u128
    requires unsigned { is_signed T.kind ≡ false }
    requires rows { (start ≤ end) × (end ≤ length items.now) }
    requires few { end ≤ start + 2 ^ 32 }
    ensures most { result ≤ 2 ^ 64 * (end - start) }
    ensures sum { total (take start (map T.whole items.now)) +ℤ pos result ≡ total (take end (map T.whole items.now)) }
{
    let mut low = 0u64;
    let mut high = 0u64;
    for row in start..end {
        let number = natural(items[row]);
        low += number % HALF;
        high += number / HALF;
    }
    of_halves(low, high)
}

/// The sum of the valid items of a signed type.
pub(crate) fn signed_total_of_valid<T: Integer>(items: &[T], mask: &[bool]) -> i128
    requires signed { is_signed T.kind ≡ true }
    requires lengths { length mask.now ≡ length items.now }
    ensures { result ≡ total (map summand (masked_rows mask.now (map int (map T.whole items.now)))) }
{
    let mut total = 0i128;
    let len = row_count(items);
    for row in 0..len {
        total += signed_term(items[row], mask[row]);
    }
    total
}

/// The sum of the valid items of an unsigned type.
pub(crate) fn unsigned_total_of_valid<T: Integer>(items: &[T], mask: &[bool]) -> u128
    requires unsigned { is_signed T.kind ≡ false }
    requires lengths { length mask.now ≡ length items.now }
    ensures { pos result ≡ total (map summand (masked_rows mask.now (map int (map T.whole items.now)))) }
{
    let len = row_count(items);
    let mut total = 0u128;
    let mut start = 0;
    while start < len {
        let end = start + (len - start).min(BLOCK_ROWS);
        total += block_total_of_valid(items, mask, start, end);
        start = end;
    }
    total
}

// The sum of the valid ones of a block of items of an unsigned type.
fn block_total_of_valid<T: Integer>(items: &[T], mask: &[bool], start: usize, end: usize) -> u128
    requires unsigned { is_signed T.kind ≡ false }
    requires lengths { length mask.now ≡ length items.now }
    requires rows { (start ≤ end) × (end ≤ length items.now) }
    requires few { end ≤ start + 2 ^ 32 }
    ensures most { result ≤ 2 ^ 64 * (end - start) }
    ensures sum { total (take start (map summand (masked_rows mask.now (map int (map T.whole items.now))))) +ℤ pos result ≡ total (take end (map summand (masked_rows mask.now (map int (map T.whole items.now))))) }
{
    let mut low = 0u64;
    let mut high = 0u64;
    for row in start..end {
        let number = natural_term(items[row], mask[row]);
        low += number % HALF;
        high += number / HALF;
    }
    of_halves(low, high)
}

// The sum of numbers whose halves were added up.
#[inline(always)]
fn of_halves(low: u64, high: u64) -> u128
    ensures { result ≡ low + 2 ^ 32 * high }
{
    low as u128 + HALF as u128 * high as u128
}

// An item of a signed type, 0 unless its bit is true.
#[inline(always)]
fn signed_term<T: Integer>(item: T, bit: bool) -> i128
    ensures value { result ≡ (if bit then T.whole item else pos 0) }
    ensures held { IsTrue (lies_in T.kind result) }
{
    let whole = item.to_whole();
    let zero = T::zero().to_whole();
    if bit { whole } else { zero }
}

// An item of an unsigned type, 0 unless its bit is true.
#[inline(always)]
fn natural_term<T: Integer>(item: T, bit: bool) -> u64
    requires { is_signed T.kind ≡ false }
    ensures { pos result ≡ (if bit then T.whole item else pos 0) }
{
    let number = natural(item);
    if bit { number } else { 0 }
}

// An item of an unsigned type as a natural number.
#[inline(always)]
#[tactic(auto, using(crate::proofs::TotalLemmas::naturals))]
fn natural<T: Integer>(item: T) -> u64
    requires { is_signed T.kind ≡ false }
    ensures { pos result ≡ T.whole item }
{
    let _whole = item.to_whole();
    item.to_bits()
}

// The number of items, which is below 2^64.
#[inline(always)]
fn row_count<T>(items: &[T]) -> usize
    ensures { result ≡ length items.now }
{
    items.len()
}
