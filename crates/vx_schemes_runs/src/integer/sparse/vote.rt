//! How often the majority value of a column occurs, by the majority vote of Boyer and Moore: one pass finds the only
//! candidate for a majority, and a second counts it. Without nulls a quarter of the rows votes.

ghost use Rattle.std.specs.Prelude.{◌≡◌, ◌<◌, ◌≤◌, ◌+◌, ◌-◌, ◌^◌, length, map, true, IsTrue, if◌then◌else◌};
ghost use Rattle.std.specs.Ordering.{int_eq};
ghost use Rattle.vx_base.specs.PlainType.{is_integer};
ghost use Rattle.vx_base.specs.PlainValue.{int};
ghost use Rattle.vx_model.specs.Plain.{IsPlain};
ghost use Rattle.vx_model.specs.Refusals.{validity_length};
ghost use Rattle.vx_model.specs.Rows.{masked_rows, rows, valid_rows};
ghost use Rattle.vx_model.specs.TreeType.{tree_type};
ghost use Rattle.vx_stats.specs.Distinct.{times};
ghost use Rattle.vx_stats.specs.Runs.{whole_count};
ghost use Rattle.vx_stats.specs.Stats.{valid_wholes};
ghost use Rattle.vx_values.specs.IntsOf.{wholes_of};
ghost use Rattle.vx_schemes_runs.specs.Sparse.Vote.{after_vote, winner, CountsMost};

use vx_array::ArrayRef;
use vx_base::{Integer, Mask};
use vx_values::Ints;

// The first quarter of the rows votes: each vote waits for the one before, so that voting takes several times as long
// as counting. A value in 9 of 10 rows has the majority of a quarter too: a tenth of the rows are others, so in a quarter
// at most 2 of 5.
const ROWS_PER_VOTE: usize = 4;

// The leader of a vote and its lead after one more vote; a vote whose bit is false isn't counted.
#[inline(always)]
fn voted<T: Integer>(leader: (T, u64), bit: bool, item: T) -> (T, u64)
    requires { leader.1 + 1 < 2 ^ 64 }
    ensures leader { whole_count T.whole result ≡ (if bit then after_vote (whole_count T.whole leader) (T.whole item) else whole_count T.whole leader) }
    ensures most { result.1 ≤ leader.1 + 1 }
{
    if !bit {
        leader
    } else if leader.1 == 0 {
        (item, 1)
    } else if leader.0 == item {
        (leader.0, leader.1 + 1)
    } else {
        (leader.0, leader.1 - 1)
    }
}

// The leader when all items have voted.
fn winner_of_all<T: Integer>(items: &[T]) -> T
    ensures { T.whole result ≡ winner (map T.whole items.now) }
{
    let mut leader = (T::zero(), 0);
    for row in 0..items.len() {
        leader = voted(leader, true, items[row]);
    }
    leader.0
}

// The leader when the items have voted whose bit is true.
fn winner_of_valid<T: Integer>(items: &[T], bits: &[bool]) -> T
    requires { length bits.now ≡ length items.now }
    ensures { T.whole result ≡ winner (valid_wholes (masked_rows bits.now (map int (map T.whole items.now)))) }
{
    let mut leader = (T::zero(), 0);
    for row in 0..items.len() {
        leader = voted(leader, bits[row], items[row]);
    }
    leader.0
}

// 1 where a bit is true and an item is a value, else 0.
#[inline(always)]
fn share<T: Integer>(value: T, bit: bool, item: T) -> u64
    ensures value { result ≡ (if bit then (if int_eq (T.whole value) (T.whole item) then 1 else 0) else 0) }
    ensures most { result ≤ 1 }
{
    if bit && value == item { 1 } else { 0 }
}

// How often a value occurs among items.
fn times_in_all<T: Integer>(value: T, items: &[T]) -> u64
    ensures { result ≡ times (map T.whole items.now) (T.whole value) }
{
    let mut count = 0;
    for row in 0..items.len() {
        count += share(value, true, items[row]);
    }
    count
}

// How often a value occurs among the items whose bit is true.
fn times_in_valid<T: Integer>(value: T, items: &[T], bits: &[bool]) -> u64
    requires { length bits.now ≡ length items.now }
    ensures { result ≡ times (valid_wholes (masked_rows bits.now (map int (map T.whole items.now)))) (T.whole value) }
{
    let mut count = 0;
    for row in 0..items.len() {
        count += share(value, bits[row], items[row]);
    }
    count
}

// How often a value occurs among the valid rows that is the most frequent one where 9 of 10 are equal.
fn winner_count_of<T: Integer>(items: &[T], valid: &Option<Mask>) -> u64
    requires { validity_length valid.now (length items.now) ≡ true }
    ensures { CountsMost (valid_rows valid.now (map int (map T.whole items.now))) result }
{
    match valid {
        Some(mask) => {
            let bits = mask.as_slice();
            times_in_valid(winner_of_valid(items, bits), items, bits)
        }
        None => {
            let votes = items.len().div_ceil(ROWS_PER_VOTE);
            times_in_all(winner_of_all(&items[..votes]), items)
        }
    }
}

macro_rules! count_by_type {
    ($values:expr, $valid:expr; $($kind:ident),*) => {
        match $values {
            $(Ints::$kind(items) => winner_count_of(items.as_slice(), $valid),)*
        }
    };
}

// `winner_count_of` of integers of any type.
fn winner_count_of_ints(values: &Ints, valid: &Option<Mask>) -> u64
    requires { validity_length valid.now (length (wholes_of values.now)) ≡ true }
    ensures { CountsMost (valid_rows valid.now (map int (wholes_of values.now))) result }
{
    count_by_type!(values, valid; U8, U16, U32, U64, I8, I16, I32, I64)
}

/// How often the winner of a majority vote occurs among the valid rows of a plain column. A value that 9 of 10 of them have
/// wins.
#[tactic(auto, using(vx_model::proofs::PrimitiveLemmas::plain_roots))]
pub(crate) fn winner_count(array: &ArrayRef) -> u64
    requires plain { IsPlain array.now }
    requires integer { IsTrue (is_integer (tree_type array.now)) }
    ensures { CountsMost (rows array.now) result }
{
    let (values, valid, _) = array.as_primitive();
    winner_count_of_ints(values, valid)
}
