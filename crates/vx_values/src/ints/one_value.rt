//! One integer in all rows, or in all valid rows.

ghost use Rattle.std.specs.Prelude.{◌≡◌, ◌<◌, length, IsTrue, replicate, true, map, option_map};
ghost use Rattle.vx_base.specs.Answers.{OrMemory};
ghost use Rattle.vx_base.specs.Integers.{lies_in};
ghost use Rattle.vx_base.specs.PlainValue.{int, cell};
ghost use Rattle.vx_model.specs.Leaf.{first_valid, each_null_or, null_or};
ghost use Rattle.vx_model.specs.Refusals.{validity_length};
ghost use Rattle.vx_model.specs.Rows.{valid_rows, row_at};
ghost use Rattle.vx_values.specs.IntsOf.{ptype_of, wholes_of};

use super::Ints;
use crate::validity::is_valid;
use std::alloc::Global;
use vx_base::{IntList, Integer, Mask, PType, VortexResult};

impl Ints {
    /// `len` rows of one integer.
    pub fn filled(alloc: Global, whole: i128, ptype: PType, len: u64) -> VortexResult<Ints>
        requires { IsTrue (lies_in ptype whole) }
        ensures { OrMemory result (λ ints. (ptype_of ints ≡ ptype) × (wholes_of ints ≡ replicate len whole)) }
    {
        ints_of!(ptype => filled(alloc, whole, len)?)
    }

    /// The first valid row, None where all are null.
    pub fn first_valid(&self, valid: &Option<Mask>) -> Option<i128>
        requires { validity_length valid.now (length (wholes_of self.now)) ≡ true }
        ensures { option_map int result ≡ first_valid (valid_rows valid.now (map int (wholes_of self.now))) }
    {
        with_ints!(self, items => first_valid(items.as_slice(), valid))
    }

    /// Whether each row is null or this integer.
    pub fn each_null_or(&self, valid: &Option<Mask>, whole: i128) -> bool
        requires { validity_length valid.now (length (wholes_of self.now)) ≡ true }
        ensures { result ≡ each_null_or (int whole) (valid_rows valid.now (map int (wholes_of self.now))) }
    {
        with_ints!(self, items => each_null_or(items.as_slice(), valid, whole))
    }
}

// `len` rows of one integer.
fn filled<T: Integer>(alloc: Global, whole: i128, len: u64) -> VortexResult<IntList<T>>
    requires { IsTrue (lies_in T.kind whole) }
    ensures { OrMemory result (λ list. map T.whole list ≡ replicate len whole) }
{
    let Some(item) = T::from_whole(whole) else {
        unreachable!();
    };
    let mut items = Vec::with_capacity(alloc, len as usize)?;
    for _row in 0..len {
        items.push(item)?;
    }
    Ok(IntList::from_vec(items))
}

// A row, None where it is null.
#[inline(always)]
fn cell_at<T: Integer>(items: &[T], valid: &Option<Mask>, row: usize) -> Option<i128>
    requires in_items { row < length items.now }
    requires in_mask { validity_length valid.now (length items.now) ≡ true }
    ensures { cell result ≡ row_at (valid_rows valid.now (map int (map T.whole items.now))) row }
{
    if is_valid(valid, row as u64) {
        Some(items[row].to_whole())
    } else {
        None
    }
}

// The first valid row.
fn first_valid<T: Integer>(items: &[T], valid: &Option<Mask>) -> Option<i128>
    requires { validity_length valid.now (length items.now) ≡ true }
    ensures { option_map int result ≡ first_valid (valid_rows valid.now (map int (map T.whole items.now))) }
{
    for row in 0..items.len() {
        if let Some(whole) = cell_at(items, valid, row) {
            return Some(whole);
        }
    }
    None
}

// Whether the row is null or this integer.
#[inline(always)]
fn is_null_or<T: Integer>(items: &[T], valid: &Option<Mask>, row: usize, whole: i128) -> bool
    requires in_items { row < length items.now }
    requires in_mask { validity_length valid.now (length items.now) ≡ true }
    ensures { result ≡ null_or (int whole) (row_at (valid_rows valid.now (map int (map T.whole items.now))) row) }
{
    match cell_at(items, valid, row) {
        Some(other) => other == whole,
        None => true,
    }
}

// Whether each row is null or this integer.
fn each_null_or<T: Integer>(items: &[T], valid: &Option<Mask>, whole: i128) -> bool
    requires { validity_length valid.now (length items.now) ≡ true }
    ensures { result ≡ each_null_or (int whole) (valid_rows valid.now (map int (map T.whole items.now))) }
{
    for row in 0..items.len() {
        if !is_null_or(items, valid, row, whole) {
            return false;
        }
    }
    true
}
