//! Masks: a truth value per row.

ghost use Rattle.std.specs.Prelude.{◌≡◌, ◌≤◌, length, slice_get, slice_index_or, false, position, None};
ghost use Rattle.std.specs.List.{list_all};
ghost use Rattle.vx_base.specs.Answers.{Answers, Decided, unless};
ghost use Rattle.vx_base.specs.Masks.{true_count, rank, rows_between, is_part};
ghost use Rattle.vx_base.specs.declared.error.VortexError.TheVariants.{OutOfBounds};

use crate::error::{VortexError, VortexResult};
use std::alloc::Global;
use std::marker::Model;

// Rows that share a branch: enough that the branch costs little, few enough that a scan ends soon after the first false.
const GROUP_ROWS: usize = 64;

/// A truth value for each row.
#[derive(Debug, Drop)]
pub struct Mask {
    bits: Vec<bool>,
}

impl Model for Mask {
    ghost use Rattle.std.specs.Prelude.{List, Bool};

    ghost Value = { List Bool };

    ghost view = { λ a. a.bits.items };
}

impl Mask {
    pub fn from_bits(bits: Vec<bool>) -> Mask
        ensures { result ≡ bits.items }
    {
        Mask { bits }
    }

    /// The number of rows.
    pub fn len(&self) -> u64
        ensures { result ≡ length self.now }
    {
        self.bits.len() as u64
    }

    /// The truth values, row by row.
    pub fn as_slice(&self) -> &[bool]
        ensures { result.now ≡ self.now }
    {
        self.bits.as_slice()
    }

    /// The truth values as a vector.
    pub fn into_vec(self) -> Vec<bool>
        ensures { result.items ≡ self }
    {
        self.bits
    }

    /// The truth value of a row, None out of bounds.
    pub fn value(&self, row: u64) -> Option<bool>
        ensures { result ≡ slice_get self.now row }
    {
        self.bits.get(row as usize).copied()
    }

    /// Whether the row is true; false out of bounds.
    pub fn is_set(&self, row: u64) -> bool
        ensures { result ≡ slice_index_or self.now row false }
    {
        match self.bits.get(row as usize) {
            Some(bit) => *bit,
            None => false,
        }
    }

    /// Whether every row is true.
    pub fn all_true(&self) -> bool
        ensures { result ≡ list_all (λ bit. bit) self.now }
    {
        are_true(self.bits.as_slice())
    }

    /// The number of true rows.
    pub fn true_count(&self) -> u64
        ensures { result ≡ true_count self.now }
    {
        true_bits(self.bits.as_slice())
    }

    /// The number of true rows before this one.
    pub fn rank(&self, row: u64) -> u64
        requires { row ≤ length self.now }
        ensures { result ≡ rank self.now row }
    {
        true_bits(&self.bits[..row as usize])
    }

    /// The first true row, None where no row is true.
    pub fn first(&self) -> Option<u64>
        ensures { result ≡ position (λ bit. bit) self.now }
    {
        let row = first_set(self.bits.as_slice())?;
        Some(row as u64)
    }

    /// The rows `start` to `end - 1`. Refuses OutOfBounds where `start > end` or `end > len`.
    pub fn slice(&self, alloc: Global, start: u64, end: u64) -> VortexResult<Mask>
        ensures { Decided (unless (is_part (length self.now) start end) OutOfBounds None) (λ part. part ≡ rows_between self.now start end) result }
    {
        if start > end || end > self.len() {
            return Err(VortexError::OutOfBounds);
        }
        Ok(Mask {
            bits: Vec::from_slice(alloc, &self.bits[start as usize..end as usize])?,
        })
    }

    /// A copy.
    pub fn copy(&self, alloc: Global) -> VortexResult<Mask>
        ensures { Answers result self.now }
    {
        Ok(Mask {
            bits: Vec::from_slice(alloc, self.bits.as_slice())?,
        })
    }
}

// The number of true bits, as a sum: no branch per row, so that the loop is vectorized.
fn true_bits(bits: &[bool]) -> u64
    ensures { result ≡ true_count bits.now }
{
    let mut count = 0;
    for bit in bits {
        count += u64::from(*bit);
    }
    count
}

// Whether every bit is true. There is one branch for each group of rows, and the first group with a false ends the scan.
fn are_true(bits: &[bool]) -> bool
    ensures { result ≡ list_all (λ bit. bit) bits.now }
{
    for rows in bits.chunks(GROUP_ROWS) {
        if !each_true(rows) {
            return false;
        }
    }
    true
}

// Whether every bit of a group is true, by `&` over all of them: no branch per row.
fn each_true(bits: &[bool]) -> bool
    ensures { result ≡ list_all (λ bit. bit) bits.now }
{
    let mut all = true;
    for bit in bits {
        all &= *bit;
    }
    all
}

fn first_set(bits: &[bool]) -> Option<usize>
    ensures { result ≡ position (λ bit. bit) bits.now }
{
    bits.iter().position(|bit| *bit)
}
