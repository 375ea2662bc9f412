//! Rows of truth values: false beneath nulls, and rows picked by codes.

ghost use Rattle.std.specs.Prelude.{◌≡◌, ◌<◌, ◌≤◌, length, map, take, replicate, true, false, not, ◌||◌, ◌+◌, ◌^◌, IsTrue, slice_set, slice_index_or, if◌then◌else◌};
ghost use Rattle.vx_base.specs.Answers.{Answers, OrMemory};
ghost use Rattle.vx_base.specs.PlainValue.{truth, int};
ghost use Rattle.vx_model.specs.Decoded.{zeroed, zeroed_by, zero_beneath, picked};
ghost use Rattle.vx_model.specs.Leaf.{each_null_or, null_or};
ghost use Rattle.vx_model.specs.Refusals.{validity_length};
ghost use Rattle.vx_model.specs.Rows.{valid_rows, row_at};
ghost use Rattle.vx_model.specs.WellFormed.{ascend};
ghost use Rattle.vx_values.specs.IntsOf.{ptype_of, wholes_of};
ghost use Rattle.vx_values.specs.Placed.{by_runs, by_patches};

use crate::ints::{Ints, with_ints};
use crate::validity::is_valid;
use crate::{patch_rows, run_rows};
use std::alloc::Global;
use vx_base::{Integer, Mask, VortexResult};
use vx_blocks::GROUP_ROWS;

/// `len` rows of one truth value.
pub fn filled(alloc: Global, bit: bool, len: u64) -> VortexResult<Mask>
    ensures { Answers result (replicate len bit) }
{
    let mut bits = Vec::with_capacity(alloc, len as usize)?;
    for _row in 0..len {
        bits.push(bit)?;
    }
    Ok(Mask::from_bits(bits))
}

/// The rows, with false where the mask is false.
pub fn zeroed(bits: Mask, mask: &Mask) -> Mask
    requires { length mask.now ≡ length bits }
    ensures { result ≡ zeroed false mask.now bits }
{
    let mut bits = bits.into_vec();
    zero_beneath(bits.as_mut_slice(), mask.as_slice());
    Mask::from_bits(bits)
}

/// A copy, with false where a row is null.
pub fn decoded(alloc: Global, bits: &Mask, valid: &Option<Mask>) -> VortexResult<Mask>
    requires { validity_length valid.now (length bits.now) ≡ true }
    ensures { Answers result (zeroed_by false valid.now bits.now) }
{
    let copy = bits.copy(alloc)?;
    match valid {
        Some(mask) => Ok(zeroed(copy, mask)),
        None => Ok(copy),
    }
}

/// Whether each row is false where the mask is.
pub fn is_zero_beneath(bits: &Mask, mask: &Mask) -> bool
    requires { length mask.now ≡ length bits.now }
    ensures { result ≡ zero_beneath not mask.now bits.now }
{
    are_zero_beneath(bits.as_slice(), mask.as_slice())
}

// Whether each row is false or has a true mask. There is one branch for each group of rows.
#[tactic(auto, using(vx_model::proofs::ZeroLemmas::zeroing))]
fn are_zero_beneath(bits: &[bool], mask: &[bool]) -> bool
    requires { length mask.now ≡ length bits.now }
    ensures { result ≡ zero_beneath not mask.now bits.now }
{
    let mut start = 0;
    while start < mask.len() {
        let end = start + (mask.len() - start).min(GROUP_ROWS);
        if !part_is_zero_beneath(bits, mask, start, end) {
            return false;
        }
        start = end;
    }
    true
}

// Whether each of the rows before `end` is false or has a true mask, where those before `start` are known to; by `&` over
// the others: no branch per row.
fn part_is_zero_beneath(bits: &[bool], mask: &[bool], start: usize, end: usize) -> bool
    requires same { length mask.now ≡ length bits.now }
    requires order { start ≤ end }
    requires room { end ≤ length bits.now }
    requires before { zero_beneath not (take start mask.now) bits.now ≡ true }
    ensures { result ≡ zero_beneath not (take end mask.now) bits.now }
{
    let mut all = true;
    for row in start..end {
        all &= is_zero_at(bits, mask, row);
    }
    all
}

// Whether the row is false, or the mask is true there. By `|`, since `||` is a branch.
#[inline(always)]
fn is_zero_at(bits: &[bool], mask: &[bool], row: usize) -> bool
    requires in_bits { row < length bits.now }
    requires in_mask { row < length mask.now }
    ensures { result ≡ (slice_index_or mask.now row false || not (slice_index_or bits.now row false)) }
{
    mask[row] | !bits[row]
}

// Writes false where the mask is false.
#[tactic(auto, using(vx_model::proofs::ZeroLemmas::zeroing))]
fn zero_beneath(bits: &mut [bool], mask: &[bool])
    requires { length mask.now ≡ length bits.old }
    ensures { bits.new ≡ zeroed false mask.now bits.old }
{
    for row in 0..mask.len() {
        zero_at(bits, row, mask[row]);
    }
}

// Writes false unless the bit is true.
#[inline(always)]
fn zero_at(bits: &mut [bool], row: usize, bit: bool)
    requires { row < length bits.old }
    ensures { bits.new ≡ slice_set bits.old row (if bit then slice_index_or bits.old row false else false) }
{
    bits[row] = if bit { bits[row] } else { false };
}

/// Whether each row is null or this truth value.
pub fn each_null_or(bits: &Mask, valid: &Option<Mask>, bit: bool) -> bool
    requires { validity_length valid.now (length bits.now) ≡ true }
    ensures { result ≡ each_null_or (truth bit) (valid_rows valid.now (map truth bits.now)) }
{
    for row in 0..bits.len() {
        if !is_null_or(bits, valid, row, bit) {
            return false;
        }
    }
    true
}

// Whether the row is null or this truth value.
#[inline(always)]
fn is_null_or(bits: &Mask, valid: &Option<Mask>, row: u64, bit: bool) -> bool
    requires in_bits { row < length bits.now }
    requires in_mask { validity_length valid.now (length bits.now) ≡ true }
    ensures { result ≡ null_or (truth bit) (row_at (valid_rows valid.now (map truth bits.now)) row) }
{
    if is_valid(valid, row) {
        bits.is_set(row) == bit
    } else {
        true
    }
}

/// For each code the row with that index, false out of bounds.
pub fn picked(alloc: Global, bits: &Mask, codes: &Ints) -> VortexResult<Mask>
    ensures { Answers result (map (λ code. picked (ptype_of codes.now) bits.now false code) (wholes_of codes.now)) }
{
    with_ints!(codes, codes => picked_by(alloc, bits, codes.as_slice()))
}

// The row at a code, false out of bounds.
#[inline(always)]
fn pick<C: Integer>(bits: &Mask, code: C) -> bool
    ensures { result ≡ picked C.kind bits.now false (C.whole code) }
{
    bits.is_set(code.to_bits())
}

// The row at each code.
fn picked_by<C: Integer>(alloc: Global, bits: &Mask, codes: &[C]) -> VortexResult<Mask>
    ensures { Answers result (map (λ code. picked C.kind bits.now false code) (map C.whole codes.now)) }
{
    let mut picked = Vec::with_capacity(alloc, codes.len())?;
    for row in 0..codes.len() {
        picked.push(pick(bits, codes[row]))?;
    }
    Ok(Mask::from_bits(picked))
}

/// In each row the bit of its run, of runs by their ends, which are exclusive. False where a run has no bit.
pub fn in_runs(alloc: Global, ends: &Ints, bits: &Mask) -> VortexResult<Mask>
    requires { IsTrue (ascend 1 (2 ^ 64) (map int (wholes_of ends.now))) }
    ensures { Answers result (by_runs (map int (wholes_of ends.now)) bits.now false) }
{
    let rows = run_rows::in_runs(alloc, ends, bits.as_slice(), false)?;
    Ok(Mask::from_bits(rows))
}

/// The fill in each of `len` rows, and then the bit of each patch in its row, `index - offset`.
pub fn with_patches(
    alloc: Global,
    fill: bool,
    bits: &Mask,
    indices: &Ints,
    offset: u64,
    len: u64,
) -> VortexResult<Mask>
    requires rising { ascend offset (offset + len) (map int (wholes_of indices.now)) ≡ true }
    requires lengths { length bits.now ≡ length (wholes_of indices.now) }
    ensures { Answers result (by_patches (map int (wholes_of indices.now)) offset len bits.now fill) }
{
    let rows = patch_rows::with_patches(alloc, fill, bits.as_slice(), indices, offset, len)?;
    Ok(Mask::from_bits(rows))
}
