//! Integers picked by codes.

ghost use Rattle.std.specs.List.{list_any, range_with_len};
ghost use Rattle.std.specs.Prelude.{◌≡◌, ◌<◌, length, pos, map, not};
ghost use Rattle.vx_values.specs.Codes.{validity_by_codes};
ghost use Rattle.vx_base.specs.Answers.{Answers, OrMemory};
ghost use Rattle.vx_base.specs.PlainValue.{int};
ghost use Rattle.vx_model.specs.Decoded.{picked, picks_valid};
ghost use Rattle.vx_model.specs.WellFormed.{is_place};
ghost use Rattle.vx_values.specs.IntsOf.{ptype_of, wholes_of};

use super::Ints;
use crate::validity::{is_valid, keep};
use std::alloc::Global;
use vx_base::{IntList, Integer, Mask, VortexResult};
use vx_blocks::GROUP_ROWS;

impl Ints {
    /// For each code the integer with that index, 0 out of bounds.
    pub fn picked(&self, alloc: Global, codes: &Ints) -> VortexResult<Ints>
        ensures { OrMemory result (λ ints. (ptype_of ints ≡ ptype_of self.now) × (wholes_of ints ≡ map (λ code. picked (ptype_of codes.now) (wholes_of self.now) (pos 0) code) (wholes_of codes.now))) }
    {
        map_ints!(self, items => picked_by(alloc, items.as_slice(), codes)?)
    }

    /// For each code, whether its row is valid and the bit with that index is true.
    pub fn picks_valid(
        &self,
        alloc: Global,
        valid: &Option<Mask>,
        bits: &Mask,
    ) -> VortexResult<Mask>
        ensures { Answers result (map (picks_valid (ptype_of self.now) bits.now valid.now (wholes_of self.now)) (range_with_len 0 (length (wholes_of self.now)))) }
    {
        with_ints!(self, codes => picks_valid(alloc, codes.as_slice(), valid, bits))
    }

    /// Whether some code is out of bounds of `items` items.
    pub fn has_outside(&self, items: u64) -> bool
        ensures { result ≡ list_any (λ z. not (is_place items (int z))) (wholes_of self.now) }
    {
        with_ints!(self, codes => has_outside(codes.as_slice(), items))
    }
}

// The item at each code.
fn picked_by<T: Integer>(alloc: Global, items: &[T], codes: &Ints) -> VortexResult<IntList<T>>
    ensures { OrMemory result (λ list. map T.whole list ≡ map (λ code. picked (ptype_of codes.now) (map T.whole items.now) (pos 0) code) (wholes_of codes.now)) }
{
    with_ints!(codes, codes => picked(alloc, items, codes.as_slice()))
}

// The item at a code, 0 out of bounds.
#[inline(always)]
fn pick<C: Integer, T: Integer>(items: &[T], code: C) -> T
    ensures { T.whole result ≡ picked C.kind (map T.whole items.now) (pos 0) (C.whole code) }
{
    match items.get(code.to_bits() as usize) {
        Some(item) => *item,
        None => T::zero(),
    }
}

// The item at each code, of one type of codes.
fn picked<C: Integer, T: Integer>(
    alloc: Global,
    items: &[T],
    codes: &[C],
) -> VortexResult<IntList<T>>
    ensures { OrMemory result (λ list. map T.whole list ≡ map (λ code. picked C.kind (map T.whole items.now) (pos 0) code) (map C.whole codes.now)) }
{
    let mut picked = Vec::with_capacity(alloc, codes.len())?;
    for row in 0..codes.len() {
        picked.push(pick(items, codes[row]))?;
    }
    Ok(IntList::from_vec(picked))
}

// Whether a row of codes is valid and the bit at its code is true.
#[inline(always)]
fn picks_valid_at<C: Integer>(codes: &[C], valid: &Option<Mask>, bits: &Mask, row: usize) -> bool
    requires { row < length codes.now }
    ensures { result ≡ picks_valid C.kind bits.now valid.now (map C.whole codes.now) row }
{
    is_valid(valid, row as u64) && bits.is_set(codes[row].to_bits())
}

// Whether that holds, for each row.
fn picks_valid<C: Integer>(
    alloc: Global,
    codes: &[C],
    valid: &Option<Mask>,
    bits: &Mask,
) -> VortexResult<Mask>
    ensures { Answers result (map (picks_valid C.kind bits.now valid.now (map C.whole codes.now)) (range_with_len 0 (length (map C.whole codes.now)))) }
{
    let mut picked = Vec::with_capacity(alloc, codes.len())?;
    for row in 0..codes.len() {
        picked.push(picks_valid_at(codes, valid, bits, row))?;
    }
    Ok(Mask::from_bits(picked))
}

// Whether a code is out of bounds of `items` items.
#[inline(always)]
fn is_outside(code: i128, items: u64) -> bool
    ensures { result ≡ not (is_place items (int code)) }
{
    code < 0 || code >= i128::from(items)
}

// Whether some code is out of bounds. There is one branch for each group of rows.
fn has_outside<C: Integer>(codes: &[C], items: u64) -> bool
    ensures { result ≡ list_any (λ z. not (is_place items (int z))) (map C.whole codes.now) }
{
    for rows in codes.chunks(GROUP_ROWS) {
        if some_outside(rows, items) {
            return true;
        }
    }
    false
}

// Whether some code of a group is out of bounds, by `|` over all of them: no branch per row.
fn some_outside<C: Integer>(codes: &[C], items: u64) -> bool
    ensures { result ≡ list_any (λ z. not (is_place items (int z))) (map C.whole codes.now) }
{
    let mut some = false;
    for code in codes {
        some |= is_outside(code.to_whole(), items);
    }
    some
}

/// The validity of a dictionary's rows, from those of its codes and of its values.
pub fn valid_codes(
    alloc: Global,
    codes: &Ints,
    valid: Option<Mask>,
    value_bits: &Option<Mask>,
) -> VortexResult<Option<Mask>>
    ensures { Answers result (validity_by_codes (ptype_of codes.now) (wholes_of codes.now) valid value_bits.now) }
{
    match value_bits {
        Some(bits) => Ok(keep(Some(codes.picks_valid(alloc, &valid, bits)?))),
        None => Ok(valid),
    }
}
