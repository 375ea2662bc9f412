//! Rows of texts or binaries: empty beneath nulls, cut at offsets, gathered, and picked by codes.

ghost use Rattle.std.specs.Prelude.{◌≡◌, ◌↔◌, ◌<◌, ◌≤◌, ◌+◌, ◌-◌, IsTrue, [], length, map, replicate, true, false, ◌||◌, ◌++◌, slice_set, slice_index_or, if◌then◌else◌};
ghost use Rattle.std.specs.List.{list_all};
ghost use Rattle.vx_base.specs.Answers.{Answers, OrMemory};
ghost use Rattle.vx_base.specs.Gathered.{gathered, are_parts};
ghost use Rattle.vx_base.specs.Masks.{rows_between, is_part};
ghost use Rattle.vx_base.specs.PlainValue.{int, bytes, is_short};
ghost use Rattle.vx_model.specs.Leaf.{each_null_or, null_or};
ghost use Rattle.vx_model.specs.Rows.{offset_at, cut_at, row_at, valid_rows};
ghost use Rattle.vx_model.specs.WellFormed.{are_offsets};
ghost use Rattle.vx_model.specs.Decoded.{zeroed, zeroed_by, zero_beneath, is_empty, picked};
ghost use Rattle.vx_model.specs.Refusals.{validity_length};
ghost use Rattle.vx_values.specs.IntsOf.{ptype_of, wholes_of};

mod filling;
mod joining;

use crate::ints::{Ints, with_ints};
use crate::validity::is_valid;
pub use filling::{in_runs, with_patches};
pub use joining::{concatenated, offsets};
use std::alloc::Global;
use vx_base::{ByteRows, Bytes, Integer, Mask, VortexResult, is_short};

/// `len` rows of the same bytes.
pub fn filled(alloc: Global, bytes: &[u8], len: u64) -> VortexResult<ByteRows>
    ensures { Answers result (replicate len bytes.now) }
{
    let mut rows = Vec::with_capacity(alloc, len as usize)?;
    for _row in 0..len {
        rows.push(row_of(alloc, bytes)?)?;
    }
    Ok(ByteRows::from_vec(rows))
}

// A row with these bytes.
fn row_of(alloc: Global, bytes: &[u8]) -> VortexResult<Bytes>
    ensures { Answers result bytes.now }
{
    Ok(Bytes::from_vec(Vec::from_slice(alloc, bytes)?))
}

/// The rows, emptied where the mask is false.
pub fn zeroed(rows: ByteRows, mask: &Mask) -> ByteRows
    requires { length mask.now ≡ length rows }
    ensures { result ≡ zeroed [] mask.now rows }
{
    let mut rows = rows.into_vec();
    zero_beneath(rows.as_mut_slice(), mask.as_slice());
    ByteRows::from_vec(rows)
}

/// A copy, empty where a row is null: bytes beneath nulls aren't copied.
#[tactic(auto, using(crate::proofs::Kept::keeping))]
pub fn decoded(alloc: Global, rows: &ByteRows, valid: &Option<Mask>) -> VortexResult<ByteRows>
    requires { validity_length valid.now (length rows.now) ≡ true }
    ensures { Answers result (zeroed_by [] valid.now rows.now) }
{
    let mut copy = Vec::with_capacity(alloc, rows.len() as usize)?;
    for row in 0..rows.len() {
        copy.push(kept_row(alloc, rows, row, is_valid(valid, row))?)?;
    }
    Ok(ByteRows::from_vec(copy))
}

// A copy of a row where the bit is true, else an empty row.
fn kept_row(alloc: Global, rows: &ByteRows, row: u64, bit: bool) -> VortexResult<Bytes>
    ensures { Answers result (if bit then slice_index_or rows.now row [] else []) }
{
    if bit {
        copied(alloc, rows, row)
    } else {
        Ok(Bytes::new_in(alloc))
    }
}

// A copy of a row, empty out of bounds.
fn copied(alloc: Global, rows: &ByteRows, row: u64) -> VortexResult<Bytes>
    ensures { Answers result (slice_index_or rows.now row []) }
{
    match rows.get(row) {
        Some(bytes) => bytes.copy(alloc),
        None => Ok(Bytes::new_in(alloc)),
    }
}

/// Whether each row is empty where the mask is false.
pub fn is_zero_beneath(rows: &ByteRows, mask: &Mask) -> bool
    requires { length mask.now ≡ length rows.now }
    ensures { result ≡ zero_beneath is_empty mask.now rows.now }
{
    are_zero_beneath(rows.as_slice(), mask.as_slice())
}

#[tactic(auto, using(vx_model::proofs::ZeroLemmas::zeroing))]
fn are_zero_beneath(rows: &[Bytes], mask: &[bool]) -> bool
    requires { length mask.now ≡ length rows.now }
    ensures { result ≡ zero_beneath is_empty mask.now rows.now }
{
    for row in 0..mask.len() {
        if !is_zero_at(rows, mask, row) {
            return false;
        }
    }
    true
}

// Whether the row is empty, or the mask is true there.
fn is_zero_at(rows: &[Bytes], mask: &[bool], row: usize) -> bool
    requires in_rows { row < length rows.now }
    requires in_mask { row < length mask.now }
    ensures { result ≡ (slice_index_or mask.now row false || is_empty (slice_index_or rows.now row [])) }
{
    mask[row] || rows[row].len() == 0
}

/// The bytes from each offset to the next, empty where a row is null: bytes beneath nulls aren't copied.
pub fn cut(
    alloc: Global,
    bytes: &[u8],
    offsets: &Ints,
    valid: &Option<Mask>,
) -> VortexResult<ByteRows>
    requires some { 1 ≤ length (wholes_of offsets.now) }
    requires ends { IsTrue (are_offsets (length bytes.now) (map int (wholes_of offsets.now))) }
    requires bits { validity_length valid.now (length (wholes_of offsets.now) - 1) ≡ true }
    ensures { Answers result (zeroed_by [] valid.now (cut_at (map int (wholes_of offsets.now)) bytes.now)) }
{
    with_ints!(offsets, offsets => cut_by(alloc, bytes, offsets.as_slice(), valid))
}

fn cut_by<T: Integer>(
    alloc: Global,
    bytes: &[u8],
    offsets: &[T],
    valid: &Option<Mask>,
) -> VortexResult<ByteRows>
    requires some { 1 ≤ length offsets.now }
    requires ends { IsTrue (are_offsets (length bytes.now) (map int (map T.whole offsets.now))) }
    requires bits { validity_length valid.now (length offsets.now - 1) ≡ true }
    ensures { Answers result (zeroed_by [] valid.now (cut_at (map int (map T.whole offsets.now)) bytes.now)) }
{
    let mut rows = Vec::with_capacity(alloc, offsets.len() - 1)?;
    for row in 0..offsets.len() - 1 {
        let bit = is_valid(valid, row as u64);
        rows.push(kept_piece(alloc, bytes, offsets, row, bit)?)?;
    }
    Ok(ByteRows::from_vec(rows))
}

// A copy of the bytes from a row's offset to the next where the bit is true, else an empty row.
fn kept_piece<T: Integer>(
    alloc: Global,
    bytes: &[u8],
    offsets: &[T],
    row: usize,
    bit: bool,
) -> VortexResult<Bytes>
    requires within { row + 1 < length offsets.now }
    requires ends { IsTrue (are_offsets (length bytes.now) (map int (map T.whole offsets.now))) }
    ensures { Answers result (if bit then rows_between bytes.now (offset_at (map int (map T.whole offsets.now)) row) (offset_at (map int (map T.whole offsets.now)) (row + 1)) else []) }
{
    if bit {
        piece(alloc, bytes, offsets, row)
    } else {
        Ok(Bytes::new_in(alloc))
    }
}

// A copy of the bytes from a row's offset to the next.
fn piece<T: Integer>(alloc: Global, bytes: &[u8], offsets: &[T], row: usize) -> VortexResult<Bytes>
    requires within { row + 1 < length offsets.now }
    requires ends { IsTrue (are_offsets (length bytes.now) (map int (map T.whole offsets.now))) }
    ensures { Answers result (rows_between bytes.now (offset_at (map int (map T.whole offsets.now)) row) (offset_at (map int (map T.whole offsets.now)) (row + 1))) }
{
    let start = offsets[row].to_bits();
    let end = offsets[row + 1].to_bits();
    row_of(alloc, part(bytes, start, end))
}

// The bytes `start` to `end - 1`.
fn part(bytes: &[u8], start: u64, end: u64) -> &[u8]
    requires { IsTrue (is_part (length bytes.now) start end) }
    ensures { result.now ≡ rows_between bytes.now start end }
{
    &bytes[start as usize..end as usize]
}

/// Whether each row has fewer than 2^32 bytes.
pub fn are_short(rows: &ByteRows) -> bool
    ensures { result ≡ list_all is_short rows.now }
{
    for row in rows.as_slice() {
        if !is_short(row.as_slice()) {
            return false;
        }
    }
    true
}

// Empties the rows where the mask is false.
#[tactic(auto, using(vx_model::proofs::ZeroLemmas::zeroing))]
fn zero_beneath(rows: &mut [Bytes], mask: &[bool])
    requires { length mask.now ≡ length rows.old }
    ensures { rows.new ≡ zeroed [] mask.now rows.old }
{
    for row in 0..mask.len() {
        zero_at(rows, row, mask[row]);
    }
}

// Empties the row unless the bit is true.
fn zero_at(rows: &mut [Bytes], row: usize, bit: bool)
    requires { row < length rows.old }
    ensures { rows.new ≡ slice_set rows.old row (if bit then slice_index_or rows.old row [] else []) }
{
    let bytes = &mut rows[row];
    empty_unless(bytes, bit);
}

fn empty_unless(bytes: &mut Bytes, bit: bool)
    ensures { bytes.new ≡ (if bit then bytes.old else []) }
{
    if !bit {
        bytes.clear();
    }
}

/// Whether each row is null or has these bytes.
pub fn each_null_or(rows: &ByteRows, valid: &Option<Mask>, value: &[u8]) -> bool
    requires { validity_length valid.now (length rows.now) ≡ true }
    ensures { result ≡ each_null_or (bytes value.now) (valid_rows valid.now (map bytes rows.now)) }
{
    for row in 0..rows.len() {
        if !is_null_or(rows, valid, row, value) {
            return false;
        }
    }
    true
}

// Whether the row is null or has these bytes.
#[inline(always)]
fn is_null_or(rows: &ByteRows, valid: &Option<Mask>, row: u64, value: &[u8]) -> bool
    requires in_rows { row < length rows.now }
    requires in_mask { validity_length valid.now (length rows.now) ≡ true }
    ensures { result ≡ null_or (bytes value.now) (row_at (valid_rows valid.now (map bytes rows.now)) row) }
{
    if is_valid(valid, row) {
        is_same(bytes_at(rows, row), value)
    } else {
        true
    }
}

fn bytes_at(rows: &ByteRows, row: u64) -> &[u8]
    requires { row < length rows.now }
    ensures { result.now ≡ slice_index_or rows.now row [] }
{
    rows.as_slice()[row as usize].as_slice()
}

fn is_same(bytes: &[u8], other: &[u8]) -> bool
    ensures { IsTrue result ↔ (bytes.now ≡ other.now) }
{
    bytes == other
}

/// The rows of half-open ranges, in the order of the ranges.
pub fn gather(alloc: Global, rows: &ByteRows, ranges: &[(u64, u64)]) -> VortexResult<ByteRows>
    requires { IsTrue (are_parts (length rows.now) ranges.now) }
    ensures { Answers result (gathered ranges.now rows.now) }
{
    let mut all = Vec::new(alloc);
    for range in ranges {
        push_rows(
            alloc,
            &mut all,
            &rows.as_slice()[range.0 as usize..range.1 as usize],
        )?;
    }
    Ok(ByteRows::from_vec(all))
}

// Appends a copy of each row.
fn push_rows(alloc: Global, all: &mut Vec<Bytes>, rows: &[Bytes]) -> VortexResult<()>
    ensures { OrMemory result (λ _. all.new.items ≡ all.old.items ++ rows.now) }
{
    for row in rows {
        all.push(row.copy(alloc)?)?;
    }
    Ok(())
}

/// For each code a copy of the row with that index, empty out of bounds.
pub fn picked(alloc: Global, rows: &ByteRows, codes: &Ints) -> VortexResult<ByteRows>
    ensures { Answers result (map (λ code. picked (ptype_of codes.now) rows.now [] code) (wholes_of codes.now)) }
{
    with_ints!(codes, codes => picked_by(alloc, rows, codes.as_slice()))
}

// A copy of the row at a code, empty out of bounds.
fn pick<C: Integer>(alloc: Global, rows: &ByteRows, code: C) -> VortexResult<Bytes>
    ensures { Answers result (picked C.kind rows.now [] (C.whole code)) }
{
    copied(alloc, rows, code.to_bits())
}

// A copy of the row at each code.
fn picked_by<C: Integer>(alloc: Global, rows: &ByteRows, codes: &[C]) -> VortexResult<ByteRows>
    ensures { Answers result (map (λ code. picked C.kind rows.now [] code) (map C.whole codes.now)) }
{
    let mut picked = Vec::with_capacity(alloc, codes.len())?;
    for row in 0..codes.len() {
        picked.push(pick(alloc, rows, codes[row])?)?;
    }
    Ok(ByteRows::from_vec(picked))
}
