//! Differences from a reference, counted or packed block by block: only one block of them is in memory at a time.

ghost use Rattle.std.specs.Prelude.{◌≡◌, ◌<◌, ◌≤◌, ◌+◌, ◌-◌, ◌^◌, ◌++◌, ℕ, List, IfSome, IsTrue, length, map, replicate, sum, true, unwrap_or};
ghost use Rattle.vx_base.specs.Answers.{Answers, OrMemory};
ghost use Rattle.vx_base.specs.Integers.{bits_of, lies_in, unsigned_of};
ghost use Rattle.vx_base.specs.Masks.{rows_between};
ghost use Rattle.vx_base.specs.Packed.{kept_rows};
ghost use Rattle.vx_blocks.specs.Histogram.{IsHistogram};
ghost use Rattle.vx_blocks.specs.IsPacked.{IsPacked};
ghost use Rattle.vx_values.specs.Differences.{difference_bits, packed_differences};
ghost use Rattle.vx_values.specs.IntsOf.{ptype_of, wholes_of};

use super::Ints;
use super::bit_packing::known_bytes;
use super::frame_of_reference::write_differences;
use std::alloc::Global;
use vx_base::{Bytes, Integer, Mask, VortexError, VortexResult};
use vx_blocks::{BLOCK_ROWS, bit_width_histogram, bit_widths_of_all, pack};

impl Ints {
    /// The number of rows whose difference from the reference has exactly w binary digits, as entry w, for w from 0 to the type's
    /// bits: `bit_width_histogram` of the list of `differences`. A null has 0 digits.
    pub fn difference_widths(
        &self,
        alloc: Global,
        reference: i128,
        valid: &Option<Mask>,
    ) -> VortexResult<Vec<u64>>
        requires held { IsTrue (lies_in (ptype_of self.now) reference) }
        requires same { IfSome valid.now (λ bits. length bits ≡ length (wholes_of self.now)) }
        ensures { OrMemory result (λ counts. IsHistogram (bits_of (unsigned_of (ptype_of self.now))) (kept_rows 64 (difference_bits (ptype_of self.now) reference (wholes_of self.now)) (unwrap_or valid.now (replicate (length (wholes_of self.now)) true))) counts.items) }
    {
        match self {
            Ints::U8(items) => widths::<u8, u8>(alloc, reference, items.as_slice(), valid),
            Ints::U16(items) => widths::<u16, u16>(alloc, reference, items.as_slice(), valid),
            Ints::U32(items) => widths::<u32, u32>(alloc, reference, items.as_slice(), valid),
            Ints::U64(items) => widths::<u64, u64>(alloc, reference, items.as_slice(), valid),
            Ints::I8(items) => widths::<i8, u8>(alloc, reference, items.as_slice(), valid),
            Ints::I16(items) => widths::<i16, u16>(alloc, reference, items.as_slice(), valid),
            Ints::I32(items) => widths::<i32, u32>(alloc, reference, items.as_slice(), valid),
            Ints::I64(items) => widths::<i64, u64>(alloc, reference, items.as_slice(), valid),
        }
    }

    /// The differences from the reference packed at `width` bits, in blocks of 1,024 rows; 0 for a null and for a difference that
    /// doesn't fit: `pack` of the list of `differences`.
    pub fn pack_differences(
        &self,
        alloc: Global,
        reference: i128,
        valid: &Option<Mask>,
        width: u32,
    ) -> VortexResult<Bytes>
        requires held { IsTrue (lies_in (ptype_of self.now) reference) }
        requires same { IfSome valid.now (λ bits. length bits ≡ length (wholes_of self.now)) }
        requires within { width ≤ bits_of (unsigned_of (ptype_of self.now)) }
        ensures { Answers result (packed_differences (ptype_of self.now) reference (wholes_of self.now) valid.now width) }
    {
        match self {
            Ints::U8(items) => packed::<u8, u8>(alloc, reference, items.as_slice(), valid, width),
            Ints::U16(items) => packed::<u16, u16>(
                alloc,
                reference,
                items.as_slice(),
                valid,
                width,
            ),
            Ints::U32(items) => packed::<u32, u32>(
                alloc,
                reference,
                items.as_slice(),
                valid,
                width,
            ),
            Ints::U64(items) => packed::<u64, u64>(
                alloc,
                reference,
                items.as_slice(),
                valid,
                width,
            ),
            Ints::I8(items) => packed::<i8, u8>(alloc, reference, items.as_slice(), valid, width),
            Ints::I16(items) => packed::<i16, u16>(
                alloc,
                reference,
                items.as_slice(),
                valid,
                width,
            ),
            Ints::I32(items) => packed::<i32, u32>(
                alloc,
                reference,
                items.as_slice(),
                valid,
                width,
            ),
            Ints::I64(items) => packed::<i64, u64>(
                alloc,
                reference,
                items.as_slice(),
                valid,
                width,
            ),
        }
    }
}

// The validity of the rows `start` to `end - 1` as a mask, all true without one.
fn bits_between(
    alloc: Global,
    valid: &Option<Mask>,
    len: usize,
    start: usize,
    end: usize,
) -> VortexResult<Mask>
    requires order { start ≤ end }
    requires room { end ≤ len }
    requires same { IfSome valid.now (λ bits. length bits ≡ len) }
    ensures { Answers result (rows_between (unwrap_or valid.now (replicate len true)) start end) }
{
    match valid {
        Some(bits) => {
            let bits = Vec::from_slice(alloc, &bits.as_slice()[start..end])?;
            Ok(Mask::from_bits(bits))
        }
        None => Ok(Mask::from_bits(vec![in alloc; true; end - start]?)),
    }
}

// The validity of the rows `start` to `end - 1`.
fn validity_between(
    alloc: Global,
    valid: &Option<Mask>,
    len: usize,
    start: usize,
    end: usize,
) -> VortexResult<Option<Mask>>
    requires order { start ≤ end }
    requires room { end ≤ len }
    requires same { IfSome valid.now (λ bits. length bits ≡ len) }
    ensures rows { OrMemory result (λ part. unwrap_or part (replicate (end - start) true) ≡ rows_between (unwrap_or valid.now (replicate len true)) start end) }
    ensures length { OrMemory result (λ part. IfSome part (λ bits. length bits ≡ end - start)) }
{
    match valid {
        Some(bits) => {
            let bits = Vec::from_slice(alloc, &bits.as_slice()[start..end])?;
            Ok(Some(Mask::from_bits(bits)))
        }
        None => Ok(None),
    }
}

// The histogram of a block's differences, which are written to a buffer.
fn block_widths<T: Integer, D: Integer>(
    alloc: Global,
    reference: T,
    items: &[T],
    valid: &Option<Mask>,
    buffer: &mut [D],
) -> VortexResult<Vec<u64>>
    requires kind { D.kind ≡ unsigned_of T.kind }
    requires room { length items.now ≤ length buffer.old }
    requires same { IfSome valid.now (λ bits. length bits ≡ length items.now) }
    ensures { OrMemory result (λ counts. IsHistogram (bits_of D.kind) (kept_rows 64 (difference_bits T.kind (T.whole reference) (map T.whole items.now)) (unwrap_or valid.now (replicate (length items.now) true))) counts.items) }
{
    let differences = &mut buffer[..items.len()];
    write_differences(reference, items, differences);
    match valid {
        Some(bits) => bit_width_histogram(alloc, differences, bits),
        None => bit_widths_of_all(alloc, differences),
    }
}

// A block's differences packed; they are written to a buffer.
fn block_packed<T: Integer, D: Integer>(
    alloc: Global,
    reference: T,
    items: &[T],
    bits: &Mask,
    width: u32,
    buffer: &mut [D],
) -> VortexResult<Vec<u8>>
    requires kind { D.kind ≡ unsigned_of T.kind }
    requires room { length items.now ≤ length buffer.old }
    requires same { length bits.now ≡ length items.now }
    requires within { width ≤ bits_of D.kind }
    ensures { OrMemory result (λ bytes. IsPacked width (kept_rows width (difference_bits T.kind (T.whole reference) (map T.whole items.now)) bits.now) bytes.items) }
{
    let differences = &mut buffer[..items.len()];
    write_differences(reference, items, differences);
    pack(alloc, differences, bits, width)
}

// Adds the counts of a block.
fn add_counts(counts: &mut [u64], more: &[u64])
    requires same { length more.now ≡ length counts.old }
    requires room { sum counts.old + sum more.now < 2 ^ 64 }
    ensures { (width : ℕ) (front back : List ℕ) → IsHistogram width front counts.old → IsHistogram width back more.now → IsHistogram width (front ++ back) counts.new }
{
    for w in 0..counts.len() {
        counts[w] += more[w];
    }
}

// The histogram of all blocks.
fn widths_by_blocks<T: Integer, D: Integer>(
    alloc: Global,
    reference: T,
    items: &[T],
    valid: &Option<Mask>,
) -> VortexResult<Vec<u64>>
    requires kind { D.kind ≡ unsigned_of T.kind }
    requires same { IfSome valid.now (λ bits. length bits ≡ length items.now) }
    ensures { OrMemory result (λ counts. IsHistogram (bits_of D.kind) (kept_rows 64 (difference_bits T.kind (T.whole reference) (map T.whole items.now)) (unwrap_or valid.now (replicate (length (map T.whole items.now)) true))) counts.items) }
{
    let width = D::ptype().bit_width() as usize;
    let mut counts = vec![in alloc; 0u64; width + 1]?;
    let mut buffer = vec![in alloc; D::zero(); BLOCK_ROWS]?;
    let blocks = items.len().div_ceil(BLOCK_ROWS);
    for block in 0..blocks {
        let start = BLOCK_ROWS * block;
        let count = (items.len() - start).min(BLOCK_ROWS);
        let end = start + count;
        let part = validity_between(alloc, valid, items.len(), start, end)?;
        let rows = &items[start..end];
        let more = block_widths(alloc, reference, rows, &part, buffer.as_mut_slice())?;
        add_counts(counts.as_mut_slice(), more.as_slice());
    }
    Ok(counts)
}

// The bytes of all blocks.
fn packed_by_blocks<T: Integer, D: Integer>(
    alloc: Global,
    reference: T,
    items: &[T],
    valid: &Option<Mask>,
    width: u32,
) -> VortexResult<Vec<u8>>
    requires kind { D.kind ≡ unsigned_of T.kind }
    requires same { IfSome valid.now (λ bits. length bits ≡ length items.now) }
    requires within { width ≤ bits_of D.kind }
    ensures { OrMemory result (λ bytes. IsPacked width (kept_rows width (difference_bits T.kind (T.whole reference) (map T.whole items.now)) (unwrap_or valid.now (replicate (length (map T.whole items.now)) true))) bytes.items) }
{
    let blocks = items.len().div_ceil(BLOCK_ROWS);
    let Some(size) = blocks.checked_mul(BLOCK_ROWS / 8 * width as usize) else {
        return Err(VortexError::NoMemory);
    };
    let mut packed = Vec::with_capacity(alloc, size)?;
    let mut buffer = vec![in alloc; D::zero(); BLOCK_ROWS]?;
    for block in 0..blocks {
        let start = BLOCK_ROWS * block;
        let count = (items.len() - start).min(BLOCK_ROWS);
        let end = start + count;
        let bits = bits_between(alloc, valid, items.len(), start, end)?;
        let rows = &items[start..end];
        let more = block_packed(alloc, reference, rows, &bits, width, buffer.as_mut_slice())?;
        packed.extend_from_slice(more.as_slice())?;
    }
    Ok(packed)
}

// The histogram, from the reference as a whole number.
fn widths<T: Integer, D: Integer>(
    alloc: Global,
    reference: i128,
    items: &[T],
    valid: &Option<Mask>,
) -> VortexResult<Vec<u64>>
    requires held { IsTrue (lies_in T.kind reference) }
    requires kind { D.kind ≡ unsigned_of T.kind }
    requires same { IfSome valid.now (λ bits. length bits ≡ length items.now) }
    ensures { OrMemory result (λ counts. IsHistogram (bits_of D.kind) (kept_rows 64 (difference_bits T.kind reference (map T.whole items.now)) (unwrap_or valid.now (replicate (length (map T.whole items.now)) true))) counts.items) }
{
    let Some(reference) = T::from_whole(reference) else {
        unreachable!();
    };
    widths_by_blocks::<T, D>(alloc, reference, items, valid)
}

// The bytes, from the reference as a whole number.
fn packed<T: Integer, D: Integer>(
    alloc: Global,
    reference: i128,
    items: &[T],
    valid: &Option<Mask>,
    width: u32,
) -> VortexResult<Bytes>
    requires held { IsTrue (lies_in T.kind reference) }
    requires kind { D.kind ≡ unsigned_of T.kind }
    requires same { IfSome valid.now (λ bits. length bits ≡ length items.now) }
    requires within { width ≤ bits_of D.kind }
    ensures { Answers result (packed_differences T.kind reference (map T.whole items.now) valid.now width) }
{
    let Some(reference) = T::from_whole(reference) else {
        unreachable!();
    };
    let packed = packed_by_blocks::<T, D>(alloc, reference, items, valid, width)?;
    known_bytes(packed.as_slice());
    Ok(Bytes::from_vec(packed))
}
