//! Bit packing of integers.

ghost use Rattle.std.specs.List.{list_all};
ghost use Rattle.std.specs.Prelude.{◌≡◌, ◌<◌, length, pos, IsTrue, map, ◌≤◌, nat_lt, sum, ◌^◌, nat_le, replicate, true};
ghost use Rattle.vx_base.specs.Answers.{Answers, OrMemory};
ghost use Rattle.vx_base.specs.Integers.{bits_in, bits_of, natural_bits};
ghost use Rattle.vx_base.specs.Packed.{bytes_in, packed_number, kept_rows, packed_size, wide_rows, packed_row};
ghost use Rattle.vx_blocks.specs.Histogram.{IsHistogram};
ghost use Rattle.vx_model.specs.Rows.{below};
ghost use Rattle.vx_values.specs.IntsOf.{ptype_of, wholes_of};

use super::Ints;
use std::alloc::Global;
use vx_base::{Bytes, IntList, Integer, Mask, PType, VortexResult};
use vx_blocks::{bit_width_histogram, bit_widths_of_all, pack, unpack_integers, wide_rows};

impl Ints {
    /// The number of rows of exactly w binary digits, as entry w, for w from 0 to the type's bits; a null has 0 digits.
    pub fn bit_width_histogram(&self, alloc: Global, valid: &Mask) -> VortexResult<Vec<u64>>
        requires { length valid.now ≡ length (wholes_of self.now) }
        ensures total { OrMemory result (λ counts. sum counts.items ≡ length (wholes_of self.now)) }
        ensures widths { OrMemory result (λ counts. IsHistogram (bits_of (ptype_of self.now)) (kept_rows 64 (map (bits_in (ptype_of self.now)) (wholes_of self.now)) valid.now) counts.items) }
    {
        with_ints!(self, items => bit_width_histogram(alloc, items.as_slice(), valid))
    }

    /// `bit_width_histogram` of rows without null, for which no mask is read.
    pub fn bit_widths_of_all(&self, alloc: Global) -> VortexResult<Vec<u64>>
        ensures total { OrMemory result (λ counts. sum counts.items ≡ length (wholes_of self.now)) }
        ensures widths { OrMemory result (λ counts. IsHistogram (bits_of (ptype_of self.now)) (kept_rows 64 (map (bits_in (ptype_of self.now)) (wholes_of self.now)) (replicate (length (wholes_of self.now)) true)) counts.items) }
    {
        with_ints!(self, items => widths_of_all(alloc, items.as_slice()))
    }

    /// The rows packed at `width` bits, in blocks of 1,024 rows; 0 for a null and for a row that doesn't fit.
    pub fn pack(&self, alloc: Global, valid: &Mask, width: u32) -> VortexResult<Bytes>
        requires same { length valid.now ≡ length (wholes_of self.now) }
        requires within { width ≤ bits_of (ptype_of self.now) }
        ensures { Answers result (bytes_in (packed_size width (length (wholes_of self.now))) (packed_number width (kept_rows width (map (bits_in (ptype_of self.now)) (wholes_of self.now)) valid.now))) }
    {
        with_ints!(self, items => packed(alloc, items.as_slice(), valid, width))
    }

    /// The numbers of the rows that are valid and don't fit `width` bits, ascending.
    pub fn wide_rows(&self, alloc: Global, valid: &Mask, width: u32) -> VortexResult<IntList<u64>>
        requires same { length valid.now ≡ length (wholes_of self.now) }
        requires within { width ≤ bits_of (ptype_of self.now) }
        ensures { Answers result (wide_rows width (map (bits_in (ptype_of self.now)) (wholes_of self.now)) valid.now) }
    {
        with_ints!(self, items => wide(alloc, items.as_slice(), valid, width))
    }

    /// The `len` rows packed at `width` bits, as integers of a type.
    pub fn unpacked(
        alloc: Global,
        ptype: PType,
        width: u32,
        packed: &[u8],
        len: u64,
    ) -> VortexResult<Ints>
        requires narrow { IsTrue (nat_le width (natural_bits ptype)) }
        requires sized { length packed.now ≡ packed_size width len }
        ensures { OrMemory result (λ ints. (ptype_of ints ≡ ptype) × (wholes_of ints ≡ below (λ i. pos (packed_row packed.now width i)) len)) }
    {
        ints_of!(ptype => unpacked_list(alloc, width, packed, len)?)
    }
}

fn widths_of_all<T: Integer>(alloc: Global, items: &[T]) -> VortexResult<Vec<u64>>
    ensures total { OrMemory result (λ counts. sum counts.items ≡ length (map T.whole items.now)) }
    ensures widths { OrMemory result (λ counts. IsHistogram (bits_of T.kind) (kept_rows 64 (map (bits_in T.kind) (map T.whole items.now)) (replicate (length (map T.whole items.now)) true)) counts.items) }
{
    bit_widths_of_all(alloc, items)
}

#[tactic(auto, using(vx_base::proofs::BytesLemmas::bytes_are))]
fn packed<T: Integer>(alloc: Global, items: &[T], valid: &Mask, width: u32) -> VortexResult<Bytes>
    requires same { length valid.now ≡ length items.now }
    requires within { width ≤ bits_of T.kind }
    ensures { Answers result (bytes_in (packed_size width (length items.now)) (packed_number width (kept_rows width (map (bits_in T.kind) (map T.whole items.now)) valid.now))) }
{
    let packed = pack(alloc, items, valid, width)?;
    known_bytes(packed.as_slice());
    Ok(Bytes::from_vec(packed))
}

fn wide<T: Integer>(
    alloc: Global,
    items: &[T],
    valid: &Mask,
    width: u32,
) -> VortexResult<IntList<u64>>
    requires same { length valid.now ≡ length items.now }
    requires within { width ≤ bits_of T.kind }
    ensures { Answers result (wide_rows width (map (bits_in T.kind) (map T.whole items.now)) valid.now) }
{
    Ok(IntList::from_vec(wide_rows(alloc, items, valid, width)?))
}

// The rows as a list of one type.
fn unpacked_list<T: Integer>(
    alloc: Global,
    width: u32,
    packed: &[u8],
    len: u64,
) -> VortexResult<IntList<T>>
    requires narrow { IsTrue (nat_le width (natural_bits T.kind)) }
    requires sized { length packed.now ≡ packed_size width len }
    ensures { OrMemory result (λ list. map T.whole list ≡ below (λ i. pos (packed_row packed.now width i)) len) }
{
    let rows = unpack_integers(alloc, packed, width, 0, len)?;
    Ok(IntList::from_vec(rows))
}

/// Tells a caller's proof that each byte is below 256; nothing is done.
pub fn known_bytes(bytes: &[u8])
    ensures { IsTrue (list_all (λ byte. nat_lt byte 256) bytes.now) }
{}

/// The size in bytes of `len` rows packed at `width` bits, in blocks of 1,024 rows.
pub fn packed_size(width: u32, len: u64) -> u128
    ensures value { result ≡ packed_size width len }
    ensures small { result < 2 ^ 100 }
{
    128 * u128::from(width) * ((u128::from(len) + 1023) / 1024)
}
