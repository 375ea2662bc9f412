//! Integers out of packed words, a block of 1,024 rows after another, so that no list of all words is made.

ghost use Rattle.std.specs.Prelude.{◌≡◌, ◌≤◌, ◌+ℤ◌, IsTrue, length, map, nat_le, not, pos, true};
ghost use Rattle.vx_base.specs.Answers.{OrMemory};
ghost use Rattle.vx_base.specs.Integers.{is_signed, lies_in, natural_bits, signed_of, unsigned_of};
ghost use Rattle.vx_base.specs.Packed.{packed_row, packed_size};
ghost use Rattle.vx_base.specs.Wrapping.{wrap};
ghost use Rattle.vx_base.specs.ZigZag.{unzigzag};
ghost use Rattle.vx_model.specs.Rows.{below};
ghost use Rattle.vx_values.specs.IntsOf.{ptype_of, wholes_of};

use super::Ints;
use super::frame_of_reference::write_sums;
use super::zig_zag::write_integers;
use std::alloc::Global;
use vx_base::{IntList, Integer, PType, VortexResult};
use vx_blocks::{BLOCK_ROWS, unpack_integers};

impl Ints {
    /// The reference plus each of `len` words that are packed at `width` bits, wrapping, in the reference's type, which has the
    /// width of the words'.
    pub fn moved_words(
        alloc: Global,
        ptype: PType,
        reference: i128,
        width: u32,
        packed: &[u8],
        len: u64,
    ) -> VortexResult<Ints>
        requires held { IsTrue (lies_in ptype reference) }
        requires narrow { IsTrue (nat_le width (natural_bits (unsigned_of ptype))) }
        requires sized { length packed.now ≡ packed_size width len }
        ensures { OrMemory result (λ ints. (ptype_of ints ≡ ptype) × (wholes_of ints ≡ below (λ i. wrap ptype (reference +ℤ pos (packed_row packed.now width i))) len)) }
    {
        match ptype {
            PType::U8 => Ok(Ints::U8(moved::<u8, u8>(alloc, reference, width, packed, len)?)),
            PType::U16 => Ok(Ints::U16(moved::<u16, u16>(alloc, reference, width, packed, len)?)),
            PType::U32 => Ok(Ints::U32(moved::<u32, u32>(alloc, reference, width, packed, len)?)),
            PType::U64 => Ok(Ints::U64(moved::<u64, u64>(alloc, reference, width, packed, len)?)),
            PType::I8 => Ok(Ints::I8(moved::<i8, u8>(alloc, reference, width, packed, len)?)),
            PType::I16 => Ok(Ints::I16(moved::<i16, u16>(alloc, reference, width, packed, len)?)),
            PType::I32 => Ok(Ints::I32(moved::<i32, u32>(alloc, reference, width, packed, len)?)),
            PType::I64 => Ok(Ints::I64(moved::<i64, u64>(alloc, reference, width, packed, len)?)),
        }
    }

    /// The integers of `len` zigzags of an unsigned type that are packed at `width` bits, in the signed type of the width.
    pub fn unzigzagged_words(
        alloc: Global,
        ptype: PType,
        width: u32,
        packed: &[u8],
        len: u64,
    ) -> VortexResult<Ints>
        requires unsigned { not (is_signed ptype) ≡ true }
        requires narrow { IsTrue (nat_le width (natural_bits ptype)) }
        requires sized { length packed.now ≡ packed_size width len }
        ensures { OrMemory result (λ ints. (ptype_of ints ≡ signed_of ptype) × (wholes_of ints ≡ below (λ i. unzigzag (packed_row packed.now width i)) len)) }
    {
        match ptype {
            PType::U8 => Ok(Ints::I8(unzigzagged::<u8, i8>(alloc, width, packed, len)?)),
            PType::U16 => Ok(Ints::I16(unzigzagged::<u16, i16>(alloc, width, packed, len)?)),
            PType::U32 => Ok(Ints::I32(unzigzagged::<u32, i32>(alloc, width, packed, len)?)),
            PType::U64 => Ok(Ints::I64(unzigzagged::<u64, i64>(alloc, width, packed, len)?)),
            _ => unreachable!(),
        }
    }
}

// The sums, from the reference as a whole number.
fn moved<T: Integer, D: Integer>(
    alloc: Global,
    reference: i128,
    width: u32,
    packed: &[u8],
    len: u64,
) -> VortexResult<IntList<T>>
    requires held { IsTrue (lies_in T.kind reference) }
    requires unsigned { D.kind ≡ unsigned_of T.kind }
    requires narrow { width ≤ natural_bits D.kind }
    requires sized { length packed.now ≡ packed_size width len }
    ensures { OrMemory result (λ list. map T.whole list ≡ below (λ i. wrap T.kind (reference +ℤ pos (packed_row packed.now width i))) len) }
{
    let Some(reference) = T::from_whole(reference) else {
        unreachable!();
    };
    sums::<T, D>(alloc, reference, width, packed, len as usize)
}

// The sum with each word, as a list.
fn sums<T: Integer, D: Integer>(
    alloc: Global,
    reference: T,
    width: u32,
    packed: &[u8],
    len: usize,
) -> VortexResult<IntList<T>>
    requires unsigned { D.kind ≡ unsigned_of T.kind }
    requires narrow { width ≤ natural_bits D.kind }
    requires sized { length packed.now ≡ packed_size width len }
    ensures { OrMemory result (λ list. map T.whole list ≡ below (λ i. wrap T.kind (T.whole reference +ℤ pos (packed_row packed.now width i))) len) }
{
    let mut items = Vec::with_capacity(alloc, len)?;
    for block in 0..len.div_ceil(BLOCK_ROWS) {
        let start = BLOCK_ROWS * block;
        let end = start + (len - start).min(BLOCK_ROWS);
        let words = unpack_integers::<D>(alloc, packed, width, start as u64, end as u64)?;
        items.resize(end, T::zero())?;
        write_sums(reference, words.as_slice(), items.slice_mut(start..));
    }
    Ok(IntList::from_vec(items))
}

// The integer of each zigzag, as a list.
fn unzigzagged<W: Integer, T: Integer>(
    alloc: Global,
    width: u32,
    packed: &[u8],
    len: u64,
) -> VortexResult<IntList<T>>
    requires kinds { T.kind ≡ signed_of W.kind }
    requires unsigned { not (is_signed W.kind) ≡ true }
    requires narrow { width ≤ natural_bits W.kind }
    requires sized { length packed.now ≡ packed_size width len }
    ensures { OrMemory result (λ list. map T.whole list ≡ below (λ i. unzigzag (packed_row packed.now width i)) len) }
{
    let len = len as usize;
    let mut items = Vec::with_capacity(alloc, len)?;
    for block in 0..len.div_ceil(BLOCK_ROWS) {
        let start = BLOCK_ROWS * block;
        let end = start + (len - start).min(BLOCK_ROWS);
        let words = unpack_integers::<W>(alloc, packed, width, start as u64, end as u64)?;
        items.resize(end, T::zero())?;
        write_integers(words.as_slice(), items.slice_mut(start..));
    }
    Ok(IntList::from_vec(items))
}
