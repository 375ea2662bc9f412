//! Sums with the reference of a block of 1,024 rows.

ghost use Rattle.std.specs.List.{range_with_len};
ghost use Rattle.std.specs.Prelude.{◌≡◌, ◌≤◌, ◌*◌, ◌/◌, ◌+ℤ◌, length, map, pos, slice_index};
ghost use Rattle.vx_base.specs.Answers.{OrMemory};
ghost use Rattle.vx_base.specs.Integers.{unsigned_of};
ghost use Rattle.vx_base.specs.Packed.{block_count};
ghost use Rattle.vx_values.specs.IntsOf.{ptype_of, wholes_of};
ghost use Rattle.vx_values.specs.InBlocks.{moved_by_block};

use super::Ints;
use super::frame_of_reference::write_sums;
use std::alloc::Global;
use vx_base::{IntList, Integer, VortexResult};
use vx_blocks::BLOCK_ROWS;

impl Ints {
    /// The reference of its block plus each integer, wrapping, in the references' type, which has the width of the integers'.
    /// There is a reference for each block of 1,024 integers.
    pub fn moved_in_blocks(&self, alloc: Global, references: &Ints) -> VortexResult<Ints>
        requires unsigned { ptype_of self.now ≡ unsigned_of (ptype_of references.now) }
        requires blocks { length (wholes_of references.now) ≡ block_count (length (wholes_of self.now)) }
        ensures { OrMemory result (λ ints. (ptype_of ints ≡ ptype_of references.now) × (wholes_of ints ≡ moved_by_block (ptype_of references.now) (wholes_of references.now) (wholes_of self.now))) }
    {
        match (references, self) {
            (Ints::U8(r), Ints::U8(d)) => Ok(Ints::U8(sums(alloc, r.as_slice(), d.as_slice())?)),
            (Ints::U16(r), Ints::U16(d)) => Ok(Ints::U16(sums(alloc, r.as_slice(), d.as_slice())?)),
            (Ints::U32(r), Ints::U32(d)) => Ok(Ints::U32(sums(alloc, r.as_slice(), d.as_slice())?)),
            (Ints::U64(r), Ints::U64(d)) => Ok(Ints::U64(sums(alloc, r.as_slice(), d.as_slice())?)),
            (Ints::I8(r), Ints::U8(d)) => Ok(Ints::I8(sums(alloc, r.as_slice(), d.as_slice())?)),
            (Ints::I16(r), Ints::U16(d)) => Ok(Ints::I16(sums(alloc, r.as_slice(), d.as_slice())?)),
            (Ints::I32(r), Ints::U32(d)) => Ok(Ints::I32(sums(alloc, r.as_slice(), d.as_slice())?)),
            (Ints::I64(r), Ints::U64(d)) => Ok(Ints::I64(sums(alloc, r.as_slice(), d.as_slice())?)),
            _ => unreachable!(),
        }
    }
}

// The sum of each difference with the reference of its block, as a list.
fn sums<T: Integer, D: Integer>(
    alloc: Global,
    references: &[T],
    differences: &[D],
) -> VortexResult<IntList<T>>
    requires kind { D.kind ≡ unsigned_of T.kind }
    requires blocks { length references.now ≡ block_count (length differences.now) }
    ensures { OrMemory result (λ list. map T.whole list ≡ moved_by_block T.kind (map T.whole references.now) (map D.whole differences.now)) }
{
    let mut items = Vec::with_capacity(alloc, differences.len())?;
    for block in 0..references.len() {
        let start = BLOCK_ROWS * block;
        let end = start + (differences.len() - start).min(BLOCK_ROWS);
        items.resize(end, T::zero())?;
        write_sums(
            references[block],
            &differences[start..end],
            items.slice_mut(start..),
        );
    }
    Ok(IntList::from_vec(items))
}
