//! Integers unpacked at a width for each block of 1,024 rows.

ghost use Rattle.std.specs.List.{range_with_len};
ghost use Rattle.std.specs.Prelude.{◌≡◌, ◌≤◌, ◌+◌, ◌*◌, length, map, pos, slice_index, true};
ghost use Rattle.vx_base.specs.Answers.{OrMemory};
ghost use Rattle.vx_base.specs.Integers.{natural_bits};
ghost use Rattle.vx_base.specs.Packed.{block_count};
ghost use Rattle.vx_base.specs.PackedBlocks.{block_row};
ghost use Rattle.vx_base.specs.PlainValue.{int, whole_or_zero};
ghost use Rattle.vx_blocks.specs.InBlocks.{AreBlockOffsets};
ghost use Rattle.vx_model.specs.Rows.{below, offset_at, packed_in_block};
ghost use Rattle.vx_model.specs.WellFormed.{are_block_offsets};
ghost use Rattle.vx_values.specs.IntsOf.{ptype_of, wholes_of};

use super::Ints;
use std::alloc::Global;
use vx_base::{IntList, Integer, PType, VortexResult};
use vx_blocks::unpack_blocks;

impl Ints {
    /// The `len` rows of packed blocks, as integers of a type. Block b begins at byte 128 * `offsets[b]` and has
    /// `offsets[b + 1] - offsets[b]` bits a row.
    #[tactic(auto, using(crate::proofs::BlockOffsets::words_of_offsets))]
    pub fn unpacked_blocks(
        alloc: Global,
        ptype: PType,
        packed: &[u8],
        offsets: &Ints,
        len: u64,
    ) -> VortexResult<Ints>
        requires widths { are_block_offsets (natural_bits ptype) (map int (wholes_of offsets.now)) ≡ true }
        requires blocks { length (wholes_of offsets.now) ≡ block_count len + 1 }
        requires sized { length packed.now ≡ 128 * offset_at (map int (wholes_of offsets.now)) (block_count len) }
        ensures { OrMemory result (λ ints. (ptype_of ints ≡ ptype) × (wholes_of ints ≡ below (λ i. whole_or_zero (packed_in_block packed.now (map int (wholes_of offsets.now)) i)) len)) }
    {
        let _size = packed.len();
        let offsets = offsets.words(alloc)?;
        ints_of!(ptype => block_list(alloc, packed, offsets.as_slice(), len)?)
    }
}

// The rows as a list of one type.
fn block_list<T: Integer>(
    alloc: Global,
    packed: &[u8],
    offsets: &[u64],
    len: u64,
) -> VortexResult<IntList<T>>
    requires blocks { length offsets.now ≡ block_count len + 1 }
    requires offsets { AreBlockOffsets (natural_bits T.kind) offsets.now }
    requires bytes { 128 * slice_index offsets.now (block_count len) ≤ length packed.now }
    ensures { OrMemory result (λ list. map T.whole list ≡ map (λ row. pos (block_row packed.now offsets.now row)) (range_with_len 0 len)) }
{
    let rows = unpack_blocks(alloc, packed, offsets, len)?;
    Ok(IntList::from_vec(rows))
}
