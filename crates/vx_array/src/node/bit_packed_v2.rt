//! Integers bit-packed in blocks of 1,024 rows, each at a width of its own, with patches for the values that are wider.

ghost use Rattle.std.specs.Prelude.{◌≡◌, ◌<◌, ◌+◌, ◌*◌, ◌-◌, ◌^◌, ◌==◌, ◌||◌, ℕ, IsTrue, MatchResult, length, min};
ghost use Rattle.vx_array.specs.TreeOf.{unboxed, tree_of};
ghost use Rattle.vx_base.specs.Answers.{Makes, OrMemory};
ghost use Rattle.vx_base.specs.PlainType.{is_integer};
ghost use Rattle.vx_model.specs.Refusals.{bit_packed_v2_refusal, kept_blocks};
ghost use Rattle.vx_model.specs.Rows.{rows, offset_at};
ghost use Rattle.vx_model.specs.Size.{patches_size, validity_size};
ghost use Rattle.vx_model.specs.Tree.{blocks_of, plain_blocks};
ghost use Rattle.vx_model.specs.TreeType.{tree_type};
ghost use Rattle.vx_model.specs.WellFormed.{are_block_offsets, is_block_width};

use super::bit_packed::{
    boxed, copied_patches, has_values_of, is_of_length, known_patches, patches_bytes,
    without_chunks,
};
use super::offsets::{are_integers, offset_at};
use super::rle::block_count;
use crate::array::{ArrayRef, Child, Node, Patches};
use crate::node::Made;
use crate::patches::{as_index, is_count};
use std::alloc::Global;
use vx_base::{Bytes, DType, Mask, Nullability, PType, Refused, VortexError, VortexResult};
use vx_flat::with_validity;
use vx_values::{copy_validity, has_length, is_allowed, keep, known_bytes};

// The bytes of a block for each bit of its width: 1,024 / 8.
pub(super) const BYTES_PER_BIT: u128 = 128;

impl ArrayRef {
    /// Integers in blocks of 1,024 rows, null where `valid` is false; in a patched row the patch's value. Block b has
    /// `block_offsets[b + 1] - block_offsets[b]` bits a row, from byte 128 * `block_offsets[b]` on. Child 0:
    /// `block_offsets`, one more than there are blocks; children 1 and 2: the patches' indices and values, where there are
    /// patches. Chunk offsets of the patches are dropped.
    ///
    /// Refuses MismatchedTypes where the block offsets aren't non-nullable integers or the patches' values aren't
    /// non-nullable integers of the type; then LengthMismatch where the block offsets, the mask or the patches are of
    /// another number of rows; then OutOfBounds where the block offsets don't begin at 0, a width isn't 0 to the type's
    /// bits, less one of a signed type, or there aren't 128 bytes for each unit of the last offset; then MismatchedTypes
    /// where the mask has a false in a non-nullable node.
    #[tactic(auto, using(crate::proofs::BlockArrays::blocks_array))]
    pub fn bit_packed_v2(
        alloc: Global,
        ptype: PType,
        packed: Bytes,
        block_offsets: ArrayRef,
        len: u64,
        valid: Option<Mask>,
        patches: Option<Patches>,
        nullability: Nullability,
    ) -> Made<(Bytes, ArrayRef, Option<Mask>, Option<Patches>)>
        ensures { let k = plain_blocks ptype packed len valid nullability in Makes (bit_packed_v2_refusal k block_offsets patches) (blocks_of (kept_blocks k) block_offsets patches) (packed, block_offsets, valid, patches) result }
    {
        if let Some(error) = refusal(
            ptype,
            &packed,
            &block_offsets,
            len,
            &valid,
            &patches,
            nullability,
        ) {
            return Err(Refused {
                error,
                inputs: (packed, block_offsets, valid, patches),
            });
        }
        known_bytes(packed.as_slice());
        known_patches(&patches);
        block_offsets.known();
        match both_boxed(alloc, block_offsets, patches) {
            Ok((offsets, patches)) => Ok(ArrayRef {
                node: Node::BitPackedV2(
                    ptype,
                    packed,
                    Child { array: offsets },
                    len,
                    keep(valid),
                    without_chunks(patches),
                    nullability,
                ),
                own_type: Some(DType::primitive(ptype, nullability)),
                len,
            }),
            Err((block_offsets, patches)) => Err(Refused {
                error: VortexError::NoMemory,
                inputs: (packed, block_offsets, valid, patches),
            }),
        }
    }
}

// The refusal of these inputs, if there is one.
fn refusal(
    ptype: PType,
    packed: &Bytes,
    offsets: &ArrayRef,
    len: u64,
    valid: &Option<Mask>,
    patches: &Option<Patches>,
    nullability: Nullability,
) -> Option<VortexError>
    ensures { result ≡ bit_packed_v2_refusal (plain_blocks ptype packed.now len valid.now nullability) offsets.now patches.now }
{
    if !are_integers(offsets.dtype()) || !has_values_of(patches, ptype) {
        return Some(VortexError::MismatchedTypes);
    }
    let blocks = block_count(len);
    let are_full = u128::from(offsets.len()) == u128::from(blocks) + 1;
    if !are_full || !has_length(valid, len) || !is_of_length(patches, len) {
        return Some(VortexError::LengthMismatch);
    }
    if !are_block_offsets(offsets, ptype.natural_bits()) || !are_sized(packed, offsets, blocks) {
        return Some(VortexError::OutOfBounds);
    }
    if !is_allowed(valid, nullability) {
        return Some(VortexError::MismatchedTypes);
    }
    None
}

// Whether there are 128 bytes for each unit of the last block offset.
fn are_sized(packed: &Bytes, offsets: &ArrayRef, blocks: u64) -> bool
    requires integers { IsTrue (is_integer (tree_type offsets.now)) }
    requires in_range { blocks < length (rows offsets.now) }
    ensures { result ≡ (length packed.now == 128 * offset_at (rows offsets.now) blocks) }
{
    u128::from(packed.len()) == BYTES_PER_BIT.saturating_mul(offset_at(offsets, blocks))
}

// Whether block offsets begin at 0, and each is its predecessor plus 0 to `most`.
fn are_block_offsets(offsets: &ArrayRef, most: u32) -> bool
    requires integers { IsTrue (is_integer (tree_type offsets.now)) }
    requires some { 0 < length (rows offsets.now) }
    ensures { result ≡ are_block_offsets most (rows offsets.now) }
{
    let plain = offsets.summed();
    are_widths(offsets.or(&plain), most)
}

// `are_block_offsets`, one block after another.
fn are_widths(offsets: &ArrayRef, most: u32) -> bool
    requires integers { IsTrue (is_integer (tree_type offsets.now)) }
    requires some { 0 < length (rows offsets.now) }
    ensures { result ≡ are_block_offsets most (rows offsets.now) }
{
    if !is_count(offsets.integer_at(0), 0) {
        return false;
    }
    if offsets.is_linear() {
        return is_first_width(offsets, most);
    }
    for block in 0..offsets.len() - 1 {
        if !is_block_width(offsets, block, most) {
            return false;
        }
    }
    true
}

// Whether the width of the first block is 0 to `most`, if there is a block. Of linear offsets it is that of each.
fn is_first_width(offsets: &ArrayRef, most: u32) -> bool
    requires integers { IsTrue (is_integer (tree_type offsets.now)) }
    requires some { 0 < length (rows offsets.now) }
    ensures { result ≡ (length (rows offsets.now) == 1 || is_block_width most (rows offsets.now) 0) }
{
    offsets.len() == 1 || is_block_width(offsets, 0, most)
}

// Whether a block's width, the difference of its offset to the next, is 0 to `most`.
fn is_block_width(offsets: &ArrayRef, block: u64, most: u32) -> bool
    requires integers { IsTrue (is_integer (tree_type offsets.now)) }
    requires in_range { block + 1 < length (rows offsets.now) }
    ensures { result ≡ is_block_width most (rows offsets.now) block }
{
    let _offsets = offsets.len();
    let begin = offset_at(offsets, block);
    match as_index(offsets.integer_at(block + 1)) {
        Some(end) => end >= begin && end - begin <= u128::from(most),
        None => false,
    }
}

// Both in boxes; handed back where memory is wanting.
fn both_boxed(
    alloc: Global,
    offsets: ArrayRef,
    patches: Option<Patches>,
) -> Result<(Box<ArrayRef>, Option<Box<Patches>>), (ArrayRef, Option<Patches>)>
    ensures { MatchResult result (λ made. (made.0.value ≡ offsets) × (unboxed made.1 ≡ patches)) (λ back. back ≡ (offsets, patches)) }
{
    match boxed(alloc, patches) {
        Ok(patches) => match Box::new(alloc, offsets) {
            Ok(offsets) => Ok((offsets, patches)),
            Err(failed) => Err((failed.value, unboxed(patches))),
        },
        Err(patches) => Err((offsets, patches)),
    }
}

// The patches, if any, out of their box.
fn unboxed(patches: Option<Box<Patches>>) -> Option<Patches>
    ensures { result ≡ unboxed patches }
{
    match patches {
        Some(patches) => Some(Box::into_inner(patches)),
        None => None,
    }
}

// The bytes of the node: packed rows, block offsets, validity, patches. Saturates at 2^128 - 1.
#[cycle(nbytes)]
pub(crate) fn blocks_bytes(
    packed: &Bytes,
    offsets: u128,
    valid: &Option<Mask>,
    patches: &Option<Box<Patches>>,
) -> u128
    ensures { (n : ℕ) → offsets ≡ min n (2 ^ 128 - 1) → result ≡ min (length packed.now + (n + patches_size (unboxed patches.now)) + validity_size valid.now) (2 ^ 128 - 1) }
{
    let inside = offsets.saturating_add(patches_bytes(patches));
    with_validity(inside.saturating_add(u128::from(packed.len())), valid)
}

// A deep copy of the node, over the caller's copy of the block offsets.
#[cycle(copy)]
pub(crate) fn copied_blocks(
    alloc: Global,
    ptype: PType,
    packed: &Bytes,
    len: u64,
    valid: &Option<Mask>,
    patches: &Option<Box<Patches>>,
    nullability: Nullability,
    offsets: ArrayRef,
) -> VortexResult<Node>
    ensures { OrMemory result (λ copy. tree_of copy ≡ blocks_of (plain_blocks ptype packed.now len valid.now nullability) offsets (unboxed patches.now)) }
{
    let packed = packed.copy(alloc)?;
    let offsets = Child {
        array: Box::new(alloc, offsets)?,
    };
    let valid = copy_validity(alloc, valid)?;
    let patches = copied_patches(alloc, patches)?;
    Ok(Node::BitPackedV2(ptype, packed, offsets, len, valid, patches, nullability))
}
