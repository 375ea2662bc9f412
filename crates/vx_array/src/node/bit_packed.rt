//! Bit-packed integers, with patches for the values that are wider.

ghost use Rattle.std.specs.Prelude.{◌≡◌, ℕ, List, length, true, None, MatchResult, IfSome, IsTrue, map, nat_le, pos, ◌≤◌, ◌+◌, ◌-◌, ◌^◌, min, option_map, unwrap_or, if◌then◌else◌};
ghost use Rattle.vx_array.specs.TreeOf.{unboxed, tree_of};
ghost use Rattle.vx_base.specs.Answers.{Makes, OrMemory};
ghost use Rattle.vx_base.specs.CellValue.{cell_value};
ghost use Rattle.vx_base.specs.Integers.{natural_bits};
ghost use Rattle.vx_base.specs.Packed.{packed_row, packed_size};
ghost use Rattle.vx_base.specs.PlainType.{is_flat};
ghost use Rattle.vx_base.specs.PlainType as types;
ghost use Rattle.vx_base.specs.PlainValue.{PlainValue, int, whole_or_zero, null};
ghost use Rattle.vx_base.specs.declared.dtype.Nullability.TheVariants.{NonNullable};
ghost use Rattle.vx_model.specs.Decoded.{zeroed_by};
ghost use Rattle.vx_model.specs.Refusals.{bit_packed_refusal, kept_packed, validity_length, patches_of_type, patches_length};
ghost use Rattle.vx_model.specs.Rows.{below, block_or_patch, is_valid_at, packed_at, packed_in_block, packed_or_patch};
ghost use Rattle.vx_model.specs.Size.{patches_size, validity_size};
ghost use Rattle.vx_model.specs.Tree.{PlainBlocks, PlainPacked, Tree, blocks_of, plain_packed, packed_of};
ghost use Rattle.vx_model.specs.TreeType.{tree_type};
ghost use Rattle.vx_model.specs.WellFormed.{WellFormedPatches};
ghost use Rattle.vx_values.specs.IntsOf.{ptype_of, wholes_of};
ghost use Rattle.vx_values.specs.ValuesOf.{ints, AreRows};

use crate::array::{ArrayRef, Node, Patches};
use crate::node::Made;
use std::alloc::Global;
use vx_base::{Bytes, Cell, DType, Mask, Nullability, PType, Refused, VortexError, VortexResult};
use vx_blocks::get;
use vx_flat::validity_bytes;
use vx_values::{
    Decoded, Ints, behind, copy_validity, has_length, is_allowed, is_valid, keep, known_bytes,
    packed_size,
};

impl ArrayRef {
    /// Integers of `width` bits each, null where `valid` is false; in a patched row the patch's value. The bytes are those
    /// of whole blocks of 1,024 rows. Children 0 and 1: the patches' indices and values, where there are patches. Chunk
    /// offsets of the patches are dropped.
    ///
    /// Refuses MismatchedTypes where the patches' values aren't non-nullable integers of the type; then LengthMismatch
    /// where the bytes, the mask or the patches are of another number of rows; then OutOfBounds where the width is above
    /// the type's bits, less one of a signed type; then MismatchedTypes where the mask has a false in a non-nullable node.
    #[tactic(auto, using(crate::proofs::Making::packed_array))]
    pub fn bit_packed(
        alloc: Global,
        ptype: PType,
        width: u32,
        packed: Bytes,
        len: u64,
        valid: Option<Mask>,
        patches: Option<Patches>,
        nullability: Nullability,
    ) -> Made<(Bytes, Option<Mask>, Option<Patches>)>
        ensures { let k = plain_packed ptype width packed len valid nullability in Makes (bit_packed_refusal k patches) (packed_of (kept_packed k) patches) (packed, valid, patches) result }
    {
        if let Some(error) = refusal(ptype, width, &packed, len, &valid, &patches, nullability) {
            return Err(Refused {
                error,
                inputs: (packed, valid, patches),
            });
        }
        known_bytes(packed.as_slice());
        known_patches(&patches);
        match boxed(alloc, patches) {
            Ok(patches) => Ok(ArrayRef {
                node: Node::BitPacked(
                    ptype,
                    width,
                    packed,
                    len,
                    keep(valid),
                    without_chunks(patches),
                    nullability,
                ),
                own_type: Some(DType::primitive(ptype, nullability)),
                len,
            }),
            Err(patches) => Err(Refused {
                error: VortexError::NoMemory,
                inputs: (packed, valid, patches),
            }),
        }
    }
}

// The refusal of these inputs, if there is one.
fn refusal(
    ptype: PType,
    width: u32,
    packed: &Bytes,
    len: u64,
    valid: &Option<Mask>,
    patches: &Option<Patches>,
    nullability: Nullability,
) -> Option<VortexError>
    ensures { result ≡ bit_packed_refusal (plain_packed ptype width packed.now len valid.now nullability) patches.now }
{
    if !has_values_of(patches, ptype) {
        return Some(VortexError::MismatchedTypes);
    }
    let is_sized = u128::from(packed.len()) == packed_size(width, len);
    if !is_sized || !has_length(valid, len) || !is_of_length(patches, len) {
        return Some(VortexError::LengthMismatch);
    }
    if width > ptype.natural_bits() {
        return Some(VortexError::OutOfBounds);
    }
    if !is_allowed(valid, nullability) {
        return Some(VortexError::MismatchedTypes);
    }
    None
}

// Whether the patches, if any, have values of the type.
pub(super) fn has_values_of(patches: &Option<Patches>, ptype: PType) -> bool
    ensures { result ≡ patches_of_type ptype patches.now }
{
    match patches {
        Some(patches) => {
            *patches.values().dtype() == DType::primitive(ptype, Nullability::NonNullable)
        }
        None => true,
    }
}

// Whether the patches, if any, are of an array of this length.
pub(super) fn is_of_length(patches: &Option<Patches>, len: u64) -> bool
    ensures { result ≡ patches_length len patches.now }
{
    match patches {
        Some(patches) => patches.array_len() == len,
        None => true,
    }
}

// The patches, if any, in a box; handed back where memory is wanting.
pub(super) fn boxed(
    alloc: Global,
    patches: Option<Patches>,
) -> Result<Option<Box<Patches>>, Option<Patches>>
    ensures { MatchResult result (λ boxed. unboxed boxed ≡ patches) (λ back. back ≡ patches) }
{
    match patches {
        Some(patches) => match Box::new(alloc, patches) {
            Ok(boxed) => Ok(Some(boxed)),
            Err(failed) => Err(Some(failed.value)),
        },
        None => Ok(None),
    }
}

// The patches, if any, without chunk offsets, which packed integers don't keep.
pub(crate) fn without_chunks(patches: Option<Box<Patches>>) -> Option<Box<Patches>>
    ensures same { (k : PlainPacked) → packed_of k (unboxed result) ≡ packed_of k (unboxed patches) }
    ensures same_blocks { (k : PlainBlocks) (offsets : Tree) → blocks_of k offsets (unboxed result) ≡ blocks_of k offsets (unboxed patches) }
    ensures none { IfSome (unboxed result) (λ p. p.chunks ≡ None) }
{
    match patches {
        Some(mut patches) => {
            patches.drop_chunks();
            Some(patches)
        }
        None => None,
    }
}

// Tells a proof that the patches, if any, are well formed.
pub(super) fn known_patches(patches: &Option<Patches>)
    ensures { IfSome patches.now WellFormedPatches }
{
    if let Some(patches) = patches {
        patches.known();
    }
}

// The patch of a row, None where the row has none.
#[cycle(cell_at)]
pub(super) fn patch_at(patches: &Option<Box<Patches>>, row: u64) -> Option<Cell<'_>>
    requires { IfSome (unboxed patches.now) (λ p. IsTrue (is_flat (tree_type p.values))) }
    ensures packed { (k : PlainPacked) → unwrap_or (option_map cell_value result) (packed_at k row) ≡ packed_or_patch k (unboxed patches.now) row }
    ensures in_block { (bs : List ℕ) (offsets : List PlainValue) → unwrap_or (option_map cell_value result) (packed_in_block bs offsets row) ≡ block_or_patch bs offsets (unboxed patches.now) row }
{
    match patches {
        Some(patches) => patches.cell_at(row),
        None => None,
    }
}

// A row: null where it isn't valid, else its patch, else its bits.
#[cycle(cell_at)]
pub(crate) fn unpacked_at<'a>(
    width: u32,
    packed: &Bytes,
    valid: &Option<Mask>,
    patches: &'a Option<Box<Patches>>,
    row: u64,
) -> Cell<'a>
    requires narrow { width ≤ 64 }
    requires block { packed_size width (row + 1) ≤ length packed.now }
    requires flat { IfSome (unboxed patches.now) (λ p. IsTrue (is_flat (tree_type p.values))) }
    ensures { (k : PlainPacked) → k.width ≡ width → k.bytes ≡ packed.now → cell_value result ≡ (if is_valid_at valid.now row then packed_or_patch k (unboxed patches.now) row else null) }
{
    if !is_valid(valid, row) {
        return Cell::Null;
    }
    match patch_at(patches, row) {
        Some(patch) => patch,
        None => Cell::Int(i128::from(get(packed.as_slice(), width, row))),
    }
}

// The bytes of the patches, if any. Saturates at 2^128 - 1.
#[cycle(nbytes)]
pub(super) fn patches_bytes(patches: &Option<Box<Patches>>) -> u128
    ensures { result ≡ min (patches_size (unboxed patches.now)) (2 ^ 128 - 1) }
{
    match patches {
        Some(patches) => patches.nbytes(),
        None => 0,
    }
}

// The bytes of the node: packed rows, validity, patches. Saturates at 2^128 - 1.
#[cycle(nbytes)]
pub(crate) fn packed_bytes(
    width: u32,
    len: u64,
    valid: &Option<Mask>,
    patches: &Option<Box<Patches>>,
) -> u128
    ensures { result ≡ min (packed_size width len + patches_size (unboxed patches.now) + validity_size valid.now) (2 ^ 128 - 1) }
{
    let own = packed_size(width, len) + validity_bytes(valid);
    own.saturating_add(patches_bytes(patches))
}

// A deep copy of the patches, if any.
#[cycle(copy)]
pub(super) fn copied_patches(
    alloc: Global,
    patches: &Option<Box<Patches>>,
) -> VortexResult<Option<Box<Patches>>>
    ensures { OrMemory result (λ copy. unboxed copy ≡ unboxed patches.now) }
{
    match patches {
        Some(patches) => Ok(Some(Box::new(alloc, patches.copy(alloc)?)?)),
        None => Ok(None),
    }
}

// A deep copy of the node.
#[cycle(copy)]
pub(crate) fn copied_packed(
    alloc: Global,
    ptype: PType,
    width: u32,
    packed: &Bytes,
    len: u64,
    valid: &Option<Mask>,
    patches: &Option<Box<Patches>>,
    nullability: Nullability,
) -> VortexResult<Node>
    ensures { OrMemory result (λ copy. tree_of copy ≡ packed_of (plain_packed ptype width packed.now len valid.now nullability) (unboxed patches.now)) }
{
    let packed = packed.copy(alloc)?;
    let valid = copy_validity(alloc, valid)?;
    let patches = copied_patches(alloc, patches)?;
    Ok(Node::BitPacked(ptype, width, packed, len, valid, patches, nullability))
}

// The integers, each patched row with its patch's value.
pub(super) fn written(values: Ints, patches: &Option<Box<Patches>>) -> Ints
    requires integers { IfSome (unboxed patches.now) (λ p. tree_type p.values ≡ types.primitive (ptype_of values) NonNullable) }
    requires rows { IfSome (unboxed patches.now) (λ p. length (wholes_of values) ≡ p.array_len) }
    ensures ptype { ptype_of result ≡ ptype_of values }
    ensures wholes { (k : PlainPacked) → length (wholes_of values) ≡ k.len → wholes_of values ≡ below (λ i. pos (packed_row k.bytes k.width i)) k.len → wholes_of result ≡ below (λ i. whole_or_zero (packed_or_patch k (unboxed patches.now) i)) k.len }
{
    match patches {
        Some(patches) => patches.written(values),
        None => values,
    }
}

// All rows: unpacks first, and then writes the patches over. 0 beneath nulls.
pub(crate) fn decoded_packed(
    alloc: Global,
    ptype: PType,
    width: u32,
    packed: &Bytes,
    len: u64,
    valid: &Option<Mask>,
    patches: &Option<Box<Patches>>,
) -> VortexResult<Decoded>
    requires narrow { IsTrue (nat_le width (natural_bits ptype)) }
    requires sized { length packed.now ≡ packed_size width len }
    requires bits { validity_length valid.now len ≡ true }
    requires integers { IfSome (unboxed patches.now) (λ p. tree_type p.values ≡ types.primitive ptype NonNullable) }
    requires rows { IfSome (unboxed patches.now) (λ p. len ≡ p.array_len) }
    ensures { let k = plain_packed ptype width packed.now len valid.now NonNullable in OrMemory result (AreRows (ints ptype) (map int (zeroed_by (pos 0) valid.now (below (λ i. whole_or_zero (packed_or_patch k (unboxed patches.now) i)) len))) valid.now) }
{
    let values = Ints::unpacked(alloc, ptype, width, packed.as_slice(), len)?;
    let values = written(values, patches);
    Ok(behind(values, copy_validity(alloc, valid)?))
}
