//! Readers of packed integers, at one width and in blocks.

ghost use Rattle.std.specs.Prelude.{◌≡◌, option_map};
ghost use Rattle.vx_codec.specs.Format.{made_at};
ghost use Rattle.vx_codec.specs.Reads.{Reads};
ghost use Rattle.vx_file.specs.Made.{checked, flat_parts_of};
ghost use Rattle.vx_model.specs.Refusals.{kept};
ghost use Rattle.vx_spelling.specs.Fields.{counted_bytes, packed_bytes};
ghost use Rattle.vx_spelling.specs.PackedParts.{blocks_from, blocks_ok, blocks_parts, flat_patches_of, packed_from, packed_ok, packed_parts};
ghost use Rattle.vx_spelling.specs.TreeSpelling.{tree_at, trees_by};

use super::fields::{read_nullability, read_ptype, read_row_count, read_validity};
use super::made::{Found, refusal};
use super::patches::read_maybe_flat;
use super::tree::read_tree;
use super::values::read_owned;
use std::alloc::Global;
use vx_array::{ArrayRef, Patches};
use vx_base::{Bytes, Mask, Nullability, PType};
use vx_codec::{ReadError, read_byte, read_raw};
use vx_values::{known_bytes, packed_size};

// `size` bytes of packed rows, copied. Malformed where fewer are left, which is known before memory is taken.
fn read_packed(alloc: Global, bytes: &[u8], size: u128) -> Result<(Bytes, &[u8]), ReadError>
    ensures { Reads (λ x. (x.0, x.1.now)) result ((packed_bytes size).parse bytes.now) }
{
    if size > bytes.len() as u128 {
        return Err(ReadError::Malformed);
    }
    let (packed, rest) = read_raw(bytes, size as u64)?;
    known_bytes(packed);
    Ok((Bytes::from_vec(Vec::from_slice(alloc, packed)?), rest))
}

/// Integers packed at one width: type, nullability, width, row count, packed bytes, validity, patches where there are any.
#[cycle(read_tree)]
pub(super) fn read_bit_packed(alloc: Global, bytes: &[u8], depth: u8) -> Found<'_>
    ensures { Reads (λ x. (x.0, x.1.now)) result (made_at packed_from (packed_parts (trees_by (tree_at depth))).parse bytes.now) }
{
    let (ptype, rest) = read_ptype(bytes)?;
    let (nullability, rest) = read_nullability(rest)?;
    let (width, rest) = read_byte(rest)?;
    let (len, rest) = read_row_count(rest)?;
    let (packed, rest) = read_packed(alloc, rest, packed_size(u32::from(width), len))?;
    let (valid, rest) = read_validity(alloc, rest, len)?;
    let (patches, rest) = read_maybe_flat(alloc, rest, depth)?;
    let head = ((ptype, nullability), (width, len));
    make_bit_packed(alloc, head, (packed, valid), patches, rest)
}

fn make_bit_packed<'a>(
    alloc: Global,
    head: ((PType, Nullability), (u8, u64)),
    rows: (Bytes, Option<Mask>),
    patches: Option<Patches>,
    rest: &'a [u8],
) -> Found<'a>
    requires kept { kept rows.1 ≡ rows.1 }
    requires flat { flat_patches_of (option_map flat_parts_of patches) ≡ patches }
    ensures { Reads (λ x. (x.0, x.1.now)) result (checked packed_ok packed_from ((head, rows), option_map flat_parts_of patches) rest.now) }
{
    let ((ptype, nullability), (width, len)) = head;
    let (packed, valid) = rows;
    let width = u32::from(width);
    match ArrayRef::bit_packed(
        alloc,
        ptype,
        width,
        packed,
        len,
        valid,
        patches,
        nullability,
    ) {
        Ok(tree) => Ok((tree, rest)),
        Err(refused) => Err(refusal(refused.error)),
    }
}

// Packed bytes behind their length, copied.
fn read_blocks(alloc: Global, bytes: &[u8]) -> Result<(Bytes, &[u8]), ReadError>
    ensures { Reads (λ x. (x.0, x.1.now)) result (counted_bytes.parse bytes.now) }
{
    let (packed, rest) = read_owned(alloc, bytes)?;
    known_bytes(packed.as_slice());
    Ok((packed, rest))
}

/// Integers packed in blocks, each at a width of its own: type, nullability, row count, block offsets, packed bytes behind
/// their length, validity, patches where there are any.
#[cycle(read_tree)]
pub(super) fn read_bit_packed_v2(alloc: Global, bytes: &[u8], depth: u8) -> Found<'_>
    ensures { Reads (λ x. (x.0, x.1.now)) result (made_at blocks_from (blocks_parts (trees_by (tree_at depth))).parse bytes.now) }
{
    let (ptype, rest) = read_ptype(bytes)?;
    let (nullability, rest) = read_nullability(rest)?;
    let (len, rest) = read_row_count(rest)?;
    let (offsets, rest) = read_tree(alloc, rest, depth)?;
    let (packed, rest) = read_blocks(alloc, rest)?;
    let (valid, rest) = read_validity(alloc, rest, len)?;
    let (patches, rest) = read_maybe_flat(alloc, rest, depth)?;
    let head = ((ptype, nullability), len);
    make_bit_packed_v2(alloc, head, (offsets, (packed, valid)), patches, rest)
}

fn make_bit_packed_v2<'a>(
    alloc: Global,
    head: ((PType, Nullability), u64),
    rows: (ArrayRef, (Bytes, Option<Mask>)),
    patches: Option<Patches>,
    rest: &'a [u8],
) -> Found<'a>
    requires kept { kept rows.1.1 ≡ rows.1.1 }
    requires flat { flat_patches_of (option_map flat_parts_of patches) ≡ patches }
    ensures { Reads (λ x. (x.0, x.1.now)) result (checked blocks_ok blocks_from ((head, rows), option_map flat_parts_of patches) rest.now) }
{
    let ((ptype, nullability), len) = head;
    let (offsets, (packed, valid)) = rows;
    match ArrayRef::bit_packed_v2(
        alloc,
        ptype,
        packed,
        offsets,
        len,
        valid,
        patches,
        nullability,
    ) {
        Ok(tree) => Ok((tree, rest)),
        Err(refused) => Err(refusal(refused.error)),
    }
}
