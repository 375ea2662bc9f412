//! Readers of patches, and of sparse columns, which are patches over a fill.

ghost use Rattle.std.specs.Prelude.{◌≡◌, IfOk, option_map, Some};
ghost use Rattle.vx_codec.specs.Format.{made_at};
ghost use Rattle.vx_codec.specs.Lists.{optional};
ghost use Rattle.vx_codec.specs.Reads.{Reads};
ghost use Rattle.vx_file.specs.Made.{checked, flat_parts_of, passed, patch_parts_of};
ghost use Rattle.vx_spelling.specs.PackedParts.{flat_fields, flat_ok, flat_parts, flat_patches_of, patch_parts, patches_ok, sparse_from, sparse_ok, sparse_parts};
ghost use Rattle.vx_spelling.specs.TreeSpelling.{tree_at, trees_by};

use super::fields::read_row_count;
use super::made::{Found, refusal};
use super::tree::{read_tree, read_two};
use super::values::read_scalar;
use std::alloc::Global;
use vx_array::{ArrayRef, Patches};
use vx_base::Scalar;
use vx_codec::{ReadError, read_byte, read_varint};

/// Row count and offset, and indices and values: all of patches but their chunk offsets.
type PatchFields = ((u64, u64), (ArrayRef, ArrayRef));

// Row count of the array, offset, indices, values.
#[cycle(read_tree)]
fn read_patch_fields(
    alloc: Global,
    bytes: &[u8],
    depth: u8,
) -> Result<(PatchFields, &[u8]), ReadError>
    ensures { Reads (λ x. (x.0, x.1.now)) result ((flat_fields (trees_by (tree_at depth))).parse bytes.now) }
{
    let (array_len, rest) = read_row_count(bytes)?;
    let (offset, rest) = read_varint(rest)?;
    let (children, rest) = read_two(alloc, rest, depth)?;
    Ok((((array_len, offset), children), rest))
}

// The patches of packed integers: a byte 0 stands where chunk offsets could.
#[cycle(read_tree)]
fn read_flat(alloc: Global, bytes: &[u8], depth: u8) -> Result<(Patches, &[u8]), ReadError>
    ensures read { Reads (λ x. (flat_parts_of x.0, x.1.now)) result ((flat_parts (trees_by (tree_at depth))).parse bytes.now) }
    ensures flat { IfOk result (λ x. flat_patches_of (Some (flat_parts_of x.0)) ≡ Some x.0) }
{
    let (fields, rest) = read_patch_fields(alloc, bytes, depth)?;
    let (flag, rest) = read_byte(rest)?;
    if flag != 0 {
        return Err(ReadError::Malformed);
    }
    make_flat(fields, rest)
}

fn make_flat(fields: PatchFields, rest: &[u8]) -> Result<(Patches, &[u8]), ReadError>
    ensures read { Reads (λ x. (flat_parts_of x.0, x.1.now)) result (passed flat_ok (fields, tt) rest.now) }
    ensures flat { IfOk result (λ x. flat_patches_of (Some (flat_parts_of x.0)) ≡ Some x.0) }
{
    let ((array_len, offset), (indices, values)) = fields;
    match Patches::new(array_len, offset, indices, values) {
        Ok(patches) => Ok((patches, rest)),
        Err(refused) => Err(refusal(refused.error)),
    }
}

/// The patches of packed integers where there are any: 0, or 1 and the patches.
#[cycle(read_tree)]
pub(super) fn read_maybe_flat(
    alloc: Global,
    bytes: &[u8],
    depth: u8,
) -> Result<(Option<Patches>, &[u8]), ReadError>
    ensures read { Reads (λ x. (option_map flat_parts_of x.0, x.1.now)) result ((optional (flat_parts (trees_by (tree_at depth)))).parse bytes.now) }
    ensures flat { IfOk result (λ x. flat_patches_of (option_map flat_parts_of x.0) ≡ x.0) }
{
    let (flag, rest) = read_byte(bytes)?;
    match flag {
        0 => Ok((None, rest)),
        1 => {
            let (patches, rest) = read_flat(alloc, rest, depth)?;
            Ok((Some(patches), rest))
        }
        _ => Err(ReadError::Malformed),
    }
}

// A child where there is one: 0, or 1 and the tree.
#[cycle(read_tree)]
fn read_maybe_tree(
    alloc: Global,
    bytes: &[u8],
    depth: u8,
) -> Result<(Option<ArrayRef>, &[u8]), ReadError>
    ensures { Reads (λ x. (x.0, x.1.now)) result ((optional (trees_by (tree_at depth))).parse bytes.now) }
{
    let (flag, rest) = read_byte(bytes)?;
    match flag {
        0 => Ok((None, rest)),
        1 => {
            let (tree, rest) = read_tree(alloc, rest, depth)?;
            Ok((Some(tree), rest))
        }
        _ => Err(ReadError::Malformed),
    }
}

// Patches, with the chunk offsets that there are.
#[cycle(read_tree)]
fn read_patches(alloc: Global, bytes: &[u8], depth: u8) -> Result<(Patches, &[u8]), ReadError>
    ensures { Reads (λ x. (patch_parts_of x.0, x.1.now)) result ((patch_parts (trees_by (tree_at depth))).parse bytes.now) }
{
    let (fields, rest) = read_patch_fields(alloc, bytes, depth)?;
    let (chunks, rest) = read_maybe_tree(alloc, rest, depth)?;
    make_patches(fields, chunks, rest)
}

fn make_patches(
    fields: PatchFields,
    chunks: Option<ArrayRef>,
    rest: &[u8],
) -> Result<(Patches, &[u8]), ReadError>
    ensures { Reads (λ x. (patch_parts_of x.0, x.1.now)) result (passed patches_ok (fields, chunks) rest.now) }
{
    let ((array_len, offset), (indices, values)) = fields;
    match chunks {
        Some(chunks) => match Patches::new_chunked(array_len, offset, indices, values, chunks) {
            Ok(patches) => Ok((patches, rest)),
            Err(refused) => Err(refusal(refused.error)),
        },
        None => match Patches::new(array_len, offset, indices, values) {
            Ok(patches) => Ok((patches, rest)),
            Err(refused) => Err(refusal(refused.error)),
        },
    }
}

/// A sparse column: its patches, and the fill as a scalar.
#[cycle(read_tree)]
pub(super) fn read_sparse(alloc: Global, bytes: &[u8], depth: u8) -> Found<'_>
    ensures { Reads (λ x. (x.0, x.1.now)) result (made_at sparse_from (sparse_parts (trees_by (tree_at depth))).parse bytes.now) }
{
    let (patches, rest) = read_patches(alloc, bytes, depth)?;
    let (fill, rest) = read_scalar(alloc, rest)?;
    make_sparse(alloc, patches, fill, rest)
}

fn make_sparse(alloc: Global, patches: Patches, fill: Scalar, rest: &[u8]) -> Found<'_>
    ensures { Reads (λ x. (x.0, x.1.now)) result (checked sparse_ok sparse_from (patch_parts_of patches, (fill.dtype, fill.value)) rest.now) }
{
    match ArrayRef::sparse(alloc, patches, fill) {
        Ok(tree) => Ok((tree, rest)),
        Err(refused) => Err(refusal(refused.error)),
    }
}
