//! Readers of nodes that look rows up in other columns: texts by offsets, masks, codes and runs.

ghost use Rattle.std.specs.Prelude.{◌≡◌};
ghost use Rattle.vx_codec.specs.Format.{made_at};
ghost use Rattle.vx_codec.specs.Reads.{Reads};
ghost use Rattle.vx_file.specs.Made.{checked};
ghost use Rattle.vx_model.specs.Refusals.{kept};
ghost use Rattle.vx_spelling.specs.NestedParts.{dict_ok, dict_of, dict_parts, masked_ok, masked_of, masked_parts, rle_ok, rle_of, rle_parts, run_end_ok, run_end_of, run_end_parts, var_bin_ok, var_bin_of, var_bin_parts};
ghost use Rattle.vx_spelling.specs.TreeSpelling.{tree_at, trees_by};

use super::fields::{read_byte_type, read_mask, read_row_count, read_validity};
use super::leaves::byte_type;
use super::made::{Found, refusal};
use super::tree::{Three, read_three, read_tree, read_two};
use super::values::read_owned;
use std::alloc::Global;
use vx_array::ArrayRef;
use vx_base::{Bytes, Mask, Nullability};

/// Texts or binaries by offsets: type, offsets, all bytes behind their length, validity of one row less than there are
/// offsets.
#[cycle(read_tree)]
pub(super) fn read_var_bin(alloc: Global, bytes: &[u8], depth: u8) -> Found<'_>
    ensures { Reads (λ x. (x.0, x.1.now)) result (made_at var_bin_of (var_bin_parts (trees_by (tree_at depth))).parse bytes.now) }
{
    let (own_type, rest) = read_byte_type(bytes)?;
    let (offsets, rest) = read_tree(alloc, rest, depth)?;
    let (content, rest) = read_owned(alloc, rest)?;
    let (valid, rest) = read_validity(alloc, rest, offsets.len().saturating_sub(1))?;
    make_var_bin(alloc, own_type, offsets, content, valid, rest)
}

fn make_var_bin<'a>(
    alloc: Global,
    own_type: (bool, Nullability),
    offsets: ArrayRef,
    content: Bytes,
    valid: Option<Mask>,
    rest: &'a [u8],
) -> Found<'a>
    requires { kept valid ≡ valid }
    ensures { Reads (λ x. (x.0, x.1.now)) result (checked var_bin_ok var_bin_of (own_type, (offsets, (content, valid))) rest.now) }
{
    let (is_text, nullability) = own_type;
    match ArrayRef::var_bin(
        alloc,
        offsets,
        content,
        valid,
        byte_type(is_text, nullability),
    ) {
        Ok(tree) => Ok((tree, rest)),
        Err(refused) => Err(refusal(refused.error)),
    }
}

/// Rows of a child, null where a bit is false: child, a bit a row.
#[cycle(read_tree)]
pub(super) fn read_masked(alloc: Global, bytes: &[u8], depth: u8) -> Found<'_>
    ensures { Reads (λ x. (x.0, x.1.now)) result (made_at masked_of (masked_parts (trees_by (tree_at depth))).parse bytes.now) }
{
    let (child, rest) = read_tree(alloc, bytes, depth)?;
    let (valid, rest) = read_mask(alloc, rest, child.len())?;
    make_masked(alloc, child, valid, rest)
}

fn make_masked(alloc: Global, child: ArrayRef, valid: Mask, rest: &[u8]) -> Found<'_>
    ensures { Reads (λ x. (x.0, x.1.now)) result (checked masked_ok masked_of (child, valid) rest.now) }
{
    match ArrayRef::masked(alloc, child, valid) {
        Ok(tree) => Ok((tree, rest)),
        Err(refused) => Err(refusal(refused.error)),
    }
}

/// A dictionary: codes, values.
#[cycle(read_tree)]
pub(super) fn read_dict(alloc: Global, bytes: &[u8], depth: u8) -> Found<'_>
    ensures { Reads (λ x. (x.0, x.1.now)) result (made_at dict_of (dict_parts (trees_by (tree_at depth))).parse bytes.now) }
{
    let (children, rest) = read_two(alloc, bytes, depth)?;
    make_dict(alloc, children, rest)
}

fn make_dict(alloc: Global, children: (ArrayRef, ArrayRef), rest: &[u8]) -> Found<'_>
    ensures { Reads (λ x. (x.0, x.1.now)) result (checked dict_ok dict_of children rest.now) }
{
    let (codes, values) = children;
    match ArrayRef::dict(alloc, codes, values) {
        Ok(tree) => Ok((tree, rest)),
        Err(refused) => Err(refusal(refused.error)),
    }
}

/// Runs: ends, values.
#[cycle(read_tree)]
pub(super) fn read_run_end(alloc: Global, bytes: &[u8], depth: u8) -> Found<'_>
    ensures { Reads (λ x. (x.0, x.1.now)) result (made_at run_end_of (run_end_parts (trees_by (tree_at depth))).parse bytes.now) }
{
    let (children, rest) = read_two(alloc, bytes, depth)?;
    make_run_end(alloc, children, rest)
}

fn make_run_end(alloc: Global, children: (ArrayRef, ArrayRef), rest: &[u8]) -> Found<'_>
    ensures { Reads (λ x. (x.0, x.1.now)) result (checked run_end_ok run_end_of children rest.now) }
{
    let (ends, values) = children;
    match ArrayRef::run_end(alloc, ends, values) {
        Ok(tree) => Ok((tree, rest)),
        Err(refused) => Err(refusal(refused.error)),
    }
}

/// Runs in blocks: row count, values, indices, offsets.
#[cycle(read_tree)]
pub(super) fn read_rle(alloc: Global, bytes: &[u8], depth: u8) -> Found<'_>
    ensures { Reads (λ x. (x.0, x.1.now)) result (made_at rle_of (rle_parts (trees_by (tree_at depth))).parse bytes.now) }
{
    let (len, rest) = read_row_count(bytes)?;
    let (children, rest) = read_three(alloc, rest, depth)?;
    make_rle(alloc, len, children, rest)
}

fn make_rle(alloc: Global, len: u64, children: Three, rest: &[u8]) -> Found<'_>
    ensures { Reads (λ x. (x.0, x.1.now)) result (checked rle_ok rle_of (len, children) rest.now) }
{
    let (values, (indices, offsets)) = children;
    match ArrayRef::rle(alloc, values, indices, offsets, len) {
        Ok(tree) => Ok((tree, rest)),
        Err(refused) => Err(refusal(refused.error)),
    }
}
