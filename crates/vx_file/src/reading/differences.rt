//! Readers of frames of reference, deltas and zigzags.

ghost use Rattle.std.specs.Prelude.{◌≡◌};
ghost use Rattle.vx_codec.specs.Format.{made_at};
ghost use Rattle.vx_codec.specs.Reads.{Reads};
ghost use Rattle.vx_file.specs.Made.{checked};
ghost use Rattle.vx_model.specs.Refusals.{kept};
ghost use Rattle.vx_model.specs.Tree.{zig_zag};
ghost use Rattle.vx_spelling.specs.PackedParts.{delta_of, delta_ok, delta_parts, for_of, for_ok, for_parts, frames_of, frames_ok, frames_parts, zig_zag_ok, zig_zag_parts};
ghost use Rattle.vx_spelling.specs.TreeSpelling.{tree_at, trees_by};

use super::fields::{read_nullability, read_row_count, read_validity};
use super::made::{Found, refusal};
use super::tree::{read_tree, read_two};
use super::values::read_scalar;
use std::alloc::Global;
use vx_array::ArrayRef;
use vx_base::{Mask, Nullability, Scalar};

/// A frame of reference: the encoded integers, and the reference as a scalar.
#[cycle(read_tree)]
pub(super) fn read_for(alloc: Global, bytes: &[u8], depth: u8) -> Found<'_>
    ensures { Reads (λ x. (x.0, x.1.now)) result (made_at for_of (for_parts (trees_by (tree_at depth))).parse bytes.now) }
{
    let (encoded, rest) = read_tree(alloc, bytes, depth)?;
    let (reference, rest) = read_scalar(alloc, rest)?;
    make_for(alloc, encoded, reference, rest)
}

fn make_for(alloc: Global, encoded: ArrayRef, reference: Scalar, rest: &[u8]) -> Found<'_>
    ensures { Reads (λ x. (x.0, x.1.now)) result (checked for_ok for_of (encoded, (reference.dtype, reference.value)) rest.now) }
{
    match ArrayRef::frame_of_reference(alloc, encoded, reference) {
        Ok(tree) => Ok((tree, rest)),
        Err(refused) => Err(refusal(refused.error)),
    }
}

/// Frames of reference, one for each block: the encoded integers, the references.
#[cycle(read_tree)]
pub(super) fn read_for_v2(alloc: Global, bytes: &[u8], depth: u8) -> Found<'_>
    ensures { Reads (λ x. (x.0, x.1.now)) result (made_at frames_of (frames_parts (trees_by (tree_at depth))).parse bytes.now) }
{
    let (children, rest) = read_two(alloc, bytes, depth)?;
    make_for_v2(alloc, children, rest)
}

fn make_for_v2(alloc: Global, children: (ArrayRef, ArrayRef), rest: &[u8]) -> Found<'_>
    ensures { Reads (λ x. (x.0, x.1.now)) result (checked frames_ok frames_of children rest.now) }
{
    let (encoded, references) = children;
    match ArrayRef::frame_of_reference_v2(alloc, encoded, references) {
        Ok(tree) => Ok((tree, rest)),
        Err(refused) => Err(refusal(refused.error)),
    }
}

/// Deltas: nullability, row count, bases, deltas, validity.
#[cycle(read_tree)]
pub(super) fn read_delta(alloc: Global, bytes: &[u8], depth: u8) -> Found<'_>
    ensures { Reads (λ x. (x.0, x.1.now)) result (made_at delta_of (delta_parts (trees_by (tree_at depth))).parse bytes.now) }
{
    let (nullability, rest) = read_nullability(bytes)?;
    let (len, rest) = read_row_count(rest)?;
    let (children, rest) = read_two(alloc, rest, depth)?;
    let (valid, rest) = read_validity(alloc, rest, len)?;
    make_delta(alloc, (nullability, len), children, valid, rest)
}

fn make_delta<'a>(
    alloc: Global,
    head: (Nullability, u64),
    children: (ArrayRef, ArrayRef),
    valid: Option<Mask>,
    rest: &'a [u8],
) -> Found<'a>
    requires { kept valid ≡ valid }
    ensures { Reads (λ x. (x.0, x.1.now)) result (checked delta_ok delta_of (head, (children, valid)) rest.now) }
{
    let (nullability, len) = head;
    let (bases, deltas) = children;
    match ArrayRef::delta(alloc, bases, deltas, len, valid, nullability) {
        Ok(tree) => Ok((tree, rest)),
        Err(refused) => Err(refusal(refused.error)),
    }
}

/// Zigzags: the encoded integers.
#[cycle(read_tree)]
pub(super) fn read_zig_zag(alloc: Global, bytes: &[u8], depth: u8) -> Found<'_>
    ensures { Reads (λ x. (x.0, x.1.now)) result (made_at zig_zag (zig_zag_parts (trees_by (tree_at depth))).parse bytes.now) }
{
    let (encoded, rest) = read_tree(alloc, bytes, depth)?;
    make_zig_zag(alloc, encoded, rest)
}

fn make_zig_zag(alloc: Global, encoded: ArrayRef, rest: &[u8]) -> Found<'_>
    ensures { Reads (λ x. (x.0, x.1.now)) result (checked zig_zag_ok zig_zag encoded rest.now) }
{
    match ArrayRef::zig_zag(alloc, encoded) {
        Ok(tree) => Ok((tree, rest)),
        Err(refused) => Err(refusal(refused.error)),
    }
}
