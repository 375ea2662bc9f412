//! Readers of timestamps, over their storage and in parts.

ghost use Rattle.vx_codec.specs.Format.{made_at};
ghost use Rattle.vx_codec.specs.Reads.{Reads};
ghost use Rattle.vx_file.specs.Made.{checked};
ghost use Rattle.vx_spelling.specs.NestedParts.{datetime_ok, datetime_of, datetime_parts, timestamp_ok, timestamp_of, timestamp_parts};
ghost use Rattle.vx_spelling.specs.TreeSpelling.{tree_at, trees_by};

use super::fields::read_nullability;
use super::made::{Found, refusal};
use super::timestamp_kinds::read_kind;
use super::tree::{Three, read_three, read_tree};
use std::alloc::Global;
use vx_array::ArrayRef;
use vx_base::{Nullability, TimestampType};

/// Timestamps: their kind, and the storage.
#[cycle(read_tree)]
pub(super) fn read_timestamp(alloc: Global, bytes: &[u8], depth: u8) -> Found<'_>
    ensures { Reads (λ x. (x.0, x.1.now)) result (made_at timestamp_of (timestamp_parts (trees_by (tree_at depth))).parse bytes.now) }
{
    let (kind, rest) = read_kind(alloc, bytes)?;
    let (storage, rest) = read_tree(alloc, rest, depth)?;
    make_timestamp(alloc, kind, storage, rest)
}

fn make_timestamp(alloc: Global, kind: TimestampType, storage: ArrayRef, rest: &[u8]) -> Found<'_>
    ensures { Reads (λ x. (x.0, x.1.now)) result (checked timestamp_ok timestamp_of (kind, storage) rest.now) }
{
    match ArrayRef::timestamp(alloc, storage, kind) {
        Ok(tree) => Ok((tree, rest)),
        Err(refused) => Err(refusal(refused.error)),
    }
}

/// Timestamps in parts: their kind and nullability, days, seconds, subseconds.
#[cycle(read_tree)]
pub(super) fn read_datetime_parts(alloc: Global, bytes: &[u8], depth: u8) -> Found<'_>
    ensures { Reads (λ x. (x.0, x.1.now)) result (made_at datetime_of (datetime_parts (trees_by (tree_at depth))).parse bytes.now) }
{
    let (kind, rest) = read_kind(alloc, bytes)?;
    let (nullability, rest) = read_nullability(rest)?;
    let (parts, rest) = read_three(alloc, rest, depth)?;
    make_datetime_parts(alloc, kind, nullability, parts, rest)
}

fn make_datetime_parts<'a>(
    alloc: Global,
    kind: TimestampType,
    nullability: Nullability,
    parts: Three,
    rest: &'a [u8],
) -> Found<'a>
    ensures { Reads (λ x. (x.0, x.1.now)) result (checked datetime_ok datetime_of ((kind, nullability), parts) rest.now) }
{
    let (days, (seconds, subseconds)) = parts;
    match ArrayRef::datetime_parts(alloc, kind, nullability, days, seconds, subseconds) {
        Ok(tree) => Ok((tree, rest)),
        Err(refused) => Err(refusal(refused.error)),
    }
}
