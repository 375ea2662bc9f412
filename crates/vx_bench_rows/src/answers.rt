//! Answers, and their digests: each item times the powers of 31. A row counts as its value and a 1, or a 0 where it is null.
//! Integers and texts count as they are stored, so zeros beneath nulls are compared too; truth values beneath nulls count as
//! false, since comparisons leave there what they make of the zeros.

use std::alloc::Global;
use vx_array::{ArrayRef, Node};
use vx_base::{Bytes, Integer, Mask, Scalar, VortexError, VortexResult};
use vx_bench_columns::DIGEST_FACTOR;
use vx_values::Ints;

/// What a row function answers.
#[derive(Drop)]
pub enum Answer {
    Column(ArrayRef),
    Truth(bool),
    Number(u64),
    Value(Scalar),
    Values(Vec<Scalar>),
    Bounds(Option<(Scalar, Scalar)>),
}

// The digest of no bounds.
const NONE: u64 = u64::MAX;

// The digest of what came before and one item more.
#[inline(always)]
fn with(sum: u64, item: u64) -> u64 {
    sum.wrapping_mul(DIGEST_FACTOR).wrapping_add(item)
}

// The digest of what came before and a row.
#[inline(always)]
fn with_row(sum: u64, value: u64, is_valid: bool) -> u64 {
    with(with(sum, value), u64::from(is_valid))
}

// The digest of what came before and bytes.
fn with_bytes(sum: u64, bytes: &[u8]) -> u64 {
    let mut sum = sum;
    for byte in bytes {
        sum = with(sum, u64::from(*byte));
    }
    sum
}

fn digest_of_integers<T: Integer>(items: &[T], valid: &Option<Mask>) -> u64 {
    let mut sum = 0;
    match valid {
        None => {
            for item in items {
                sum = with_row(sum, item.to_bits(), true);
            }
        }
        Some(bits) => {
            for (item, bit) in items.iter().zip(bits.as_slice()) {
                sum = with_row(sum, item.to_bits(), *bit);
            }
        }
    }
    sum
}

fn digest_of_truths(truths: &[bool], valid: &Option<Mask>) -> u64 {
    let mut sum = 0;
    match valid {
        None => {
            for truth in truths {
                sum = with_row(sum, u64::from(*truth), true);
            }
        }
        Some(bits) => {
            for (truth, bit) in truths.iter().zip(bits.as_slice()) {
                sum = with_row(sum, u64::from(*truth & *bit), *bit);
            }
        }
    }
    sum
}

fn digest_of_texts(rows: &[Bytes], valid: &Option<Mask>) -> u64 {
    let mut sum = 0;
    match valid {
        None => {
            for row in rows {
                sum = with(with_bytes(sum, row.as_slice()), 1);
            }
        }
        Some(bits) => {
            for (row, bit) in rows.iter().zip(bits.as_slice()) {
                sum = with(with_bytes(sum, row.as_slice()), u64::from(*bit));
            }
        }
    }
    sum
}

// The digest of a plain column of integers, of three types.
fn digest_of_ints(values: &Ints, valid: &Option<Mask>) -> Option<u64> {
    match values {
        Ints::U32(items) => Some(digest_of_integers(items.as_slice(), valid)),
        Ints::U64(items) => Some(digest_of_integers(items.as_slice(), valid)),
        Ints::I64(items) => Some(digest_of_integers(items.as_slice(), valid)),
        _ => None,
    }
}

// The digest of a plain column, but of timestamps; None of other columns.
fn digest_of_stored(column: &ArrayRef) -> Option<u64> {
    match column.node() {
        Node::Bool(truths, valid, _) => Some(digest_of_truths(truths.as_slice(), valid)),
        Node::Primitive(values, valid, _) => digest_of_ints(values, valid),
        Node::VarBinView(rows, valid, _) => Some(digest_of_texts(rows.as_slice(), valid)),
        _ => None,
    }
}

// The digest of a plain column; None of other columns.
fn digest_of_plain(column: &ArrayRef) -> Option<u64> {
    match column.node() {
        Node::Timestamp(storage, _) => digest_of_stored(&storage.array),
        _ => digest_of_stored(column),
    }
}

// The digest of a column. One that isn't plain counts as its plain tree.
fn digest_of_column(alloc: Global, column: &ArrayRef) -> VortexResult<u64> {
    match digest_of_plain(column) {
        Some(digest) => Ok(digest),
        None => {
            let plain = column.canonical(alloc)?;
            digest_of_plain(&plain).ok_or(VortexError::MismatchedTypes)
        }
    }
}

// The digest of what came before and a value: the bytes of its JSON.
fn with_value(alloc: Global, sum: u64, value: &Scalar) -> VortexResult<u64> {
    let text = value.json(alloc)?;
    Ok(with_bytes(sum, text.as_str().as_bytes()))
}

fn digest_of_values(alloc: Global, values: &[Scalar]) -> VortexResult<u64> {
    let mut sum = 0;
    for value in values {
        sum = with_value(alloc, sum, value)?;
    }
    Ok(sum)
}

/// The digest of an answer.
pub fn digest_of(alloc: Global, answer: &Answer) -> VortexResult<u64> {
    match answer {
        Answer::Column(column) => digest_of_column(alloc, column),
        Answer::Truth(truth) => Ok(u64::from(*truth)),
        Answer::Number(number) => Ok(*number),
        Answer::Value(value) => with_value(alloc, 0, value),
        Answer::Values(values) => digest_of_values(alloc, values.as_slice()),
        Answer::Bounds(None) => Ok(NONE),
        Answer::Bounds(Some((least, greatest))) => {
            let sum = with_value(alloc, 0, least)?;
            with_value(alloc, sum, greatest)
        }
    }
}
