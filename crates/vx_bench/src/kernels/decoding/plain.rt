//! Plain nodes, and nodes that keep their rows one by one; digests of plain columns.

use super::{Decoding, tell};
use anyhow::{Result, bail};
use std::alloc::Global;
use std::time::CpuClock;
use vx_array::{ArrayRef, Node};
use vx_base::{Bytes, Mask, Nullability, PType, VortexResult};
use vx_bench_columns::{
    Listed, WIDE, digest, each_tenth_null, random, scalar, texts, validity, values,
};
use vx_values::Ints;

// The value of constants.
const VALUE: u64 = 7;

// The digest of truth values.
fn digest_of_bits(bits: &[bool]) -> u64 {
    let mut sum: u64 = 0;
    for bit in bits {
        sum = sum.wrapping_mul(31).wrapping_add(u64::from(*bit));
    }
    sum
}

// The digest of a column's validity; 0 where no row is null.
fn digest_of_validity(valid: &Option<Mask>) -> u64 {
    match valid {
        None => 0,
        Some(bits) => digest_of_bits(bits.as_slice()),
    }
}

fn digest_of_integers(values: &Ints) -> Result<u64> {
    match values {
        Ints::U64(items) => Ok(digest(items.as_slice())),
        Ints::I64(items) => Ok(digest(items.as_slice())),
        _ => bail!("no integers of 64 bits"),
    }
}

// The digest of all bytes of a column, one row behind the other.
fn digest_of_rows(rows: &[Bytes]) -> u64 {
    let mut sum: u64 = 0;
    for row in rows {
        for byte in row.as_slice() {
            sum = sum.wrapping_mul(31).wrapping_add(u64::from(*byte));
        }
    }
    sum
}

/// The digest of a plain column of truth values, of texts, or of integers of 64 bits.
pub(super) fn digest_of(plain: &ArrayRef) -> Result<u64> {
    let (values, valid) = match plain.node() {
        Node::Bool(values, valid, _) => (digest_of_bits(values.as_slice()), valid),
        Node::Primitive(values, valid, _) => (digest_of_integers(values)?, valid),
        Node::VarBinView(rows, valid, _) => (digest_of_rows(rows.as_slice()), valid),
        _ => bail!("no plain column of these types"),
    };
    Ok(values.wrapping_add(digest_of_validity(valid)))
}

// Truth values: the lowest bits of random rows.
fn truth_values(alloc: Global, rows: usize, nullability: Nullability) -> VortexResult<ArrayRef> {
    let mut bits = Vec::with_capacity(alloc, rows)?;
    for row in values::<u64>(alloc, rows, 1)?.as_slice() {
        bits.push(*row == 1)?;
    }
    let valid = validity(alloc, rows, nullability)?;
    Ok(ArrayRef::bool(Mask::from_bits(bits), valid, nullability)?)
}

// Rows of which each tenth is hidden.
fn masked(alloc: Global, child: ArrayRef, rows: usize) -> VortexResult<ArrayRef> {
    let valid = each_tenth_null(alloc, rows)?;
    Ok(ArrayRef::masked(alloc, child, valid)?)
}

// A column of one value.
fn constant(alloc: Global, rows: usize, nullability: Nullability) -> VortexResult<ArrayRef> {
    let value = scalar(VALUE, nullability)?;
    let tree = ArrayRef::constant(value, rows as u64);
    match nullability {
        Nullability::NonNullable => Ok(tree),
        Nullability::Nullable => masked(alloc, tree, rows),
    }
}

// A nullable column under a mask.
fn hidden(alloc: Global, rows: usize) -> VortexResult<ArrayRef> {
    let values = u64::list(values::<u64>(alloc, rows, WIDE)?);
    let child = ArrayRef::primitive(values, None, Nullability::Nullable)?;
    masked(alloc, child, rows)
}

/// Times these nodes. Sequences have no nulls, and masks nothing else.
pub(super) fn tell_plain(rt: &(impl AllocGlobal + CpuClock + Print), on: &Decoding) -> Result<()> {
    let (alloc, rows, nullability) = (rt.alloc(), on.rows, on.nullability);
    tell(rt, on, "bool", truth_values(alloc, rows, nullability))?;
    tell(rt, on, "primitive", random(alloc, rows, nullability))?;
    tell(rt, on, "varbin", texts(alloc, rows, nullability))?;
    tell(rt, on, "constant", constant(alloc, rows, nullability))?;
    match nullability {
        Nullability::NonNullable => {
            let tree = ArrayRef::sequence(PType::U64, nullability, 5, 3, rows as u64);
            tell(rt, on, "sequence", tree)
        }
        Nullability::Nullable => tell(rt, on, "masked", hidden(alloc, rows)),
    }
}
