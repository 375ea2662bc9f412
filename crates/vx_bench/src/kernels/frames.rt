//! Decoding of frames of reference: with one reference, and with one for each block of 1,024 rows.

use super::Setting;
use super::timing::tell_canonical;
use anyhow::{Result, bail};
use std::alloc::{AllocError, Global};
use std::time::CpuClock;
use vx_array::ArrayRef;
use vx_base::{Integer, Nullability, Scalar};
use vx_bench_columns::{Listed, column_of};
use vx_blocks::BLOCK_ROWS;

// The bits of the least of some rows of an unsigned type.
fn least_of<T: Integer>(rows: &[T]) -> u64 {
    let mut least = u64::MAX;
    for row in rows {
        least = least.min(row.to_bits());
    }
    least
}

// Appends each row less the least one, modulo the type's range.
fn append_less<T: Integer>(
    differences: &mut Vec<T>,
    rows: &[T],
    least: u64,
) -> Result<(), AllocError> {
    for row in rows {
        differences.push(T::from_low_bits(row.to_bits().wrapping_sub(least)))?;
    }
    Ok(())
}

// The tree of rows less the least of all.
fn frame_tree<T: Integer + Listed>(alloc: Global, rows: &[T]) -> Result<ArrayRef> {
    let least = least_of(rows);
    let mut differences = Vec::with_capacity(alloc, rows.len())?;
    append_less(&mut differences, rows, least)?;
    let whole = T::from_low_bits(least).to_whole();
    let reference = Scalar::primitive(whole, T::ptype(), Nullability::NonNullable)?;
    let Ok(tree) = ArrayRef::frame_of_reference(alloc, column_of(differences), reference) else {
        bail!("no tree of these differences");
    };
    Ok(tree)
}

// The tree of rows less the least of their block.
fn frames_tree<T: Integer + Listed>(alloc: Global, rows: &[T]) -> Result<ArrayRef> {
    let mut references = Vec::new(alloc);
    let mut differences = Vec::with_capacity(alloc, rows.len())?;
    for block in rows.chunks(BLOCK_ROWS) {
        let least = least_of(block);
        references.push(T::from_low_bits(least))?;
        append_less(&mut differences, block, least)?;
    }
    let (encoded, references) = (column_of(differences), column_of(references));
    let Ok(tree) = ArrayRef::frame_of_reference_v2(alloc, encoded, references) else {
        bail!("no tree of these differences");
    };
    Ok(tree)
}

// Times the decoding of the same rows in both forms.
pub(super) fn tell_frames<T: Integer + Listed>(
    rt: &(impl AllocGlobal + CpuClock + Print),
    on: &Setting,
    rows: &[T],
) -> Result<()> {
    let alloc = rt.alloc();
    tell_canonical(rt, "frame", on, &frame_tree(alloc, rows)?)?;
    tell_canonical(rt, "frame_v2", on, &frames_tree(alloc, rows)?)
}
