//! The row functions with a context of their own, the rows of a tree as JSON, and refusals.

use std::alloc::Global;
use vx_array::ArrayRef;
use vx_base::{ExecutionCtx, Mask, Nullability, Scalar, VortexError, VortexResult, Words};
use vx_selections::{filter, mask, scalar_at, slice, take};

fn context(alloc: Global) -> VortexResult<ExecutionCtx> {
    Ok(ExecutionCtx::new(alloc, Words::from_vec(vec![in alloc; 0]?)))
}

pub(crate) fn sliced(
    alloc: Global,
    tree: &ArrayRef,
    start: u64,
    end: u64,
) -> VortexResult<ArrayRef> {
    slice(tree, start, end, &mut context(alloc)?)
}

pub(crate) fn filtered(alloc: Global, tree: &ArrayRef, keep: &Mask) -> VortexResult<ArrayRef> {
    filter(tree, keep, &mut context(alloc)?)
}

pub(crate) fn masked(alloc: Global, tree: &ArrayRef, keep: &Mask) -> VortexResult<ArrayRef> {
    mask(tree, keep, &mut context(alloc)?)
}

pub(crate) fn taken(alloc: Global, tree: &ArrayRef, indices: &ArrayRef) -> VortexResult<ArrayRef> {
    take(tree, indices, &mut context(alloc)?)
}

pub(crate) fn row_at(alloc: Global, tree: &ArrayRef, row: u64) -> VortexResult<Scalar> {
    scalar_at(tree, row, &mut context(alloc)?)
}

// Whether the rows print as these texts, in a column of this nullability.
pub(crate) fn prints(
    alloc: Global,
    tree: &ArrayRef,
    nullability: Nullability,
    rows: &[&str],
) -> VortexResult<bool> {
    if tree.len() != rows.len() as u64 || tree.dtype().nullability() != nullability {
        return Ok(false);
    }
    for row in 0..rows.len() {
        let text = row_at(alloc, tree, row as u64)?.json(alloc)?;
        if text.as_str() != rows[row] {
            return Ok(false);
        }
    }
    Ok(true)
}

// Whether a call was refused for this.
pub(crate) fn is_refused<T: Drop>(answer: VortexResult<T>, refusal: VortexError) -> bool {
    match answer {
        Ok(_) => false,
        Err(error) => error == refusal,
    }
}
