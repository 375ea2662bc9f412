//! The rows of a tree, compared with slices.

use std::alloc::Global;
use vx_array::ArrayRef;
use vx_base::VortexResult;

/// Whether the tree has these integers as its rows, None for null.
pub fn has_rows(array: &ArrayRef, rows: &[Option<i128>]) -> bool {
    if !array.dtype().is_integer() || array.len() != rows.len() as u64 {
        return false;
    }
    for row in 0..rows.len() {
        if array.integer_at(row as u64) != rows[row] {
            return false;
        }
    }
    true
}

/// Whether the tree has these integers as its rows, none of them null.
pub fn has_wholes(array: &ArrayRef, wholes: &[i128]) -> bool {
    if !array.dtype().is_integer() || array.len() != wholes.len() as u64 {
        return false;
    }
    for row in 0..wholes.len() {
        if array.integer_at(row as u64) != Some(wholes[row]) {
            return false;
        }
    }
    true
}

/// Whether a tree has these rows and takes `bytes`, and its decoded copy is plain, has the same rows and takes `plain_bytes`.
pub fn is_made_plain(
    alloc: Global,
    tree: &ArrayRef,
    (bytes, plain_bytes): (u128, u128),
    rows: &[Option<i128>],
) -> VortexResult<bool> {
    let plain = tree.copy(alloc)?.canonical(alloc)?;
    let has_both = has_rows(tree, rows) && has_rows(&plain, rows);
    Ok(has_both && plain.is_plain() && tree.nbytes() == bytes && plain.nbytes() == plain_bytes)
}
