//! The rows of a tree as JSON.

use std::alloc::Global;
use vx_array::ArrayRef;
use vx_base::VortexResult;

// Whether the rows print as these texts.
pub(crate) fn prints(alloc: Global, tree: &ArrayRef, rows: &[&str]) -> VortexResult<bool> {
    if tree.len() != rows.len() as u64 {
        return Ok(false);
    }
    for row in 0..rows.len() {
        let text = tree.scalar_at(alloc, row as u64)?.json(alloc)?;
        if text.as_str() != rows[row] {
            return Ok(false);
        }
    }
    Ok(true)
}
