//! How a scheme splits a column.

use vx_array::{ArrayRef, Arrays};

/// The answer of `Scheme::split`, the first half of a compression.
#[derive(Drop)]
pub enum Split {
    /// The scheme has no tree for the column, which stays plain.
    Kept,
    /// The tree of the column.
    Finished(ArrayRef),
    /// Plain columns, the children from 0 on. The compressor compresses each, and the scheme joins their trees.
    Parts(Arrays),
}
