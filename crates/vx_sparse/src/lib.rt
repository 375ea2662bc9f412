//! Sparse arrays, their kernels and their metadata; it exports what callers name of vx_sparse_array. The kernels stand here and
//! not there, so that no scheme is proved again for them.
#![tactic(auto)]

mod kernels;
mod laws;
mod metadata;

pub use kernels::SparseKernels;
pub use laws::unlike_metadata_have_unlike_spellings;
pub use metadata::SparseMetadata;
pub use vx_sparse_array::{Sparse, SparseArray, SparseData, SparseExt};
