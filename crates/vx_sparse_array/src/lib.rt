//! Sparse arrays: a fill for most rows, patches for the others, and `encode`, which makes them of any column. The crate above,
//! vx_sparse, has their metadata and exports them.
#![tactic(auto)]

mod array;
mod encode;
mod filled;
mod integers;
mod making;
mod resolved;
mod rows;
mod sparse_data;

pub use array::SparseArray;
pub use encode::Sparse;
pub use integers::patched_rows;
pub use resolved::SparseExt;
pub use rows::rows_at;
pub use sparse_data::SparseData;
