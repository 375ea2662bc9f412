//! Runs the commands of a document on a tree: operations replace it, and each query prints a line of JSON.
#![tactic(auto)]

mod answers;
mod applying;
mod asking;
mod chains;
mod lines;
mod parts_roots;
mod reading;
mod rooted;
mod running;
mod sparse_roots;
mod steps;

pub use applying::apply;
pub use asking::ask;
pub use chains::apply_all;
pub use running::query_lines;
pub use steps::{RowAnswer, RowOp, RowQuery};
