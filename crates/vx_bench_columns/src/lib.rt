//! What the bench programs share: random rows, columns of them, digests, and the processor time of a call.
#![tactic(auto)]

mod columns;
mod listed;
mod parts;
mod rows;
mod timing;
mod trees;

pub use columns::{WIDE, column, each_tenth_null, random, scalar, steps, validity};
pub use listed::{Listed, column_of};
pub use parts::stamps;
pub use rows::{DIGEST_FACTOR, digest, ramp, repeated, values};
pub use timing::best_of;
pub use trees::{codes, dict, row_dict, texts};
