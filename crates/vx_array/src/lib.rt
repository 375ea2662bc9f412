//! Trees of encodings, well formed at each node: constructors, look-ups, sizes, decoding and copies. Whatever recurses into
//! child trees stands here; what a node makes of flat columns, in vx_flat.
#![tactic(auto)]

mod array;
mod arrays;
mod beneath;
mod canonical;
mod copies;
mod defaults;
mod joined_bytes;
mod lent;
mod linear;
mod look_up;
mod nested;
mod node;
mod of_values;
mod parts;
mod patches;
mod plain_rows;
mod reads;
mod sizes;
mod tree_counts;
mod value_at;
mod work;

pub use array::{ArrayRef, Child, Node, Patches};
pub use arrays::Arrays;
pub use node::Made;
pub use vx_flat::counts_fit;
