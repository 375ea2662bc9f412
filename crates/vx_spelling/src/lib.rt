//! Trees in files: the bytes of types, values, scalars, validity, patches, the 23 nodes and lists of trees, and the laws that
//! each list of trees has one file. Definitions, and no code but the laws.
#![tactic(auto)]

mod kinds;
mod laws;

pub use kinds::TypeKind;
pub use laws::{files_are_read_back, no_node_text_begins_another, unlike_lists_have_unlike_files};
