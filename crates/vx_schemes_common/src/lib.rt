//! What schemes share: a column's parts and the trees that they become, plain trees of narrow integers, rules of exclusion,
//! and in `specs` and `proofs` the laws of schemes with one part or none.
#![tactic(auto)]

mod bits;
mod dictionaries;
mod exclusions;
mod finishing;
mod narrowed;
mod pairs;
mod single;
mod triples;
mod whole;
mod widths;

pub use bits::mask_of;
pub use dictionaries::dictionary_tree;
pub use exclusions::{excluded, excluded_below, not_in_codes, not_in_values};
pub use finishing::finished_or_kept;
pub use narrowed::{narrowed_numbers, narrowed_rising};
pub use pairs::{pair_of, two_parts};
pub use single::{one_part, only};
pub use triples::{three_parts, triple_of};
pub use whole::whole_tree;
pub use widths::{digits, greatest_of};
