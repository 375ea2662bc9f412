//! The compressor over any list of lawful schemes: samples, the choice of a scheme by its score, and the tree of a column.
#![tactic(auto)]

mod bans;
mod by_value;
mod choice;
mod compressor;
mod constant;
mod distinct;
mod eligible;
mod excluded;
mod judging;
mod laws;
mod nested;
mod offsets;
mod root;
mod sampling;
mod site;
mod timestamps;
mod trials;

pub use choice::{Score, best_is_choice};
pub use compressor::{CascadingCompressor, Schemes};
pub use laws::laws_of_compression;
pub use root::{OFFSETS, SIZES};
pub use sampling::{
    SAMPLE_COUNT, SAMPLE_SIZE, laws_of_sampling, partition_indices,
    sample_count_approx_one_percent, stratified_slices,
};
