//! Schemes of integers, each of which makes a tree of a column: bit packing, zigzag, frames of reference and dictionaries.
//! Those that go by neighbouring rows stand in vx_schemes_runs; what both share, in vx_schemes_common.
#![tactic(auto)]

mod extremes;
mod integer;
mod patches;

pub use extremes::least_value;
pub use integer::{
    BitPackingScheme, FoRScheme, IntDictScheme, ZigZagScheme, differences, framed,
    integer_dictionary_encode,
};
pub use patches::compress_patches;
