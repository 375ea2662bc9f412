//! Integer kernels over slices: bit packing and unpacking, the cheapest width and the narrowest type, runs, arithmetic
//! sequences and deltas.
#![tactic(auto)]

mod arithmetic;
mod deltas;
mod filling;
mod groups;
mod laws;
mod narrowing;
mod packing;
mod packing_in_blocks;
mod parts;
mod reading;
mod run_ends;
mod runs_in_blocks;
mod sequence;
mod undeltas;
mod unpacking;
mod unpacking_in_blocks;
mod wider;
mod widths;
mod widths_in_blocks;
mod zig_zag;

pub use arithmetic::{difference, greater, item_or, lesser, sum};
pub use deltas::delta_blocks;
pub use groups::GROUP_ROWS;
pub use laws::{
    digits_are_fewest, undelta_gives_back, unpack_blocks_gives_back, unpack_gives_back,
    unzigzag_gives_back,
};
pub use narrowing::narrow_type;
pub use packing::pack;
pub use packing_in_blocks::pack_blocks;
pub use parts::BLOCK_ROWS;
pub use reading::get;
pub use run_ends::runs;
pub use runs_in_blocks::{BlockRuns, block_runs};
pub use sequence::sequence_of;
pub use undeltas::{undelta, undelta_in_place};
pub use unpacking::{unpack, unpack_integers};
pub use unpacking_in_blocks::unpack_blocks;
pub use wider::wide_rows;
pub use widths::{best_width, bit_width_histogram, bit_widths_of_all};
pub use widths_in_blocks::best_widths;
pub use zig_zag::{unzigzag, zigzag};
