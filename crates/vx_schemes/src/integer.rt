//! The schemes of integers: a file for each scheme, and beside it a folder with what makes its tree.

mod bit_packing;
mod dictionary;
mod frame_of_reference;
mod zig_zag;

pub use bit_packing::BitPackingScheme;
pub use dictionary::{IntDictScheme, integer_dictionary_encode};
pub use frame_of_reference::{FoRScheme, differences, framed};
pub use zig_zag::ZigZagScheme;
