//! Rows chosen by position: pieces of flat columns, and the lists of pieces that masks stand for.
#![tactic(auto)]

mod bytes;
mod growing;
mod inner;
mod ints;
mod lists;
mod masks;
mod piece;
mod pieced;
mod spread;
#[cfg(test)]
mod tests;
mod validity;
mod within;

pub use bytes::pieced_bytes;
pub use growing::{add_filled, add_row, add_rows};
pub use inner::fixed_inner_pieces;
pub use ints::pieced_ints;
pub use lists::{list_inner_pieces, pieced_offsets};
pub use masks::{kept_pieces, masked_pieces};
pub use piece::{Piece, total};
pub use pieced::pieced_bits;
pub use spread::{one_row_pieces, spread_pieces};
pub use validity::{are_whole, pieced_validity};
pub use within::valid_pieces;
