//! The row functions that choose rows by position, over any tree: slice, filter, mask, take, and a single row. Each answers,
//! or refuses, as its rule in vx_rules does on the tree's type and rows; the encoding of the answer is free.
//!
//! Flat columns that a tree stores are read where they stand, by kernels in linear time; encoded ones are decoded first, but
//! for slices and filters of constants and dictionaries, slices of sequences, and rows taken from dictionaries. Nested columns
//! go by pieces, or, under a mask, by the validity of the plain root alone.
#![tactic(auto)]

mod by_pieces;
mod few_rows;
mod filters;
mod masks;
mod over_values;
mod single;
mod slices;
mod stamps;
mod takes;

pub use filters::filter;
pub use masks::mask;
pub use single::scalar_at;
pub use slices::slice;
pub use takes::take;
