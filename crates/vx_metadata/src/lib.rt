//! Messages of three numbers, and how integer types are numbered in them: what the metadata of encodings is made of.
#![tactic(auto)]

mod numbers;
mod ptypes;

pub use numbers::{put_numbers, read_numbers};
pub use ptypes::{ptype_number, ptype_of};
