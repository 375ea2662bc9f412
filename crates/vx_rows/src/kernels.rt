//! Kernels over slices of one integer type, and over validity bits.

mod blocks;
mod bounds;
mod byte_rows;
mod conversions;
mod fills;
mod holding;
mod pairs;
mod totals;
mod validity;
mod within;

pub(crate) use bounds::{extremes, extremes_of_valid};
pub(crate) use byte_rows::holds_with_bytes;
pub(crate) use conversions::{converted, is_in, lie_in};
pub(crate) use fills::filled_beneath;
pub(crate) use holding::holds_with;
pub(crate) use pairs::holds_between;
pub(crate) use totals::{
    signed_total, signed_total_of_valid, unsigned_total, unsigned_total_of_valid,
};
pub(crate) use validity::{and_bits, both_valid};
pub(crate) use within::holds_within;
