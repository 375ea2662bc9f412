//! Flat columns of truth values, integers, texts and binaries, with their validity, and the kernels over them.
#![tactic(auto)]

pub mod bits;
pub mod byte_rows;
mod decoded;
mod ints;
mod patch_rows;
mod run_rows;
mod validity;
mod values;

pub use decoded::{Decoded, behind};
pub use ints::{Ints, known_bytes, packed_size, summed_in, valid_codes};
pub use validity::{
    copy_validity, gathered_validity, has_length, is_allowed, is_valid, keep, validity_in_runs,
    validity_with_patches,
};
pub use values::Values;
