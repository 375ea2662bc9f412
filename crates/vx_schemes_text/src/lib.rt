//! The schemes of texts and binaries: dictionaries of both, sparse texts, and concatenated binaries.
#![tactic(auto)]

mod binary;
mod dictionary;
mod string;
mod views;

pub use binary::{BinaryDictScheme, VarBinScheme};
pub use string::{NullDominatedSparseScheme, StringDictScheme};
