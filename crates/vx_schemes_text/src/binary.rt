//! The schemes of binaries: a file for each.

mod dictionary;
mod var_bin;

pub use dictionary::BinaryDictScheme;
pub use var_bin::VarBinScheme;
