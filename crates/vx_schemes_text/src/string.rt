//! The schemes of texts: a file for each, and beside it a folder with what makes its tree.

mod dictionary;
mod sparse;

pub use dictionary::StringDictScheme;
pub use sparse::NullDominatedSparseScheme;
