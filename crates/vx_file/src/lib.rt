//! Files of trees: columns that are stored and read back, exactly. A list of storable trees has one file, and the reader
//! accepts that alone.
#![tactic(auto)]

mod error;
mod nesting;
mod reading;
mod storable;
mod writing;

pub use error::FileError;
pub use reading::read_file;
pub use writing::write_file;
