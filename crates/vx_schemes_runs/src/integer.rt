//! The schemes: a file for each, and beside it a folder with what makes its tree.

mod delta;
mod run_end;
mod run_length;
mod runs;
mod sequence;
mod sparse;

pub use delta::DeltaScheme;
pub use run_end::RunEndScheme;
pub use run_length::IntRLEScheme;
pub use sequence::SequenceScheme;
pub use sparse::SparseScheme;
