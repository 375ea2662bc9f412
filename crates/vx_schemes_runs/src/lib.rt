//! The schemes of integers that go by neighbouring rows or by one frequent value: run ends, runs in blocks, sequences, delta
//! and sparse.
#![tactic(auto)]

mod integer;
mod thresholds;

pub use integer::{DeltaScheme, IntRLEScheme, RunEndScheme, SequenceScheme, SparseScheme};
