//! The scheme of timestamps: days, seconds and subseconds.
#![tactic(auto)]

mod temporal;

pub use temporal::TemporalScheme;
