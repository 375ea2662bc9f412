//! Tests of slice, filter, mask, take and single rows: each function on every type, and each refusal.
#![tactic(auto)]

#[cfg(test)]
mod filters;
#[cfg(test)]
mod masks;
#[cfg(test)]
mod printed;
#[cfg(test)]
mod slices;
#[cfg(test)]
mod takes;
#[cfg(test)]
mod trees;
