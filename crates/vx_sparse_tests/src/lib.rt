//! Tests of sparse arrays: their kernels and their metadata.
#![tactic(auto)]

#[cfg(test)]
mod aggregates;
#[cfg(test)]
mod columns;
#[cfg(test)]
mod comparisons;
#[cfg(test)]
mod conversions;
#[cfg(test)]
mod counted;
#[cfg(test)]
mod metadata;
#[cfg(test)]
mod patterns;
#[cfg(test)]
mod ranges;
#[cfg(test)]
mod rows;
#[cfg(test)]
mod selections;
#[cfg(test)]
mod slices;
