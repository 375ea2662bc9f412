//! Tests of timestamps in parts: single ones, columns, arrays of parts, their row functions, and their metadata.
#![tactic(auto)]

#[cfg(test)]
mod arrays;
#[cfg(test)]
mod choices;
#[cfg(test)]
mod columns;
#[cfg(test)]
mod comparisons;
#[cfg(test)]
mod conversions;
#[cfg(test)]
mod metadata;
#[cfg(test)]
mod orders;
#[cfg(test)]
mod pairs;
#[cfg(test)]
mod parts;
#[cfg(test)]
mod ranges;
#[cfg(test)]
mod single;
