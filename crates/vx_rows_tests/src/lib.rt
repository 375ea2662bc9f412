//! Tests of row functions: each on its types, with nulls, without rows, over encoded rows, and refused.
#![tactic(auto)]

#[cfg(test)]
mod aggregates;
#[cfg(test)]
mod calls;
#[cfg(test)]
mod casts;
#[cfg(test)]
mod columns;
#[cfg(test)]
mod comparisons;
#[cfg(test)]
mod dictionaries;
#[cfg(test)]
mod fills;
#[cfg(test)]
mod patterns;
#[cfg(test)]
mod ranges;
#[cfg(test)]
mod texts;
