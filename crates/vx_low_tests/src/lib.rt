//! Tests of the crates below the trees: texts, scalars, lists, packing, rows filled by runs and patches, the kernels of integers and
//! timestamps in parts.
#![tactic(auto)]

#[cfg(test)]
mod blocks;
#[cfg(test)]
mod bounds;
#[cfg(test)]
mod int_rows;
#[cfg(test)]
mod ints;
#[cfg(test)]
mod lists;
#[cfg(test)]
mod packing;
#[cfg(test)]
mod parts;
#[cfg(test)]
mod placed;
#[cfg(test)]
mod rows;
#[cfg(test)]
mod scalars;
#[cfg(test)]
mod texts;
#[cfg(test)]
mod types;
#[cfg(test)]
mod widths;
