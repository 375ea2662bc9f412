//! Tests of columns from a caller's buffers: each call once on small columns worked by hand, since a body that always gives up
//! with want of memory meets its contract.
#![tactic(auto)]

#[cfg(test)]
mod bitmaps;
#[cfg(test)]
mod columns;
#[cfg(test)]
mod kinds;
#[cfg(test)]
mod refused;
#[cfg(test)]
mod signed;
#[cfg(test)]
mod unsigned;
