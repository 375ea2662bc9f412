//! Tests of sparse arrays: how they are made, their data, and columns encoded as one.
#![tactic(auto)]

#[cfg(test)]
mod data;
#[cfg(test)]
mod encode;
#[cfg(test)]
mod making;
#[cfg(test)]
mod reading;
