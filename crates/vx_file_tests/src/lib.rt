//! Tests of files: the bytes of each node worked outside, what is refused, and each call that takes memory once.
#![tactic(auto)]

#[cfg(test)]
mod making;
#[cfg(test)]
mod refused;
#[cfg(test)]
mod worked;
