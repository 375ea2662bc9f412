//! Tests of the scheme of timestamps: what it tells of columns worked by hand, and its parts and trees of them.
#![tactic(auto)]

#[cfg(test)]
mod asking;
#[cfg(test)]
mod splitting;
#[cfg(test)]
mod telling;
