//! Tests of trees: each node worked by hand, and each call that takes memory once.
#![tactic(auto)]

#[cfg(test)]
mod bit_packed;
#[cfg(test)]
mod blocks;
#[cfg(test)]
mod chunks;
#[cfg(test)]
mod datetime_parts;
#[cfg(test)]
mod dict;
#[cfg(test)]
mod frame_of_reference;
#[cfg(test)]
mod leaves;
#[cfg(test)]
mod lists;
#[cfg(test)]
mod many_rows;
#[cfg(test)]
mod nested;
#[cfg(test)]
mod patches;
#[cfg(test)]
mod printed;
#[cfg(test)]
mod runs;
#[cfg(test)]
mod sparse;
#[cfg(test)]
mod texts;
#[cfg(test)]
mod timestamps;
#[cfg(test)]
mod truths;
#[cfg(test)]
mod zig_zag;
