//! Tests of documents and listings: a small document of each type, single rows, the sample words of a seed, each command, lines
//! with a scalar, and columns written as documents.
#![tactic(auto)]

#[cfg(test)]
mod commands;
#[cfg(test)]
mod encodings;
#[cfg(test)]
mod listings;
#[cfg(test)]
mod nested;
#[cfg(test)]
mod other_commands;
#[cfg(test)]
mod reading;
#[cfg(test)]
mod single_rows;
#[cfg(test)]
mod writing;
