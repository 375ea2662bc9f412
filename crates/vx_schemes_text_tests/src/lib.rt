//! Tests of the schemes of texts and binaries: what each tells of a column worked by hand, and what it makes of it.
#![tactic(auto)]

#[cfg(test)]
mod asking;
#[cfg(test)]
mod dictionaries;
#[cfg(test)]
mod rules;
#[cfg(test)]
mod sparse;
#[cfg(test)]
mod var_bin;
