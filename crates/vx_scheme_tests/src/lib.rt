//! Tests of schemes: statistics of columns worked by hand, and what each shipped scheme tells and makes of them.
#![tactic(auto)]

#[cfg(test)]
mod bit_packing;
#[cfg(test)]
mod bool_statistics;
#[cfg(test)]
mod bundles;
#[cfg(test)]
mod delta;
#[cfg(test)]
mod dictionary_encoding;
#[cfg(test)]
mod frame_of_reference;
#[cfg(test)]
mod int_dict;
#[cfg(test)]
mod no_scheme;
#[cfg(test)]
mod patches;
#[cfg(test)]
mod rules;
#[cfg(test)]
mod run_end;
#[cfg(test)]
mod run_length;
#[cfg(test)]
mod sequence;
#[cfg(test)]
mod shapes;
#[cfg(test)]
mod sparse;
#[cfg(test)]
mod statistics;
#[cfg(test)]
mod string_statistics;
#[cfg(test)]
mod summaries;
#[cfg(test)]
mod zig_zag;
