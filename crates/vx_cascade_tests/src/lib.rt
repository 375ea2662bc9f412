//! Tests of the cascade: samples, children, the shipped compressor, and schemes of a caller's own.
#![tactic(auto)]

#[cfg(test)]
mod alone;
#[cfg(test)]
mod children;
#[cfg(test)]
mod comparing;
#[cfg(test)]
mod joined_texts;
#[cfg(test)]
mod nested;
#[cfg(test)]
mod own_schemes;
#[cfg(test)]
mod owned;
#[cfg(test)]
mod quick_packing;
#[cfg(test)]
mod runs_in_blocks;
#[cfg(test)]
mod sampling;
#[cfg(test)]
mod shipped;
#[cfg(test)]
mod span_frame;
#[cfg(test)]
mod texts;
#[cfg(test)]
mod there_and_back;
#[cfg(test)]
mod timestamps;
#[cfg(test)]
mod whole;
