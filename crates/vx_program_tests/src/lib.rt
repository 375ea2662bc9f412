//! Tests of the program: what the adapters of std answer where a call of std fails, and whole runs from bytes to bytes.
#![tactic(auto)]

#[cfg(test)]
mod back;
#[cfg(test)]
mod failing;
#[cfg(test)]
mod faults;
#[cfg(test)]
mod forms;
#[cfg(test)]
mod listing;
#[cfg(test)]
mod nested;
#[cfg(test)]
mod refused;
#[cfg(test)]
mod whole;
