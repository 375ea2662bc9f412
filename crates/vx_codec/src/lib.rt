//! Exact binary formats: each value that fits has one spelling, and a reader accepts that one alone.
#![tactic(auto)]

mod bits;
mod bytes;
mod delimited;
mod error;
mod fixed_width;
mod laws;
mod message;
#[cfg(test)]
mod tests;
mod varint;

pub use bits::{put_bits, read_bits};
pub use bytes::{is_end, put_byte, read_byte, read_raw};
pub use delimited::{put_delimited, read_delimited};
pub use error::ReadError;
pub use fixed_width::{put_fixed, read_fixed};
pub use laws::{combinators_keep_laws, fields_make_messages, formats_are_lawful};
pub use message::{put_content, put_number, read_content, read_end, read_number};
pub use varint::{put_varint, read_varint};
