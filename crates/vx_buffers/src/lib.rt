//! Columns from a caller's buffers, and rows written back into them: slices in, plain trees out, and the other way round. Made for
//! callers in other languages, which pass rows as pointers and lengths.
#![tactic(auto)]

mod decoding;
mod given;
mod refusal;
mod rows;
mod timestamps;
mod validity;

pub use decoding::{
    byte_count, decode_bool, decode_bytes, decode_i8, decode_i16, decode_i32, decode_i64,
    decode_timestamps, decode_u8, decode_u16, decode_u32, decode_u64,
};
pub use given::{given_bytes, given_integers, given_truths};
pub use refusal::Refusal;
pub use rows::{hand_out, plain_tree};
pub use timestamps::given_timestamps;
pub use validity::given_validity;
