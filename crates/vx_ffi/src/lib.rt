//! The library for C: handles to trees that C holds and frees, over slices that cross as pointer and length. A call answers a
//! status, 0 where it is done; each clause `status` says which one is due, and where a call is refused, its handles and buffers
//! are as they were.
#![tactic(auto)]

mod compress_rows;
mod compress_signed;
mod compress_unsigned;
mod compressed;
mod decode_rows;
mod decode_signed;
mod decode_unsigned;
mod failure;
mod files;
mod handing;
mod held;
mod parts;
mod reading;
mod storing;
mod texts;
mod tree;

pub use compress_rows::{
    nuvaike_compress_binary, nuvaike_compress_bool, nuvaike_compress_text,
    nuvaike_compress_timestamp,
};
pub use compress_signed::{
    nuvaike_compress_i8, nuvaike_compress_i16, nuvaike_compress_i32, nuvaike_compress_i64,
};
pub use compress_unsigned::{
    nuvaike_compress_u8, nuvaike_compress_u16, nuvaike_compress_u32, nuvaike_compress_u64,
};
pub use decode_rows::{
    nuvaike_byte_count, nuvaike_decode_bool, nuvaike_decode_bytes, nuvaike_decode_timestamp,
};
pub use decode_signed::{
    nuvaike_decode_i8, nuvaike_decode_i16, nuvaike_decode_i32, nuvaike_decode_i64,
};
pub use decode_unsigned::{
    nuvaike_decode_u8, nuvaike_decode_u16, nuvaike_decode_u32, nuvaike_decode_u64,
};
pub use failure::Failure;
pub use held::Held;
pub use parts::Parts;
pub use reading::{
    nuvaike_free, nuvaike_listing, nuvaike_nbytes, nuvaike_plain, nuvaike_rows, nuvaike_type,
};
pub use storing::{nuvaike_open, nuvaike_store};
pub use tree::TreeHandle;
