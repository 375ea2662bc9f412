//! Bytes behind their length.

ghost use Rattle.std.specs.Prelude.{◌≡◌, ◌++◌, OnOk, IsOkUnless};
ghost use Rattle.vx_codec.specs.Lists.{delimited};
ghost use Rattle.vx_codec.specs.Reads.{Reads};
ghost use Rattle.vx_codec.specs.declared.error.ReadError.TheVariants.{Malformed};

use crate::bytes::read_raw;
use crate::error::ReadError;
use crate::varint::{put_varint, read_varint};
use std::alloc::AllocError;

/// The bytes behind their length as a varint, lent, and the bytes after them. Malformed exactly where there is no such
/// length, or fewer bytes are left.
pub fn read_delimited(bytes: &[u8]) -> Result<(&[u8], &[u8]), ReadError>
    ensures read { Reads (λ x. (x.0.now, x.1.now)) result (delimited.parse bytes.now) }
    ensures surely { IsOkUnless result Malformed }
{
    let (count, rest) = read_varint(bytes)?;
    read_raw(rest, count)
}

/// Appends the length of bytes as a varint, and the bytes.
pub fn put_delimited(out: &mut Vec<u8>, bytes: &[u8]) -> Result<(), AllocError>
    ensures { OnOk result (out.new.items ≡ out.old.items ++ delimited.spell bytes.now) }
{
    put_varint(out, bytes.len() as u64)?;
    out.extend_from_slice(bytes)?;
    Ok(())
}
