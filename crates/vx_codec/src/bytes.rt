//! Bytes as they stand.

ghost use Rattle.std.specs.Prelude.{◌≡◌, ◌<◌, ◌++◌, ◌∷◌, [], IfOk, OnOk, IsOkUnless};
ghost use Rattle.vx_codec.specs.FixedWidth.{byte_at, raw_at};
ghost use Rattle.vx_codec.specs.Lists.{is_end};
ghost use Rattle.vx_codec.specs.Reads.{Reads};
ghost use Rattle.vx_codec.specs.declared.error.ReadError.TheVariants.{Malformed};

use crate::error::ReadError;
use std::alloc::AllocError;

/// The first byte, and the bytes after it. Malformed exactly where there is none.
pub fn read_byte(bytes: &[u8]) -> Result<(u8, &[u8]), ReadError>
    ensures read { Reads (λ x. (x.0, x.1.now)) result (byte_at bytes.now) }
    ensures small { IfOk result (λ x. x.0 < 256) }
    ensures surely { IsOkUnless result Malformed }
{
    match bytes.split_first() {
        Some((first, rest)) => Ok((*first, rest)),
        None => Err(ReadError::Malformed),
    }
}

/// The first `count` bytes, lent, and the bytes after them. Malformed exactly where fewer are left, which is known before
/// anything is taken: a count that the bytes merely name costs nothing.
pub fn read_raw(bytes: &[u8], count: u64) -> Result<(&[u8], &[u8]), ReadError>
    ensures read { Reads (λ x. (x.0.now, x.1.now)) result (raw_at count bytes.now) }
    ensures surely { IsOkUnless result Malformed }
{
    if (bytes.len() as u64) < count {
        return Err(ReadError::Malformed);
    }
    Ok(bytes.split_at(count as usize))
}

/// Whether no byte is left.
pub fn is_end(bytes: &[u8]) -> bool
    ensures { result ≡ is_end bytes.now }
{
    match bytes.split_first() {
        Some(_) => false,
        None => true,
    }
}

/// Appends a byte.
pub fn put_byte(out: &mut Vec<u8>, byte: u8) -> Result<(), AllocError>
    ensures { OnOk result (out.new.items ≡ out.old.items ++ byte ∷ []) }
{
    out.push(byte)?;
    Ok(())
}
