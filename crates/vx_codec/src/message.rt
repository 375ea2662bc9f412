//! Fields of messages.

ghost use Rattle.std.specs.Prelude.{◌≡◌, ◌++◌, ◌∷◌, OnOk, IsOkUnless};
ghost use Rattle.vx_codec.specs.Lists.{delimited};
ghost use Rattle.vx_codec.specs.Message.{content_at, end_at, number_at, number_spell};
ghost use Rattle.vx_codec.specs.Reads.{Reads};
ghost use Rattle.vx_codec.specs.declared.error.ReadError.TheVariants.{Malformed};

use crate::bytes::put_byte;
use crate::delimited::{put_delimited, read_delimited};
use crate::error::ReadError;
use crate::varint::{put_varint, read_varint};
use std::alloc::AllocError;

/// The number of the field with this key, and the bytes after it; 0, with nothing taken, where the field isn't there.
/// Malformed exactly where the key stands before no varint, or before 0, which is spelled by leaving the field out.
pub fn read_number(bytes: &[u8], key: u8) -> Result<(u64, &[u8]), ReadError>
    ensures read { Reads (λ x. (x.0, x.1.now)) result (number_at key bytes.now) }
    ensures surely { IsOkUnless result Malformed }
{
    match bytes.split_first() {
        Some((first, rest)) if *first == key => {
            let (number, rest) = read_varint(rest)?;
            if number == 0 {
                return Err(ReadError::Malformed);
            }
            Ok((number, rest))
        }
        _ => Ok((0, bytes)),
    }
}

/// Appends a number field: its key and the number, or nothing where the number is 0.
pub fn put_number(out: &mut Vec<u8>, key: u8, number: u64) -> Result<(), AllocError>
    ensures { OnOk result (out.new.items ≡ out.old.items ++ number_spell key number) }
{
    if number == 0 {
        return Ok(());
    }
    put_byte(out, key)?;
    put_varint(out, number)?;
    Ok(())
}

/// The bytes of the message within the field with this key, lent, and the bytes after it. Malformed exactly where the key
/// doesn't stand there, or not before length-delimited bytes.
pub fn read_content(bytes: &[u8], key: u8) -> Result<(&[u8], &[u8]), ReadError>
    ensures read { Reads (λ x. (x.0.now, x.1.now)) result (content_at key bytes.now) }
    ensures surely { IsOkUnless result Malformed }
{
    match bytes.split_first() {
        Some((first, rest)) if *first == key => read_delimited(rest),
        _ => Err(ReadError::Malformed),
    }
}

/// Appends a message field: its key, the length of the message within, and its bytes.
pub fn put_content(out: &mut Vec<u8>, key: u8, content: &[u8]) -> Result<(), AllocError>
    ensures { OnOk result (out.new.items ≡ out.old.items ++ key ∷ delimited.spell content.now) }
{
    put_byte(out, key)?;
    put_delimited(out, content)?;
    Ok(())
}

/// Ok exactly where no byte is left, else Malformed.
pub fn read_end(bytes: &[u8]) -> Result<(), ReadError>
    ensures read { Reads (λ x. tt) result (end_at bytes.now) }
    ensures surely { IsOkUnless result Malformed }
{
    match bytes.split_first() {
        Some(_) => Err(ReadError::Malformed),
        None => Ok(()),
    }
}
