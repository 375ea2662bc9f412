//! Messages of three numbers.

ghost use Rattle.std.specs.Prelude.{◌≡◌, ◌++◌, OnOk, IsOkUnless};
ghost use Rattle.vx_codec.specs.Reads.{Reads};
ghost use Rattle.vx_codec.specs.declared.error.ReadError.TheVariants.{Malformed};
ghost use Rattle.vx_metadata.specs.Numbers.{numbers, three};

use std::alloc::AllocError;
use vx_codec::{ReadError, put_number, read_end, read_number};

// The keys of the number fields 1, 2 and 3.
const FIRST: u8 = 8;

const SECOND: u8 = 16;

const THIRD: u8 = 24;

/// The three numbers of a message, which takes all of the bytes. Malformed exactly where they are no such message.
pub fn read_numbers(bytes: &[u8]) -> Result<(u64, u64, u64), ReadError>
    ensures read { Reads (λ x. three x.0 x.1 x.2) result (numbers.parse bytes.now) }
    ensures surely { IsOkUnless result Malformed }
{
    let (first, rest) = read_number(bytes, FIRST)?;
    let (second, rest) = read_number(rest, SECOND)?;
    let (third, rest) = read_number(rest, THIRD)?;
    read_end(rest)?;
    Ok((first, second, third))
}

/// Appends a message of three numbers.
pub fn put_numbers(out: &mut Vec<u8>, first: u64, second: u64, third: u64) -> Result<(), AllocError>
    ensures { OnOk result (out.new.items ≡ out.old.items ++ numbers.spell (three first second third)) }
{
    put_number(out, FIRST, first)?;
    put_number(out, SECOND, second)?;
    put_number(out, THIRD, third)?;
    Ok(())
}
