//! Little-endian numbers of a fixed width.

ghost use Rattle.std.specs.Prelude.{◌≡◌, ◌<◌, ◌≤◌, ◌^◌, ◌++◌, IfOk, OnOk, IsOkUnless};
ghost use Rattle.vx_codec.specs.FixedWidth.{little_endian, little_endian_at};
ghost use Rattle.vx_codec.specs.Reads.{Reads};
ghost use Rattle.vx_codec.specs.declared.error.ReadError.TheVariants.{Malformed};

use crate::bytes::{put_byte, read_byte};
use crate::error::ReadError;
use std::alloc::AllocError;

/// The number in the first `width` bytes, little-endian, and the bytes after them. Malformed exactly where fewer are left.
#[tactic(auto, using(crate::proofs::NumberLaws::byte_more, crate::proofs::NumberLaws::few_bytes))]
pub fn read_fixed(bytes: &[u8], width: u8) -> Result<(u128, &[u8]), ReadError>
    requires { width ≤ 16 }
    ensures read { Reads (λ x. (x.0, x.1.now)) result (little_endian_at width bytes.now) }
    ensures small { IfOk result (λ x. x.0 < 256 ^ width) }
    ensures surely { IsOkUnless result Malformed }
{
    if width == 0 {
        return Ok((0, bytes));
    }
    let (first, rest) = read_byte(bytes)?;
    let (high, rest) = read_fixed(rest, width - 1)?;
    Ok((u128::from(first) + 256 * high, rest))
}

/// Appends the low `width` bytes of a number, little-endian.
#[tactic(auto, using(crate::proofs::NumberLaws::more_bytes))]
pub fn put_fixed(out: &mut Vec<u8>, number: u128, width: u8) -> Result<(), AllocError>
    ensures { OnOk result (out.new.items ≡ out.old.items ++ little_endian width number) }
{
    if width == 0 {
        return Ok(());
    }
    put_byte(out, (number % 256) as u8)?;
    put_fixed(out, number / 256, width - 1)?;
    Ok(())
}
