//! Varints.

ghost use Rattle.std.specs.Prelude.{◌≡◌, ◌<◌, ◌≤◌, ◌^◌, ◌++◌, IfOk, OnOk, IsOkUnless};
ghost use Rattle.vx_codec.specs.Reads.{Reads};
ghost use Rattle.vx_codec.specs.Varint.{groups, groups_at, varint};
ghost use Rattle.vx_codec.specs.declared.error.ReadError.TheVariants.{Malformed};

use crate::bytes::{put_byte, read_byte};
use crate::error::ReadError;
use std::alloc::AllocError;

// A number in at most `left` groups of seven bits. Ten groups have 70 bits, so that the limit of 64 is tested once, at the end.
#[tactic(auto, using(crate::proofs::NumberLaws::few_groups, crate::proofs::NumberLaws::one_group))]
fn read_groups(bytes: &[u8], left: u8) -> Result<(u128, &[u8]), ReadError>
    requires { left ≤ 10 }
    ensures read { Reads (λ x. (x.0, x.1.now)) result (groups_at left bytes.now) }
    ensures small { IfOk result (λ x. x.0 < 128 ^ left) }
    ensures surely { IsOkUnless result Malformed }
{
    if left == 0 {
        return Err(ReadError::Malformed);
    }
    let (first, rest) = read_byte(bytes)?;
    if first < 128 {
        return Ok((u128::from(first), rest));
    }
    let (high, rest) = read_groups(rest, left - 1)?;
    if high == 0 {
        return Err(ReadError::Malformed);
    }
    Ok((u128::from(first - 128) + 128 * high, rest))
}

/// The varint at the front, and the bytes after it. Malformed exactly where none stands there: the bytes end within it, it
/// is 2^64 or more, or it is overlong, that is, its last byte of several is 0.
pub fn read_varint(bytes: &[u8]) -> Result<(u64, &[u8]), ReadError>
    ensures read { Reads (λ x. (x.0, x.1.now)) result (varint.parse bytes.now) }
    ensures surely { IsOkUnless result Malformed }
{
    let (number, rest) = read_groups(bytes, 10)?;
    if number >= 1 << 64 {
        return Err(ReadError::Malformed);
    }
    Ok((number as u64, rest))
}

#[tactic(auto, using(crate::proofs::NumberLaws::last_group))]
fn put_groups(out: &mut Vec<u8>, number: u64, left: u8) -> Result<(), AllocError>
    ensures { OnOk result (out.new.items ≡ out.old.items ++ groups left number) }
{
    if left == 0 {
        return Ok(());
    }
    if number < 128 {
        put_byte(out, number as u8)?;
        return Ok(());
    }
    put_byte(out, (number % 128) as u8 + 128)?;
    put_groups(out, number / 128, left - 1)?;
    Ok(())
}

/// Appends a number as a varint: a byte below 128, two below 2^14, and at most ten.
pub fn put_varint(out: &mut Vec<u8>, number: u64) -> Result<(), AllocError>
    ensures { OnOk result (out.new.items ≡ out.old.items ++ varint.spell number) }
{
    put_groups(out, number, 10)
}
