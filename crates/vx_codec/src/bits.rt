//! Truth values as bits.

ghost use Rattle.std.specs.Prelude.{◌≡◌, ◌<◌, ◌≤◌, ◌^◌, ◌++◌, length, OnOk, IsOkUnless, nat_lt};
ghost use Rattle.vx_codec.specs.Bits.{number_bits, bits_number, bits};
ghost use Rattle.vx_codec.specs.Reads.{Reads};
ghost use Rattle.vx_codec.specs.declared.error.ReadError.TheVariants.{NoMemory};

use crate::bytes::{put_byte, read_byte};
use crate::error::ReadError;
use std::alloc::{AllocError, Global};

// Appends the low `count` bits of a number.
fn push_bits(found: &mut Vec<bool>, number: u8, count: u8) -> Result<(), ReadError>
    ensures kept { OnOk result (found.new.items ≡ found.old.items ++ number_bits count number) }
    ensures memory { IsOkUnless result NoMemory }
{
    if count == 0 {
        return Ok(());
    }
    found.push(number % 2 == 1)?;
    push_bits(found, number / 2, count - 1)?;
    Ok(())
}

// Whether every bit of a byte from `width` on is 0.
fn is_within(byte: u8, width: u8) -> bool
    requires { width ≤ 8 }
    ensures { result ≡ nat_lt byte (2 ^ width) }
{
    u16::from(byte) < 1 << width
}

/// The first `count` bits, and the bytes after them: a byte for eight, the first bit lowest. Malformed exactly where fewer
/// bytes are left, or a bit of the last byte behind them isn't 0. The list grows with the bytes that are read.
pub fn read_bits(alloc: Global, bytes: &[u8], count: u64) -> Result<(Vec<bool>, &[u8]), ReadError>
    ensures { Reads (λ x. (x.0.items, x.1.now)) result ((bits count).parse bytes.now) }
{
    let mut found = Vec::new(alloc);
    let mut left = count;
    let mut rest = bytes;
    for _ in 0..count.div_ceil(8) {
        let (byte, after) = read_byte(rest)?;
        let width = left.min(8) as u8;
        if !is_within(byte, width) {
            return Err(ReadError::Malformed);
        }
        push_bits(&mut found, byte, width)?;
        left -= u64::from(width);
        rest = after;
    }
    Ok((found, rest))
}

// The number with these bits, the first one lowest.
fn bits_number(bits: &[bool]) -> u8
    requires { length bits.now ≤ 8 }
    ensures is { result ≡ bits_number bits.now }
    ensures small { result < 2 ^ length bits.now }
{
    match bits.split_first() {
        Some((first, rest)) => {
            let high = bits_number(rest);
            u8::from(*first) + 2 * high
        }
        None => 0,
    }
}

/// Appends truth values as bits, eight to a byte, the first one lowest, with zeros up to the last byte's end.
pub fn put_bits(out: &mut Vec<u8>, all: &[bool]) -> Result<(), AllocError>
    ensures { OnOk result (out.new.items ≡ out.old.items ++ (bits (length all.now)).spell all.now) }
{
    let mut rest = all;
    for _ in 0..all.len().div_ceil(8) {
        let (front, after) = rest.split_at(rest.len().min(8));
        put_byte(out, bits_number(front))?;
        rest = after;
    }
    Ok(())
}
