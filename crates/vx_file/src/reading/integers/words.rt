//! Words of 1, 2, 4 and 8 bytes, little-endian, each loaded at once: byte by byte, a column takes twelve times as long as a copy
//! of its bytes.

ghost use Rattle.std.specs.Prelude.{◌<◌, ◌^◌, IfOk};
ghost use Rattle.vx_base.specs.Integers.{bits_of, bytes_of};
ghost use Rattle.vx_codec.specs.FixedWidth.{little_endian_at};
ghost use Rattle.vx_codec.specs.Reads.{Reads};

use vx_base::PType;
use vx_codec::{ReadError, read_byte};

#[inline(always)]
fn read_one(bytes: &[u8]) -> Result<(u64, &[u8]), ReadError>
    ensures read { Reads (λ x. (x.0, x.1.now)) result (little_endian_at 1 bytes.now) }
    ensures small { IfOk result (λ x. x.0 < 2 ^ 8) }
{
    let (byte, rest) = read_byte(bytes)?;
    Ok((u64::from(byte), rest))
}

#[inline(always)]
fn read_two(bytes: &[u8]) -> Result<(u64, &[u8]), ReadError>
    ensures read { Reads (λ x. (x.0, x.1.now)) result (little_endian_at 2 bytes.now) }
    ensures small { IfOk result (λ x. x.0 < 2 ^ 16) }
{
    match bytes.split_first_chunk::<2>() {
        Some((word, rest)) => Ok((u64::from(u16::from_le_bytes(*word)), rest)),
        None => Err(ReadError::Malformed),
    }
}

#[inline(always)]
fn read_four(bytes: &[u8]) -> Result<(u64, &[u8]), ReadError>
    ensures read { Reads (λ x. (x.0, x.1.now)) result (little_endian_at 4 bytes.now) }
    ensures small { IfOk result (λ x. x.0 < 2 ^ 32) }
{
    match bytes.split_first_chunk::<4>() {
        Some((word, rest)) => Ok((u64::from(u32::from_le_bytes(*word)), rest)),
        None => Err(ReadError::Malformed),
    }
}

#[inline(always)]
fn read_eight(bytes: &[u8]) -> Result<(u64, &[u8]), ReadError>
    ensures read { Reads (λ x. (x.0, x.1.now)) result (little_endian_at 8 bytes.now) }
    ensures small { IfOk result (λ x. x.0 < 2 ^ 64) }
{
    match bytes.split_first_chunk::<8>() {
        Some((word, rest)) => Ok((u64::from_le_bytes(*word), rest)),
        None => Err(ReadError::Malformed),
    }
}

/// The two's complement of an integer of a type, in the type's width.
#[inline(always)]
pub(super) fn read_word(bytes: &[u8], ptype: PType) -> Result<(u64, &[u8]), ReadError>
    ensures read { Reads (λ x. (x.0, x.1.now)) result (little_endian_at (bytes_of ptype) bytes.now) }
    ensures small { IfOk result (λ x. x.0 < 2 ^ bits_of ptype) }
{
    match ptype {
        PType::U8 | PType::I8 => read_one(bytes),
        PType::U16 | PType::I16 => read_two(bytes),
        PType::U32 | PType::I32 => read_four(bytes),
        PType::U64 | PType::I64 => read_eight(bytes),
    }
}
