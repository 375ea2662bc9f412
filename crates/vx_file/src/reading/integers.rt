//! Readers of integers: one in the width of its type, and lists of them.

ghost use Rattle.std.specs.Prelude.{◌≡◌, ◌<◌, ◌^◌, pos, map, IfOk, true, false};
ghost use Rattle.vx_base.specs.declared.ptype.PType.TheVariants.{U8};
ghost use Rattle.vx_base.specs.Integers.{bits_of, is_signed};
ghost use Rattle.vx_base.specs.Wrapping.{from_bits};
ghost use Rattle.vx_codec.specs.Lists.{repeated_at};
ghost use Rattle.vx_codec.specs.Reads.{Reads};
ghost use Rattle.vx_spelling.specs.Fields.{integer, wide_integer};
ghost use Rattle.vx_values.specs.IntsOf.{ptype_of, wholes_of};

mod words;

use std::alloc::Global;
use vx_base::{IntList, Integer, PType};
use vx_codec::{ReadError, read_fixed, read_raw};
use vx_values::Ints;
use words::read_word;

/// An integer of a type, in the type's width, as a whole number.
pub(super) fn read_integer(bytes: &[u8], ptype: PType) -> Result<(i128, &[u8]), ReadError>
    ensures { Reads (λ x. (x.0, x.1.now)) result ((integer ptype).parse bytes.now) }
{
    let (bits, rest) = read_word(bytes, ptype)?;
    Ok((whole_of(ptype, bits), rest))
}

// The whole number of a type with this two's complement.
#[tactic(auto, using(crate::proofs::IntegerSteps::low_word))]
fn whole_of(ptype: PType, bits: u64) -> i128
    requires { bits < 2 ^ bits_of ptype }
    ensures { result ≡ from_bits ptype bits }
{
    match ptype {
        PType::U8 => u8::from_low_bits(bits).to_whole(),
        PType::U16 => u16::from_low_bits(bits).to_whole(),
        PType::U32 => u32::from_low_bits(bits).to_whole(),
        PType::U64 => u64::from_low_bits(bits).to_whole(),
        PType::I8 => i8::from_low_bits(bits).to_whole(),
        PType::I16 => i16::from_low_bits(bits).to_whole(),
        PType::I32 => i32::from_low_bits(bits).to_whole(),
        PType::I64 => i64::from_low_bits(bits).to_whole(),
    }
}

/// A whole number of 128 signed bits, in 16 bytes.
pub(super) fn read_wide(bytes: &[u8]) -> Result<(i128, &[u8]), ReadError>
    ensures { Reads (λ x. (x.0, x.1.now)) result (wide_integer.parse bytes.now) }
{
    let (number, rest) = read_fixed(bytes, 16)?;
    Ok((number.cast_signed(), rest))
}

/// `count` integers of a type. The list grows with the bytes that are read.
pub(super) fn read_ints(
    alloc: Global,
    bytes: &[u8],
    ptype: PType,
    count: u64,
) -> Result<(Ints, &[u8]), ReadError>
    ensures read { Reads (λ x. (wholes_of x.0, x.1.now)) result (repeated_at (integer ptype).parse count bytes.now) }
    ensures ptype { IfOk result (λ x. ptype_of x.0 ≡ ptype) }
{
    if ptype.is_unsigned() {
        read_unsigned(alloc, bytes, ptype, count)
    } else {
        read_signed(alloc, bytes, ptype, count)
    }
}

// `read_ints` of an unsigned type.
fn read_unsigned(
    alloc: Global,
    bytes: &[u8],
    ptype: PType,
    count: u64,
) -> Result<(Ints, &[u8]), ReadError>
    requires { is_signed ptype ≡ false }
    ensures read { Reads (λ x. (wholes_of x.0, x.1.now)) result (repeated_at (integer ptype).parse count bytes.now) }
    ensures ptype { IfOk result (λ x. ptype_of x.0 ≡ ptype) }
{
    match ptype {
        PType::U8 => {
            let (items, rest) = read_bytes(alloc, bytes, count)?;
            Ok((Ints::U8(items), rest))
        }
        PType::U16 => {
            let (items, rest) = read_items(alloc, bytes, count)?;
            Ok((Ints::U16(items), rest))
        }
        PType::U32 => {
            let (items, rest) = read_items(alloc, bytes, count)?;
            Ok((Ints::U32(items), rest))
        }
        PType::U64 => {
            let (items, rest) = read_items(alloc, bytes, count)?;
            Ok((Ints::U64(items), rest))
        }
        _ => unreachable!(),
    }
}

// `read_ints` of a signed type.
fn read_signed(
    alloc: Global,
    bytes: &[u8],
    ptype: PType,
    count: u64,
) -> Result<(Ints, &[u8]), ReadError>
    requires { is_signed ptype ≡ true }
    ensures read { Reads (λ x. (wholes_of x.0, x.1.now)) result (repeated_at (integer ptype).parse count bytes.now) }
    ensures ptype { IfOk result (λ x. ptype_of x.0 ≡ ptype) }
{
    match ptype {
        PType::I8 => {
            let (items, rest) = read_items(alloc, bytes, count)?;
            Ok((Ints::I8(items), rest))
        }
        PType::I16 => {
            let (items, rest) = read_items(alloc, bytes, count)?;
            Ok((Ints::I16(items), rest))
        }
        PType::I32 => {
            let (items, rest) = read_items(alloc, bytes, count)?;
            Ok((Ints::I32(items), rest))
        }
        PType::I64 => {
            let (items, rest) = read_items(alloc, bytes, count)?;
            Ok((Ints::I64(items), rest))
        }
        _ => unreachable!(),
    }
}

// `count` unsigned integers of one byte, copied as they stand.
fn read_bytes(alloc: Global, bytes: &[u8], count: u64) -> Result<(IntList<u8>, &[u8]), ReadError>
    ensures { Reads (λ x. (map (λ b. pos b) x.0, x.1.now)) result (repeated_at (integer U8).parse count bytes.now) }
{
    let (items, rest) = read_raw(bytes, count)?;
    Ok((IntList::from_vec(Vec::from_slice(alloc, items)?), rest))
}

// An integer of the type.
#[tactic(auto, using(crate::proofs::IntegerSteps::low_word))]
fn read_item<T: Integer>(bytes: &[u8]) -> Result<(T, &[u8]), ReadError>
    ensures { Reads (λ x. (T.whole x.0, x.1.now)) result ((integer T.kind).parse bytes.now) }
{
    let (bits, rest) = read_word(bytes, T::ptype())?;
    Ok((T::from_low_bits(bits), rest))
}

// `count` integers of the type.
fn read_items<T: Integer>(
    alloc: Global,
    bytes: &[u8],
    count: u64,
) -> Result<(IntList<T>, &[u8]), ReadError>
    ensures { Reads (λ x. (map T.whole x.0, x.1.now)) result (repeated_at (integer T.kind).parse count bytes.now) }
{
    let mut items = Vec::new(alloc);
    let mut rest = bytes;
    for _ in 0..count {
        let (item, after) = read_item::<T>(rest)?;
        items.push(item)?;
        rest = after;
    }
    Ok((IntList::from_vec(items), rest))
}
