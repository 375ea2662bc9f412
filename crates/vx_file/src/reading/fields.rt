//! Readers of the small fields: truth values, nullability, integer types, names, row counts and validity.

ghost use Rattle.std.specs.Prelude.{◌≡◌, IfOk, MatchOption, true, false};
ghost use Rattle.std.specs.Str.{is_utf8};
ghost use Rattle.vx_codec.specs.Bits.{bits};
ghost use Rattle.vx_codec.specs.FixedWidth.{enumerated};
ghost use Rattle.vx_codec.specs.Reads.{Reads};
ghost use Rattle.vx_model.specs.Refusals.{kept};
ghost use Rattle.vx_spelling.specs.Fields.{list_size, name, nullability, ptype, row_count, truth_value, validity};
ghost use Rattle.vx_spelling.specs.LeafParts.{byte_type, text_from, text_number};

use crate::storable::are_few;
use std::alloc::Global;
use vx_base::{Mask, Nullability, PType, Text};
use vx_codec::{ReadError, read_bits, read_byte, read_delimited, read_varint};

/// A truth value: 0 or 1.
pub(super) fn read_truth(bytes: &[u8]) -> Result<(bool, &[u8]), ReadError>
    ensures { Reads (λ x. (x.0, x.1.now)) result (truth_value.parse bytes.now) }
{
    let (number, rest) = read_byte(bytes)?;
    match number {
        0 => Ok((false, rest)),
        1 => Ok((true, rest)),
        _ => Err(ReadError::Malformed),
    }
}

/// Whether null is allowed: 0 or 1.
pub(super) fn read_nullability(bytes: &[u8]) -> Result<(Nullability, &[u8]), ReadError>
    ensures { Reads (λ x. (x.0, x.1.now)) result (nullability.parse bytes.now) }
{
    let (number, rest) = read_byte(bytes)?;
    match number {
        0 => Ok((Nullability::NonNullable, rest)),
        1 => Ok((Nullability::Nullable, rest)),
        _ => Err(ReadError::Malformed),
    }
}

/// An integer type: 0 to 7, unsigned before signed, each by width.
pub(super) fn read_ptype(bytes: &[u8]) -> Result<(PType, &[u8]), ReadError>
    ensures { Reads (λ x. (x.0, x.1.now)) result (ptype.parse bytes.now) }
{
    let (number, rest) = read_byte(bytes)?;
    match number {
        0 => Ok((PType::U8, rest)),
        1 => Ok((PType::U16, rest)),
        2 => Ok((PType::U32, rest)),
        3 => Ok((PType::U64, rest)),
        4 => Ok((PType::I8, rest)),
        5 => Ok((PType::I16, rest)),
        6 => Ok((PType::I32, rest)),
        7 => Ok((PType::I64, rest)),
        _ => Err(ReadError::Malformed),
    }
}

// Whether a type is one of texts: 3 for texts, 4 for binaries.
fn read_is_text(bytes: &[u8]) -> Result<(bool, &[u8]), ReadError>
    ensures { Reads (λ x. (x.0, x.1.now)) result ((enumerated text_number text_from).parse bytes.now) }
{
    let (number, rest) = read_byte(bytes)?;
    match number {
        3 => Ok((true, rest)),
        4 => Ok((false, rest)),
        _ => Err(ReadError::Malformed),
    }
}

/// A type of texts (true) or binaries, and its nullability.
pub(super) fn read_byte_type(bytes: &[u8]) -> Result<((bool, Nullability), &[u8]), ReadError>
    ensures { Reads (λ x. (x.0, x.1.now)) result (byte_type.parse bytes.now) }
{
    let (is_text, rest) = read_is_text(bytes)?;
    let (nullability, rest) = read_nullability(rest)?;
    Ok(((is_text, nullability), rest))
}

// The bytes as a text, None where they aren't UTF-8.
fn as_text(bytes: &[u8]) -> Option<&str>
    ensures { MatchOption result (is_utf8 bytes.now ≡ false) (λ text. (text.now ≡ bytes.now) × (is_utf8 bytes.now ≡ true)) }
{
    match str::from_utf8(bytes) {
        Ok(text) => Some(text),
        Err(_) => None,
    }
}

/// A name, which is UTF-8, behind its length.
pub(super) fn read_name(alloc: Global, bytes: &[u8]) -> Result<(Text, &[u8]), ReadError>
    ensures { Reads (λ x. (x.0, x.1.now)) result (name.parse bytes.now) }
{
    let (name, rest) = read_delimited(bytes)?;
    match as_text(name) {
        Some(text) => Ok((Text::from_string(String::from_str(alloc, text)?), rest)),
        None => Err(ReadError::Malformed),
    }
}

/// The row count of a node that names it: at most the row limit.
pub(super) fn read_row_count(bytes: &[u8]) -> Result<(u64, &[u8]), ReadError>
    ensures { Reads (λ x. (x.0, x.1.now)) result (row_count.parse bytes.now) }
{
    let (rows, rest) = read_varint(bytes)?;
    if !are_few(rows) {
        return Err(ReadError::Malformed);
    }
    Ok((rows, rest))
}

/// The size of lists of one size: below 2^32.
pub(super) fn read_list_size(bytes: &[u8]) -> Result<(u32, &[u8]), ReadError>
    ensures { Reads (λ x. (x.0, x.1.now)) result (list_size.parse bytes.now) }
{
    let (size, rest) = read_varint(bytes)?;
    if size >= 1 << 32 {
        return Err(ReadError::Malformed);
    }
    Ok((size as u32, rest))
}

/// A bit for each of `rows` rows.
pub(super) fn read_mask(alloc: Global, bytes: &[u8], rows: u64) -> Result<(Mask, &[u8]), ReadError>
    ensures { Reads (λ x. (x.0, x.1.now)) result ((bits rows).parse bytes.now) }
{
    let (found, rest) = read_bits(alloc, bytes, rows)?;
    Ok((Mask::from_bits(found), rest))
}

/// The validity of `rows` rows: 0 where each is valid; else 1 and a bit for each, at least one of them false.
pub(super) fn read_validity(
    alloc: Global,
    bytes: &[u8],
    rows: u64,
) -> Result<(Option<Mask>, &[u8]), ReadError>
    ensures read { Reads (λ x. (x.0, x.1.now)) result ((validity rows).parse bytes.now) }
    ensures kept { IfOk result (λ x. kept x.0 ≡ x.0) }
{
    let (flag, rest) = read_byte(bytes)?;
    match flag {
        0 => Ok((None, rest)),
        1 => {
            let (mask, rest) = read_mask(alloc, rest, rows)?;
            if mask.all_true() {
                return Err(ReadError::Malformed);
            }
            Ok((Some(mask), rest))
        }
        _ => Err(ReadError::Malformed),
    }
}
