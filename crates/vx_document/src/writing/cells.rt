//! Values of flat columns and scalars as JSON.

ghost use Rattle.std.specs.Prelude.{◌≡◌, ◌-◌, ◌^◌, IsTrue, IsUtf8, OnOk, length, min, true};
ghost use Rattle.hex.specs.Hex.{encode_lower};
ghost use Rattle.json.specs.Print.{escape_byte, quoted};
ghost use Rattle.vx_base.specs.CellValue.{cell_value};
ghost use Rattle.vx_base.specs.PlainScalar.{fits};
ghost use Rattle.vx_base.specs.PlainType.{is_flat};
ghost use Rattle.vx_base.specs.TypeOf.{type_of};
ghost use Rattle.vx_base.specs.TypeText.{value_text};
ghost use Rattle.vx_document.specs.CappedText.{put};

use crate::writing::capped_text::CappedText;
use itoa::Buffer;
use serde_json::Value as Json;
use std::alloc::{AllocError, Global};
use vx_base::{Cell, DType, Scalar};

// The bytes that a byte of a text takes in a JSON string.
#[tactic(auto, unfolding(json::specs::Print::escape_byte))]
fn escaped_length(byte: u8) -> usize
    ensures { result ≡ length (escape_byte byte) }
{
    match byte {
        b'"' | b'\\' | 8 | 9 | 10 | 12 | 13 => 2,
        0..=31 => 6,
        _ => 1,
    }
}

// The bytes of a JSON string with its quotes. Saturates at 2^64 - 1.
fn quoted_length(inside: &[u8]) -> usize
    ensures { result ≡ min (length (quoted inside.now)) (2 ^ 64 - 1) }
{
    let mut length: usize = 2;
    for byte in inside {
        length = length.saturating_add(escaped_length(*byte));
    }
    length
}

// Appends a JSON string. Its bytes are counted first, so that no string that is too long is made: an escape takes up to six
// bytes.
pub(super) fn push_quoted(
    alloc: Global,
    text: &mut CappedText,
    inside: &str,
) -> Result<(), AllocError>
    ensures { OnOk result (text.new ≡ put text.old (quoted inside.now)) }
{
    if !text.has_room(quoted_length(inside.as_bytes())) {
        text.end();
        return Ok(());
    }
    let string = Json::String(String::from_str(alloc, inside)?).to_string(alloc)?;
    text.push(string.as_str())
}

// Appends a text as a string.
fn push_text(alloc: Global, text: &mut CappedText, bytes: &[u8]) -> Result<(), AllocError>
    requires { IsUtf8 bytes.now }
    ensures { OnOk result (text.new ≡ put text.old (quoted bytes.now)) }
{
    match std::str::from_utf8(bytes) {
        Ok(inside) => push_quoted(alloc, text, inside),
        Err(_) => unreachable!(),
    }
}

// Appends a binary as the string of its hexadecimal digits in lower case, two for each byte.
fn push_binary(alloc: Global, text: &mut CappedText, bytes: &[u8]) -> Result<(), AllocError>
    ensures { OnOk result (text.new ≡ put text.old (quoted (encode_lower bytes.now))) }
{
    if !text.has_room(bytes.len().saturating_mul(2)) {
        text.end();
        return Ok(());
    }
    let digits = hex::encode(alloc, bytes)?;
    push_quoted(alloc, text, digits.as_str())
}

// Appends a row of a flat column.
pub(super) fn push_cell(
    alloc: Global,
    text: &mut CappedText,
    dtype: &DType,
    cell: Cell<'_>,
) -> Result<(), AllocError>
    requires fitting { IsTrue (fits (type_of dtype.now) (cell_value cell)) }
    ensures { OnOk result (text.new ≡ put text.old (value_text (type_of dtype.now) (cell_value cell.entry))) }
{
    match (cell, dtype) {
        (Cell::Null, _) => text.push("null"),
        (Cell::Bool(true), _) => text.push("true"),
        (Cell::Bool(false), _) => text.push("false"),
        (Cell::Int(whole), _) => text.push(Buffer::new().format(whole)),
        (Cell::Bytes(bytes), DType::Utf8(_)) => push_text(alloc, text, bytes),
        (Cell::Bytes(bytes), _) => push_binary(alloc, text, bytes),
    }
}

// Appends the value of a scalar.
pub(super) fn push_scalar(
    alloc: Global,
    text: &mut CappedText,
    scalar: &Scalar,
) -> Result<(), AllocError>
    ensures { OnOk result (text.new ≡ put text.old (value_text scalar.now.dtype scalar.now.value)) }
{
    match scalar.json(alloc) {
        Ok(value) => text.push(value.as_str()),
        Err(_) => Err(AllocError),
    }
}
