//! Readers of nodes without children: null, bool, primitive, varbinview, constant and sequence.

ghost use Rattle.std.specs.Prelude.{◌≡◌};
ghost use Rattle.vx_base.specs.TypeOf.{type_of};
ghost use Rattle.vx_codec.specs.Format.{made_at};
ghost use Rattle.vx_codec.specs.Lists.{delimited, repeated_at};
ghost use Rattle.vx_codec.specs.Reads.{Reads};
ghost use Rattle.vx_file.specs.Made.{checked};
ghost use Rattle.vx_model.specs.Refusals.{kept};
ghost use Rattle.vx_model.specs.Tree.{nulls};
ghost use Rattle.vx_spelling.specs.Fields.{row_count};
ghost use Rattle.vx_spelling.specs.LeafParts.{bool_ok, bool_of, bool_parts, byte_type_of, constant_of, constant_parts, primitive_ok, primitive_of, primitive_parts, sequence_of, sequence_parts, view_ok, view_of, view_parts};
ghost use Rattle.vx_values.specs.IntsOf.{ptype_of, wholes_of};

use super::fields::{
    read_byte_type, read_mask, read_nullability, read_ptype, read_row_count, read_validity,
};
use super::integers::{read_ints, read_wide};
use super::made::{Found, refusal};
use super::values::{read_owned, read_scalar};
use std::alloc::Global;
use vx_array::ArrayRef;
use vx_base::{ByteRows, DType, Mask, Nullability};
use vx_codec::{ReadError, read_varint};
use vx_values::Ints;

/// Nulls: how many.
pub(super) fn read_null(bytes: &[u8]) -> Found<'_>
    ensures { Reads (λ x. (x.0, x.1.now)) result (made_at nulls row_count.parse bytes.now) }
{
    let (len, rest) = read_row_count(bytes)?;
    Ok((ArrayRef::null(len), rest))
}

/// Truth values: nullability, row count, a bit a row, validity.
pub(super) fn read_bool(alloc: Global, bytes: &[u8]) -> Found<'_>
    ensures { Reads (λ x. (x.0, x.1.now)) result (made_at bool_of bool_parts.parse bytes.now) }
{
    let (nullability, rest) = read_nullability(bytes)?;
    let (count, rest) = read_varint(rest)?;
    let (values, rest) = read_mask(alloc, rest, count)?;
    let (valid, rest) = read_validity(alloc, rest, values.len())?;
    make_bool(values, valid, nullability, rest)
}

fn make_bool(values: Mask, valid: Option<Mask>, nullability: Nullability, rest: &[u8]) -> Found<'_>
    requires { kept valid ≡ valid }
    ensures { Reads (λ x. (x.0, x.1.now)) result (checked bool_ok bool_of ((nullability, values), valid) rest.now) }
{
    match ArrayRef::bool(values, valid, nullability) {
        Ok(tree) => Ok((tree, rest)),
        Err(refused) => Err(refusal(refused.error)),
    }
}

/// Integers: type, nullability, row count, each integer in the type's width, validity.
pub(super) fn read_primitive(alloc: Global, bytes: &[u8]) -> Found<'_>
    ensures { Reads (λ x. (x.0, x.1.now)) result (made_at primitive_of primitive_parts.parse bytes.now) }
{
    let (ptype, rest) = read_ptype(bytes)?;
    let (nullability, rest) = read_nullability(rest)?;
    let (count, rest) = read_varint(rest)?;
    let (values, rest) = read_ints(alloc, rest, ptype, count)?;
    let (valid, rest) = read_validity(alloc, rest, values.len())?;
    make_primitive(values, valid, nullability, rest)
}

fn make_primitive(
    values: Ints,
    valid: Option<Mask>,
    nullability: Nullability,
    rest: &[u8],
) -> Found<'_>
    requires { kept valid ≡ valid }
    ensures { Reads (λ x. (x.0, x.1.now)) result (checked primitive_ok primitive_of ((ptype_of values, nullability), (wholes_of values, valid)) rest.now) }
{
    match ArrayRef::primitive(values, valid, nullability) {
        Ok(tree) => Ok((tree, rest)),
        Err(refused) => Err(refusal(refused.error)),
    }
}

/// The type of texts or of binaries.
pub(super) fn byte_type(is_text: bool, nullability: Nullability) -> DType
    ensures { type_of result ≡ byte_type_of (is_text, nullability) }
{
    if is_text {
        DType::utf8(nullability)
    } else {
        DType::binary(nullability)
    }
}

// `count` rows of bytes, each behind its length. The list grows with the bytes that are read.
fn read_rows(alloc: Global, bytes: &[u8], count: u64) -> Result<(ByteRows, &[u8]), ReadError>
    ensures { Reads (λ x. (x.0, x.1.now)) result (repeated_at delimited.parse count bytes.now) }
{
    let mut rows = Vec::new(alloc);
    let mut rest = bytes;
    for _ in 0..count {
        let (row, after) = read_owned(alloc, rest)?;
        rows.push(row)?;
        rest = after;
    }
    Ok((ByteRows::from_vec(rows), rest))
}

/// Texts or binaries: type, row count, each row behind its length, validity.
pub(super) fn read_view(alloc: Global, bytes: &[u8]) -> Found<'_>
    ensures { Reads (λ x. (x.0, x.1.now)) result (made_at view_of view_parts.parse bytes.now) }
{
    let ((is_text, nullability), rest) = read_byte_type(bytes)?;
    let (count, rest) = read_varint(rest)?;
    let (values, rest) = read_rows(alloc, rest, count)?;
    let (valid, rest) = read_validity(alloc, rest, values.len())?;
    make_view(values, valid, (is_text, nullability), rest)
}

fn make_view(
    values: ByteRows,
    valid: Option<Mask>,
    own_type: (bool, Nullability),
    rest: &[u8],
) -> Found<'_>
    requires { kept valid ≡ valid }
    ensures { Reads (λ x. (x.0, x.1.now)) result (checked view_ok view_of (own_type, (values, valid)) rest.now) }
{
    let (is_text, nullability) = own_type;
    match ArrayRef::var_bin_view(values, valid, byte_type(is_text, nullability)) {
        Ok(tree) => Ok((tree, rest)),
        Err(refused) => Err(refusal(refused.error)),
    }
}

/// One scalar in each row: row count, scalar.
pub(super) fn read_constant(alloc: Global, bytes: &[u8]) -> Found<'_>
    ensures { Reads (λ x. (x.0, x.1.now)) result (made_at constant_of constant_parts.parse bytes.now) }
{
    let (len, rest) = read_row_count(bytes)?;
    let (value, rest) = read_scalar(alloc, rest)?;
    Ok((ArrayRef::constant(value, len), rest))
}

/// An arithmetic sequence: type, nullability, first row and step in 16 bytes each, row count.
pub(super) fn read_sequence(bytes: &[u8]) -> Found<'_>
    ensures { Reads (λ x. (x.0, x.1.now)) result (made_at sequence_of sequence_parts.parse bytes.now) }
{
    let (ptype, rest) = read_ptype(bytes)?;
    let (nullability, rest) = read_nullability(rest)?;
    let (first, rest) = read_wide(rest)?;
    let (step, rest) = read_wide(rest)?;
    let (len, rest) = read_row_count(rest)?;
    match ArrayRef::sequence(ptype, nullability, first, step, len) {
        Ok(tree) => Ok((tree, rest)),
        Err(error) => Err(refusal(error)),
    }
}
