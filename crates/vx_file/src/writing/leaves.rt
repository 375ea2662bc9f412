//! Writers of nodes without children, behind their ids.

ghost use Rattle.std.specs.Prelude.{◌≡◌, ◌≤◌, ◌++◌, OnOk, length};
ghost use Rattle.vx_base.specs.PlainType.{is_text, nullability_of};
ghost use Rattle.vx_base.specs.TypeOf.{type_of};
ghost use Rattle.vx_codec.specs.Bits.{bits};
ghost use Rattle.vx_codec.specs.Lists.{counted, delimited, spell_all};
ghost use Rattle.vx_codec.specs.Varint.{varint};
ghost use Rattle.vx_file.specs.Writing.{valid_text};
ghost use Rattle.vx_spelling.specs.Fields.{integer, nullability, ptype};
ghost use Rattle.vx_spelling.specs.LeafParts.{byte_type, constant_parts, sequence_parts};
ghost use Rattle.vx_spelling.specs.TypeSpelling.{type_depth};
ghost use Rattle.vx_values.specs.IntsOf.{ptype_of, wholes_of};

use super::fields::{put_byte_type, put_mask, put_nullability, put_ptype, put_validity};
use super::integers::{put_ints, put_wide};
use super::values::put_scalar;
use std::alloc::AllocError;
use vx_base::{ByteRows, DType, Mask, Nullability, PType, Scalar};
use vx_codec::{put_delimited, put_varint};
use vx_values::Ints;

/// Appends truth values: nullability, row count, a bit a row, validity.
pub(super) fn put_bool(
    out: &mut Vec<u8>,
    values: &Mask,
    valid: &Option<Mask>,
    nulls: Nullability,
) -> Result<(), AllocError>
    ensures { OnOk result (out.new.items ≡ out.old.items ++ ((nullability.spell nulls ++ (varint.spell (length values.now) ++ (bits (length values.now)).spell values.now)) ++ valid_text valid.now)) }
{
    put_nullability(out, nulls)?;
    put_varint(out, values.len())?;
    put_mask(out, values)?;
    put_validity(out, valid)
}

/// Appends integers: type, nullability, row count, each integer in the type's width, validity.
pub(super) fn put_primitive(
    out: &mut Vec<u8>,
    values: &Ints,
    valid: &Option<Mask>,
    nulls: Nullability,
) -> Result<(), AllocError>
    ensures { OnOk result (out.new.items ≡ out.old.items ++ ((ptype.spell (ptype_of values.now) ++ nullability.spell nulls) ++ ((counted (integer (ptype_of values.now))).spell (wholes_of values.now) ++ valid_text valid.now))) }
{
    put_ptype(out, values.ptype())?;
    put_nullability(out, nulls)?;
    put_varint(out, values.len())?;
    put_ints(out, values)?;
    put_validity(out, valid)
}

/// Appends texts or binaries: type, row count, each row behind its length, validity.
pub(super) fn put_view(
    out: &mut Vec<u8>,
    values: &ByteRows,
    valid: &Option<Mask>,
    dtype: &DType,
) -> Result<(), AllocError>
    ensures { OnOk result (out.new.items ≡ out.old.items ++ (byte_type.spell (is_text (type_of dtype.now), nullability_of (type_of dtype.now)) ++ ((counted delimited).spell values.now ++ valid_text valid.now))) }
{
    put_byte_type(out, dtype)?;
    put_varint(out, values.len())?;
    put_rows(out, values)?;
    put_validity(out, valid)
}

fn put_rows(out: &mut Vec<u8>, rows: &ByteRows) -> Result<(), AllocError>
    ensures { OnOk result (out.new.items ≡ out.old.items ++ spell_all delimited.spell rows.now) }
{
    for row in rows.as_slice() {
        put_delimited(out, row.as_slice())?;
    }
    Ok(())
}

/// Appends an arithmetic sequence: type, nullability, first row and step in 16 bytes each, row count.
pub(super) fn put_sequence(
    out: &mut Vec<u8>,
    own_type: (PType, Nullability),
    first: i128,
    step: i128,
    len: u64,
) -> Result<(), AllocError>
    ensures { OnOk result (out.new.items ≡ out.old.items ++ sequence_parts.spell (own_type, ((first, step), len))) }
{
    let (ptype, nullability) = own_type;
    put_ptype(out, ptype)?;
    put_nullability(out, nullability)?;
    put_wide(out, first)?;
    put_wide(out, step)?;
    put_varint(out, len)
}

/// Appends one scalar for all rows: row count, scalar.
pub(super) fn put_constant(out: &mut Vec<u8>, value: &Scalar, len: u64) -> Result<(), AllocError>
    requires { type_depth value.now.dtype ≤ 64 }
    ensures { OnOk result (out.new.items ≡ out.old.items ++ constant_parts.spell (len, (value.now.dtype, value.now.value))) }
{
    put_varint(out, len)?;
    put_scalar(out, value)
}
