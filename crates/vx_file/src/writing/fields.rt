//! Writers of the small fields: truth values, nullability, integer types, names, kinds of timestamps and validity.

ghost use Rattle.std.specs.Prelude.{◌≡◌, ◌++◌, OnOk, length};
ghost use Rattle.vx_base.specs.PlainType.{is_text, nullability_of};
ghost use Rattle.vx_base.specs.TypeOf.{type_of};
ghost use Rattle.vx_base.specs.Timestamps.{unit_number};
ghost use Rattle.vx_codec.specs.Bits.{bits};
ghost use Rattle.vx_file.specs.Writing.{valid_text};
ghost use Rattle.vx_spelling.specs.Fields.{name, nullability, ptype, timestamp_kind, truth_value};
ghost use Rattle.vx_spelling.specs.LeafParts.{byte_type};

use std::alloc::AllocError;
use vx_base::{DType, Mask, Nullability, PType, Text, TimeUnit, TimestampType};
use vx_codec::{put_bits, put_byte, put_delimited};

/// Appends a truth value: 1 for true, else 0.
pub(super) fn put_truth(out: &mut Vec<u8>, bit: bool) -> Result<(), AllocError>
    ensures { OnOk result (out.new.items ≡ out.old.items ++ truth_value.spell bit) }
{
    put_byte(out, if bit { 1 } else { 0 })
}

/// Appends 1 where null is allowed, else 0.
pub(super) fn put_nullability(out: &mut Vec<u8>, nulls: Nullability) -> Result<(), AllocError>
    ensures { OnOk result (out.new.items ≡ out.old.items ++ nullability.spell nulls) }
{
    let number = match nulls {
        Nullability::NonNullable => 0,
        Nullability::Nullable => 1,
    };
    put_byte(out, number)
}

/// Appends an integer type: 0 to 7, unsigned before signed, each by width.
pub(super) fn put_ptype(out: &mut Vec<u8>, number: PType) -> Result<(), AllocError>
    ensures { OnOk result (out.new.items ≡ out.old.items ++ ptype.spell number) }
{
    let number = match number {
        PType::U8 => 0,
        PType::U16 => 1,
        PType::U32 => 2,
        PType::U64 => 3,
        PType::I8 => 4,
        PType::I16 => 5,
        PType::I32 => 6,
        PType::I64 => 7,
    };
    put_byte(out, number)
}

/// Appends a type of texts or binaries: 3 or 4, and its nullability.
pub(super) fn put_byte_type(out: &mut Vec<u8>, dtype: &DType) -> Result<(), AllocError>
    ensures { OnOk result (out.new.items ≡ out.old.items ++ byte_type.spell (is_text (type_of dtype.now), nullability_of (type_of dtype.now))) }
{
    let number = match dtype {
        DType::Utf8(_) => 3,
        _ => 4,
    };
    put_byte(out, number)?;
    put_nullability(out, dtype.nullability())
}

/// Appends a name behind its length.
pub(super) fn put_name(out: &mut Vec<u8>, text: &Text) -> Result<(), AllocError>
    ensures { OnOk result (out.new.items ≡ out.old.items ++ name.spell text.now) }
{
    put_delimited(out, text.as_str().as_bytes())
}

/// Appends a kind of timestamps: the unit, and 0, or 1 and the name of the zone.
pub(super) fn put_kind(out: &mut Vec<u8>, kind: &TimestampType) -> Result<(), AllocError>
    ensures { OnOk result (out.new.items ≡ out.old.items ++ timestamp_kind.spell kind.now) }
{
    put_byte(out, unit_number(kind.unit()))?;
    match kind.zone() {
        None => put_byte(out, 0),
        Some(zone) => {
            put_byte(out, 1)?;
            put_name(out, zone)
        }
    }
}

// The number of a unit, which no kind of timestamps has for days.
fn unit_number(unit: TimeUnit) -> u8
    ensures { result ≡ unit_number unit }
{
    match unit {
        TimeUnit::Nanoseconds => 0,
        TimeUnit::Microseconds => 1,
        TimeUnit::Milliseconds => 2,
        TimeUnit::Seconds => 3,
        TimeUnit::Days => 4,
    }
}

/// Appends a bit for each row.
pub(super) fn put_mask(out: &mut Vec<u8>, mask: &Mask) -> Result<(), AllocError>
    ensures { OnOk result (out.new.items ≡ out.old.items ++ (bits (length mask.now)).spell mask.now) }
{
    put_bits(out, mask.as_slice())
}

/// Appends validity: 0 where every row is valid; else 1 and a bit for each row.
pub(super) fn put_validity(out: &mut Vec<u8>, valid: &Option<Mask>) -> Result<(), AllocError>
    ensures { OnOk result (out.new.items ≡ out.old.items ++ valid_text valid.now) }
{
    match valid {
        None => put_byte(out, 0),
        Some(mask) => {
            put_byte(out, 1)?;
            put_mask(out, mask)
        }
    }
}
