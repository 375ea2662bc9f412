//! Types and scalars of truth values, texts, binaries and timestamps: each call, once.

use std::alloc::Global;
use std::test::Fail;
use vx_base::Nullability::{NonNullable, Nullable};
use vx_base::PType::{I32, U8};
use vx_base::{
    Bytes, Cell, DType, Scalar, Text, TimeUnit, TimestampType, Value, VortexError, VortexResult,
};

fn text(alloc: Global, text: &str) -> VortexResult<Text> {
    Ok(Text::from_string(String::from_str(alloc, text)?))
}

// Milliseconds in UTC.
fn zoned(alloc: Global) -> Result<TimestampType, Fail> {
    let zone = Some(text(alloc, "UTC")?);
    match TimestampType::new(TimeUnit::Milliseconds, zone) {
        Ok(kind) => Ok(kind),
        Err(_) => Err(Fail::from("milliseconds")),
    }
}

#[test]
fn days_are_no_unit_of_timestamps(rt: HostRuntime) -> Result<(), Fail> {
    let Err(refused) = TimestampType::new(TimeUnit::Days, None) else {
        return Err(Fail::from("timestamps in days"));
    };
    assert!(rt; matches!(refused.error, VortexError::DayUnit) && refused.inputs.is_none());
    Ok(())
}

#[test]
fn types_are_copied_with_their_zone(rt: HostRuntime) -> Result<(), Fail> {
    let dtype = DType::timestamp(zoned(rt.alloc())?, NonNullable);
    let copy = dtype.with_nullability(rt.alloc(), Nullable)?;
    let texts = DType::utf8(Nullable).copy(rt.alloc())?;
    let shown = format!(in rt.alloc(); "{dtype} {copy} {texts}")?;
    assert_eq!(rt;
        shown.as_str(),
        "timestamp ms<UTC> timestamp ms<UTC>? text?"
    );
    assert!(rt; dtype.same_base(&copy) && dtype != copy);
    Ok(())
}

// Whether a scalar and its copy have this JSON.
fn is_json(alloc: Global, scalar: &Scalar, text: &str) -> VortexResult<bool> {
    let own = scalar.json(alloc)?;
    let copy = scalar.copy(alloc)?.json(alloc)?;
    Ok(own.as_str() == text && copy.as_str() == text)
}

#[test]
fn texts_are_compact_json(rt: HostRuntime) -> Result<(), Fail> {
    let a = Scalar::text(text(rt.alloc(), "a")?, NonNullable)
        .ok()
        .ok_or("a text")?;
    assert!(rt; is_json(rt.alloc(), &a, "\"a\"")?);
    Ok(())
}

#[test]
fn binaries_are_compact_json(rt: HostRuntime) -> Result<(), Fail> {
    let bytes = Bytes::from_vec(Vec::from_slice(rt.alloc(), &[171, 5])?);
    let digits = Scalar::binary(bytes, Nullable).ok().ok_or("two bytes")?;
    assert!(rt; is_json(rt.alloc(), &digits, "\"ab05\"")?);
    Ok(())
}

#[test]
fn moments_and_truth_are_compact_json(rt: HostRuntime) -> Result<(), Fail> {
    let early = Scalar::timestamp(-1, zoned(rt.alloc())?, NonNullable);
    assert!(rt; is_json(rt.alloc(), &early, "-1")?);
    assert!(rt; is_json(rt.alloc(), &Scalar::bool(true, Nullable), "true")?);
    Ok(())
}

#[test]
fn a_value_of_another_type_is_refused(rt: HostRuntime) -> Result<(), Fail> {
    let Err(refused) = Scalar::new(DType::bool(NonNullable), Value::Int(1)) else {
        return Err(Fail::from("1 of bool"));
    };
    assert!(rt; matches!(refused.error, VortexError::MismatchedTypes));
    assert!(rt; Scalar::null(DType::primitive(U8, NonNullable)).is_err());
    let seven = Scalar::primitive(7, U8, NonNullable)?;
    let cast = seven.cast(rt.alloc(), &DType::utf8(NonNullable));
    assert!(rt; matches!(cast, Err(VortexError::MismatchedTypes)));
    let number = Scalar::primitive(300, I32, NonNullable)?;
    let cast = number.cast(rt.alloc(), &DType::primitive(U8, NonNullable));
    assert!(rt; matches!(cast, Err(VortexError::CastRefused)));
    Ok(())
}

#[test]
fn bytes_become_nullable_by_a_cast(rt: HostRuntime) -> Result<(), Fail> {
    let a = Scalar::of_cell(rt.alloc(), &DType::binary(NonNullable), Cell::Bytes(b"a"))?;
    let cast = a.cast(rt.alloc(), &DType::binary(Nullable))?;
    assert!(rt; cast.value() == a.value() && cast != a);
    let none = Scalar::default_value(rt.alloc(), &DType::utf8(NonNullable))?;
    assert_eq!(rt; none.json(rt.alloc())?.as_str(), "\"\"");
    Ok(())
}
