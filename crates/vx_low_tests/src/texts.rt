//! Errors, types, ids and values as text.

use std::alloc::Global;
use std::test::Fail;
use vx_base::Nullability::{NonNullable, Nullable};
use vx_base::PType::{I32, I64, U8};
use vx_base::{ArrayId, DType, Scalar, VortexError};

#[test]
fn errors_types_and_ids_show_their_texts(rt: HostRuntime) -> Result<(), Fail> {
    let dtype = DType::primitive(I32, NonNullable);
    let nullable = dtype.with_nullability(rt.alloc(), Nullable)?;
    let copy = nullable.copy(rt.alloc())?;
    let shown = format!(in rt.alloc(); "{dtype} {copy} {}", ArrayId::BitPackedV2)?;
    assert_eq!(rt; shown.as_str(), "i32 i32? vortex.bitpacked.v2");
    Ok(())
}

// Whether Display prints the name of the error.
fn shows_its_name(alloc: Global, error: VortexError) -> Result<bool, Fail> {
    let shown = format!(in alloc; "{error}")?;
    Ok(shown.as_str() == error.name())
}

#[test]
fn each_error_shows_its_name(rt: HostRuntime) -> Result<(), Fail> {
    let errors = [
        VortexError::NoMemory,
        VortexError::TooManyRows,
        VortexError::MismatchedTypes,
        VortexError::LengthMismatch,
        VortexError::OutOfBounds,
        VortexError::IndicesNotAscending,
        VortexError::DayUnit,
        VortexError::DaysOutOfRange,
        VortexError::TimestampOutOfRange,
        VortexError::PartsNotCanonical,
        VortexError::CastRefused,
        VortexError::ValueTooLong,
        VortexError::DuplicateScheme,
        VortexError::BadMetadata,
    ];
    for error in errors {
        assert!(rt; shows_its_name(rt.alloc(), error)?);
    }
    Ok(())
}

#[test]
fn values_are_compact_json(rt: HostRuntime) -> Result<(), Fail> {
    let least = Scalar::primitive(i128::from(i64::MIN), I64, NonNullable)?;
    assert_eq!(rt; least.json(rt.alloc())?.as_str(), "-9223372036854775808");
    let null = Scalar::default_value(rt.alloc(), &DType::primitive(U8, Nullable))?;
    assert_eq!(rt; null.json(rt.alloc())?.as_str(), "null");
    Ok(())
}
