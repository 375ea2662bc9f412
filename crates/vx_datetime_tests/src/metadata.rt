//! Metadata of timestamps in parts: worked bytes, and all short texts over five bytes beside those that a reader written apart
//! accepts.

use std::alloc::Global;
use std::test::Fail;
use vx_base::Nullability::NonNullable;
use vx_base::PType::{I16, I64, U8, U32};
use vx_base::TimeUnit::Seconds;
use vx_base::{Bytes, DType, VortexError, VortexResult};
use vx_datetime::{DateTimeParts, DateTimePartsMetadata};
use vx_fixtures::{accepted, flat, utc};

fn by_numbers(numbers: (i32, i32, i32)) -> DateTimePartsMetadata {
    let (days_ptype, seconds_ptype, subseconds_ptype) = numbers;
    DateTimePartsMetadata {
        days_ptype,
        seconds_ptype,
        subseconds_ptype,
    }
}

fn numbers_of(metadata: &DateTimePartsMetadata) -> (i32, i32, i32) {
    (
        metadata.days_ptype,
        metadata.seconds_ptype,
        metadata.subseconds_ptype,
    )
}

// The numbers that bytes spell, None where they are refused as no metadata.
fn read(alloc: Global, bytes: &[u8], children: u64) -> VortexResult<Option<(i32, i32, i32)>> {
    let bytes = Bytes::from_vec(Vec::from_slice(alloc, bytes)?);
    match DateTimePartsMetadata::deserialize(&bytes, children) {
        Ok(metadata) => Ok(Some(numbers_of(&metadata))),
        Err(VortexError::BadMetadata) => Ok(None),
        Err(other) => Err(other),
    }
}

#[test]
fn worked_metadata_have_their_bytes(rt: HostRuntime) -> Result<(), Fail> {
    let table: [((i32, i32, i32), &[u8]); 3] = [
        ((7, 7, 7), &[0x08, 0x07, 0x10, 0x07, 0x18, 0x07]),
        ((0, 0, 0), &[]),
        ((0, 6, 0), &[0x10, 0x06]),
    ];
    for (numbers, bytes) in table {
        let spelled = by_numbers(numbers).serialize(rt.alloc())?;
        assert_eq!(rt; spelled.as_slice(), bytes);
        assert_eq!(rt; read(rt.alloc(), bytes, 3)?, Some(numbers));
        assert_eq!(rt; read(rt.alloc(), bytes, 2)?, None);
        assert_eq!(rt; read(rt.alloc(), bytes, 4)?, None);
    }
    Ok(())
}

#[test]
fn numbers_of_no_type_are_refused(rt: HostRuntime) -> Result<(), Fail> {
    for numbers in [(8, 0, 0), (0, -1, 0), (0, 0, i32::MAX)] {
        let refused = by_numbers(numbers).serialize(rt.alloc());
        assert!(rt; matches!(refused, Err(VortexError::BadMetadata)));
    }
    let mixed = by_numbers((5, -1, 8));
    assert!(rt; mixed.get_days_ptype() == Ok(I16));
    assert!(rt; mixed.get_seconds_ptype() == Err(VortexError::BadMetadata));
    assert!(rt; mixed.get_subseconds_ptype() == Err(VortexError::BadMetadata));
    Ok(())
}

#[test]
fn an_array_has_the_types_of_its_parts(rt: HostRuntime) -> Result<(), Fail> {
    let alloc = rt.alloc();
    let dtype = DType::timestamp(utc(alloc, Seconds)?, NonNullable);
    let days = flat(alloc, I64, NonNullable, &[1])?;
    let seconds = flat(alloc, U32, NonNullable, &[1])?;
    let subseconds = flat(alloc, U8, NonNullable, &[0])?;
    let array = accepted(DateTimeParts::try_new(alloc, dtype, days, seconds, subseconds))?;
    let metadata = DateTimePartsMetadata::of(&array);
    assert_eq!(rt; numbers_of(&metadata), (7, 2, 0));
    assert!(rt; metadata.get_days_ptype() == Ok(I64) && metadata.get_seconds_ptype() == Ok(U32));
    assert!(rt; metadata.get_subseconds_ptype() == Ok(U8));
    assert_eq!(rt; numbers_of(&DateTimePartsMetadata::default()), (0, 0, 0));
    Ok(())
}

// Whether bytes are read as the numbers that are expected of them.
fn is_read(alloc: Global, bytes: &[u8]) -> VortexResult<bool> {
    let expected = match bytes {
        [] => Some((0, 0, 0)),
        [0x08, 0x07] => Some((7, 0, 0)),
        _ => None,
    };
    Ok(read(alloc, bytes, 3)? == expected)
}

#[test]
fn short_texts(rt: HostRuntime) -> Result<(), Fail> {
    let alloc = rt.alloc();
    let bytes: [u8; 5] = [0x00, 0x07, 0x08, 0x0a, 0x80];
    assert!(rt; is_read(alloc, &[])?);
    for a in bytes {
        assert!(rt; is_read(alloc, &[a])?, "{a}");
        for b in bytes {
            assert!(rt; is_read(alloc, &[a, b])?, "{a} {b}");
            for c in bytes {
                assert!(rt; is_read(alloc, &[a, b, c])?, "{a} {b} {c}");
            }
        }
    }
    Ok(())
}
