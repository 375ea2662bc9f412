//! Conditions on rows that a few bytes name, as many as the row limit: each is answered at once, and takes no memory by them.

use std::alloc::Global;
use std::test::Fail;
use vx_array::{ArrayRef, Patches};
use vx_base::Nullability::{NonNullable, Nullable};
use vx_base::PType::{self, I16, I64, U8, U64};
use vx_base::{Bytes, DType, Refused, Scalar, TimeUnit, TimestampType, VortexError, VortexResult};
use vx_fixtures::{accepted, flat, has_rows, with_nulls};

// The row limit.
const MANY: u64 = 1 << 31;

// Equal integers.
fn equal(whole: i128, ptype: PType, len: u64) -> VortexResult<ArrayRef> {
    Ok(ArrayRef::constant(Scalar::primitive(whole, ptype, NonNullable)?, len))
}

// Integers of 64 bits, each `step` above the one before.
fn steps(first: i128, step: i128, len: u64) -> VortexResult<ArrayRef> {
    ArrayRef::sequence(I64, NonNullable, first, step, len)
}

// Integers of no bits each.
fn zeros(alloc: Global, len: u64) -> VortexResult<ArrayRef> {
    let none = Bytes::new_in(alloc);
    accepted(ArrayRef::bit_packed(alloc, U8, 0, none, len, None, None, NonNullable))
}

// Why something is refused, None where it isn't.
fn refusal<T: Drop, I: Drop>(made: Result<T, Refused<I>>) -> Option<VortexError> {
    match made {
        Ok(_) => None,
        Err(refused) => Some(refused.error),
    }
}

#[test]
fn codes_of_no_bits(rt: HostRuntime) -> Result<(), Fail> {
    let alloc = rt.alloc();
    let one = flat(alloc, I16, NonNullable, &[300])?;
    let tree = accepted(ArrayRef::dict(alloc, zeros(alloc, MANY)?, one))?;
    let last = tree.scalar_at(alloc, MANY - 1)?.json(alloc)?;
    let none = flat(alloc, I16, NonNullable, &[])?;
    let refused = refusal(ArrayRef::dict(alloc, zeros(alloc, MANY)?, none));
    assert!(rt; last.as_str() == "300" && refused == Some(VortexError::OutOfBounds));
    Ok(())
}

// The code 1 in each row, as differences of no bits.
fn framed_codes(alloc: Global) -> VortexResult<ArrayRef> {
    let one = Scalar::primitive(1, U8, NonNullable)?;
    accepted(ArrayRef::frame_of_reference(alloc, zeros(alloc, MANY)?, one))
}

#[test]
fn codes_in_a_frame_of_reference(rt: HostRuntime) -> Result<(), Fail> {
    let alloc = rt.alloc();
    let two = flat(alloc, I16, NonNullable, &[300, -7])?;
    let one = flat(alloc, I16, NonNullable, &[300])?;
    let held = refusal(ArrayRef::dict(alloc, framed_codes(alloc)?, two));
    let refused = refusal(ArrayRef::dict(alloc, framed_codes(alloc)?, one));
    assert!(rt; held.is_none() && refused == Some(VortexError::OutOfBounds));
    Ok(())
}

// The refusal of a dictionary of these values whose code is 0 in the first row and 1 in all others.
fn of_runs(alloc: Global, values: &[i128]) -> VortexResult<Option<VortexError>> {
    let ends = flat(alloc, U64, NonNullable, &[1, i128::from(MANY)])?;
    let codes = accepted(ArrayRef::run_end(alloc, ends, flat(alloc, U8, NonNullable, &[0, 1])?))?;
    Ok(refusal(ArrayRef::dict(alloc, codes, flat(alloc, I16, NonNullable, values)?)))
}

#[test]
fn codes_in_runs(rt: HostRuntime) -> Result<(), Fail> {
    let alloc = rt.alloc();
    let refused = of_runs(alloc, &[300])?;
    assert!(rt; of_runs(alloc, &[300, -7])?.is_none() && refused == Some(VortexError::OutOfBounds));
    Ok(())
}

#[test]
fn codes_in_a_sequence(rt: HostRuntime) -> Result<(), Fail> {
    let alloc = rt.alloc();
    let held = refusal(ArrayRef::dict(alloc, steps(0, 1, MANY)?, equal(7, I16, MANY)?));
    let back = refusal(ArrayRef::dict(
        alloc,
        steps(i128::from(MANY) - 1, -1, MANY)?,
        equal(7, I16, MANY)?,
    ));
    let past = refusal(ArrayRef::dict(alloc, steps(1, 1, MANY)?, equal(7, I16, MANY)?));
    let before = refusal(ArrayRef::dict(alloc, steps(-1, 1, MANY)?, equal(7, I16, MANY)?));
    assert!(rt; held.is_none() && back.is_none());
    assert!(rt; past == Some(VortexError::OutOfBounds) && before == Some(VortexError::OutOfBounds));
    Ok(())
}

#[test]
fn offsets_of_lists(rt: HostRuntime) -> Result<(), Fail> {
    let alloc = rt.alloc();
    let items = equal(5, U8, MANY)?;
    let held = refusal(ArrayRef::list(alloc, items, steps(0, 1, MANY + 1)?, None, NonNullable));
    let items = equal(5, U8, MANY - 1)?;
    let long = refusal(ArrayRef::list(alloc, items, steps(0, 1, MANY + 1)?, None, NonNullable));
    let none = equal(5, U8, 0)?;
    let empty = refusal(ArrayRef::list(alloc, none, zeros(alloc, MANY + 1)?, None, NonNullable));
    let three = equal(5, U8, 3)?;
    let falling = refusal(ArrayRef::list(alloc, three, steps(3, -1, 4)?, None, NonNullable));
    assert!(rt; held.is_none() && empty.is_none());
    assert!(rt;
        long == Some(VortexError::OutOfBounds) && falling == Some(VortexError::OutOfBounds)
    );
    Ok(())
}

#[test]
fn offsets_of_empty_texts(rt: HostRuntime) -> Result<(), Fail> {
    let alloc = rt.alloc();
    let utf8 = DType::Utf8(NonNullable);
    let none = Bytes::new_in(alloc);
    let held = refusal(ArrayRef::var_bin(alloc, equal(0, U64, MANY + 1)?, none, None, utf8));
    let utf8 = DType::Utf8(NonNullable);
    let none = Bytes::new_in(alloc);
    let refused = refusal(ArrayRef::var_bin(alloc, equal(1, U64, MANY + 1)?, none, None, utf8));
    assert!(rt; held.is_none() && refused == Some(VortexError::OutOfBounds));
    Ok(())
}

#[test]
fn ends_of_runs(rt: HostRuntime) -> Result<(), Fail> {
    let alloc = rt.alloc();
    let tree = accepted(ArrayRef::run_end(alloc, steps(1, 1, MANY)?, equal(5, I16, MANY)?))?;
    let low = refusal(ArrayRef::run_end(alloc, steps(0, 1, MANY)?, equal(5, I16, MANY)?));
    let same = refusal(ArrayRef::run_end(alloc, equal(1, U64, MANY)?, equal(5, I16, MANY)?));
    assert!(rt; tree.len() == MANY);
    assert!(rt; low == Some(VortexError::OutOfBounds) && same == Some(VortexError::OutOfBounds));
    Ok(())
}

#[test]
fn indices_of_patches(rt: HostRuntime) -> Result<(), Fail> {
    let held = refusal(Patches::new(MANY, 3, steps(3, 1, MANY)?, equal(5, I16, MANY)?));
    let low = refusal(Patches::new(MANY, 4, steps(3, 1, MANY)?, equal(5, I16, MANY)?));
    let high = refusal(Patches::new(MANY, 2, steps(3, 1, MANY)?, equal(5, I16, MANY)?));
    let down = refusal(Patches::new(MANY, 0, steps(9, -1, 10)?, equal(5, I16, 10)?));
    let error = Some(VortexError::IndicesNotAscending);
    assert!(rt; held.is_none() && low == error && high == error && down == error);
    Ok(())
}

#[test]
fn chunk_offsets_of_few_patches(rt: HostRuntime) -> Result<(), Fail> {
    let alloc = rt.alloc();
    let (rows, chunks) = (1 << 60, 1 << 50);
    let none = (equal(0, U8, 0)?, equal(5, I16, 0)?);
    let zeros = equal(0, U8, chunks)?;
    let held = refusal(Patches::new_chunked(rows, 0, none.0, none.1, zeros));
    let one = (flat(alloc, U8, NonNullable, &[5])?, equal(5, I16, 1)?);
    let zeros = equal(0, U8, chunks)?;
    let refused = refusal(Patches::new_chunked(rows, 0, one.0, one.1, zeros));
    assert!(rt; held.is_none() && refused == Some(VortexError::OutOfBounds));
    Ok(())
}

// The refusal of runs in blocks by the number of their values, indices and offsets.
fn places(
    alloc: Global,
    values: u64,
    indices: ArrayRef,
    offsets: ArrayRef,
) -> VortexResult<Option<VortexError>> {
    let values = equal(5, I16, values)?;
    Ok(refusal(ArrayRef::rle(alloc, values, indices, offsets, MANY)))
}

#[test]
fn places_of_runs_in_blocks(rt: HostRuntime) -> Result<(), Fail> {
    let alloc = rt.alloc();
    let blocks = MANY / 1024;
    let error = Some(VortexError::OutOfBounds);
    let held = places(alloc, 4, equal(1, U8, MANY)?, equal(2, U8, blocks)?)?;
    let past = places(alloc, 3, equal(1, U8, MANY)?, equal(2, U8, blocks)?)?;
    assert!(rt; held.is_none() && past == error);
    // Together they go through the same 1,024 values in each block.
    let held = places(alloc, 1024, steps(0, 1, MANY)?, steps(0, -1024, blocks)?)?;
    let past = places(alloc, 1023, steps(0, 1, MANY)?, steps(0, -1024, blocks)?)?;
    let before = places(alloc, 1024, steps(0, 1, MANY)?, steps(-1, -1024, blocks)?)?;
    assert!(rt; held.is_none() && past == error && before == error);
    Ok(())
}

// The refusal of blocks without bytes by their offsets.
fn blocks(alloc: Global, offsets: ArrayRef) -> Option<VortexError> {
    let none = Bytes::new_in(alloc);
    refusal(ArrayRef::bit_packed_v2(alloc, U8, none, offsets, MANY, None, None, NonNullable))
}

#[test]
fn offsets_of_blocks(rt: HostRuntime) -> Result<(), Fail> {
    let alloc = rt.alloc();
    let held = blocks(alloc, equal(0, U8, MANY / 1024 + 1)?);
    let wide = blocks(alloc, steps(0, 9, MANY / 1024 + 1)?);
    let down = blocks(alloc, steps(0, -1, MANY / 1024 + 1)?);
    let error = Some(VortexError::OutOfBounds);
    assert!(rt; held.is_none() && wide == error && down == error);
    Ok(())
}

// The refusal of days over seconds of the day.
fn days(alloc: Global, days: ArrayRef, seconds: i128) -> VortexResult<Option<VortexError>> {
    let kind = accepted(TimestampType::new(TimeUnit::Seconds, None))?;
    let seconds = equal(seconds, I64, MANY)?;
    let rest = equal(0, U8, MANY)?;
    Ok(refusal(ArrayRef::datetime_parts(alloc, kind, NonNullable, days, seconds, rest)))
}

// The refusal of days over seconds of the day, with microseconds that count up from `first`.
fn moments(
    alloc: Global,
    days: ArrayRef,
    seconds: i128,
    first: i128,
) -> VortexResult<Option<VortexError>> {
    let kind = accepted(TimestampType::new(TimeUnit::Microseconds, None))?;
    let (len, nullability) = (days.len(), days.dtype().nullability());
    let (seconds, rest) = (equal(seconds, I64, len)?, steps(first, 1, len)?);
    Ok(refusal(ArrayRef::datetime_parts(alloc, kind, nullability, days, seconds, rest)))
}

#[test]
fn parts_of_timestamps(rt: HostRuntime) -> Result<(), Fail> {
    let alloc = rt.alloc();
    let half = i128::from(MANY / 2);
    let held = days(alloc, steps(0, 1, MANY)?, 86_399)?;
    let round = days(alloc, steps(-half, 1, MANY)?, 0)?;
    assert!(rt; held.is_none() && round.is_none());
    let error = Some(VortexError::PartsNotCanonical);
    // The first days are negative, the seconds aren't.
    assert!(rt; days(alloc, steps(-half, 1, MANY)?, 1)? == error);
    assert!(rt; days(alloc, steps(0, 1, MANY)?, 86_400)? == error);
    // Days and microseconds pass 0 in the same row; then two rows apart, so that the parts of one row are -1, 0 and 1.
    let together = moments(alloc, steps(-500_000, 1, 1_500_000)?, 0, -500_000)?;
    let apart = moments(alloc, steps(-500_000, 1, 1_499_998)?, 0, -499_998)?;
    assert!(rt; together.is_none() && apart == error);
    // Null days take any parts, though the microseconds change their sign and the seconds don't.
    let null = accepted(Scalar::null(DType::primitive(I64, Nullable)))?;
    assert!(rt; moments(alloc, ArrayRef::constant(null, MANY), 1, -5)?.is_none());
    Ok(())
}

#[test]
fn the_values_of_runs_of_codes(rt: HostRuntime) -> Result<(), Fail> {
    let alloc = rt.alloc();
    let ends = flat(alloc, U8, NonNullable, &[2, 3, 6])?;
    let codes = with_nulls(alloc, U8, &[1, 0, 0], &[true, false, true])?;
    let runs = accepted(ArrayRef::run_end(alloc, ends, codes))?;
    let values = flat(alloc, I16, NonNullable, &[300, -7])?;
    let plain = accepted(ArrayRef::dict(alloc, runs, values))?.canonical(alloc)?;
    let last = Some(300);
    assert!(rt; has_rows(&plain, &[Some(-7), Some(-7), None, last, last, last]));
    Ok(())
}

#[test]
fn the_value_of_equal_codes(rt: HostRuntime) -> Result<(), Fail> {
    let alloc = rt.alloc();
    let code = ArrayRef::constant(Scalar::primitive(1, U8, Nullable)?, 3);
    let values = flat(alloc, I16, NonNullable, &[300, -7])?;
    let plain = accepted(ArrayRef::dict(alloc, code, values))?.canonical(alloc)?;
    assert!(rt; has_rows(&plain, &[Some(-7), Some(-7), Some(-7)]));
    Ok(())
}
