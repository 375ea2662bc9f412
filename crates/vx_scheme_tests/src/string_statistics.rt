//! Statistics of texts and binaries, worked by hand.

use std::alloc::Global;
use std::test::Fail;
use vx_array::ArrayRef;
use vx_base::Nullability::Nullable;
use vx_base::{ByteRows, Bytes, DType, Scalar, Value, VortexError, VortexResult};
use vx_fixtures::{accepted, bits, byte_rows, context};
use vx_scheme::{ArrayAndStats, GenerateStatsOptions, StringStats};

const DISTINCT: GenerateStatsOptions = GenerateStatsOptions {
    count_distinct_values: true,
};

// The numbers of valid and of null rows, and the estimate of distinct values.
type Counted = (u32, u32, Option<u32>);

fn counted(stats: &StringStats) -> Counted {
    (
        stats.value_count(),
        stats.null_count(),
        stats.estimated_distinct_count(),
    )
}

// The array with these values, null where a bit is false.
fn array_of(alloc: Global, values: ByteRows, valid: &[bool]) -> VortexResult<ArrayRef> {
    let valid = bits(alloc, valid)?;
    accepted(ArrayRef::var_bin_view(values, Some(valid), DType::binary(Nullable)))
}

// The plain array of these rows, None for null.
fn column(alloc: Global, rows: &[Option<&[u8]>]) -> VortexResult<ArrayRef> {
    let mut values = Vec::new(alloc);
    let mut valid = Vec::new(alloc);
    for row in rows {
        let bytes = Vec::from_slice(alloc, row.unwrap_or(b""))?;
        values.push(Bytes::from_vec(bytes))?;
        valid.push(row.is_some())?;
    }
    array_of(alloc, ByteRows::from_vec(values), valid.as_slice())
}

// What is counted of an array of texts or binaries.
fn counted_of(
    alloc: Global,
    array: &ArrayRef,
    options: GenerateStatsOptions,
) -> VortexResult<Counted> {
    if !array.dtype().is_bytes() {
        return Err(VortexError::MismatchedTypes);
    }
    let mut ctx = context(alloc)?;
    let stats = StringStats::generate_opts(array, options, &mut ctx)?;
    Ok(counted(&stats))
}

// What an array counts of itself, twice: the second time it has kept the answer.
fn kept_of(alloc: Global, array: ArrayRef) -> VortexResult<[Counted; 2]> {
    if !array.dtype().is_bytes() || !array.is_plain() {
        return Err(VortexError::MismatchedTypes);
    }
    let mut ctx = context(alloc)?;
    let mut column = ArrayAndStats::new(array, DISTINCT);
    let first = counted(column.varbinview_stats(&mut ctx)?);
    Ok([first, counted(column.varbinview_stats(&mut ctx)?)])
}

// Rows, and what is counted of them.
type Row<'a> = (&'a [Option<&'a [u8]>], Counted);

const ROWS: [Row; 7] = [
    // The first two have the same length and first four bytes; a null is as empty as the last one.
    (
        &[Some(b"abcdX"), Some(b"abcdY"), None, Some(b"")],
        (3, 1, Some(2)),
    ),
    (&[], (0, 0, Some(0))),
    (&[None, None], (0, 2, Some(1))),
    // A null beside a value counts as a value of its own.
    (&[Some(b"a"), None], (1, 1, Some(2))),
    // Each of the first four bytes counts, and the length.
    (
        &[
            Some(b"abcd"),
            Some(b"Abcd"),
            Some(b"aBcd"),
            Some(b"abCd"),
            Some(b"abcD"),
            Some(b"abcdX"),
        ],
        (6, 0, Some(6)),
    ),
    // A zero byte is not a missing one.
    (
        &[Some(b"a"), Some(b"a\0"), Some(b"a\0\0"), Some(b"\0")],
        (4, 0, Some(4)),
    ),
    (&[Some(b"\xff\xff\xff\xff"), Some(b"")], (2, 0, Some(2))),
];

#[test]
fn lengths_with_first_bytes_are_counted(rt: HostRuntime) -> Result<(), Fail> {
    for (rows, want) in ROWS {
        let array = column(rt.alloc(), rows)?;
        assert!(rt;
            counted_of(rt.alloc(), &array, DISTINCT)? == want,
            "{rows:?}"
        );
        assert!(rt; kept_of(rt.alloc(), array)? == [want, want], "{rows:?}");
    }
    Ok(())
}

// What is counted of an array where no estimate is requested.
fn plain_counted_of(alloc: Global, array: &ArrayRef) -> VortexResult<Counted> {
    if !array.dtype().is_bytes() {
        return Err(VortexError::MismatchedTypes);
    }
    let mut ctx = context(alloc)?;
    let stats = StringStats::generate(array, &mut ctx)?;
    Ok(counted(&stats))
}

#[test]
fn without_a_request_there_is_no_estimate(rt: HostRuntime) -> Result<(), Fail> {
    let array = column(rt.alloc(), &[Some(b"a"), None])?;
    assert!(rt; plain_counted_of(rt.alloc(), &array)? == (1, 1, None));
    Ok(())
}

#[test]
fn bytes_beneath_a_null_are_not_counted(rt: HostRuntime) -> Result<(), Fail> {
    let values = byte_rows(rt.alloc(), &[b"a", b"b", b"c"])?;
    let array = array_of(rt.alloc(), values, &[true, false, false])?;
    assert!(rt; counted_of(rt.alloc(), &array, DISTINCT)? == (1, 2, Some(2)));
    Ok(())
}

// The numbers below `count` in four bytes, each of them `times` times, in turn.
fn numbers(alloc: Global, count: u32, times: u32) -> VortexResult<ArrayRef> {
    let mut values = Vec::new(alloc);
    for _time in 0..times {
        for number in 0..count {
            let bytes = Vec::from_slice(alloc, &number.to_be_bytes())?;
            values.push(Bytes::from_vec(bytes))?;
        }
    }
    let rows = ByteRows::from_vec(values);
    accepted(ArrayRef::var_bin_view(rows, None, DType::binary(Nullable)))
}

// The table grows several times.
#[test]
fn many_distinct_values_are_counted(rt: HostRuntime) -> Result<(), Fail> {
    let array = numbers(rt.alloc(), 10_000, 2)?;
    assert!(rt; counted_of(rt.alloc(), &array, DISTINCT)? == (20_000, 0, Some(10_000)));
    Ok(())
}

// An array of `len` times this value.
fn copies(value: Value, len: u64) -> VortexResult<ArrayRef> {
    let scalar = accepted(Scalar::new(DType::utf8(Nullable), value))?;
    Ok(ArrayRef::constant(scalar, len))
}

const MOST: u32 = u32::MAX;

#[test]
fn the_rows_of_a_constant_are_counted_at_once(rt: HostRuntime) -> Result<(), Fail> {
    let bytes = Bytes::from_vec(Vec::from_slice(rt.alloc(), b"abc")?);
    let texts = copies(Value::Bytes(bytes), u64::from(MOST))?;
    let nulls = copies(Value::Null, u64::from(MOST))?;
    let none = copies(Value::Null, 0)?;
    assert!(rt;
        counted_of(rt.alloc(), &texts, DISTINCT)? == (MOST, 0, Some(1))
            && counted_of(rt.alloc(), &nulls, DISTINCT)? == (0, MOST, Some(1))
            && counted_of(rt.alloc(), &none, DISTINCT)? == (0, 0, Some(0))
    );
    Ok(())
}

#[test]
fn row_counts_have_32_bits(rt: HostRuntime) -> Result<(), Fail> {
    let nulls = copies(Value::Null, 1 << 32)?;
    assert!(rt; counted_of(rt.alloc(), &nulls, DISTINCT) == Err(VortexError::TooManyRows));
    Ok(())
}

#[test]
fn a_masked_constant_is_decoded(rt: HostRuntime) -> Result<(), Fail> {
    let bytes = Bytes::from_vec(Vec::from_slice(rt.alloc(), b"abc")?);
    let valid = bits(rt.alloc(), &[true, false, true])?;
    let texts = copies(Value::Bytes(bytes), 3)?;
    let array = accepted(ArrayRef::masked(rt.alloc(), texts, valid))?;
    assert!(rt; counted_of(rt.alloc(), &array, DISTINCT)? == (2, 1, Some(2)));
    Ok(())
}
