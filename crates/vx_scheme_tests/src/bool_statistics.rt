//! Statistics of truth values, worked by hand.

use std::alloc::Global;
use std::test::Fail;
use vx_array::ArrayRef;
use vx_base::Nullability::Nullable;
use vx_base::{DType, Scalar, Value, VortexError, VortexResult};
use vx_fixtures::{accepted, bits, context};
use vx_scheme::{ArrayAndStats, BoolStats, GenerateStatsOptions};

// The numbers of valid, null and true rows, and whether all values are equal.
type Counted = (u32, u32, u32, bool);

fn counted(stats: &BoolStats) -> Counted {
    (
        stats.value_count(),
        stats.null_count(),
        stats.true_count(),
        stats.is_constant(),
    )
}

// The array with these values, null where a bit is false.
fn array_of(alloc: Global, values: &[bool], valid: &[bool]) -> VortexResult<ArrayRef> {
    let valid = bits(alloc, valid)?;
    accepted(ArrayRef::bool(bits(alloc, values)?, Some(valid), Nullable))
}

// The plain array of these rows, None for null.
fn column(alloc: Global, rows: &[Option<bool>]) -> VortexResult<ArrayRef> {
    let mut values = Vec::new(alloc);
    let mut valid = Vec::new(alloc);
    for row in rows {
        values.push(row.unwrap_or(false))?;
        valid.push(row.is_some())?;
    }
    array_of(alloc, values.as_slice(), valid.as_slice())
}

// What is counted of an array of truth values.
fn counted_of(alloc: Global, array: &ArrayRef) -> VortexResult<Counted> {
    if !matches!(array.dtype(), DType::Bool(_)) {
        return Err(VortexError::MismatchedTypes);
    }
    let mut ctx = context(alloc)?;
    let stats = BoolStats::generate(array, &mut ctx)?;
    Ok(counted(&stats))
}

// What an array counts of itself, twice: the second time it has kept the answer.
fn kept_of(alloc: Global, array: ArrayRef) -> VortexResult<[Counted; 2]> {
    if !matches!(array.dtype(), DType::Bool(_)) || !array.is_plain() {
        return Err(VortexError::MismatchedTypes);
    }
    let options = GenerateStatsOptions {
        count_distinct_values: true,
    };
    let mut ctx = context(alloc)?;
    let mut column = ArrayAndStats::new(array, options);
    let first = counted(column.bool_stats(&mut ctx)?);
    Ok([first, counted(column.bool_stats(&mut ctx)?)])
}

// Rows, and what is counted of them.
type Row<'a> = (&'a [Option<bool>], Counted);

const ROWS: [Row; 6] = [
    (&[Some(true), None, Some(true)], (2, 1, 2, true)),
    (&[Some(true), Some(false), Some(true)], (3, 0, 2, false)),
    (&[Some(false), Some(false), Some(false)], (3, 0, 0, true)),
    (&[Some(false), None], (1, 1, 0, true)),
    // Without a value nothing is constant.
    (&[None, None], (0, 2, 0, false)),
    (&[], (0, 0, 0, false)),
];

#[test]
fn truth_values_are_counted(rt: HostRuntime) -> Result<(), Fail> {
    for (rows, want) in ROWS {
        let array = column(rt.alloc(), rows)?;
        assert!(rt; counted_of(rt.alloc(), &array)? == want, "{rows:?}");
        assert!(rt; kept_of(rt.alloc(), array)? == [want, want], "{rows:?}");
    }
    Ok(())
}

#[test]
fn a_value_beneath_a_null_is_not_counted(rt: HostRuntime) -> Result<(), Fail> {
    let array = array_of(rt.alloc(), &[true, false, true], &[false, true, true])?;
    assert!(rt; counted_of(rt.alloc(), &array)? == (2, 1, 1, false));
    Ok(())
}

// An array of `len` times this value.
fn copies(value: Value, len: u64) -> VortexResult<ArrayRef> {
    let scalar = accepted(Scalar::new(DType::bool(Nullable), value))?;
    Ok(ArrayRef::constant(scalar, len))
}

const MOST: u32 = u32::MAX;

// Their rows would take four gigabytes.
#[test]
fn the_rows_of_a_constant_are_counted_at_once(rt: HostRuntime) -> Result<(), Fail> {
    let trues = copies(Value::Bool(true), u64::from(MOST))?;
    let falses = copies(Value::Bool(false), u64::from(MOST))?;
    let nulls = copies(Value::Null, u64::from(MOST))?;
    assert!(rt;
        counted_of(rt.alloc(), &trues)? == (MOST, 0, MOST, true)
            && counted_of(rt.alloc(), &falses)? == (MOST, 0, 0, true)
            && counted_of(rt.alloc(), &nulls)? == (0, MOST, 0, false)
    );
    Ok(())
}

#[test]
fn row_counts_have_32_bits(rt: HostRuntime) -> Result<(), Fail> {
    let trues = copies(Value::Bool(true), 1 << 32)?;
    assert!(rt; counted_of(rt.alloc(), &trues) == Err(VortexError::TooManyRows));
    Ok(())
}

#[test]
fn a_masked_constant_is_decoded(rt: HostRuntime) -> Result<(), Fail> {
    let valid = bits(rt.alloc(), &[true, false, true])?;
    let array = accepted(ArrayRef::masked(rt.alloc(), copies(Value::Bool(true), 3)?, valid))?;
    assert!(rt; counted_of(rt.alloc(), &array)? == (2, 1, 2, true));
    Ok(())
}
