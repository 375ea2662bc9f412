//! Statistics of small columns worked by hand.

use std::alloc::Global;
use std::test::Fail;
use vx_array::ArrayRef;
use vx_base::PType::{self, I8, I32, U8, U64};
use vx_base::{Nullability, Scalar, VortexError, VortexResult};
use vx_fixtures::{accepted, bits, column, context, flat, with_nulls};
use vx_scheme::{ErasedStats, GenerateStatsOptions, IntegerStats};

const DISTINCT: GenerateStatsOptions = GenerateStatsOptions {
    count_distinct_values: true,
};

// The numbers of null and of valid rows, the average run length, the distinct count, and the most frequent value with
// its count.
type Counted = (u32, u32, u32, Option<u32>, Option<(i128, u32)>);

// The most frequent value and its count.
fn frequent(stats: &IntegerStats) -> Option<(i128, u32)> {
    let (value, count) = stats.most_frequent_value_and_count()?;
    Some((value.value, count))
}

fn counted(stats: &IntegerStats) -> Counted {
    (
        stats.null_count(),
        stats.value_count(),
        stats.average_run_length(),
        stats.distinct_count(),
        frequent(stats),
    )
}

// A type, rows, and their statistics.
type Row<'a> = (PType, &'a [Option<i128>], Counted);

const ROWS: [Row; 6] = [
    (I8, &[], (0, 0, 0, None, None)),
    (I8, &[None, None], (2, 0, 0, Some(0), Some((0, 0)))),
    // Where two are as frequent, the lesser.
    (
        I8,
        &[None, Some(2), Some(1)],
        (1, 2, 1, Some(2), Some((1, 1))),
    ),
    // In a wide range, and in a narrow one.
    (
        I8,
        &[Some(100), Some(-100), None, Some(100)],
        (1, 3, 1, Some(2), Some((100, 2))),
    ),
    (
        I32,
        &[Some(1000), Some(1001), Some(1000), None],
        (1, 3, 1, Some(2), Some((1000, 2))),
    ),
    (
        U64,
        &[Some(0), Some(18_446_744_073_709_551_615), Some(0)],
        (0, 3, 1, Some(2), Some((0, 2))),
    ),
];

// The statistics of a column of these rows, with its distinct values.
fn stats_of(alloc: Global, ptype: PType, rows: &[Option<i128>]) -> VortexResult<IntegerStats> {
    let mut ctx = context(alloc)?;
    let array = column(alloc, ptype, rows)?;
    IntegerStats::generate_opts(&array, DISTINCT, &mut ctx)
}

#[test]
fn values_are_counted(rt: HostRuntime) -> Result<(), Fail> {
    for (ptype, rows, want) in ROWS {
        let stats = stats_of(rt.alloc(), ptype, rows)?;
        assert!(rt; counted(&stats) == want, "{rows:?}");
    }
    Ok(())
}

// Whether these are the distinct integers of 32 bits, each with its count.
fn have_counts(stats: &IntegerStats, counts: &[(i32, u32)]) -> bool {
    let ErasedStats::I32(typed) = stats.erased() else {
        return false;
    };
    match typed.distinct() {
        Some(distinct) => distinct.distinct_values().as_slice() == counts,
        None => false,
    }
}

#[test]
fn distinct_values_ascend_with_their_counts(rt: HostRuntime) -> Result<(), Fail> {
    let rows = [Some(1001), Some(1000), None, Some(1003), Some(1000)];
    let stats = stats_of(rt.alloc(), I32, &rows)?;
    assert!(rt; have_counts(&stats, &[(1000, 2), (1001, 1), (1003, 1)]));
    Ok(())
}

// 40 times 9, 40 times 4, and 41 times 9: runs so long that they are counted in place of values.
fn long_runs() -> [Option<i128>; 121] {
    let mut rows = [Some(9); 121];
    for row in 40..80 {
        rows[row] = Some(4);
    }
    rows
}

#[test]
fn long_runs_are_counted_as_their_values_are(rt: HostRuntime) -> Result<(), Fail> {
    let stats = stats_of(rt.alloc(), I32, &long_runs())?;
    assert!(rt; have_counts(&stats, &[(4, 40), (9, 81)]));
    Ok(())
}

#[test]
fn a_null_in_a_long_run_is_none_of_its_values(rt: HostRuntime) -> Result<(), Fail> {
    let mut rows = long_runs();
    rows[50] = None;
    let stats = stats_of(rt.alloc(), I32, &rows)?;
    assert!(rt; have_counts(&stats, &[(4, 39), (9, 81)]));
    Ok(())
}

// The integers of 8 bits from -128 to 127, twice, and then 127.
fn all_of_8_bits_twice() -> [Option<i128>; 513] {
    let mut rows = [Some(127); 513];
    for row in 0..512 {
        rows[row] = Some((row % 256) as i128 - 128);
    }
    rows
}

#[test]
fn each_value_of_a_type_can_be_distinct(rt: HostRuntime) -> Result<(), Fail> {
    let stats = stats_of(rt.alloc(), I8, &all_of_8_bits_twice())?;
    assert!(rt; counted(&stats) == (0, 513, 1, Some(256), Some((127, 3))));
    Ok(())
}

// What is counted of an array of integers with its distinct values.
fn counted_of(alloc: Global, array: &ArrayRef) -> VortexResult<Counted> {
    if !array.dtype().is_integer() {
        return Err(VortexError::MismatchedTypes);
    }
    let mut ctx = context(alloc)?;
    let stats = IntegerStats::generate_opts(array, DISTINCT, &mut ctx)?;
    Ok(counted(&stats))
}

// 0 to 127 in order, and whether a row is even.
fn up_to_127() -> ([i128; 128], [bool; 128]) {
    let mut wholes = [0; 128];
    let mut even = [false; 128];
    for row in 0..128 {
        wholes[row] = row as i128;
        even[row] = row % 2 == 0;
    }
    (wholes, even)
}

// The values beneath the nulls are the odd ones, and none of them is 0.
#[test]
fn values_beneath_nulls_are_not_counted(rt: HostRuntime) -> Result<(), Fail> {
    let (wholes, even) = up_to_127();
    let all = flat(rt.alloc(), U8, Nullability::NonNullable, &wholes)?;
    let half = with_nulls(rt.alloc(), U8, &wholes, &even)?;
    let of_all = counted_of(rt.alloc(), &all)?;
    let of_half = counted_of(rt.alloc(), &half)?;
    assert!(rt;
        of_all == (0, 128, 1, Some(128), Some((0, 1)))
            && of_half == (64, 64, 1, Some(64), Some((0, 1)))
    );
    Ok(())
}

// The statistics of an array of integers, without its distinct values.
fn plain_stats_of(alloc: Global, array: &ArrayRef) -> VortexResult<IntegerStats> {
    if !array.dtype().is_integer() {
        return Err(VortexError::MismatchedTypes);
    }
    let mut ctx = context(alloc)?;
    IntegerStats::generate(array, &mut ctx)
}

// Why an array of integers has no statistics, if it has none.
fn refusal_of(alloc: Global, array: &ArrayRef) -> Option<VortexError> {
    match plain_stats_of(alloc, array) {
        Ok(_) => None,
        Err(error) => Some(error),
    }
}

#[test]
fn row_counts_have_32_bits(rt: HostRuntime) -> Result<(), Fail> {
    let one = Scalar::primitive(1, U8, Nullability::NonNullable)?;
    let array = ArrayRef::constant(one, 4_294_967_296);
    assert!(rt; refusal_of(rt.alloc(), &array) == Some(VortexError::TooManyRows));
    Ok(())
}

#[test]
fn without_a_value_the_extremes_are_swapped(rt: HostRuntime) -> Result<(), Fail> {
    let array = column(rt.alloc(), I8, &[None])?;
    let stats = plain_stats_of(rt.alloc(), &array)?;
    let erased = stats.erased();
    assert!(rt;
        !erased.min_is_zero() && !erased.min_is_negative() && erased.max_ilog2() == Some(7)
    );
    Ok(())
}

// Sevens with a null in row 1 of 4.
fn sevens(alloc: Global) -> VortexResult<ArrayRef> {
    let seven = Scalar::primitive(7, U8, Nullability::Nullable)?;
    let valid = bits(alloc, &[true, false, true, true])?;
    accepted(ArrayRef::masked(alloc, ArrayRef::constant(seven, 4), valid))
}

#[test]
fn a_masked_constant_is_decoded(rt: HostRuntime) -> Result<(), Fail> {
    let array = sevens(rt.alloc())?;
    let stats = plain_stats_of(rt.alloc(), &array)?;
    assert!(rt; counted(&stats) == (1, 3, 3, None, None));
    Ok(())
}
