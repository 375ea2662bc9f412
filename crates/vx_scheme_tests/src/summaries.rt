//! Summaries of columns of many lengths, with runs and nulls of many kinds, against a plain count: the code goes over a
//! column with nulls 64 rows at a time.

use std::alloc::Global;
use std::test::Fail;
use vx_base::PType::{self, I32, U16};
use vx_base::VortexResult;
use vx_fixtures::{column, context};
use vx_scheme::IntegerStats;

// A type, its least and greatest integer, and the least one of the columns.
type Kind = (PType, i128, i128, i128);

const KINDS: [Kind; 2] = [
    (I32, -2_147_483_648, 2_147_483_647, -50),
    (U16, 0, 65_535, 0),
];

// The numbers of rows: around a group, and 20 groups with a part of one.
const LENGTHS: [usize; 5] = [1, 63, 64, 65, 1297];

const RUNS: [usize; 4] = [1, 3, 64, 100];

// Each how manyth row is null, from the first on, and whether two whole groups are; 0 where no single row is.
const NULLS: [(usize, bool); 6] = [
    (0, false),
    (0, true),
    (3, false),
    (3, true),
    (97, false),
    (97, true),
];

// A row of a column with runs of this length. Neighbouring runs differ.
fn row_at(row: usize, run: usize, (every, gap): (usize, bool), least: i128) -> Option<i128> {
    if row.checked_rem(every) == Some(0) || (gap && row >= 64 && row < 192) {
        return None;
    }
    let place = row.checked_div(run)?;
    Some(least.wrapping_add((place.wrapping_mul(37) % 101) as i128))
}

// The numbers of null and of valid rows, the average run length, the least and the greatest value.
type Summary = (u32, u32, u32, i128, i128);

// What a plain count finds.
fn counted(rows: &[Option<i128>], (_, lowest, highest, _): Kind) -> Summary {
    let (mut nulls, mut values, mut runs) = (0u32, 0u32, 0u32);
    let (mut least, mut greatest) = (highest, lowest);
    let mut last = None;
    for row in rows {
        let Some(value) = *row else {
            nulls = nulls.saturating_add(1);
            continue;
        };
        values = values.saturating_add(1);
        runs = runs.saturating_add(u32::from(last != Some(value)));
        least = least.min(value);
        greatest = greatest.max(value);
        last = Some(value);
    }
    let length = values.checked_div(runs).unwrap_or(0);
    (nulls, values, length, least, greatest)
}

// What the statistics of a column say.
fn summary_of(alloc: Global, ptype: PType, rows: &[Option<i128>]) -> VortexResult<Summary> {
    let mut ctx = context(alloc)?;
    let array = column(alloc, ptype, rows)?;
    let stats = IntegerStats::generate(&array, &mut ctx)?;
    let erased = stats.erased();
    Ok((
        stats.null_count(),
        stats.value_count(),
        stats.average_run_length(),
        erased.least(),
        erased.greatest(),
    ))
}

// Whether both agree on a column.
fn agree(
    alloc: Global,
    kind: Kind,
    len: usize,
    run: usize,
    nulls: (usize, bool),
) -> VortexResult<bool> {
    let mut rows = Vec::new(alloc);
    for row in 0..len {
        rows.push(row_at(row, run, nulls, kind.3))?;
    }
    let rows = rows.as_slice();
    Ok(summary_of(alloc, kind.0, rows)? == counted(rows, kind))
}

// Whether both agree on all columns of a type and a number of rows.
fn always_agree(alloc: Global, kind: Kind, len: usize) -> VortexResult<bool> {
    let mut all = true;
    for run in RUNS {
        for nulls in NULLS {
            all &= agree(alloc, kind, len, run, nulls)?;
        }
    }
    Ok(all)
}

#[test]
fn a_summary_is_what_a_plain_count_finds(rt: HostRuntime) -> Result<(), Fail> {
    for kind in KINDS {
        for len in LENGTHS {
            assert!(rt;
                always_agree(rt.alloc(), kind, len)?,
                "{len} rows of {:?}",
                kind.0
            );
        }
    }
    Ok(())
}
