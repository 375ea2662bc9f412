//! Timestamps in parts where the days are outside their type, where days and seconds are equal, and past the first block of rows.

use crate::parts::{has_truths, one_moment, split, typed};
use std::alloc::Global;
use std::test::Fail;
use vx_base::PType::{I64, U8, U16, U32};
use vx_base::TimeUnit::{Milliseconds, Seconds};
use vx_base::VortexResult;
use vx_fixtures::context;
use vx_rules::BetweenOptions;
use vx_rules::CompareOperator::{Eq, Gt, Gte, Lt, Lte};

// Both bounds lie within.
const CLOSED: BetweenOptions = BetweenOptions {
    lower_strict: false,
    upper_strict: false,
};

// More rows than a block has: the seconds from the last ones of a day on.
const FIRST: u32 = 85_850;

const END: u32 = 86_950;

fn seconds_in_a_row(alloc: Global) -> VortexResult<Vec<Option<i128>>> {
    let mut rows = Vec::new(alloc);
    for second in FIRST..END {
        rows.push(Some(i128::from(second)))?;
    }
    Ok(rows)
}

// Which of these seconds are from one to another.
fn truths_from(alloc: Global, low: u32, high: u32) -> VortexResult<Vec<Option<bool>>> {
    let mut truths = Vec::new(alloc);
    for second in FIRST..END {
        truths.push(Some(low <= second && second <= high))?;
    }
    Ok(truths)
}

#[test]
fn days_of_two_types(rt: HostRuntime) -> Result<(), Fail> {
    let alloc = rt.alloc();
    let mut ctx = context(alloc)?;
    let narrow = typed(alloc, (U16, U32, U8), &[65_535, 7, 7], &[9, 9, 9])?;
    let wide = typed(alloc, (I64, U32, U8), &[65_536, -7, 7], &[9, 0, 9])?;
    let out = narrow.compare(wide.as_array(), Lt, &mut ctx)?;
    assert!(rt; has_truths(&out, &[Some(true), Some(false), Some(false)]));
    let out = wide.compare(narrow.as_array(), Eq, &mut ctx)?;
    assert!(rt; has_truths(&out, &[Some(false), Some(false), Some(true)]));
    let (low, high) = (wide.as_array(), narrow.as_array());
    let out = narrow.between(low, high, CLOSED, &mut ctx)?;
    assert!(rt; has_truths(&out, &[Some(false), Some(true), Some(true)]));
    Ok(())
}

#[test]
fn days_outside_their_type(rt: HostRuntime) -> Result<(), Fail> {
    let alloc = rt.alloc();
    let mut ctx = context(alloc)?;
    let array = typed(alloc, (U8, U32, U8), &[0, 7, 255], &[0, 0, 86_399])?;
    let all = [Some(true), Some(true), Some(true)];
    let none = [Some(false), Some(false), Some(false)];
    // day 256, and day -1
    let late = one_moment(alloc, Seconds, 22_118_400, 3)?;
    let early = one_moment(alloc, Seconds, -86_400, 3)?;
    assert!(rt; has_truths(&array.compare(&late, Lt, &mut ctx)?, &all));
    assert!(rt; has_truths(&array.compare(&late, Gte, &mut ctx)?, &none));
    assert!(rt; has_truths(&array.compare(&early, Gt, &mut ctx)?, &all));
    assert!(rt; has_truths(&array.compare(&early, Lte, &mut ctx)?, &none));
    let out = array.between(&early, &late, CLOSED, &mut ctx)?;
    assert!(rt; has_truths(&out, &all));
    let out = array.between(&late, &early, CLOSED, &mut ctx)?;
    assert!(rt; has_truths(&out, &none));
    Ok(())
}

#[test]
fn subseconds_alone_differ(rt: HostRuntime) -> Result<(), Fail> {
    let alloc = rt.alloc();
    let mut ctx = context(alloc)?;
    let rows = [Some(86_401_001), Some(86_401_002), Some(86_401_003)];
    let middle = [Some(86_401_002), Some(86_401_002), Some(86_401_002)];
    let array = split(alloc, Milliseconds, &rows)?;
    let other = split(alloc, Milliseconds, &middle)?;
    let out = array.compare(other.as_array(), Lt, &mut ctx)?;
    assert!(rt; has_truths(&out, &[Some(true), Some(false), Some(false)]));
    let (low, high) = (other.as_array(), array.as_array());
    let out = other.between(low, high, CLOSED, &mut ctx)?;
    assert!(rt; has_truths(&out, &[Some(false), Some(true), Some(true)]));
    Ok(())
}

#[test]
fn more_rows_than_a_block(rt: HostRuntime) -> Result<(), Fail> {
    let alloc = rt.alloc();
    let mut ctx = context(alloc)?;
    let rows = seconds_in_a_row(alloc)?;
    let array = split(alloc, Seconds, rows.as_slice())?;
    let len = array.as_array().len();
    let late = one_moment(alloc, Seconds, 86_900, len)?;
    let truths = truths_from(alloc, 86_900, 86_949)?;
    let out = array.compare(&late, Gte, &mut ctx)?;
    assert!(rt; has_truths(&out, truths.as_slice()));
    let early = one_moment(alloc, Seconds, 86_399, len)?;
    let truths = truths_from(alloc, 86_399, 86_900)?;
    let out = array.between(&early, &late, CLOSED, &mut ctx)?;
    assert!(rt; has_truths(&out, truths.as_slice()));
    let truths = truths_from(alloc, FIRST, END)?;
    let out = array.compare(array.as_array(), Eq, &mut ctx)?;
    assert!(rt; has_truths(&out, truths.as_slice()));
    Ok(())
}
