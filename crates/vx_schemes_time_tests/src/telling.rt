//! What the scheme tells of columns of timestamps.

use crate::asking::{stamp_bundle, told};
use std::test::Fail;
use vx_base::TimeUnit::{Nanoseconds, Seconds};
use vx_fixtures::{Told, context, rules_of};
use vx_schemes_time::TemporalScheme;

#[test]
fn timestamps_are_always_split(rt: HostRuntime) -> Result<(), Fail> {
    let mut ctx = context(rt.alloc())?;
    for (unit, row) in [(Nanoseconds, 0), (Seconds, i128::from(i64::MIN))] {
        let mut column = stamp_bundle(rt.alloc(), unit, &[Some(row), None])?;
        assert!(rt; told(&mut column, &mut ctx)? == Told::Always, "{row}");
    }
    Ok(())
}

#[test]
fn no_scheme_is_excluded(rt: HostRuntime) -> Result<(), Fail> {
    assert!(rt; rules_of(rt.alloc(), &TemporalScheme)? == (0, 0));
    Ok(())
}
