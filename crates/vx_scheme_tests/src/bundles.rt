//! Bundles of small columns worked by hand. A function that owns a bundle has one way out, since the drop is proved at
//! each.

ghost use Rattle.std.specs.Prelude.{IsTrue};
ghost use Rattle.vx_base.specs.PlainType.{is_integer};
ghost use Rattle.vx_model.specs.TreeType.{tree_type};

use std::alloc::Global;
use std::test::Fail;
use vx_base::PType::I64;
use vx_base::{ExecutionCtx, VortexResult};
use vx_fixtures::{bundle, context};
use vx_scheme::ArrayAndStats;

// The value count and the distinct count of the summary, and then of the statistics.
fn counts_of(
    column: &mut ArrayAndStats,
    ctx: &mut ExecutionCtx,
) -> VortexResult<[(u32, Option<u32>); 2]>
    requires { IsTrue (is_integer (tree_type column.old.array)) }
{
    let summary = column.integer_summary()?;
    let of_summary = (summary.value_count(), summary.distinct_count());
    let stats = column.integer_stats(ctx)?;
    Ok([of_summary, (stats.value_count(), stats.distinct_count())])
}

// The counts of a bundle of these rows.
fn counts_of_rows(alloc: Global, rows: &[Option<i128>]) -> VortexResult<[(u32, Option<u32>); 2]> {
    let mut ctx = context(alloc)?;
    let mut column = bundle(alloc, I64, rows)?;
    counts_of(&mut column, &mut ctx)
}

#[test]
fn a_bundle_has_its_statistics(rt: HostRuntime) -> Result<(), Fail> {
    let counts = counts_of_rows(rt.alloc(), &[Some(5), Some(5), None])?;
    assert!(rt; counts == [(2, None), (2, Some(1))]);
    Ok(())
}

// Whether most of the values of a bundle of these rows are distinct.
fn are_mostly_distinct(alloc: Global, rows: &[Option<i128>]) -> VortexResult<bool> {
    let mut ctx = context(alloc)?;
    let mut column = bundle(alloc, I64, rows)?;
    column.is_mostly_distinct(&mut ctx)
}

const FAR: Option<i128> = Some(1_000_000_007);

#[test]
fn more_than_half_of_the_values_are_most(rt: HostRuntime) -> Result<(), Fail> {
    for (rows, most) in [
        // In a wide range: three of four, and half of them.
        (&[Some(0), FAR, Some(-7), FAR][..], true),
        (&[Some(0), FAR, Some(0), FAR], false),
        // In a narrow range.
        (&[Some(7), Some(8), Some(7)], true),
        // Ascending.
        (&[Some(7), Some(8), Some(9)], true),
        // A null is no value.
        (&[FAR, None, FAR, None], false),
        (&[], false),
    ] {
        let answer = are_mostly_distinct(rt.alloc(), rows)?;
        assert!(rt; answer == most, "{rows:?}");
    }
    Ok(())
}
