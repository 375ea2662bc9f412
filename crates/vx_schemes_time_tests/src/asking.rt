//! The answers of the scheme of timestamps about short columns.

ghost use Rattle.std.specs.Prelude.{◌≡◌, ◌<◌, IfOk, IsTrue, length, true};
ghost use Rattle.vx_model.specs.Column.{column_of};
ghost use Rattle.vx_model.specs.Rows.{rows};
ghost use Rattle.vx_scheme.specs.Asked.{HasValue, IsSiteTree};

use std::alloc::Global;
use std::marker::Brand;
use std::sync::ledger::{Blank, Ledger};
use vx_array::ArrayRef;
use vx_base::{ExecutionCtx, Steps, TimeUnit, VortexError, VortexResult};
use vx_fixtures::{Told, stamps, told_by_estimate, utc};
use vx_scheme::{ArrayAndStats, CompressorContext, GenerateStatsOptions, Scheme, Split};
use vx_schemes_time::TemporalScheme;

// The most rows of a column that the scheme is asked about, well below what the trait admits.
const MOST_ROWS: u64 = 4096;

/// A bundle over a plain column. Refuses MismatchedTypes of any other.
pub(crate) fn bundle(array: ArrayRef) -> VortexResult<ArrayAndStats>
    ensures { IfOk result (λ column. column.options.count_distinct_values ≡ true) }
{
    if !array.is_plain() {
        return Err(VortexError::MismatchedTypes);
    }
    let options = GenerateStatsOptions {
        count_distinct_values: true,
    };
    Ok(ArrayAndStats::new(array, options))
}

/// A bundle over timestamps of a unit in the zone UTC, None for null; nullable where some row is null.
pub(crate) fn stamp_bundle(
    alloc: Global,
    unit: TimeUnit,
    rows: &[Option<i128>],
) -> VortexResult<ArrayAndStats>
    ensures { IfOk result (λ column. column.options.count_distinct_values ≡ true) }
{
    bundle(stamps(alloc, utc(alloc, unit)?, rows)?)
}

// Whether a column's first row is there and isn't null.
fn begins_with_a_value(array: &ArrayRef) -> bool
    ensures some { IsTrue result → 0 < length (rows array.now) }
    ensures value { IsTrue result → HasValue (column_of array.now) }
{
    array.len() > 0 && !array.is_null_at(0)
}

/// The estimate of the scheme at a fresh site. Refuses MismatchedTypes where the first row is null or not there.
pub(crate) fn told(column: &mut ArrayAndStats, ctx: &mut ExecutionCtx) -> VortexResult<Told> {
    let array = column.array();
    if array.len() > MOST_ROWS || !begins_with_a_value(array) {
        return Err(VortexError::MismatchedTypes);
    }
    let site = CompressorContext::new();
    let estimate = TemporalScheme.expected_compression_ratio(column, &site, ctx)?;
    Ok(told_by_estimate(estimate))
}

// What the scheme splits a column into.
fn counted_split<L: Ledger>(
    column: &mut ArrayAndStats,
    ctx: &mut ExecutionCtx,
    blank: Blank,
) -> VortexResult<Split>
    requires column { IsSiteTree column.old.array }
    requires name { blank.name ≡ L.name }
    requires parts { blank.parts ≡ L.parts }
    requires some { 0 < L.parts }
{
    let mut steps = Steps::<L>::new(blank);
    TemporalScheme.split(column, &CompressorContext::new(), ctx, &mut steps)
}

/// What the scheme splits a column into. Refuses MismatchedTypes where it has no row.
pub(crate) fn split(column: &mut ArrayAndStats, ctx: &mut ExecutionCtx) -> VortexResult<Split> {
    let len = column.array().len();
    if len == 0 || len > MOST_ROWS {
        return Err(VortexError::MismatchedTypes);
    }
    counted_split::<Brand>(column, ctx, Blank::new(1))
}
