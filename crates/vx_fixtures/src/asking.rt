//! The answers of any scheme about a short column, as plain data.

ghost use Rattle.std.specs.Prelude.{◌≡◌, ◌<◌, length, IsTrue, true};
ghost use Rattle.vx_base.specs.PlainType.{is_integer};
ghost use Rattle.vx_model.specs.Column.{column_of};
ghost use Rattle.vx_model.specs.Rows.{rows};
ghost use Rattle.vx_model.specs.TreeType.{tree_type};
ghost use Rattle.vx_scheme.specs.Asked.{IsSiteTree, HasValue};

use crate::columns::{bundle, context};
use std::alloc::Global;
use std::marker::Brand;
use std::sync::ledger::{Blank, Ledger};
use vx_array::{ArrayRef, Arrays};
use vx_base::{ExecutionCtx, Fraction, PType, Steps, VortexError, VortexResult};
use vx_scheme::{
    ArrayAndStats, CompressionEstimate, CompressorContext, DeferredEstimate, EstimateVerdict,
    Scheme, Split,
};

// The most rows of a column that a scheme is asked about: four blocks, well below what the trait admits.
const MOST_ROWS: u64 = 4096;

/// An estimate or a verdict of a scheme, compared by its parts: ratios as they are written, not by their value.
#[derive(Clone, Copy, Debug, PartialEq, Eq)]
pub enum Told {
    /// Skip.
    Nothing,
    /// Always use.
    Always,
    /// A ratio: numerator and denominator.
    Ratio(u64, u64),
    /// Deferred to a trial on a sample.
    Sampled,
    /// Deferred until it is asked again.
    Later,
}

// A verdict as plain data.
fn told_by_verdict(verdict: EstimateVerdict) -> Told {
    match verdict {
        EstimateVerdict::Skip => Told::Nothing,
        EstimateVerdict::AlwaysUse => Told::Always,
        EstimateVerdict::Ratio(ratio) => Told::Ratio(ratio.num(), ratio.den()),
    }
}

/// An estimate as plain data.
pub fn told_by_estimate(estimate: CompressionEstimate) -> Told {
    match estimate {
        CompressionEstimate::Verdict(verdict) => told_by_verdict(verdict),
        CompressionEstimate::Deferred(DeferredEstimate::Sample) => Told::Sampled,
        CompressionEstimate::Deferred(DeferredEstimate::Callback) => Told::Later,
    }
}

// Whether a column's first row is there and has a value.
#[tactic(auto, using(vx_scheme::proofs::NullLemmas::some_value))]
fn begins_with_a_value(array: &ArrayRef) -> bool
    requires { IsTrue (is_integer (tree_type array.now)) }
    ensures some { IsTrue result → 0 < length (rows array.now) }
    ensures value { IsTrue result → HasValue (column_of array.now) }
{
    array.len() > 0 && array.integer_at(0).is_some()
}

// The estimate of a scheme for a column at a site, and its deferred verdict.
fn answers<S: Scheme>(
    scheme: &S,
    site: &CompressorContext,
    threshold: Option<Fraction>,
    column: &mut ArrayAndStats,
    ctx: &mut ExecutionCtx,
) -> VortexResult<(Told, Told)>
    requires integer { IsTrue (is_integer (tree_type column.old.array)) }
    requires options { column.old.options.count_distinct_values ≡ true }
{
    let array = column.array();
    if array.len() > MOST_ROWS || !begins_with_a_value(array) {
        return Err(VortexError::MismatchedTypes);
    }
    let estimate = scheme.expected_compression_ratio(column, site, ctx)?;
    let verdict = scheme.resolve_estimate(column, threshold, site, ctx)?;
    Ok((told_by_estimate(estimate), told_by_verdict(verdict)))
}

/// The estimate of a scheme for a column at a site, and its deferred verdict without a threshold. Refuses MismatchedTypes
/// where the first row has no value or there are more than 4,096 rows.
pub fn told_of<S: Scheme>(
    alloc: Global,
    scheme: &S,
    site: &CompressorContext,
    ptype: PType,
    rows: &[Option<i128>],
) -> VortexResult<(Told, Told)> {
    told_above(alloc, scheme, site, None, ptype, rows)
}

/// `told_of` with a threshold for the deferred verdict.
pub fn told_above<S: Scheme>(
    alloc: Global,
    scheme: &S,
    site: &CompressorContext,
    threshold: Option<Fraction>,
    ptype: PType,
    rows: &[Option<i128>],
) -> VortexResult<(Told, Told)> {
    let mut ctx = context(alloc)?;
    let mut column = bundle(alloc, ptype, rows)?;
    answers(scheme, site, threshold, &mut column, &mut ctx)
}

// The number of parts that a scheme makes of a column, and its tree over the plain parts.
fn made<S: Scheme, L: Ledger>(
    scheme: &S,
    column: &mut ArrayAndStats,
    ctx: &mut ExecutionCtx,
    blank: Blank,
) -> VortexResult<(u64, ArrayRef)>
    requires column { IsSiteTree column.old.array }
    requires options { column.old.options.count_distinct_values ≡ true }
    requires takes { (S.meaning scheme.now).takes (tree_type column.old.array) ≡ true }
    requires name { blank.name ≡ L.name }
    requires parts { blank.parts ≡ L.parts }
    requires some { 0 < L.parts }
{
    let mut steps = Steps::<L>::new(blank);
    let site = CompressorContext::new();
    column.array().known();
    match scheme.split(column, &site, ctx, &mut steps)? {
        Split::Kept => Ok((
            0,
            scheme.join(column, &site, Arrays::new_in(ctx.alloc()), ctx)?,
        )),
        Split::Finished(tree) => Ok((0, tree)),
        Split::Parts(parts) => Ok((parts.len(), scheme.join(column, &site, parts, ctx)?)),
    }
}

/// `made_of` of a column whose options ask for distinct values.
pub fn made_of_taken<S: Scheme>(
    scheme: &S,
    column: &mut ArrayAndStats,
    ctx: &mut ExecutionCtx,
) -> VortexResult<(u64, ArrayRef)>
    requires { column.old.options.count_distinct_values ≡ true }
{
    let array = column.array();
    if array.len() == 0 || array.len() > MOST_ROWS || !scheme.matches(array.dtype()) {
        return Err(VortexError::MismatchedTypes);
    }
    made::<S, Brand>(scheme, column, ctx, Blank::new(1))
}

/// The number of parts that a scheme makes of a column at a fresh site, and its tree over the plain parts. Refuses
/// MismatchedTypes where the scheme doesn't take the column, or the column has no row or more than 4,096.
pub fn made_of<S: Scheme>(
    alloc: Global,
    scheme: &S,
    ptype: PType,
    rows: &[Option<i128>],
) -> VortexResult<(u64, ArrayRef)> {
    let mut ctx = context(alloc)?;
    let mut column = bundle(alloc, ptype, rows)?;
    made_of_taken(scheme, &mut column, &mut ctx)
}

/// How many exclusion rules a scheme has: against others below itself, and against itself below others.
pub fn rules_of<S: Scheme>(alloc: Global, scheme: &S) -> VortexResult<(u64, u64)> {
    let below = scheme.descendant_exclusions(alloc)?.len();
    let above = scheme.ancestor_exclusions(alloc)?.len();
    Ok((below, above))
}
