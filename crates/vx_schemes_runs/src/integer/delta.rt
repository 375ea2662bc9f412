//! The delta scheme.

ghost use Rattle.std.specs.Prelude.{◌≡◌, true};
ghost use Rattle.vx_base.specs.Answers.{Answers, OrMemory};
ghost use Rattle.vx_model.specs.Column.{column_of};
ghost use Rattle.vx_model.specs.TreeType.{tree_type};
ghost use Rattle.vx_scheme.specs.Asked.{HasPutOff, HasValue, IsSiteTree};
ghost use Rattle.vx_scheme.specs.Bundle.{SameArray};
ghost use Rattle.vx_scheme.specs.Contexts.{site_of};
ghost use Rattle.vx_scheme.specs.Resolved.{IsResolved};
ghost use Rattle.vx_scheme.specs.Rules.{descendants_of};
ghost use Rattle.vx_schemes_common.specs.Produced.{MakesProduced};
ghost use Rattle.vx_schemes_runs.specs.Delta.Meaning.{delta_meaning, least_ratio, not_twice};
ghost use Rattle.vx_schemes_runs.specs.Thresholds.{above};
ghost use Rattle.vx_stats.specs.Options.{includes};

mod blocks;
mod ratio;
mod spread;

use blocks::{delta_joined, delta_parts};
use ratio::resolved;
use std::alloc::Global;
use std::sync::ledger::Ledger;
use vx_array::{ArrayRef, Arrays};
use vx_base::{ArrayId, DType, ExecutionCtx, Fraction, IdSet, Steps, VortexResult};
use vx_blocks::BLOCK_ROWS;
use vx_scheme::{
    AllowedIds, AncestorRules, ArrayAndStats, ChildSelection, CompressionEstimate,
    CompressorContext, DeferredEstimate, DescendantRules, EstimateVerdict, GenerateStatsOptions,
    Scheme, Split,
};
use vx_schemes_common::{excluded, not_in_codes};

// 5/4 by default: a lower ratio saves at most a fifth of the bytes, for which the prefix sums of decoding are too dear.
const MIN_RATIO_NUM: u64 = 5;

const MIN_RATIO_DEN: u64 = 4;

/// Delta, `vortex.int.delta`: the differences from row to row, in blocks of 1,024 rows. Skips a column shorter than a
/// block, and any at budget 0; the estimate of any other is deferred, since it takes a pass over the differences. Its ratio
/// is `0.95 * rows * bits(type) / (rows in whole blocks * (digits(greatest - least difference) + 1))`: 5 % off for the
/// prefix sums that decoding takes. Skips where all differences are equal, and where the ratio is at most `min_ratio`, 5/4
/// by default. Child 0: the base of each block, its first value; child 1: the differences, 0 at a block's first row and in
/// the padding of the last block. A null has the value before it. Both are of the column's type, without nulls.
#[derive(Clone, Copy, Debug, PartialEq, Eq)]
pub struct DeltaScheme {
    min_ratio: Fraction,
}

impl DeltaScheme {
    /// The scheme that skips a column whose ratio is at most `min_ratio`.
    pub fn new(min_ratio: Fraction) -> Self
        ensures least { least_ratio result ≡ min_ratio }
        ensures produced { MakesProduced (delta_meaning result) }
    {
        DeltaScheme { min_ratio }
    }

    /// The greatest ratio that is skipped.
    pub fn min_ratio(&self) -> Fraction
        ensures { result ≡ least_ratio self.now }
    {
        self.min_ratio
    }
}

impl Default for DeltaScheme {
    ghost use Rattle.std.specs.Prelude.{◌≡◌};
    ghost use Rattle.vx_schemes_runs.specs.Delta.Meaning.{default_delta};

    ghost is_default = { λ scheme. scheme ≡ default_delta };

    fn default() -> Self {
        DeltaScheme::new(Fraction::new(MIN_RATIO_NUM, MIN_RATIO_DEN))
    }
}

// No delta below a delta: differences of differences would take two prefix sums to decode.
fn not_twice(alloc: Global) -> VortexResult<DescendantRules>
    ensures { OrMemory result (λ rules. descendants_of rules ≡ not_twice) }
{
    let rules = vec![in alloc; excluded("vortex.int.delta", ChildSelection::All)]?;
    Ok(DescendantRules::from_vec(rules))
}

impl Scheme for DeltaScheme {
    ghost use Rattle.std.specs.Prelude.{refl};
    ghost use Rattle.vx_schemes_runs.specs.Delta.Meaning.{delta_meaning, delta_lawful};

    ghost meaning = { delta_meaning };

    ghost refined = { λ s allowed. s };

    ghost lawful = { delta_lawful };

    ghost keeps_name = { λ s allowed. refl };

    fn scheme_name(&self) -> &'static str {
        "vortex.int.delta"
    }

    fn matches(&self, dtype: &DType) -> bool {
        dtype.is_integer()
    }

    fn produced_encodings(&self) -> IdSet {
        IdSet::empty().with(ArrayId::Delta)
    }

    fn refine(&self, _allowed: &AllowedIds) -> Self {
        *self
    }

    fn stats_options(&self) -> GenerateStatsOptions {
        GenerateStatsOptions::default()
    }

    // The bases and the differences.
    fn num_children(&self) -> usize {
        2
    }

    fn descendant_exclusions(&self, alloc: Global) -> VortexResult<DescendantRules> {
        not_twice(alloc)
    }

    fn ancestor_exclusions(&self, alloc: Global) -> VortexResult<AncestorRules> {
        not_in_codes(alloc)
    }

    fn expected_compression_ratio(
        &self,
        column: &mut ArrayAndStats,
        site: &CompressorContext,
        _ctx: &mut ExecutionCtx,
    ) -> VortexResult<CompressionEstimate> {
        if site.finished_cascading() || column.array_len() < BLOCK_ROWS as u64 {
            return Ok(CompressionEstimate::Verdict(EstimateVerdict::Skip));
        }
        Ok(CompressionEstimate::Deferred(DeferredEstimate::Callback))
    }

    // `exact` goes beyond the trait: a ratio that is at most the threshold becomes Skip, so its rows needn't be read.
    fn resolve_estimate(
        &self,
        column: &mut ArrayAndStats,
        threshold: Option<Fraction>,
        site: &CompressorContext,
        ctx: &mut ExecutionCtx,
    ) -> VortexResult<EstimateVerdict>
        requires column { IsSiteTree column.old.array }
        requires value { HasValue (column_of column.old.array) }
        requires options { includes column.old.options (delta_meaning self.now).options ≡ true }
        ensures answer { (delta_meaning self.now).takes (tree_type column.old.array) ≡ true → HasPutOff (delta_meaning self.now) (column_of column.old.array) (site_of site.now) → OrMemory result (IsResolved threshold ((delta_meaning self.now).resolve (column_of column.old.array) (site_of site.now))) }
        ensures exact { (delta_meaning self.now).takes (tree_type column.old.array) ≡ true → Answers result (above threshold ((delta_meaning self.now).resolve (column_of column.old.array) (site_of site.now))) }
        ensures column { SameArray column.old column.new }
        ensures ctx { ctx.new ≡ ctx.old }
    {
        let array = column.array();
        if !self.matches(array.dtype()) {
            return Ok(EstimateVerdict::Skip);
        }
        resolved(ctx.alloc(), array, self.min_ratio, threshold)
    }

    fn split<L: Ledger>(
        &self,
        column: &mut ArrayAndStats,
        _site: &CompressorContext,
        ctx: &mut ExecutionCtx,
        steps: &mut Steps<L>,
    ) -> VortexResult<Split> {
        steps.tick();
        let array = column.array();
        if !self.matches(array.dtype()) {
            return Ok(Split::Kept);
        }
        delta_parts(ctx.alloc(), array)
    }

    fn join(
        &self,
        column: &mut ArrayAndStats,
        _site: &CompressorContext,
        trees: Arrays,
        ctx: &mut ExecutionCtx,
    ) -> VortexResult<ArrayRef> {
        let array = column.array();
        if !self.matches(array.dtype()) {
            return array.copy(ctx.alloc());
        }
        delta_joined(ctx.alloc(), array, trees)
    }
}
