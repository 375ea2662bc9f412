//! The scheme that takes no column.

use crate::allowed::AllowedIds;
use crate::array_and_stats::ArrayAndStats;
use crate::context::CompressorContext;
use crate::estimate::{CompressionEstimate, EstimateVerdict};
use crate::rules::{AncestorRules, DescendantRules};
use crate::scheme::Scheme;
use crate::split::Split;
use std::alloc::Global;
use std::sync::ledger::Ledger;
use vx_array::{ArrayRef, Arrays};
use vx_base::{DType, ExecutionCtx, Fraction, IdSet, Steps, VortexResult};
use vx_stats::GenerateStatsOptions;

/// A scheme that takes no column, `vortex.none`: the type of a list of schemes that has none of the caller's own.
#[derive(Clone, Copy, Debug, PartialEq, Eq)]
pub struct NoScheme;

impl Scheme for NoScheme {
    ghost use Rattle.vx_scheme.specs.NoMeaning.{no_meaning, no_lawful};
    ghost use Rattle.std.specs.Prelude.{refl};

    ghost meaning = { no_meaning };

    ghost refined = { λ s allowed. s };

    ghost lawful = { no_lawful };

    ghost keeps_name = { λ s allowed. refl };

    fn scheme_name(&self) -> &'static str {
        "vortex.none"
    }

    fn matches(&self, _dtype: &DType) -> bool {
        false
    }

    fn produced_encodings(&self) -> IdSet {
        IdSet::empty()
    }

    fn refine(&self, _allowed: &AllowedIds) -> Self {
        *self
    }

    fn stats_options(&self) -> GenerateStatsOptions {
        GenerateStatsOptions::default()
    }

    fn num_children(&self) -> usize {
        0
    }

    fn descendant_exclusions(&self, alloc: Global) -> VortexResult<DescendantRules> {
        Ok(DescendantRules::new_in(alloc))
    }

    fn ancestor_exclusions(&self, alloc: Global) -> VortexResult<AncestorRules> {
        Ok(AncestorRules::new_in(alloc))
    }

    fn expected_compression_ratio(
        &self,
        _column: &mut ArrayAndStats,
        _site: &CompressorContext,
        _ctx: &mut ExecutionCtx,
    ) -> VortexResult<CompressionEstimate> {
        Ok(CompressionEstimate::Verdict(EstimateVerdict::Skip))
    }

    fn resolve_estimate(
        &self,
        _column: &mut ArrayAndStats,
        _threshold: Option<Fraction>,
        _site: &CompressorContext,
        _ctx: &mut ExecutionCtx,
    ) -> VortexResult<EstimateVerdict> {
        Ok(EstimateVerdict::Skip)
    }

    fn split<L: Ledger>(
        &self,
        _column: &mut ArrayAndStats,
        _site: &CompressorContext,
        _ctx: &mut ExecutionCtx,
        steps: &mut Steps<L>,
    ) -> VortexResult<Split> {
        steps.tick();
        Ok(Split::Kept)
    }

    // It makes no parts, so nothing is promised; the plain column is an honest answer.
    fn join(
        &self,
        column: &mut ArrayAndStats,
        _site: &CompressorContext,
        _trees: Arrays,
        ctx: &mut ExecutionCtx,
    ) -> VortexResult<ArrayRef> {
        column.array().copy(ctx.alloc())
    }
}
