//! The scheme of timestamps.

ghost use Rattle.std.specs.Prelude.{◌≡◌};
ghost use Rattle.vx_base.specs.TypeOf.{type_of};
ghost use Rattle.vx_schemes_time.specs.Temporal.Tree.{is_splittable};

mod narrowing;
mod parts;

use parts::{joined, parts_or_kept};
use std::alloc::Global;
use std::sync::ledger::Ledger;
use vx_array::{ArrayRef, Arrays};
use vx_base::{ArrayId, DType, ExecutionCtx, Fraction, IdSet, Steps, VortexResult};
use vx_scheme::{
    AllowedIds, AncestorRules, ArrayAndStats, CompressionEstimate, CompressorContext,
    DescendantRules, EstimateVerdict, GenerateStatsOptions, Scheme, Split,
};

/// Timestamps in parts, `vortex.ext.temporal`: each is split into days, seconds of the day and subseconds, which repeat and
/// pack as the timestamps themselves don't. Always used. Child 0: the days, null where the rows are; child 1: the seconds;
/// child 2: the subseconds; both non-nullable, and 0 beneath nulls. Each is of the narrowest type for its values. A column
/// with a day that doesn't fit 32 signed bits stays plain.
#[derive(Clone, Copy, Debug, Default, PartialEq, Eq)]
pub struct TemporalScheme;

// Whether it is a type of timestamps. A kind admits no unit that doesn't divide a second.
fn is_splittable(dtype: &DType) -> bool
    ensures { result ≡ is_splittable (type_of dtype.now) }
{
    match dtype {
        DType::Timestamp(kind, _) => kind.unit().divisor().is_some(),
        _ => false,
    }
}

impl Scheme for TemporalScheme {
    ghost use Rattle.std.specs.Prelude.{refl};
    ghost use Rattle.vx_schemes_time.specs.Temporal.Meaning.{temporal_meaning, temporal_lawful};

    ghost meaning = { temporal_meaning };

    ghost refined = { λ s allowed. s };

    ghost lawful = { temporal_lawful };

    ghost keeps_name = { λ s allowed. refl };

    fn scheme_name(&self) -> &'static str {
        "vortex.ext.temporal"
    }

    fn matches(&self, dtype: &DType) -> bool {
        is_splittable(dtype)
    }

    fn produced_encodings(&self) -> IdSet {
        IdSet::empty().with(ArrayId::DateTimeParts)
    }

    fn refine(&self, _allowed: &AllowedIds) -> Self {
        *self
    }

    fn stats_options(&self) -> GenerateStatsOptions {
        GenerateStatsOptions::default()
    }

    // The days, the seconds and the subseconds.
    fn num_children(&self) -> usize {
        3
    }

    fn descendant_exclusions(&self, alloc: Global) -> VortexResult<DescendantRules> {
        Ok(DescendantRules::new_in(alloc))
    }

    fn ancestor_exclusions(&self, alloc: Global) -> VortexResult<AncestorRules> {
        Ok(AncestorRules::new_in(alloc))
    }

    // No trial on a sample: no other shipped scheme takes timestamps, and the parts go through the schemes of integers.
    fn expected_compression_ratio(
        &self,
        _column: &mut ArrayAndStats,
        _site: &CompressorContext,
        _ctx: &mut ExecutionCtx,
    ) -> VortexResult<CompressionEstimate> {
        Ok(CompressionEstimate::Verdict(EstimateVerdict::AlwaysUse))
    }

    // Not reached: no estimate of this scheme is `Callback`.
    fn resolve_estimate(
        &self,
        _column: &mut ArrayAndStats,
        _threshold: Option<Fraction>,
        _site: &CompressorContext,
        _ctx: &mut ExecutionCtx,
    ) -> VortexResult<EstimateVerdict> {
        Ok(EstimateVerdict::Skip)
    }

    fn split<L: Ledger>(
        &self,
        column: &mut ArrayAndStats,
        _site: &CompressorContext,
        ctx: &mut ExecutionCtx,
        steps: &mut Steps<L>,
    ) -> VortexResult<Split> {
        steps.tick();
        if !self.matches(column.array().dtype()) {
            return Ok(Split::Kept);
        }
        parts_or_kept(column.array(), ctx)
    }

    fn join(
        &self,
        column: &mut ArrayAndStats,
        _site: &CompressorContext,
        trees: Arrays,
        ctx: &mut ExecutionCtx,
    ) -> VortexResult<ArrayRef> {
        let array = column.array();
        if !self.matches(array.dtype()) {
            return array.copy(ctx.alloc());
        }
        joined(ctx.alloc(), array, trees)
    }
}
