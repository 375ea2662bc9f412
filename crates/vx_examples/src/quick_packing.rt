//! A scheme that packs integers as the shipped one does, with an immediate ratio in place of a trial.

ghost use Rattle.std.specs.Prelude.{◌≡◌, ◌<◌};
ghost use Rattle.vx_schemes_common.specs.Produced.{MakesProduced};
ghost use Rattle.vx_examples.specs.QuickPacking.{quick_packing, quick_verdict};

mod building;

pub use building::compressor;
use std::alloc::Global;
use std::sync::ledger::Ledger;
use vx_array::{ArrayRef, Arrays};
use vx_base::{DType, ExecutionCtx, Fraction, IdSet, Steps, VortexResult};
use vx_scheme::{
    AllowedIds, AncestorRules, ArrayAndStats, CompressionEstimate, CompressorContext,
    DescendantRules, EstimateVerdict, GenerateStatsOptions, IntegerStats, Scheme, Split,
};
use vx_schemes::BitPackingScheme;

/// Packs integers from 0 on as `BitPackingScheme` does, `example.int.quickpacking`. Its ratio is
/// bits(type) / digits(greatest value), in place of a trial on a sample; a column with a negative value is skipped, and so
/// is one whose greatest value is 0. It has no children: its tree is finished at once.
#[derive(Clone, Copy, Debug, PartialEq, Eq)]
pub struct QuickPacking {
    packing: BitPackingScheme,
}

impl QuickPacking {
    /// The scheme over bit packing v1.
    pub fn new() -> QuickPacking
        ensures { MakesProduced quick_packing }
    {
        QuickPacking {
            packing: BitPackingScheme::v1(),
        }
    }
}

// Ratio bits / digits(greatest value); Skip where a value is negative or the greatest is 0.
fn verdict(stats: &IntegerStats, bits: u32) -> EstimateVerdict
    requires { 0 < stats.now.value_count }
    ensures { result ≡ quick_verdict bits stats.now.extremes }
{
    let erased = stats.erased();
    if erased.min_is_negative() {
        return EstimateVerdict::Skip;
    }
    match erased.max_ilog2() {
        Some(log) => EstimateVerdict::Ratio(Fraction::new(u64::from(bits), u64::from(log) + 1)),
        None => EstimateVerdict::Skip,
    }
}

impl Scheme for QuickPacking {
    ghost use Rattle.std.specs.Prelude.{refl};
    ghost use Rattle.vx_examples.specs.QuickPacking.{quick_packing_lawful};

    ghost meaning = { λ scheme. quick_packing };

    ghost refined = { λ scheme allowed. scheme };

    ghost lawful = { λ scheme. quick_packing_lawful };

    ghost keeps_name = { λ scheme allowed. refl };

    fn scheme_name(&self) -> &'static str {
        "example.int.quickpacking"
    }

    fn matches(&self, dtype: &DType) -> bool {
        dtype.is_integer()
    }

    fn produced_encodings(&self) -> IdSet {
        self.packing.produced_encodings()
    }

    fn refine(&self, _allowed: &AllowedIds) -> Self {
        *self
    }

    fn stats_options(&self) -> GenerateStatsOptions {
        GenerateStatsOptions::default()
    }

    fn num_children(&self) -> usize {
        0
    }

    fn descendant_exclusions(&self, alloc: Global) -> VortexResult<DescendantRules> {
        Ok(DescendantRules::new_in(alloc))
    }

    fn ancestor_exclusions(&self, alloc: Global) -> VortexResult<AncestorRules> {
        Ok(AncestorRules::new_in(alloc))
    }

    fn expected_compression_ratio(
        &self,
        column: &mut ArrayAndStats,
        _site: &CompressorContext,
        _ctx: &mut ExecutionCtx,
    ) -> VortexResult<CompressionEstimate> {
        let array = column.array();
        array.known();
        let dtype = array.dtype();
        if !dtype.is_integer() {
            return Ok(CompressionEstimate::Verdict(EstimateVerdict::Skip));
        }
        let bits = dtype.ptype().bit_width();
        let stats = column.integer_summary()?;
        Ok(CompressionEstimate::Verdict(verdict(stats, bits)))
    }

    // Never asked: no estimate is deferred.
    fn resolve_estimate(
        &self,
        _column: &mut ArrayAndStats,
        _threshold: Option<Fraction>,
        _site: &CompressorContext,
        _ctx: &mut ExecutionCtx,
    ) -> VortexResult<EstimateVerdict> {
        Ok(EstimateVerdict::Skip)
    }

    // The step is taken by the shipped scheme.
    fn split<L: Ledger>(
        &self,
        column: &mut ArrayAndStats,
        site: &CompressorContext,
        ctx: &mut ExecutionCtx,
        steps: &mut Steps<L>,
    ) -> VortexResult<Split> {
        self.packing.split(column, site, ctx, steps)
    }

    // It has no parts, so the column stays plain.
    fn join(
        &self,
        column: &mut ArrayAndStats,
        _site: &CompressorContext,
        _trees: Arrays,
        ctx: &mut ExecutionCtx,
    ) -> VortexResult<ArrayRef> {
        column.array().copy(ctx.alloc())
    }
}
