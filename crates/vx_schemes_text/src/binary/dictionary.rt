//! The dictionary scheme of binaries.

use crate::dictionary::{estimated, joined_by, no_codes_of_codes, split_by};
use std::alloc::Global;
use std::sync::ledger::Ledger;
use vx_array::{ArrayRef, Arrays};
use vx_base::{ArrayId, DType, ExecutionCtx, Fraction, IdSet, Steps, VortexResult};
use vx_scheme::{
    AllowedIds, AncestorRules, ArrayAndStats, CompressionEstimate, CompressorContext,
    DescendantRules, EstimateVerdict, GenerateStatsOptions, Scheme, Split,
};

/// Dictionary of binaries, `vortex.binary.dict`: each row as the code of its value, its place among the distinct ones by
/// first appearance. Tried on a sample, but skipped where the estimate of the distinct values is above half of the number
/// of valid rows. Child 0: the distinct values; child 1: the codes, null where the row is.
#[derive(Clone, Copy, Debug, Default, PartialEq, Eq)]
pub struct BinaryDictScheme;

impl Scheme for BinaryDictScheme {
    ghost use Rattle.std.specs.Prelude.{refl};
    ghost use Rattle.vx_schemes_text.specs.Dictionary.Meaning.{binary_dict_meaning, binary_dict_lawful};

    ghost meaning = { binary_dict_meaning };

    ghost refined = { λ s allowed. s };

    ghost lawful = { binary_dict_lawful };

    ghost keeps_name = { λ s allowed. refl };

    fn scheme_name(&self) -> &'static str {
        "vortex.binary.dict"
    }

    fn matches(&self, dtype: &DType) -> bool {
        matches!(dtype, DType::Binary(_))
    }

    fn produced_encodings(&self) -> IdSet {
        IdSet::empty().with(ArrayId::Dict)
    }

    fn refine(&self, _allowed: &AllowedIds) -> Self {
        *self
    }

    fn stats_options(&self) -> GenerateStatsOptions {
        GenerateStatsOptions {
            count_distinct_values: true,
        }
    }

    // The values and the codes.
    fn num_children(&self) -> usize {
        2
    }

    fn descendant_exclusions(&self, alloc: Global) -> VortexResult<DescendantRules> {
        no_codes_of_codes(alloc)
    }

    fn ancestor_exclusions(&self, alloc: Global) -> VortexResult<AncestorRules> {
        Ok(AncestorRules::new_in(alloc))
    }

    fn expected_compression_ratio(
        &self,
        column: &mut ArrayAndStats,
        _site: &CompressorContext,
        ctx: &mut ExecutionCtx,
    ) -> VortexResult<CompressionEstimate> {
        if !self.matches(column.array().dtype()) {
            return Ok(CompressionEstimate::Verdict(EstimateVerdict::Skip));
        }
        estimated(column, ctx)
    }

    // Not reached: no estimate of this scheme is `Callback`.
    fn resolve_estimate(
        &self,
        _column: &mut ArrayAndStats,
        _threshold: Option<Fraction>,
        _site: &CompressorContext,
        _ctx: &mut ExecutionCtx,
    ) -> VortexResult<EstimateVerdict> {
        Ok(EstimateVerdict::Skip)
    }

    fn split<L: Ledger>(
        &self,
        column: &mut ArrayAndStats,
        _site: &CompressorContext,
        ctx: &mut ExecutionCtx,
        steps: &mut Steps<L>,
    ) -> VortexResult<Split> {
        steps.tick();
        if !self.matches(column.array().dtype()) {
            return Ok(Split::Kept);
        }
        split_by(ctx.alloc(), column.array())
    }

    fn join(
        &self,
        column: &mut ArrayAndStats,
        _site: &CompressorContext,
        trees: Arrays,
        ctx: &mut ExecutionCtx,
    ) -> VortexResult<ArrayRef> {
        if !self.matches(column.array().dtype()) {
            return column.array().copy(ctx.alloc());
        }
        joined_by(ctx.alloc(), column.array(), trees)
    }
}
