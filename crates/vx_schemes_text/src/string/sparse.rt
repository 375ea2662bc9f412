//! The sparse scheme of texts.

ghost use Rattle.std.specs.Prelude.{◌≡◌};
ghost use Rattle.vx_base.specs.Answers.{OrMemory};
ghost use Rattle.vx_scheme.specs.Rules.{descendants_of};
ghost use Rattle.vx_schemes_text.specs.NullSparse.Meaning.{not_below_indices};

mod tree;

use std::alloc::Global;
use std::sync::ledger::Ledger;
use tree::{joined_by, judged, split_by};
use vx_array::{ArrayRef, Arrays};
use vx_base::{ArrayId, DType, ExecutionCtx, Fraction, IdSet, Steps, VortexResult};
use vx_scheme::{
    AllowedIds, AncestorRules, ArrayAndStats, ChildSelection, CompressionEstimate,
    CompressorContext, DescendantRules, EstimateVerdict, GenerateStatsOptions, Scheme, Split,
};
use vx_schemes_common::excluded;

/// Sparse texts, `vortex.string.sparse`: null in more than 9 of 10 of n rows, the v texts as patches. The ratio is n / v;
/// any other column is skipped, and so is one of nulls alone. Child 0: the rows of the texts, in the narrowest unsigned
/// type. The texts stay plain.
#[derive(Clone, Copy, Debug, Default, PartialEq, Eq)]
pub struct NullDominatedSparseScheme;

// No sparse values and no dictionary below the indices: they ascend strictly, so no two are equal.
fn not_below_indices(alloc: Global) -> VortexResult<DescendantRules>
    ensures { OrMemory result (λ rules. descendants_of rules ≡ not_below_indices) }
{
    let rules = vec![in alloc;
        excluded("vortex.int.sparse", ChildSelection::All),
        excluded("vortex.int.dict", ChildSelection::All),
    ]?;
    Ok(DescendantRules::from_vec(rules))
}

impl Scheme for NullDominatedSparseScheme {
    ghost use Rattle.std.specs.Prelude.{refl};
    ghost use Rattle.vx_schemes_text.specs.NullSparse.Meaning.{null_dominated_meaning, null_dominated_lawful};

    ghost meaning = { null_dominated_meaning };

    ghost refined = { λ s allowed. s };

    ghost lawful = { null_dominated_lawful };

    ghost keeps_name = { λ s allowed. refl };

    fn scheme_name(&self) -> &'static str {
        "vortex.string.sparse"
    }

    fn matches(&self, dtype: &DType) -> bool {
        matches!(dtype, DType::Utf8(_))
    }

    fn produced_encodings(&self) -> IdSet {
        IdSet::empty().with(ArrayId::Sparse)
    }

    fn refine(&self, _allowed: &AllowedIds) -> Self {
        *self
    }

    // The validity alone decides.
    fn stats_options(&self) -> GenerateStatsOptions {
        GenerateStatsOptions::default()
    }

    // The rows of the texts.
    fn num_children(&self) -> usize {
        1
    }

    fn descendant_exclusions(&self, alloc: Global) -> VortexResult<DescendantRules> {
        not_below_indices(alloc)
    }

    fn ancestor_exclusions(&self, alloc: Global) -> VortexResult<AncestorRules> {
        Ok(AncestorRules::new_in(alloc))
    }

    fn expected_compression_ratio(
        &self,
        column: &mut ArrayAndStats,
        _site: &CompressorContext,
        _ctx: &mut ExecutionCtx,
    ) -> VortexResult<CompressionEstimate> {
        if !self.matches(column.array().dtype()) {
            return Ok(CompressionEstimate::Verdict(EstimateVerdict::Skip));
        }
        Ok(CompressionEstimate::Verdict(judged(column.array())))
    }

    // Not reached: no estimate of this scheme is `Callback`.
    fn resolve_estimate(
        &self,
        _column: &mut ArrayAndStats,
        _threshold: Option<Fraction>,
        _site: &CompressorContext,
        _ctx: &mut ExecutionCtx,
    ) -> VortexResult<EstimateVerdict> {
        Ok(EstimateVerdict::Skip)
    }

    fn split<L: Ledger>(
        &self,
        column: &mut ArrayAndStats,
        _site: &CompressorContext,
        ctx: &mut ExecutionCtx,
        steps: &mut Steps<L>,
    ) -> VortexResult<Split> {
        steps.tick();
        if !self.matches(column.array().dtype()) {
            return Ok(Split::Kept);
        }
        split_by(ctx.alloc(), column.array())
    }

    fn join(
        &self,
        column: &mut ArrayAndStats,
        _site: &CompressorContext,
        trees: Arrays,
        ctx: &mut ExecutionCtx,
    ) -> VortexResult<ArrayRef> {
        if !self.matches(column.array().dtype()) {
            return column.array().copy(ctx.alloc());
        }
        joined_by(ctx.alloc(), column.array(), trees)
    }
}
