//! The sparse scheme.

ghost use Rattle.std.specs.Prelude.{◌≡◌};
ghost use Rattle.vx_base.specs.Answers.{OrMemory};
ghost use Rattle.vx_scheme.specs.Rules.{descendants_of};
ghost use Rattle.vx_schemes_runs.specs.Sparse.Meaning.{not_below_rows};

mod counts;
mod parts;
mod ratio;
mod tree;
mod vote;

use counts::frequent_of;
use parts::{joined_by, split_by};
use ratio::judged;
use std::alloc::Global;
use std::sync::ledger::Ledger;
use vx_array::{ArrayRef, Arrays};
use vx_base::{ArrayId, DType, ExecutionCtx, Fraction, IdSet, Steps, VortexResult};
use vx_scheme::{
    AllowedIds, AncestorRules, ArrayAndStats, ChildSelection, CompressionEstimate,
    CompressorContext, DescendantRules, EstimateVerdict, GenerateStatsOptions, Scheme, Split,
};
use vx_schemes_common::excluded;

/// Sparse, `vortex.int.sparse`: one fill in most rows, the other rows as patches. Where more than 9 of 10 of n rows are
/// null, the fill is null and the ratio n / v, with v the number of valid rows. Else the fill is the most frequent value;
/// where it stands in f of the valid rows the ratio is v / (v - f), Skip at 10 * f < 9 * v and at f = v. Child 0: the
/// patched values; child 1: their rows, in the narrowest unsigned type. A column of one value, or of nulls alone, becomes a
/// Constant.
#[derive(Clone, Copy, Debug, Default, PartialEq, Eq)]
pub struct SparseScheme;

// No dictionary, runs or sparse values below the rows of the patches: they ascend strictly, so no two are equal.
fn not_below_rows(alloc: Global) -> VortexResult<DescendantRules>
    ensures { OrMemory result (λ rules. descendants_of rules ≡ not_below_rows) }
{
    let rules = vec![in alloc;
        excluded("vortex.int.dict", ChildSelection::One(1)),
        excluded("vortex.int.runend", ChildSelection::One(1)),
        excluded("vortex.int.rle", ChildSelection::One(1)),
        excluded("vortex.int.sparse", ChildSelection::One(1)),
    ]?;
    Ok(DescendantRules::from_vec(rules))
}

impl Scheme for SparseScheme {
    ghost use Rattle.std.specs.Prelude.{refl};
    ghost use Rattle.vx_schemes_runs.specs.Sparse.Meaning.{sparse_meaning, sparse_lawful};

    ghost meaning = { sparse_meaning };

    ghost refined = { λ s allowed. s };

    ghost lawful = { sparse_lawful };

    ghost keeps_name = { λ s allowed. refl };

    fn scheme_name(&self) -> &'static str {
        "vortex.int.sparse"
    }

    fn matches(&self, dtype: &DType) -> bool {
        dtype.is_integer()
    }

    fn produced_encodings(&self) -> IdSet {
        IdSet::empty().with(ArrayId::Sparse).with(ArrayId::Constant)
    }

    fn refine(&self, _allowed: &AllowedIds) -> Self {
        *self
    }

    fn stats_options(&self) -> GenerateStatsOptions {
        GenerateStatsOptions {
            count_distinct_values: true,
        }
    }

    // The patched values and their rows.
    fn num_children(&self) -> usize {
        2
    }

    fn descendant_exclusions(&self, alloc: Global) -> VortexResult<DescendantRules> {
        not_below_rows(alloc)
    }

    fn ancestor_exclusions(&self, alloc: Global) -> VortexResult<AncestorRules> {
        Ok(AncestorRules::new_in(alloc))
    }

    fn expected_compression_ratio(
        &self,
        column: &mut ArrayAndStats,
        _site: &CompressorContext,
        _ctx: &mut ExecutionCtx,
    ) -> VortexResult<CompressionEstimate> {
        if !self.matches(column.array().dtype()) {
            return Ok(CompressionEstimate::Verdict(EstimateVerdict::Skip));
        }
        Ok(CompressionEstimate::Verdict(judged(column)?))
    }

    // Not reached: no estimate of this scheme is `Callback`.
    fn resolve_estimate(
        &self,
        _column: &mut ArrayAndStats,
        _threshold: Option<Fraction>,
        _site: &CompressorContext,
        _ctx: &mut ExecutionCtx,
    ) -> VortexResult<EstimateVerdict> {
        Ok(EstimateVerdict::Skip)
    }

    fn split<L: Ledger>(
        &self,
        column: &mut ArrayAndStats,
        _site: &CompressorContext,
        ctx: &mut ExecutionCtx,
        steps: &mut Steps<L>,
    ) -> VortexResult<Split> {
        steps.tick();
        if !self.matches(column.array().dtype()) {
            return Ok(Split::Kept);
        }
        let frequent = frequent_of(column, ctx)?;
        split_by(ctx.alloc(), column.array(), frequent)
    }

    fn join(
        &self,
        column: &mut ArrayAndStats,
        _site: &CompressorContext,
        trees: Arrays,
        ctx: &mut ExecutionCtx,
    ) -> VortexResult<ArrayRef> {
        if !self.matches(column.array().dtype()) {
            return column.array().copy(ctx.alloc());
        }
        let frequent = frequent_of(column, ctx)?;
        joined_by(ctx.alloc(), column.array(), frequent, trees)
    }
}
