//! The run-end scheme.

ghost use Rattle.std.specs.Prelude.{◌≡◌, ◌≤◌, [], ◌∷◌, IsTrue, length};
ghost use Rattle.vx_base.specs.Answers.{Answers, OrMemory};
ghost use Rattle.vx_base.specs.PlainType.{is_integer};
ghost use Rattle.vx_model.specs.Column.{column_of};
ghost use Rattle.vx_model.specs.Plain.{IsPlain, plain};
ghost use Rattle.vx_model.specs.Rows.{rows};
ghost use Rattle.vx_model.specs.TreeType.{tree_type};
ghost use Rattle.vx_scheme.specs.Asked.{most_rows};
ghost use Rattle.vx_scheme.specs.Rules.{descendants_of};
ghost use Rattle.vx_scheme.specs.declared.split.Split.TheVariants.{Parts};
ghost use Rattle.vx_schemes_runs.specs.RunEnd.Meaning.{not_below_ends};
ghost use Rattle.vx_schemes_runs.specs.RunEnd.Tree.{run_values, narrowed_ends};

mod tree;

use crate::integer::runs::has_short_runs;
use std::alloc::Global;
use std::sync::ledger::Ledger;
use tree::{runs_tree, values_and_ends};
use vx_array::{ArrayRef, Arrays};
use vx_base::{ArrayId, DType, ExecutionCtx, Fraction, IdSet, Steps, VortexResult};
use vx_scheme::{
    AllowedIds, AncestorRules, ArrayAndStats, ChildSelection, CompressionEstimate,
    CompressorContext, DeferredEstimate, DescendantRules, EstimateVerdict, GenerateStatsOptions,
    Scheme, Split,
};
use vx_schemes_common::{excluded, not_in_values, pair_of, two_parts};

/// Run end, `vortex.int.runend`: runs of equal rows, each with its value and its end. Skips a column whose average run
/// length is below 4; any other is tried on a sample. Child 0: the value of each run, null where its rows are; child 1: the
/// end of each run, exclusive, in the narrowest unsigned type.
#[derive(Clone, Copy, Debug, Default, PartialEq, Eq)]
pub struct RunEndScheme;

// No dictionary, runs or sparse values below the ends: they ascend strictly, so no two are equal.
fn not_below_ends(alloc: Global) -> VortexResult<DescendantRules>
    ensures { OrMemory result (λ rules. descendants_of rules ≡ not_below_ends) }
{
    let rules = vec![in alloc;
        excluded("vortex.int.dict", ChildSelection::One(1)),
        excluded("vortex.int.runend", ChildSelection::One(1)),
        excluded("vortex.int.rle", ChildSelection::One(1)),
        excluded("vortex.int.sparse", ChildSelection::One(1)),
    ]?;
    Ok(DescendantRules::from_vec(rules))
}

// The values as part 0 and the ends as part 1.
fn parts_of(alloc: Global, array: &ArrayRef) -> VortexResult<Split>
    requires plain { IsPlain array.now }
    requires integer { IsTrue (is_integer (tree_type array.now)) }
    requires few { length (rows array.now) ≤ most_rows }
    ensures { Answers result (Parts (plain (run_values (column_of array.now)) ∷ plain (narrowed_ends (column_of array.now)) ∷ [])) }
{
    let (values, ends) = values_and_ends(alloc, array)?;
    two_parts(alloc, values, ends)
}

impl Scheme for RunEndScheme {
    ghost use Rattle.std.specs.Prelude.{refl};
    ghost use Rattle.vx_schemes_runs.specs.RunEnd.Meaning.{run_end_meaning, run_end_lawful};

    ghost meaning = { run_end_meaning };

    ghost refined = { λ s allowed. s };

    ghost lawful = { run_end_lawful };

    ghost keeps_name = { λ s allowed. refl };

    fn scheme_name(&self) -> &'static str {
        "vortex.int.runend"
    }

    fn matches(&self, dtype: &DType) -> bool {
        dtype.is_integer()
    }

    fn produced_encodings(&self) -> IdSet {
        IdSet::empty().with(ArrayId::RunEnd)
    }

    fn refine(&self, _allowed: &AllowedIds) -> Self {
        *self
    }

    fn stats_options(&self) -> GenerateStatsOptions {
        GenerateStatsOptions::default()
    }

    // The values and the ends.
    fn num_children(&self) -> usize {
        2
    }

    fn descendant_exclusions(&self, alloc: Global) -> VortexResult<DescendantRules> {
        not_below_ends(alloc)
    }

    fn ancestor_exclusions(&self, alloc: Global) -> VortexResult<AncestorRules> {
        not_in_values(alloc)
    }

    fn expected_compression_ratio(
        &self,
        column: &mut ArrayAndStats,
        _site: &CompressorContext,
        _ctx: &mut ExecutionCtx,
    ) -> VortexResult<CompressionEstimate> {
        if !self.matches(column.array().dtype()) {
            return Ok(CompressionEstimate::Verdict(EstimateVerdict::Skip));
        }
        if has_short_runs(column)? {
            Ok(CompressionEstimate::Verdict(EstimateVerdict::Skip))
        } else {
            Ok(CompressionEstimate::Deferred(DeferredEstimate::Sample))
        }
    }

    // Not reached: no estimate of this scheme is `Callback`.
    fn resolve_estimate(
        &self,
        _column: &mut ArrayAndStats,
        _threshold: Option<Fraction>,
        _site: &CompressorContext,
        _ctx: &mut ExecutionCtx,
    ) -> VortexResult<EstimateVerdict> {
        Ok(EstimateVerdict::Skip)
    }

    fn split<L: Ledger>(
        &self,
        column: &mut ArrayAndStats,
        _site: &CompressorContext,
        ctx: &mut ExecutionCtx,
        steps: &mut Steps<L>,
    ) -> VortexResult<Split> {
        steps.tick();
        if !self.matches(column.array().dtype()) {
            return Ok(Split::Kept);
        }
        parts_of(ctx.alloc(), column.array())
    }

    fn join(
        &self,
        column: &mut ArrayAndStats,
        _site: &CompressorContext,
        trees: Arrays,
        ctx: &mut ExecutionCtx,
    ) -> VortexResult<ArrayRef> {
        let array = column.array();
        array.known();
        if !self.matches(array.dtype()) {
            return array.copy(ctx.alloc());
        }
        match pair_of(trees) {
            Some((values, ends)) => runs_tree(ctx.alloc(), ends, values),
            None => array.copy(ctx.alloc()),
        }
    }
}
