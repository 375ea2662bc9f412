//! The run-length scheme: runs in blocks.

ghost use Rattle.std.specs.Prelude.{◌≡◌, [], ◌∷◌, IsTrue};
ghost use Rattle.vx_base.specs.Answers.{Answers, OrMemory};
ghost use Rattle.vx_base.specs.PlainType.{is_integer};
ghost use Rattle.vx_model.specs.Column.{column_of};
ghost use Rattle.vx_model.specs.Plain.{IsPlain, plain};
ghost use Rattle.vx_model.specs.TreeType.{tree_type};
ghost use Rattle.vx_scheme.specs.Rules.{descendants_of};
ghost use Rattle.vx_scheme.specs.declared.split.Split.TheVariants.{Parts};
ghost use Rattle.vx_schemes_runs.specs.RunLength.Meaning.{not_below_numbers};
ghost use Rattle.vx_schemes_runs.specs.RunLength.Tree.{head_values, narrowed_run_numbers, narrowed_offsets};

mod tree;

use crate::integer::runs::has_short_runs;
use std::alloc::Global;
use std::sync::ledger::Ledger;
use tree::{rle_tree, values_numbers_offsets};
use vx_array::{ArrayRef, Arrays};
use vx_base::{ArrayId, DType, ExecutionCtx, Fraction, IdSet, Steps, VortexResult};
use vx_scheme::{
    AllowedIds, AncestorRules, ArrayAndStats, ChildSelection, CompressionEstimate,
    CompressorContext, DeferredEstimate, DescendantRules, EstimateVerdict, GenerateStatsOptions,
    Scheme, Split,
};
use vx_schemes_common::{excluded, not_in_values, three_parts, triple_of};

/// Run length, `vortex.int.rle`: runs of equal rows that end with each block of 1,024 rows. Skips a column whose average
/// run length is below 4, and any at budget 0, since its gain comes mostly from the schemes of its children; any other is
/// tried on a sample. Child 0: the value of each run, null where its rows are; child 1: for each row the number of its run
/// within its block, padded with 0 to whole blocks; child 2: for each block the number of runs before it. Children 1 and 2
/// are of the narrowest unsigned type.
#[derive(Clone, Copy, Debug, Default, PartialEq, Eq)]
pub struct IntRLEScheme;

// No dictionary and no sparse values below the numbers and the offsets: both are small numbers that bit packing takes.
fn not_below_numbers(alloc: Global) -> VortexResult<DescendantRules>
    ensures { OrMemory result (λ rules. descendants_of rules ≡ not_below_numbers) }
{
    let rules = vec![in alloc;
        excluded("vortex.int.dict", ChildSelection::Many(1, 2)),
        excluded("vortex.int.sparse", ChildSelection::Many(1, 2)),
    ]?;
    Ok(DescendantRules::from_vec(rules))
}

// The values as part 0, the numbers as part 1 and the offsets as part 2.
fn parts_of(alloc: Global, array: &ArrayRef) -> VortexResult<Split>
    requires plain { IsPlain array.now }
    requires integer { IsTrue (is_integer (tree_type array.now)) }
    ensures { Answers result (Parts (plain (head_values (column_of array.now)) ∷ plain (narrowed_run_numbers (column_of array.now)) ∷ plain (narrowed_offsets (column_of array.now)) ∷ [])) }
{
    let (values, numbers, offsets) = values_numbers_offsets(alloc, array)?;
    three_parts(alloc, values, numbers, offsets)
}

impl Scheme for IntRLEScheme {
    ghost use Rattle.std.specs.Prelude.{refl};
    ghost use Rattle.vx_schemes_runs.specs.RunLength.Meaning.{int_rle_meaning, int_rle_lawful};

    ghost meaning = { int_rle_meaning };

    ghost refined = { λ s allowed. s };

    ghost lawful = { int_rle_lawful };

    ghost keeps_name = { λ s allowed. refl };

    fn scheme_name(&self) -> &'static str {
        "vortex.int.rle"
    }

    fn matches(&self, dtype: &DType) -> bool {
        dtype.is_integer()
    }

    fn produced_encodings(&self) -> IdSet {
        IdSet::empty().with(ArrayId::Rle)
    }

    fn refine(&self, _allowed: &AllowedIds) -> Self {
        *self
    }

    fn stats_options(&self) -> GenerateStatsOptions {
        GenerateStatsOptions::default()
    }

    // The values, the numbers and the offsets.
    fn num_children(&self) -> usize {
        3
    }

    fn descendant_exclusions(&self, alloc: Global) -> VortexResult<DescendantRules> {
        not_below_numbers(alloc)
    }

    fn ancestor_exclusions(&self, alloc: Global) -> VortexResult<AncestorRules> {
        not_in_values(alloc)
    }

    fn expected_compression_ratio(
        &self,
        column: &mut ArrayAndStats,
        site: &CompressorContext,
        _ctx: &mut ExecutionCtx,
    ) -> VortexResult<CompressionEstimate> {
        if site.finished_cascading() || !self.matches(column.array().dtype()) {
            return Ok(CompressionEstimate::Verdict(EstimateVerdict::Skip));
        }
        if has_short_runs(column)? {
            Ok(CompressionEstimate::Verdict(EstimateVerdict::Skip))
        } else {
            Ok(CompressionEstimate::Deferred(DeferredEstimate::Sample))
        }
    }

    // Not reached: no estimate of this scheme is `Callback`.
    fn resolve_estimate(
        &self,
        _column: &mut ArrayAndStats,
        _threshold: Option<Fraction>,
        _site: &CompressorContext,
        _ctx: &mut ExecutionCtx,
    ) -> VortexResult<EstimateVerdict> {
        Ok(EstimateVerdict::Skip)
    }

    fn split<L: Ledger>(
        &self,
        column: &mut ArrayAndStats,
        _site: &CompressorContext,
        ctx: &mut ExecutionCtx,
        steps: &mut Steps<L>,
    ) -> VortexResult<Split> {
        steps.tick();
        if !self.matches(column.array().dtype()) {
            return Ok(Split::Kept);
        }
        parts_of(ctx.alloc(), column.array())
    }

    fn join(
        &self,
        column: &mut ArrayAndStats,
        _site: &CompressorContext,
        trees: Arrays,
        ctx: &mut ExecutionCtx,
    ) -> VortexResult<ArrayRef> {
        let array = column.array();
        array.known();
        if !self.matches(array.dtype()) {
            return array.copy(ctx.alloc());
        }
        match triple_of(trees) {
            Some((values, numbers, offsets)) => {
                rle_tree(ctx.alloc(), values, numbers, offsets, array.len())
            }
            None => array.copy(ctx.alloc()),
        }
    }
}
