//! The sequence scheme.

ghost use Rattle.std.specs.Prelude.{◌≡◌, IsTrue, length, true};
ghost use Rattle.vx_base.specs.Answers.{OrMemory};
ghost use Rattle.vx_base.specs.PlainType.{is_integer};
ghost use Rattle.vx_model.specs.Column.{column_of};
ghost use Rattle.vx_model.specs.Plain.{IsPlain};
ghost use Rattle.vx_model.specs.Rows.{rows};
ghost use Rattle.vx_model.specs.TreeType.{tree_type};
ghost use Rattle.vx_scheme.specs.Asked.{HasPutOff, HasValue, IsSiteTree};
ghost use Rattle.vx_scheme.specs.Bundle.{SameArray};
ghost use Rattle.vx_scheme.specs.Contexts.{site_of};
ghost use Rattle.vx_scheme.specs.Resolved.{IsResolved};
ghost use Rattle.vx_schemes_runs.specs.Sequence.Meaning.{sequence_meaning, sequence_verdict};
ghost use Rattle.vx_schemes_runs.specs.Sequence.Tree.{sequence_in};
ghost use Rattle.vx_schemes_runs.specs.Thresholds.{above};
ghost use Rattle.vx_stats.specs.Options.{includes};

mod tree;

use crate::thresholds::is_beaten;
use std::alloc::Global;
use std::sync::ledger::Ledger;
use tree::{has_null, sequence_in, sequence_made};
use vx_array::{ArrayRef, Arrays};
use vx_base::{ArrayId, DType, ExecutionCtx, Fraction, IdSet, Steps, VortexResult};
use vx_scheme::{
    AllowedIds, AncestorRules, ArrayAndStats, CompressionEstimate, CompressorContext,
    DeferredEstimate, DescendantRules, EstimateVerdict, GenerateStatsOptions, Scheme, Split,
};
use vx_schemes_common::{finished_or_kept, not_in_codes};

/// Sequence, `vortex.int.sequence`: an arithmetic sequence as its first value and its step. Skips samples, which tell
/// nothing of the other rows, and a column with a null; the estimate of any other is deferred. Its ratio is rows / 2 for an
/// arithmetic sequence; anything else is skipped. No children: the tree is finished at once.
#[derive(Clone, Copy, Debug, Default, PartialEq, Eq)]
pub struct SequenceScheme;

// Ratio rows / 2 for an arithmetic sequence; Skip for anything else, and where the ratio is at most the threshold, in which
// case the rows aren't read.
fn verdict(array: &ArrayRef, threshold: Option<Fraction>) -> EstimateVerdict
    requires plain { IsPlain array.now }
    requires integer { IsTrue (is_integer (tree_type array.now)) }
    ensures { result ≡ above threshold (sequence_verdict (length (rows array.now)) (sequence_in (column_of array.now))) }
{
    let ratio = Fraction::new(array.len(), 2);
    if is_beaten(ratio, threshold) {
        return EstimateVerdict::Skip;
    }
    match sequence_in(array) {
        Some(_) => EstimateVerdict::Ratio(ratio),
        None => EstimateVerdict::Skip,
    }
}

impl Scheme for SequenceScheme {
    ghost use Rattle.std.specs.Prelude.{refl};
    ghost use Rattle.vx_schemes_runs.specs.Sequence.Meaning.{sequence_meaning, sequence_lawful};

    ghost meaning = { sequence_meaning };

    ghost refined = { λ s allowed. s };

    ghost lawful = { sequence_lawful };

    ghost keeps_name = { λ s allowed. refl };

    fn scheme_name(&self) -> &'static str {
        "vortex.int.sequence"
    }

    fn matches(&self, dtype: &DType) -> bool {
        dtype.is_integer()
    }

    fn produced_encodings(&self) -> IdSet {
        IdSet::empty().with(ArrayId::Sequence)
    }

    fn refine(&self, _allowed: &AllowedIds) -> Self {
        *self
    }

    fn stats_options(&self) -> GenerateStatsOptions {
        GenerateStatsOptions::default()
    }

    fn num_children(&self) -> usize {
        0
    }

    fn descendant_exclusions(&self, alloc: Global) -> VortexResult<DescendantRules> {
        Ok(DescendantRules::new_in(alloc))
    }

    fn ancestor_exclusions(&self, alloc: Global) -> VortexResult<AncestorRules> {
        not_in_codes(alloc)
    }

    fn expected_compression_ratio(
        &self,
        column: &mut ArrayAndStats,
        site: &CompressorContext,
        _ctx: &mut ExecutionCtx,
    ) -> VortexResult<CompressionEstimate> {
        let array = column.array();
        if site.is_sample() || !self.matches(array.dtype()) {
            return Ok(CompressionEstimate::Verdict(EstimateVerdict::Skip));
        }
        if has_null(array) {
            Ok(CompressionEstimate::Verdict(EstimateVerdict::Skip))
        } else {
            Ok(CompressionEstimate::Deferred(DeferredEstimate::Callback))
        }
    }

    // `exact` goes beyond the trait: a ratio that is at most the threshold becomes Skip, so its rows needn't be read.
    fn resolve_estimate(
        &self,
        column: &mut ArrayAndStats,
        threshold: Option<Fraction>,
        site: &CompressorContext,
        ctx: &mut ExecutionCtx,
    ) -> VortexResult<EstimateVerdict>
        requires column { IsSiteTree column.old.array }
        requires value { HasValue (column_of column.old.array) }
        requires options { includes column.old.options (sequence_meaning self.now).options ≡ true }
        ensures answer { (sequence_meaning self.now).takes (tree_type column.old.array) ≡ true → HasPutOff (sequence_meaning self.now) (column_of column.old.array) (site_of site.now) → OrMemory result (IsResolved threshold ((sequence_meaning self.now).resolve (column_of column.old.array) (site_of site.now))) }
        ensures exact { (sequence_meaning self.now).takes (tree_type column.old.array) ≡ true → result ≡ Ok (above threshold ((sequence_meaning self.now).resolve (column_of column.old.array) (site_of site.now))) }
        ensures column { SameArray column.old column.new }
        ensures ctx { ctx.new ≡ ctx.old }
    {
        let array = column.array();
        if !self.matches(array.dtype()) {
            return Ok(EstimateVerdict::Skip);
        }
        Ok(verdict(array, threshold))
    }

    fn split<L: Ledger>(
        &self,
        column: &mut ArrayAndStats,
        _site: &CompressorContext,
        _ctx: &mut ExecutionCtx,
        steps: &mut Steps<L>,
    ) -> VortexResult<Split> {
        steps.tick();
        let array = column.array();
        if !self.matches(array.dtype()) {
            return Ok(Split::Kept);
        }
        Ok(finished_or_kept(sequence_made(array)?))
    }

    // No parts, so the column stays plain.
    fn join(
        &self,
        column: &mut ArrayAndStats,
        _site: &CompressorContext,
        _trees: Arrays,
        ctx: &mut ExecutionCtx,
    ) -> VortexResult<ArrayRef> {
        column.array().copy(ctx.alloc())
    }
}
