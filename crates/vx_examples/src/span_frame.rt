//! A scheme of frames of reference whose differences are compressed again.

ghost use Rattle.std.specs.Prelude.{◌≡◌, true, IsTrue};
ghost use Rattle.vx_base.specs.Answers.{Answers};
ghost use Rattle.vx_base.specs.Integers.{lies_in};
ghost use Rattle.vx_base.specs.PlainType.{is_integer, integer_of};
ghost use Rattle.vx_model.specs.Column.{column_of};
ghost use Rattle.vx_model.specs.Plain.{IsPlain};
ghost use Rattle.vx_model.specs.Rows.{rows};
ghost use Rattle.vx_model.specs.TreeType.{tree_type};
ghost use Rattle.vx_scheme.specs.Asked.{FitParts};
ghost use Rattle.vx_scheme.specs.Meaning.{split_of};
ghost use Rattle.vx_stats.specs.Stats.{least_in};
ghost use Rattle.vx_schemes_common.specs.OnePart.{part_where, over_part};
ghost use Rattle.vx_schemes_common.specs.Produced.{MakesProduced};
ghost use Rattle.vx_examples.specs.SpanFrame.{above_least, frame_over, span_frame};

mod building;

pub use building::compressor_with_frames;
use std::alloc::Global;
use std::sync::ledger::Ledger;
use vx_array::{ArrayRef, Arrays};
use vx_base::{DType, ExecutionCtx, Fraction, IdSet, Steps, VortexResult};
use vx_scheme::{
    AllowedIds, AncestorRules, ArrayAndStats, CompressionEstimate, CompressorContext,
    DescendantRules, EstimateVerdict, GenerateStatsOptions, Scheme, Split,
};
use vx_schemes::{FoRScheme, differences, framed, least_value};
use vx_schemes_common::{one_part, only};

/// Integers as differences from the least value, `example.int.frame`. It has the verdict of `FoRScheme`, which packs its
/// differences itself; here they are child 0, and become the tree of whichever scheme is best for them.
#[derive(Clone, Copy, Debug, Default, PartialEq, Eq)]
pub struct SpanFrame;

/// Does nothing; its contract holds the law: the root of what the scheme finishes or joins is a frame of reference, or the
/// column's plain tree.
pub fn laws_of_span_frames()
    ensures { MakesProduced span_frame }
{}

// The differences from the least value, as the only part.
fn parts(alloc: Global, array: &ArrayRef, least: i128) -> VortexResult<Split>
    requires plain { IsPlain array.now }
    requires integer { IsTrue (is_integer (tree_type array.now)) }
    requires held { IsTrue (lies_in (integer_of (tree_type array.now)) least) }
    requires least { least ≡ least_in (integer_of (tree_type array.now)) (rows array.now) }
    ensures { Answers result (split_of (part_where true (above_least (column_of array.now)))) }
{
    one_part(alloc, differences(alloc, array, least)?)
}

// The part's tree under the least value.
fn joined(alloc: Global, array: &ArrayRef, least: i128, trees: Arrays) -> VortexResult<ArrayRef>
    requires plain { IsPlain array.now }
    requires integer { IsTrue (is_integer (tree_type array.now)) }
    requires held { IsTrue (lies_in (integer_of (tree_type array.now)) least) }
    requires least { least ≡ least_in (integer_of (tree_type array.now)) (rows array.now) }
    requires trees { FitParts (part_where true (above_least (column_of array.now))) trees }
    ensures { Answers result (over_part frame_over (column_of array.now) trees) }
{
    match only(trees) {
        Some(tree) => framed(alloc, tree, array.dtype().ptype(), least),
        None => array.copy(alloc),
    }
}

impl Scheme for SpanFrame {
    ghost use Rattle.std.specs.Prelude.{refl};
    ghost use Rattle.vx_examples.specs.SpanFrame.{span_frame_lawful};

    ghost meaning = { λ scheme. span_frame };

    ghost refined = { λ scheme allowed. scheme };

    ghost lawful = { λ scheme. span_frame_lawful };

    ghost keeps_name = { λ scheme allowed. refl };

    fn scheme_name(&self) -> &'static str {
        "example.int.frame"
    }

    fn matches(&self, dtype: &DType) -> bool {
        dtype.is_integer()
    }

    fn produced_encodings(&self) -> IdSet {
        FoRScheme::v1().produced_encodings()
    }

    fn refine(&self, _allowed: &AllowedIds) -> Self {
        *self
    }

    fn stats_options(&self) -> GenerateStatsOptions {
        GenerateStatsOptions::default()
    }

    fn num_children(&self) -> usize {
        1
    }

    fn descendant_exclusions(&self, alloc: Global) -> VortexResult<DescendantRules> {
        Ok(DescendantRules::new_in(alloc))
    }

    fn ancestor_exclusions(&self, alloc: Global) -> VortexResult<AncestorRules> {
        Ok(AncestorRules::new_in(alloc))
    }

    // The verdict of the shipped frame.
    fn expected_compression_ratio(
        &self,
        column: &mut ArrayAndStats,
        site: &CompressorContext,
        ctx: &mut ExecutionCtx,
    ) -> VortexResult<CompressionEstimate> {
        FoRScheme::v1().expected_compression_ratio(column, site, ctx)
    }

    // Never asked: no estimate is deferred.
    fn resolve_estimate(
        &self,
        _column: &mut ArrayAndStats,
        _threshold: Option<Fraction>,
        _site: &CompressorContext,
        _ctx: &mut ExecutionCtx,
    ) -> VortexResult<EstimateVerdict> {
        Ok(EstimateVerdict::Skip)
    }

    fn split<L: Ledger>(
        &self,
        column: &mut ArrayAndStats,
        _site: &CompressorContext,
        ctx: &mut ExecutionCtx,
        steps: &mut Steps<L>,
    ) -> VortexResult<Split> {
        steps.tick();
        if !self.matches(column.array().dtype()) {
            return Ok(Split::Kept);
        }
        let least = least_value(column)?;
        parts(ctx.alloc(), column.array(), least)
    }

    fn join(
        &self,
        column: &mut ArrayAndStats,
        _site: &CompressorContext,
        trees: Arrays,
        ctx: &mut ExecutionCtx,
    ) -> VortexResult<ArrayRef> {
        if !self.matches(column.array().dtype()) {
            return column.array().copy(ctx.alloc());
        }
        let least = least_value(column)?;
        joined(ctx.alloc(), column.array(), least, trees)
    }
}
