//! A scheme of texts as concatenated bytes with offsets, which are compressed.

ghost use Rattle.std.specs.Prelude.{◌≡◌, true, IsTrue};
ghost use Rattle.vx_base.specs.Answers.{Answers};
ghost use Rattle.vx_base.specs.PlainType.{is_text};
ghost use Rattle.vx_base.specs.TypeOf.{type_of};
ghost use Rattle.vx_model.specs.Column.{column_of};
ghost use Rattle.vx_model.specs.Plain.{IsPlain};
ghost use Rattle.vx_model.specs.TreeType.{tree_type};
ghost use Rattle.vx_scheme.specs.Asked.{FitParts};
ghost use Rattle.vx_scheme.specs.Meaning.{split_of};
ghost use Rattle.vx_schemes_common.specs.OnePart.{part_where, over_part};
ghost use Rattle.vx_examples.specs.JoinedTexts.{text_offsets, texts_over};

mod building;

pub use building::compressor_with_texts;
use std::alloc::Global;
use std::sync::ledger::Ledger;
use vx_array::{ArrayRef, Arrays};
use vx_base::{ArrayId, DType, ExecutionCtx, Fraction, IdSet, Steps, VortexResult};
use vx_scheme::{
    AllowedIds, AncestorRules, ArrayAndStats, CompressionEstimate, CompressorContext,
    DeferredEstimate, DescendantRules, EstimateVerdict, GenerateStatsOptions, Scheme, Split,
};
use vx_schemes_common::{one_part, only};

/// Texts as concatenated bytes, `example.text.joined`: their offsets are child 0, and become the tree of whichever scheme
/// is best for them. It is tried on a sample.
#[derive(Clone, Copy, Debug, Default, PartialEq, Eq)]
pub struct JoinedTexts;

// The offsets of the texts, as the only part.
fn parts(alloc: Global, array: &ArrayRef) -> VortexResult<Split>
    requires plain { IsPlain array.now }
    requires text { IsTrue (is_text (tree_type array.now)) }
    ensures { Answers result (split_of (part_where true (text_offsets (column_of array.now)))) }
{
    one_part(alloc, array.row_offsets(alloc)?)
}

// The texts over the part's tree.
fn joined(alloc: Global, array: &ArrayRef, trees: Arrays) -> VortexResult<ArrayRef>
    requires plain { IsPlain array.now }
    requires text { IsTrue (is_text (tree_type array.now)) }
    requires trees { FitParts (part_where true (text_offsets (column_of array.now))) trees }
    ensures { Answers result (over_part texts_over (column_of array.now) trees) }
{
    match only(trees) {
        Some(tree) => array.joined_over(alloc, tree),
        None => array.copy(alloc),
    }
}

impl Scheme for JoinedTexts {
    ghost use Rattle.std.specs.Prelude.{refl};
    ghost use Rattle.vx_examples.specs.JoinedTexts.{joined_texts, joined_texts_lawful};

    ghost meaning = { λ scheme. joined_texts };

    ghost refined = { λ scheme allowed. scheme };

    ghost lawful = { λ scheme. joined_texts_lawful };

    ghost keeps_name = { λ scheme allowed. refl };

    fn scheme_name(&self) -> &'static str {
        "example.text.joined"
    }

    fn matches(&self, dtype: &DType) -> bool {
        matches!(dtype, DType::Utf8(_))
    }

    fn produced_encodings(&self) -> IdSet {
        IdSet::empty().with(ArrayId::VarBin)
    }

    fn refine(&self, _allowed: &AllowedIds) -> Self {
        *self
    }

    fn stats_options(&self) -> GenerateStatsOptions {
        GenerateStatsOptions::default()
    }

    fn num_children(&self) -> usize {
        1
    }

    fn descendant_exclusions(&self, alloc: Global) -> VortexResult<DescendantRules> {
        Ok(DescendantRules::new_in(alloc))
    }

    fn ancestor_exclusions(&self, alloc: Global) -> VortexResult<AncestorRules> {
        Ok(AncestorRules::new_in(alloc))
    }

    // A trial on a sample of the texts.
    fn expected_compression_ratio(
        &self,
        _column: &mut ArrayAndStats,
        _site: &CompressorContext,
        _ctx: &mut ExecutionCtx,
    ) -> VortexResult<CompressionEstimate> {
        Ok(CompressionEstimate::Deferred(DeferredEstimate::Sample))
    }

    // Never asked: its estimate is a trial.
    fn resolve_estimate(
        &self,
        _column: &mut ArrayAndStats,
        _threshold: Option<Fraction>,
        _site: &CompressorContext,
        _ctx: &mut ExecutionCtx,
    ) -> VortexResult<EstimateVerdict> {
        Ok(EstimateVerdict::Skip)
    }

    fn split<L: Ledger>(
        &self,
        column: &mut ArrayAndStats,
        _site: &CompressorContext,
        ctx: &mut ExecutionCtx,
        steps: &mut Steps<L>,
    ) -> VortexResult<Split> {
        steps.tick();
        if !self.matches(column.array().dtype()) {
            return Ok(Split::Kept);
        }
        parts(ctx.alloc(), column.array())
    }

    fn join(
        &self,
        column: &mut ArrayAndStats,
        _site: &CompressorContext,
        trees: Arrays,
        ctx: &mut ExecutionCtx,
    ) -> VortexResult<ArrayRef> {
        if !self.matches(column.array().dtype()) {
            return column.array().copy(ctx.alloc());
        }
        joined(ctx.alloc(), column.array(), trees)
    }
}
