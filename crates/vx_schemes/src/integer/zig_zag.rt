//! The zigzag scheme.

ghost use Rattle.std.specs.Prelude.{◌≡◌, true, IsTrue};
ghost use Rattle.vx_base.specs.Answers.{Answers, OrMemory};
ghost use Rattle.vx_base.specs.PlainType.{is_integer, is_unsigned};
ghost use Rattle.vx_model.specs.Column.{column_of};
ghost use Rattle.vx_model.specs.Plain.{IsPlain};
ghost use Rattle.vx_model.specs.Tree.{zig_zag};
ghost use Rattle.vx_model.specs.TreeType.{tree_type};
ghost use Rattle.vx_scheme.specs.Asked.{FitParts};
ghost use Rattle.vx_scheme.specs.Meaning.{split_of};
ghost use Rattle.vx_scheme.specs.Rules.{descendants_of};
ghost use Rattle.vx_schemes.specs.ZigZag.Meaning.{not_below};
ghost use Rattle.vx_schemes.specs.ZigZag.Tree.{zig_zag_made, zig_zag_over};

mod tree;

use crate::integer::bit_packing::has_negative;
use std::alloc::Global;
use std::sync::ledger::Ledger;
use tree::zigzags;
use vx_array::{ArrayRef, Arrays};
use vx_base::{ArrayId, DType, ExecutionCtx, Fraction, IdSet, Steps, VortexResult};
use vx_scheme::{
    AllowedIds, AncestorRules, ArrayAndStats, ChildSelection, CompressionEstimate,
    CompressorContext, DeferredEstimate, DescendantRules, EstimateVerdict, GenerateStatsOptions,
    Scheme, Split,
};
use vx_schemes_common::{excluded, not_in_codes, one_part, only};

/// Zigzag, `vortex.int.zigzag`: 0, -1, 1, -2 become 0, 1, 2, 3, so that integers near 0 are small words. Skips a column
/// without a negative value, and any at budget 0, since its gain comes from the schemes of its child; any other is tried
/// on a sample. Child 0: the zigzags, in the unsigned type of the same width. A column of an unsigned type stays plain.
#[derive(Clone, Copy, Debug, Default, PartialEq, Eq)]
pub struct ZigZagScheme;

// No dictionary, run ends or sparse values below: they find the same equal rows before zigzag.
fn not_below(alloc: Global) -> VortexResult<DescendantRules>
    ensures { OrMemory result (λ rules. descendants_of rules ≡ not_below) }
{
    let rules = vec![in alloc;
        excluded("vortex.int.dict", ChildSelection::All),
        excluded("vortex.int.runend", ChildSelection::All),
        excluded("vortex.int.sparse", ChildSelection::All),
    ]?;
    Ok(DescendantRules::from_vec(rules))
}

// The zigzags as the one part; a column of an unsigned type is kept.
fn parts_or_kept(alloc: Global, array: &ArrayRef) -> VortexResult<Split>
    requires plain { IsPlain array.now }
    requires integer { IsTrue (is_integer (tree_type array.now)) }
    ensures { Answers result (split_of (zig_zag_made (column_of array.now))) }
{
    if array.dtype().is_unsigned() {
        return Ok(Split::Kept);
    }
    one_part(alloc, zigzags(alloc, array)?)
}

// The ZigZag over a tree of zigzags.
fn over(alloc: Global, words: ArrayRef) -> VortexResult<ArrayRef>
    requires { is_unsigned (tree_type words) ≡ true }
    ensures { Answers result (zig_zag words) }
{
    match ArrayRef::zig_zag(alloc, words) {
        Ok(tree) => Ok(tree),
        Err(refused) => Err(refused.error),
    }
}

// The ZigZag over the part's tree; without a part the column stays plain.
fn joined(alloc: Global, array: &ArrayRef, trees: Arrays) -> VortexResult<ArrayRef>
    requires plain { IsPlain array.now }
    requires trees { FitParts (zig_zag_made (column_of array.now)) trees }
    ensures { Answers result (zig_zag_over (column_of array.now) trees) }
{
    match only(trees) {
        Some(words) => over(alloc, words),
        None => array.copy(alloc),
    }
}

impl Scheme for ZigZagScheme {
    ghost use Rattle.std.specs.Prelude.{refl};
    ghost use Rattle.vx_schemes.specs.ZigZag.Meaning.{zig_zag_meaning, zig_zag_lawful};

    ghost meaning = { zig_zag_meaning };

    ghost refined = { λ s allowed. s };

    ghost lawful = { zig_zag_lawful };

    ghost keeps_name = { λ s allowed. refl };

    fn scheme_name(&self) -> &'static str {
        "vortex.int.zigzag"
    }

    fn matches(&self, dtype: &DType) -> bool {
        dtype.is_integer()
    }

    fn produced_encodings(&self) -> IdSet {
        IdSet::empty().with(ArrayId::ZigZag)
    }

    fn refine(&self, _allowed: &AllowedIds) -> Self {
        *self
    }

    fn stats_options(&self) -> GenerateStatsOptions {
        GenerateStatsOptions::default()
    }

    fn num_children(&self) -> usize {
        1
    }

    fn descendant_exclusions(&self, alloc: Global) -> VortexResult<DescendantRules> {
        not_below(alloc)
    }

    fn ancestor_exclusions(&self, alloc: Global) -> VortexResult<AncestorRules> {
        not_in_codes(alloc)
    }

    fn expected_compression_ratio(
        &self,
        column: &mut ArrayAndStats,
        site: &CompressorContext,
        _ctx: &mut ExecutionCtx,
    ) -> VortexResult<CompressionEstimate> {
        if site.finished_cascading() || !self.matches(column.array().dtype()) {
            return Ok(CompressionEstimate::Verdict(EstimateVerdict::Skip));
        }
        if has_negative(column)? {
            Ok(CompressionEstimate::Deferred(DeferredEstimate::Sample))
        } else {
            Ok(CompressionEstimate::Verdict(EstimateVerdict::Skip))
        }
    }

    // Not reached: no estimate of this scheme is `Callback`.
    fn resolve_estimate(
        &self,
        _column: &mut ArrayAndStats,
        _threshold: Option<Fraction>,
        _site: &CompressorContext,
        _ctx: &mut ExecutionCtx,
    ) -> VortexResult<EstimateVerdict> {
        Ok(EstimateVerdict::Skip)
    }

    fn split<L: Ledger>(
        &self,
        column: &mut ArrayAndStats,
        _site: &CompressorContext,
        ctx: &mut ExecutionCtx,
        steps: &mut Steps<L>,
    ) -> VortexResult<Split> {
        steps.tick();
        if !self.matches(column.array().dtype()) {
            return Ok(Split::Kept);
        }
        parts_or_kept(ctx.alloc(), column.array())
    }

    fn join(
        &self,
        column: &mut ArrayAndStats,
        _site: &CompressorContext,
        trees: Arrays,
        ctx: &mut ExecutionCtx,
    ) -> VortexResult<ArrayRef> {
        joined(ctx.alloc(), column.array(), trees)
    }
}
