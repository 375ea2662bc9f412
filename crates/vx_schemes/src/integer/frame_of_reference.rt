//! The frame-of-reference scheme.

ghost use Rattle.std.specs.Prelude.{◌≡◌, ◌<◌, ◌≤◌, ◌≤ℤ◌, ◌-ℤ◌, pos, length, IsTrue};
ghost use Rattle.vx_base.specs.Answers.{Answers};
ghost use Rattle.vx_base.specs.PlainType.{is_integer};
ghost use Rattle.vx_model.specs.Rows.{rows};
ghost use Rattle.vx_model.specs.TreeType.{tree_type};
ghost use Rattle.vx_scheme.specs.Asked.{most_rows};
ghost use Rattle.vx_scheme.specs.Bundle.{SameArray};
ghost use Rattle.vx_stats.specs.Erased.{extremes_of};
ghost use Rattle.vx_schemes.specs.FrameOfReference.Tree.{least_value};
ghost use Rattle.vx_schemes_common.specs.Produced.{MakesProduced};
ghost use Rattle.vx_schemes.specs.FrameOfReference.Meaning.{for_meaning, is_as_wide, gains_nothing, for_verdict};

mod blocks;
mod tree;

use std::alloc::Global;
use std::sync::ledger::Ledger;
use tree::frame_of_reference_tree;
pub use tree::{differences, framed};
use vx_array::{ArrayRef, Arrays};
use vx_base::{ArrayId, DType, ExecutionCtx, Fraction, IdSet, Steps, VortexResult};
use vx_scheme::{
    AllowedIds, AncestorRules, ArrayAndStats, CompressionEstimate, CompressorContext,
    DescendantRules, ErasedStats, EstimateVerdict, GenerateStatsOptions, IntegerStats, Scheme,
    Split,
};
use vx_schemes_common::{digits, finished_or_kept, not_in_codes};

/// Frame of reference, `vortex.int.for`: the differences from the least value, bit packed. Skips any column at budget 0,
/// and one whose differences are no shorter than its values; the ratio of any other is
/// `bits(type) / digits(greatest - least)`. No children: the tree is finished at once.
#[derive(Clone, Copy, Debug, PartialEq, Eq)]
pub struct FoRScheme(());

impl FoRScheme {
    /// Version 1: one reference for the whole column.
    pub fn v1() -> Self
        ensures { MakesProduced (for_meaning result) }
    {
        FoRScheme(())
    }
}

impl Default for FoRScheme {
    ghost use Rattle.std.specs.Prelude.{⊤};

    ghost is_default = { λ scheme. ⊤ };

    fn default() -> Self {
        FoRScheme::v1()
    }
}

// Whether no value is negative, and the greatest difference has as many digits as the greatest value.
fn is_as_wide(erased: &ErasedStats, span: u64) -> bool
    requires ordered { (extremes_of erased.now).least ≤ℤ (extremes_of erased.now).greatest }
    requires span { pos span ≡ (extremes_of erased.now).greatest -ℤ (extremes_of erased.now).least }
    ensures { result ≡ is_as_wide (extremes_of erased.now) }
{
    if erased.min_is_negative() {
        return false;
    }
    match erased.max_ilog2() {
        Some(log) => log < digits(span),
        None => false,
    }
}

// Whether a frame saves nothing: the least value is 0, all values are equal, or the differences have as many digits.
fn gains_nothing(erased: &ErasedStats, span: u64) -> bool
    requires ordered { (extremes_of erased.now).least ≤ℤ (extremes_of erased.now).greatest }
    requires span { pos span ≡ (extremes_of erased.now).greatest -ℤ (extremes_of erased.now).least }
    ensures { result ≡ gains_nothing (extremes_of erased.now) }
{
    erased.min_is_zero() || span == 0 || is_as_wide(erased, span)
}

// bits(type) / digits(span); Skip where differences are no shorter than the values.
fn verdict(stats: &IntegerStats, bits: u32) -> EstimateVerdict
    requires { 0 < stats.now.value_count }
    ensures { result ≡ for_verdict bits stats.now.extremes }
{
    let erased = stats.erased();
    let span = erased.max_minus_min();
    if gains_nothing(erased, span) {
        return EstimateVerdict::Skip;
    }
    EstimateVerdict::Ratio(Fraction::new(u64::from(bits), u64::from(digits(span))))
}

// The least value of the column. None where every row is null.
fn least_of(column: &mut ArrayAndStats) -> VortexResult<Option<i128>>
    requires integer { IsTrue (is_integer (tree_type column.old.array)) }
    requires few { length (rows column.old.array) ≤ most_rows }
    ensures answer { Answers result (least_value (rows column.old.array)) }
    ensures column { SameArray column.old column.new }
{
    column.array().known();
    let stats = column.integer_summary()?;
    if stats.value_count() == 0 {
        return Ok(None);
    }
    Ok(Some(stats.erased().least()))
}

impl Scheme for FoRScheme {
    ghost use Rattle.std.specs.Prelude.{refl};
    ghost use Rattle.vx_schemes.specs.FrameOfReference.Meaning.{for_meaning_lawful};

    ghost meaning = { for_meaning };

    ghost refined = { λ s allowed. s };

    ghost lawful = { for_meaning_lawful };

    ghost keeps_name = { λ s allowed. refl };

    fn scheme_name(&self) -> &'static str {
        "vortex.int.for"
    }

    fn matches(&self, dtype: &DType) -> bool {
        dtype.is_integer()
    }

    fn produced_encodings(&self) -> IdSet {
        IdSet::empty().with(ArrayId::FoR)
    }

    fn refine(&self, _allowed: &AllowedIds) -> Self {
        *self
    }

    fn stats_options(&self) -> GenerateStatsOptions {
        GenerateStatsOptions::default()
    }

    fn num_children(&self) -> usize {
        0
    }

    fn descendant_exclusions(&self, alloc: Global) -> VortexResult<DescendantRules> {
        Ok(DescendantRules::new_in(alloc))
    }

    fn ancestor_exclusions(&self, alloc: Global) -> VortexResult<AncestorRules> {
        not_in_codes(alloc)
    }

    fn expected_compression_ratio(
        &self,
        column: &mut ArrayAndStats,
        site: &CompressorContext,
        _ctx: &mut ExecutionCtx,
    ) -> VortexResult<CompressionEstimate> {
        let array = column.array();
        array.known();
        let dtype = array.dtype();
        if site.finished_cascading() || !dtype.is_integer() {
            return Ok(CompressionEstimate::Verdict(EstimateVerdict::Skip));
        }
        let bits = dtype.ptype().bit_width();
        let stats = column.integer_summary()?;
        Ok(CompressionEstimate::Verdict(verdict(stats, bits)))
    }

    // Not reached: no estimate of this scheme is `Callback`.
    fn resolve_estimate(
        &self,
        _column: &mut ArrayAndStats,
        _threshold: Option<Fraction>,
        _site: &CompressorContext,
        _ctx: &mut ExecutionCtx,
    ) -> VortexResult<EstimateVerdict> {
        Ok(EstimateVerdict::Skip)
    }

    fn split<L: Ledger>(
        &self,
        column: &mut ArrayAndStats,
        _site: &CompressorContext,
        ctx: &mut ExecutionCtx,
        steps: &mut Steps<L>,
    ) -> VortexResult<Split> {
        steps.tick();
        if !self.matches(column.array().dtype()) {
            return Ok(Split::Kept);
        }
        let least = least_of(column)?;
        let tree = frame_of_reference_tree(column.array(), least, ctx)?;
        Ok(finished_or_kept(tree))
    }

    // No parts, so the column stays plain.
    fn join(
        &self,
        column: &mut ArrayAndStats,
        _site: &CompressorContext,
        _trees: Arrays,
        ctx: &mut ExecutionCtx,
    ) -> VortexResult<ArrayRef> {
        column.array().copy(ctx.alloc())
    }
}
