//! The shipped schemes and a caller's, as one type.

ghost use Rattle.std.specs.Prelude.{◌≡◌, true};
ghost use Rattle.vx_base.specs.Answers.{OrMemory};
ghost use Rattle.vx_model.specs.Column.{column_of};
ghost use Rattle.vx_model.specs.TreeType.{tree_type};
ghost use Rattle.vx_scheme.specs.Asked.{HasPutOff, HasValue, IsSiteTree};
ghost use Rattle.vx_scheme.specs.Bundle.{SameArray};
ghost use Rattle.vx_scheme.specs.Contexts.{site_of};
ghost use Rattle.vx_scheme.specs.Resolved.{IsResolved};
ghost use Rattle.vx_stats.specs.Options.{includes};
ghost use Rattle.vx_btrblocks.specs.AnyMeaning.{any_meaning, IsResolvedBy};

use std::alloc::Global;
use std::sync::ledger::Ledger;
use vx_array::{ArrayRef, Arrays};
use vx_base::{DType, ExecutionCtx, Fraction, IdSet, Steps, VortexResult};
use vx_scheme::{
    AllowedIds, AncestorRules, ArrayAndStats, CompressionEstimate, CompressorContext,
    DescendantRules, EstimateVerdict, GenerateStatsOptions, Scheme, Split,
};
use vx_schemes::{BitPackingScheme, FoRScheme, IntDictScheme, ZigZagScheme};
use vx_schemes_runs::{DeltaScheme, IntRLEScheme, RunEndScheme, SequenceScheme, SparseScheme};
use vx_schemes_text::{
    BinaryDictScheme, NullDominatedSparseScheme, StringDictScheme, VarBinScheme,
};
use vx_schemes_time::TemporalScheme;

/// A shipped scheme, or one of a caller's. Every call hands its arguments to the scheme inside and answers what that answers.
#[derive(Clone, Copy, Debug, PartialEq, Eq)]
pub enum AnyScheme<X> {
    FoR(FoRScheme),
    ZigZag(ZigZagScheme),
    BitPacking(BitPackingScheme),
    Sparse(SparseScheme),
    IntDict(IntDictScheme),
    RunEnd(RunEndScheme),
    Sequence(SequenceScheme),
    IntRLE(IntRLEScheme),
    Delta(DeltaScheme),
    StringDict(StringDictScheme),
    NullDominatedSparse(NullDominatedSparseScheme),
    BinaryDict(BinaryDictScheme),
    VarBin(VarBinScheme),
    Temporal(TemporalScheme),
    Own(X),
}

// Evaluates an expression over the scheme inside, whichever variant it is.
macro_rules! with_scheme {
    ($any:expr, $scheme:ident => $call:expr) => {
        match $any {
            AnyScheme::FoR($scheme) => $call,
            AnyScheme::ZigZag($scheme) => $call,
            AnyScheme::BitPacking($scheme) => $call,
            AnyScheme::Sparse($scheme) => $call,
            AnyScheme::IntDict($scheme) => $call,
            AnyScheme::RunEnd($scheme) => $call,
            AnyScheme::Sequence($scheme) => $call,
            AnyScheme::IntRLE($scheme) => $call,
            AnyScheme::Delta($scheme) => $call,
            AnyScheme::StringDict($scheme) => $call,
            AnyScheme::NullDominatedSparse($scheme) => $call,
            AnyScheme::BinaryDict($scheme) => $call,
            AnyScheme::VarBin($scheme) => $call,
            AnyScheme::Temporal($scheme) => $call,
            AnyScheme::Own($scheme) => $call,
        }
    };
}

impl<X: Scheme> Scheme for AnyScheme<X> {
    ghost use Rattle.vx_btrblocks.specs.AnyMeaning.{any_meaning, any_refined, any_lawful, any_keeps_name};

    ghost meaning = { any_meaning X.meaning };

    ghost refined = { any_refined X.refined };

    ghost lawful = { any_lawful X.meaning X.lawful };

    ghost keeps_name = { any_keeps_name X.meaning X.refined X.keeps_name };

    fn scheme_name(&self) -> &'static str {
        with_scheme!(self, scheme => scheme.scheme_name())
    }

    fn matches(&self, dtype: &DType) -> bool {
        with_scheme!(self, scheme => scheme.matches(dtype))
    }

    fn produced_encodings(&self) -> IdSet {
        with_scheme!(self, scheme => scheme.produced_encodings())
    }

    fn refine(&self, allowed: &AllowedIds) -> Self {
        match self {
            AnyScheme::FoR(scheme) => AnyScheme::FoR(scheme.refine(allowed)),
            AnyScheme::ZigZag(scheme) => AnyScheme::ZigZag(scheme.refine(allowed)),
            AnyScheme::BitPacking(scheme) => AnyScheme::BitPacking(scheme.refine(allowed)),
            AnyScheme::Sparse(scheme) => AnyScheme::Sparse(scheme.refine(allowed)),
            AnyScheme::IntDict(scheme) => AnyScheme::IntDict(scheme.refine(allowed)),
            AnyScheme::RunEnd(scheme) => AnyScheme::RunEnd(scheme.refine(allowed)),
            AnyScheme::Sequence(scheme) => AnyScheme::Sequence(scheme.refine(allowed)),
            AnyScheme::IntRLE(scheme) => AnyScheme::IntRLE(scheme.refine(allowed)),
            AnyScheme::Delta(scheme) => AnyScheme::Delta(scheme.refine(allowed)),
            AnyScheme::StringDict(scheme) => AnyScheme::StringDict(scheme.refine(allowed)),
            AnyScheme::NullDominatedSparse(scheme) => {
                AnyScheme::NullDominatedSparse(scheme.refine(allowed))
            }
            AnyScheme::BinaryDict(scheme) => AnyScheme::BinaryDict(scheme.refine(allowed)),
            AnyScheme::VarBin(scheme) => AnyScheme::VarBin(scheme.refine(allowed)),
            AnyScheme::Temporal(scheme) => AnyScheme::Temporal(scheme.refine(allowed)),
            AnyScheme::Own(scheme) => AnyScheme::Own(scheme.refine(allowed)),
        }
    }

    fn stats_options(&self) -> GenerateStatsOptions {
        with_scheme!(self, scheme => scheme.stats_options())
    }

    fn num_children(&self) -> usize {
        with_scheme!(self, scheme => scheme.num_children())
    }

    fn descendant_exclusions(&self, alloc: Global) -> VortexResult<DescendantRules> {
        with_scheme!(self, scheme => scheme.descendant_exclusions(alloc))
    }

    fn ancestor_exclusions(&self, alloc: Global) -> VortexResult<AncestorRules> {
        with_scheme!(self, scheme => scheme.ancestor_exclusions(alloc))
    }

    fn expected_compression_ratio(
        &self,
        column: &mut ArrayAndStats,
        site: &CompressorContext,
        ctx: &mut ExecutionCtx,
    ) -> VortexResult<CompressionEstimate> {
        with_scheme!(self, scheme => scheme.expected_compression_ratio(column, site, ctx))
    }

    // `exact`: the scheme inside is handed the threshold. Without it the verdict would be as good, but take a pass over the rows.
    fn resolve_estimate(
        &self,
        column: &mut ArrayAndStats,
        threshold: Option<Fraction>,
        site: &CompressorContext,
        ctx: &mut ExecutionCtx,
    ) -> VortexResult<EstimateVerdict>
        requires column { IsSiteTree column.old.array }
        requires value { HasValue (column_of column.old.array) }
        requires options { includes column.old.options (any_meaning X.meaning self.now).options ≡ true }
        ensures answer { (any_meaning X.meaning self.now).takes (tree_type column.old.array) ≡ true → HasPutOff (any_meaning X.meaning self.now) (column_of column.old.array) (site_of site.now) → OrMemory result (IsResolved threshold ((any_meaning X.meaning self.now).resolve (column_of column.old.array) (site_of site.now))) }
        ensures exact { (any_meaning X.meaning self.now).takes (tree_type column.old.array) ≡ true → HasPutOff (any_meaning X.meaning self.now) (column_of column.old.array) (site_of site.now) → IsResolvedBy self.now threshold ((any_meaning X.meaning self.now).resolve (column_of column.old.array) (site_of site.now)) result }
        ensures column { SameArray column.old column.new }
        ensures ctx { ctx.new ≡ ctx.old }
    {
        with_scheme!(self, scheme => scheme.resolve_estimate(column, threshold, site, ctx))
    }

    fn split<L: Ledger>(
        &self,
        column: &mut ArrayAndStats,
        site: &CompressorContext,
        ctx: &mut ExecutionCtx,
        steps: &mut Steps<L>,
    ) -> VortexResult<Split> {
        with_scheme!(self, scheme => scheme.split(column, site, ctx, steps))
    }

    fn join(
        &self,
        column: &mut ArrayAndStats,
        site: &CompressorContext,
        trees: Arrays,
        ctx: &mut ExecutionCtx,
    ) -> VortexResult<ArrayRef> {
        with_scheme!(self, scheme => scheme.join(column, site, trees, ctx))
    }
}
