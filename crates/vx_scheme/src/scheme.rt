//! The trait of a compression scheme, with its laws.

ghost use Rattle.std.specs.Prelude.{◌≡◌, ◌+◌, true, Bool};
ghost use Rattle.vx_base.specs.Answers.{Answers, OrMemory};
ghost use Rattle.vx_base.specs.IdSets.{holds};
ghost use Rattle.vx_base.specs.TypeOf.{type_of};
ghost use Rattle.vx_base.specs.declared.array_id.ArrayId.{ArrayId};
ghost use Rattle.vx_model.specs.Column.{column_of};
ghost use Rattle.vx_model.specs.TreeType.{tree_type};
ghost use Rattle.vx_scheme.specs.Allowed.{is_allowed};
ghost use Rattle.vx_scheme.specs.Asked.{IsSiteTree, HasPutOff, HasParts, FitParts, HasValue};
ghost use Rattle.vx_scheme.specs.Bundle.{SameArray};
ghost use Rattle.vx_scheme.specs.Contexts.{site_of};
ghost use Rattle.vx_scheme.specs.Lawful.{Lawful};
ghost use Rattle.vx_scheme.specs.Meaning.{Meaning, split_of};
ghost use Rattle.vx_scheme.specs.Names.{name_of};
ghost use Rattle.vx_stats.specs.Options.{includes};
ghost use Rattle.vx_scheme.specs.Resolved.{IsResolved};
ghost use Rattle.vx_scheme.specs.Rules.{descendants_of, ancestors_of};

use crate::allowed::AllowedIds;
use crate::array_and_stats::ArrayAndStats;
use crate::context::CompressorContext;
use crate::estimate::{CompressionEstimate, EstimateVerdict};
use crate::rules::{AncestorRules, DescendantRules};
use crate::scheme_id::SchemeId;
use crate::split::Split;
use std::alloc::Global;
use std::sync::ledger::Ledger;
use vx_array::{ArrayRef, Arrays};
use vx_base::{DType, ExecutionCtx, Fraction, IdSet, Steps, VortexResult};
use vx_stats::GenerateStatsOptions;

/// A way to compress a column.
///
/// The compressor asks each scheme that matches the type of the column for an estimate, tries some on a sample, chooses
/// one, and has it split the column. A finished tree is the answer. Parts are compressed first, each at a site of its own
/// one level below, and the scheme joins their trees.
///
/// `meaning` says what a scheme does, as plain data, and every call answers by it: from the column and the site alone,
/// whichever statistics are kept already and whichever options were merged. Each scheme proves the laws `lawful` and
/// `keeps_name`, on which code over `S: Scheme` relies.
///
/// A column comes with its statistics, whose options include the scheme's own. It is plain, and has 1 to 2^31 + 5,121
/// rows. The answers below are promised where the scheme matches its type, and a call that takes memory refuses NoMemory
/// alone; on any other type nothing is promised. No call changes the array, its options or the sample words.
pub trait Scheme: Copy {
    /// The meaning of the scheme, as plain data.
    ghost meaning: { Self → Meaning };

    /// The scheme restricted to the encodings that are allowed.
    ghost refined: { Self → (ArrayId → Bool) → Self };

    /// The name, as `vortex.int.dict`. It is unique within a list of schemes.
    fn scheme_name(&self) -> &'static str
        ensures { result.now ≡ (meaning self.now).name };

    /// The id of the scheme, made of its name.
    fn id(&self) -> SchemeId
        ensures { name_of result ≡ (meaning self.now).name }
    {
        SchemeId::of(self.scheme_name())
    }

    /// Whether the scheme takes columns of the type.
    fn matches(&self, dtype: &DType) -> bool
        ensures { result ≡ (meaning self.now).takes (type_of dtype.now) };

    /// The encodings of the nodes that it makes, for a caller who leaves a scheme out where one of them isn't allowed. The
    /// compressor doesn't ask.
    fn produced_encodings(&self) -> IdSet
        ensures { (id : ArrayId) → holds result id ≡ (meaning self.now).produces id };

    /// The scheme restricted to the encodings that are allowed. The name stays.
    fn refine(&self, allowed: &AllowedIds) -> Self
        ensures { result ≡ refined self.now (is_allowed allowed.now) };

    /// The statistics that it requests beyond those that are always computed.
    fn stats_options(&self) -> GenerateStatsOptions
        ensures { result ≡ (meaning self.now).options };

    /// The most parts that it splits a column into: its children, numbered from 0.
    fn num_children(&self) -> usize
        ensures { result ≡ (meaning self.now).children };

    /// Rules of exclusion: which schemes may not stand below which of its children.
    fn descendant_exclusions(&self, alloc: Global) -> VortexResult<DescendantRules>
        ensures { OrMemory result (λ rules. descendants_of rules ≡ (meaning self.now).descendants) };

    /// Rules of exclusion: below which children of which schemes it may not stand.
    fn ancestor_exclusions(&self, alloc: Global) -> VortexResult<AncestorRules>
        ensures { OrMemory result (λ rules. ancestors_of rules ≡ (meaning self.now).ancestors) };

    /// The estimate of a column in which some row isn't null: a verdict, or how the compressor finds one.
    fn expected_compression_ratio(
        &self,
        column: &mut ArrayAndStats,
        site: &CompressorContext,
        ctx: &mut ExecutionCtx,
    ) -> VortexResult<CompressionEstimate>
        requires column { IsSiteTree column.old.array }
        requires value { HasValue (column_of column.old.array) }
        requires options { includes column.old.options (meaning self.now).options ≡ true }
        ensures answer { (meaning self.now).takes (tree_type column.old.array) ≡ true → Answers result ((meaning self.now).estimate (column_of column.old.array) (site_of site.now)) }
        ensures column { SameArray column.old column.new }
        ensures ctx { ctx.new ≡ ctx.old };

    /// The verdict after the estimate `Deferred(Callback)`; after any other estimate nothing is promised. A ratio that
    /// isn't above the threshold can't win, so Skip may stand for it, and a scheme may stop as soon as it knows that. The
    /// column is as for the estimate.
    fn resolve_estimate(
        &self,
        column: &mut ArrayAndStats,
        threshold: Option<Fraction>,
        site: &CompressorContext,
        ctx: &mut ExecutionCtx,
    ) -> VortexResult<EstimateVerdict>
        requires column { IsSiteTree column.old.array }
        requires value { HasValue (column_of column.old.array) }
        requires options { includes column.old.options (meaning self.now).options ≡ true }
        ensures answer { (meaning self.now).takes (tree_type column.old.array) ≡ true → HasPutOff (meaning self.now) (column_of column.old.array) (site_of site.now) → OrMemory result (IsResolved threshold ((meaning self.now).resolve (column_of column.old.array) (site_of site.now))) }
        ensures column { SameArray column.old column.new }
        ensures ctx { ctx.new ≡ ctx.old };

    /// The tree of the column, or its parts. Rows may be null, even all of them. Adds one to the count of steps, also where
    /// memory runs out.
    fn split<L: Ledger>(
        &self,
        column: &mut ArrayAndStats,
        site: &CompressorContext,
        ctx: &mut ExecutionCtx,
        steps: &mut Steps<L>,
    ) -> VortexResult<Split>
        requires column { IsSiteTree column.old.array }
        requires options { includes column.old.options (meaning self.now).options ≡ true }
        ensures answer { (meaning self.now).takes (tree_type column.old.array) ≡ true → Answers result (split_of ((meaning self.now).splits (column_of column.old.array) (site_of site.now))) }
        ensures column { SameArray column.old column.new }
        ensures ctx { ctx.new ≡ ctx.old }
        ensures step { steps.new ≡ steps.old + 1 };

    /// The tree of the column over `trees`, one for each part that `split` makes of it at this site, with that part's type
    /// and rows. Where `split` makes no parts, nothing is promised. The trees are dropped where memory runs out.
    fn join(
        &self,
        column: &mut ArrayAndStats,
        site: &CompressorContext,
        trees: Arrays,
        ctx: &mut ExecutionCtx,
    ) -> VortexResult<ArrayRef>
        requires column { IsSiteTree column.old.array }
        requires options { includes column.old.options (meaning self.now).options ≡ true }
        requires trees { FitParts ((meaning self.now).splits (column_of column.old.array) (site_of site.now)) trees }
        ensures answer { (meaning self.now).takes (tree_type column.old.array) ≡ true → HasParts ((meaning self.now).splits (column_of column.old.array) (site_of site.now)) → Answers result ((meaning self.now).joined (column_of column.old.array) (site_of site.now) trees) }
        ensures column { SameArray column.old column.new }
        ensures ctx { ctx.new ≡ ctx.old };

    /// Its trees are lossless, and its parts are few and small.
    ghost lawful: { (s : Self) → Lawful (meaning s) };

    /// A refined scheme keeps its name.
    ghost keeps_name: { (s : Self) (ids : ArrayId → Bool) → (meaning (refined s ids)).name ≡ (meaning s).name };
}
