//! Trials of schemes: the tree that a scheme makes of a column or of its sample, and the trees of the parts.

ghost use Rattle.std.specs.Prelude.{◌≡◌, ◌<◌, ◌++◌, [], ◌∷◌, All, length, map, true};
ghost use Rattle.vx_base.specs.Answers.{Answers};
ghost use Rattle.vx_base.specs.PlainType.{is_flat};
ghost use Rattle.vx_model.specs.Column.{column_of};
ghost use Rattle.vx_model.specs.Plain.{IsPlain};
ghost use Rattle.vx_model.specs.Site.{down};
ghost use Rattle.vx_model.specs.TreeType.{tree_type};
ghost use Rattle.vx_scheme.specs.Asked.{IsSiteTree};
ghost use Rattle.vx_scheme.specs.Bundle.{SameArray};
ghost use Rattle.vx_scheme.specs.Contexts.{site_of, options_of};
ghost use Rattle.vx_scheme.specs.Names.{name_of};
ghost use Rattle.vx_compressor.specs.Cascade.{setting, part_trees, trial, deferred_score, child_tree, children_of};
ghost use Rattle.vx_compressor.specs.Judging.{IsAskable, IsReady};
ghost use Rattle.vx_compressor.specs.Reach.{IsInReach, IsPartInReach};

use crate::choice::Score;
use crate::compressor::CascadingCompressor;
use crate::judging::size_score;
use crate::sampling::sample;
use std::sync::ledger::Ledger;
use vx_array::{ArrayRef, Arrays};
use vx_base::{ExecutionCtx, Steps, VortexError, VortexResult};
use vx_scheme::{ArrayAndStats, CompressorContext, DeferredEstimate, Scheme, SchemeId, Split};

impl<S: Scheme> CascadingCompressor<S> {
    /// The score of a scheme by its trial on a sample of a plain tree.
    #[cycle(site)]
    pub(crate) fn sample_score<L: Ledger>(
        &self,
        words: &[u64],
        scheme: &S,
        whole: &ArrayRef,
        site: &CompressorContext,
        ctx: &mut ExecutionCtx,
        steps: &mut Steps<L>,
    ) -> VortexResult<Option<Score>>
        requires words { 0 < length words.now }
        requires ready { IsReady (column_of whole.now) (options_of site.now) (S.meaning scheme.now) }
        requires askable { IsAskable (column_of whole.now) }
        requires reach { IsInReach (column_of whole.now) (site_of site.now).budget }
        requires plain { IsPlain whole.now }
        ensures answer { Answers result (deferred_score (children_of (setting S.meaning self.now words.now) (site_of site.now)) words.now (S.meaning scheme.now) (column_of whole.now) (site_of site.now) DeferredEstimate.Sample) }
        ensures ctx { ctx.new ≡ ctx.old }
    {
        let part = sample(ctx.alloc(), words, site.is_sample(), whole)?;
        let mut column = ArrayAndStats::new(part, site.merged_stats_options());
        let site = site.with_sampling();
        let tree = self.trial(words, scheme, &mut column, &site, ctx, steps)?;
        let before = column.array();
        Ok(size_score(before, tree))
    }

    /// The tree that a scheme makes of the column that the bundle holds.
    #[cycle(site)]
    pub(crate) fn trial<L: Ledger>(
        &self,
        words: &[u64],
        scheme: &S,
        column: &mut ArrayAndStats,
        site: &CompressorContext,
        ctx: &mut ExecutionCtx,
        steps: &mut Steps<L>,
    ) -> VortexResult<ArrayRef>
        requires words { 0 < length words.now }
        requires column { IsSiteTree column.old.array }
        requires ready { IsReady (column_of column.old.array) column.old.options (S.meaning scheme.now) }
        requires reach { IsInReach (column_of column.old.array) (site_of site.now).budget }
        ensures answer { Answers result (trial (children_of (setting S.meaning self.now words.now) (site_of site.now)) (S.meaning scheme.now) (column_of column.old.array) (site_of site.now)) }
        ensures column { SameArray column.old column.new }
        ensures ctx { ctx.new ≡ ctx.old }
    {
        column.array().known();
        match scheme.split(column, site, ctx, steps)? {
            Split::Kept => column.array().copy(ctx.alloc()),
            Split::Finished(tree) => Ok(tree),
            Split::Parts(parts) => {
                let trees = self.part_trees(words, scheme.id(), parts, site, ctx, steps)?;
                scheme.join(column, site, trees, ctx)
            }
        }
    }

    // The trees of a column's parts, in order. Part n is child n of the scheme.
    #[cycle(site)]
    fn part_trees<L: Ledger>(
        &self,
        words: &[u64],
        id: SchemeId,
        parts: Arrays,
        site: &CompressorContext,
        ctx: &mut ExecutionCtx,
        steps: &mut Steps<L>,
    ) -> VortexResult<Arrays>
        requires words { 0 < length words.now }
        requires plain { All IsPlain parts }
        requires flat { All (λ part. is_flat (tree_type part) ≡ true) parts }
        requires reach { All (λ part. IsPartInReach (column_of part) (site_of site.now).budget) parts }
        ensures answer { Answers result (part_trees (children_of (setting S.meaning self.now words.now) (site_of site.now)) (name_of id) (site_of site.now) 0 (map column_of parts)) }
        ensures ctx { ctx.new ≡ ctx.old }
    {
        let mut trees = Arrays::new_in(ctx.alloc());
        for part in parts.into_vec() {
            let number = trees.len() as usize;
            let tree = self.part_tree(words, part, site, id, number, ctx, steps)?;
            trees = with_tree(trees, tree)?;
        }
        Ok(trees)
    }

    // The tree of a plain part: the part itself where the parent's budget is 0, else the tree of its own site below the parent.
    #[cycle(site)]
    fn part_tree<L: Ledger>(
        &self,
        words: &[u64],
        part: ArrayRef,
        parent: &CompressorContext,
        id: SchemeId,
        number: usize,
        ctx: &mut ExecutionCtx,
        steps: &mut Steps<L>,
    ) -> VortexResult<ArrayRef>
        requires words { 0 < length words.now }
        requires plain { IsPlain part }
        requires flat { is_flat (tree_type part) ≡ true }
        requires reach { IsPartInReach (column_of part) (site_of parent.now).budget }
        ensures answer { Answers result (child_tree (setting S.meaning self.now words.now) (site_of parent.now).budget (column_of part) (down (site_of parent.now) (name_of id) number)) }
        ensures ctx { ctx.new ≡ ctx.old }
    {
        if parent.finished_cascading() {
            return Ok(part);
        }
        let site = parent.descend(id, number);
        self.site_tree(words, part, &site, ctx, steps)
    }
}

/// The trees with one more behind them. Refuses NoMemory alone, which gives the trees up.
pub(crate) fn with_tree(mut trees: Arrays, tree: ArrayRef) -> VortexResult<Arrays>
    ensures { Answers result (trees ++ tree ∷ []) }
{
    match trees.push(tree) {
        Ok(()) => Ok(trees),
        Err(_) => Err(VortexError::NoMemory),
    }
}
