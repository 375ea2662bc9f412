//! The tree of a leaf column at a site. A scheme's parts have sites of their own, so the methods are mutually recursive; the
//! recursion ends since each part's site has a budget one less.

ghost use Rattle.std.specs.Prelude.{◌≡◌, ◌<◌, All, length, map, option_map, true};
ghost use Rattle.vx_base.specs.Answers.{Answers, OrMemory};
ghost use Rattle.vx_base.specs.PlainType.{is_flat};
ghost use Rattle.vx_model.specs.Column.{column_of};
ghost use Rattle.vx_model.specs.Leaf.{chosen_or_plain};
ghost use Rattle.vx_model.specs.Plain.{IsPlain};
ghost use Rattle.vx_model.specs.TreeType.{tree_type};
ghost use Rattle.vx_scheme.specs.Asked.{HasValue};
ghost use Rattle.vx_scheme.specs.Contexts.{site_of, options_of};
ghost use Rattle.vx_compressor.specs.ByValue.{IsBeside};
ghost use Rattle.vx_compressor.specs.Cascade.{setting, deferred_score, eligible, choice, chosen, children_of, leaf_tree};
ghost use Rattle.vx_compressor.specs.Choice.{best_of};
ghost use Rattle.vx_compressor.specs.Judging.{Holds, IsAskable, IsReady, WasPutOff, DoesFor, found, meant, meant_pair};
ghost use Rattle.vx_compressor.specs.Reach.{IsInReach};

use crate::by_value::{Beside, by_value, smaller};
use crate::choice::{Score, better, is_always, scheme_of, threshold};
use crate::compressor::CascadingCompressor;
use crate::eligible::merged_options;
use crate::judging::{first_pass, resolve, verdict_score};
use std::sync::ledger::Ledger;
use vx_array::ArrayRef;
use vx_base::{ExecutionCtx, Steps, VortexResult};
use vx_scheme::{ArrayAndStats, CompressorContext, DeferredEstimate, Scheme};

impl<S: Scheme> CascadingCompressor<S> {
    /// The tree of a plain tree's column at a site.
    #[cycle(site)]
    pub(crate) fn site_tree<L: Ledger>(
        &self,
        words: &[u64],
        canonical: ArrayRef,
        site: &CompressorContext,
        ctx: &mut ExecutionCtx,
        steps: &mut Steps<L>,
    ) -> VortexResult<ArrayRef>
        requires words { 0 < length words.now }
        requires flat { is_flat (tree_type canonical) ≡ true }
        requires reach { IsInReach (column_of canonical) (site_of site.now).budget }
        requires plain { IsPlain canonical }
        ensures answer { Answers result (leaf_tree (setting S.meaning self.now words.now) (column_of canonical) (site_of site.now)) }
        ensures ctx { ctx.new ≡ ctx.old }
    {
        let beside = self.site_beside(words, canonical, site, ctx, steps)?;
        Ok(beside.into_tree())
    }

    /// `site_tree`, and the plain tree beside it.
    #[cycle(site)]
    pub(crate) fn site_beside<L: Ledger>(
        &self,
        words: &[u64],
        canonical: ArrayRef,
        site: &CompressorContext,
        ctx: &mut ExecutionCtx,
        steps: &mut Steps<L>,
    ) -> VortexResult<Beside>
        requires words { 0 < length words.now }
        requires flat { is_flat (tree_type canonical) ≡ true }
        requires reach { IsInReach (column_of canonical) (site_of site.now).budget }
        requires plain { IsPlain canonical }
        ensures answer { OrMemory result (λ made. IsBeside (leaf_tree (setting S.meaning self.now words.now) (column_of canonical) (site_of site.now)) canonical made.tree made.plain) }
        ensures ctx { ctx.new ≡ ctx.old }
    {
        canonical.known();
        match by_value(ctx.alloc(), &canonical, site)? {
            Some(tree) => Ok(Beside {
                tree: Some(tree),
                plain: canonical,
            }),
            None => self.best_beside(words, canonical, site, ctx, steps),
        }
    }

    // The tree of the chosen scheme where it is smaller than the plain tree, and that beside it. Some row has a value.
    #[cycle(site)]
    fn best_beside<L: Ledger>(
        &self,
        words: &[u64],
        canonical: ArrayRef,
        site: &CompressorContext,
        ctx: &mut ExecutionCtx,
        steps: &mut Steps<L>,
    ) -> VortexResult<Beside>
        requires words { 0 < length words.now }
        requires askable { IsAskable (column_of canonical) }
        requires reach { IsInReach (column_of canonical) (site_of site.now).budget }
        requires value { HasValue (column_of canonical) }
        requires plain { IsPlain canonical }
        ensures answer { OrMemory result (λ made. IsBeside (chosen_or_plain (column_of canonical) (chosen (children_of (setting S.meaning self.now words.now) (site_of site.now)) (setting S.meaning self.now words.now) (column_of canonical) (site_of site.now))) canonical made.tree made.plain) }
        ensures ctx { ctx.new ≡ ctx.old }
    {
        let schemes = self.eligible(ctx.alloc(), canonical.dtype(), site)?;
        let options = merged_options(schemes.as_slice());
        let site = site.with_merged_stats_options(options);
        let mut column = ArrayAndStats::new(canonical, options);
        let best = self.choose(words, schemes.as_slice(), &mut column, &site, ctx, steps)?;
        let Some(scheme) = best else {
            let plain = column.into_array();
            return Ok(Beside { tree: None, plain });
        };
        let tree = self.trial(words, &scheme, &mut column, &site, ctx, steps)?;
        Ok(smaller(tree, column.into_array()))
    }

    // The chosen one of the eligible schemes. Those with an immediate verdict are scored first, since an always-use among them
    // saves every trial.
    #[cycle(site)]
    fn choose<L: Ledger>(
        &self,
        words: &[u64],
        schemes: &[S],
        column: &mut ArrayAndStats,
        site: &CompressorContext,
        ctx: &mut ExecutionCtx,
        steps: &mut Steps<L>,
    ) -> VortexResult<Option<S>>
        requires words { 0 < length words.now }
        requires eligible { map S.meaning schemes.now ≡ eligible (map S.meaning self.now) (column_of column.old.array).dtype (site_of site.now).history }
        requires ready { All (λ s. IsReady (column_of column.old.array) (options_of site.now) (S.meaning s)) schemes.now }
        requires holds { Holds column.old (column_of column.old.array) (options_of site.now) }
        requires askable { IsAskable (column_of column.old.array) }
        requires reach { IsInReach (column_of column.old.array) (site_of site.now).budget }
        requires value { HasValue (column_of column.old.array) }
        ensures answer { OrMemory result (λ scheme. option_map S.meaning scheme ≡ choice (children_of (setting S.meaning self.now words.now) (site_of site.now)) (setting S.meaning self.now words.now) (column_of column.old.array) (site_of site.now)) }
        ensures holds { Holds column.new (column_of column.old.array) (options_of site.now) }
        ensures ctx { ctx.new ≡ ctx.old }
    {
        let all = first_pass(schemes, column, site, ctx)?;
        if is_always(all.best) {
            return Ok(scheme_of(all.best));
        }
        let deferred = all.deferred.as_slice();
        let best = self.judge(words, deferred, column, site, all.best, ctx, steps)?;
        Ok(scheme_of(best))
    }

    // The best scheme and score once the deferred schemes are scored too, up to the first always-use. Every sampling at the
    // site takes its slices by the same words, so the scores compare trees of the same rows.
    #[cycle(site)]
    fn judge<L: Ledger>(
        &self,
        words: &[u64],
        deferred: &[(S, DeferredEstimate)],
        column: &mut ArrayAndStats,
        site: &CompressorContext,
        best: Option<(S, Score)>,
        ctx: &mut ExecutionCtx,
        steps: &mut Steps<L>,
    ) -> VortexResult<Option<(S, Score)>>
        requires words { 0 < length words.now }
        requires ready { All (λ p. IsReady (column_of column.old.array) (options_of site.now) (S.meaning p.0)) deferred.now }
        requires put_off { All (λ p. WasPutOff (column_of column.old.array) (site_of site.now) (S.meaning p.0) p.1) deferred.now }
        requires holds { Holds column.old (column_of column.old.array) (options_of site.now) }
        requires askable { IsAskable (column_of column.old.array) }
        requires reach { IsInReach (column_of column.old.array) (site_of site.now).budget }
        requires value { HasValue (column_of column.old.array) }
        ensures answer { OrMemory result (λ r. meant S.meaning r ≡ best_of (meant S.meaning best) (found (children_of (setting S.meaning self.now words.now) (site_of site.now)) words.now (column_of column.old.array) (site_of site.now) (map (meant_pair S.meaning) deferred.now))) }
        ensures holds { Holds column.new (column_of column.old.array) (options_of site.now) }
        ensures ctx { ctx.new ≡ ctx.old }
    {
        let mut best = best;
        for (scheme, how) in deferred {
            let score = self.deferred_score(words, scheme, *how, best, column, site, ctx, steps)?;
            best = better(best, *scheme, score);
            if is_always(best) {
                return Ok(best);
            }
        }
        Ok(best)
    }

    // The score of a deferred scheme. None may stand for a score that doesn't beat the best so far.
    #[cycle(site)]
    fn deferred_score<L: Ledger>(
        &self,
        words: &[u64],
        scheme: &S,
        how: DeferredEstimate,
        best: Option<(S, Score)>,
        column: &mut ArrayAndStats,
        site: &CompressorContext,
        ctx: &mut ExecutionCtx,
        steps: &mut Steps<L>,
    ) -> VortexResult<Option<Score>>
        requires words { 0 < length words.now }
        requires ready { IsReady (column_of column.old.array) (options_of site.now) (S.meaning scheme.now) }
        requires put_off { WasPutOff (column_of column.old.array) (site_of site.now) (S.meaning scheme.now) how }
        requires holds { Holds column.old (column_of column.old.array) (options_of site.now) }
        requires askable { IsAskable (column_of column.old.array) }
        requires reach { IsInReach (column_of column.old.array) (site_of site.now).budget }
        requires value { HasValue (column_of column.old.array) }
        ensures answer { OrMemory result (DoesFor best scheme.now (deferred_score (children_of (setting S.meaning self.now words.now) (site_of site.now)) words.now (S.meaning scheme.now) (column_of column.old.array) (site_of site.now) how)) }
        ensures holds { Holds column.new (column_of column.old.array) (options_of site.now) }
        ensures ctx { ctx.new ≡ ctx.old }
    {
        match how {
            DeferredEstimate::Callback => {
                let verdict = resolve(scheme, column, threshold(best), site, ctx)?;
                Ok(verdict_score(verdict))
            }
            DeferredEstimate::Sample => {
                self.sample_score(words, scheme, column.array(), site, ctx, steps)
            }
        }
    }
}
