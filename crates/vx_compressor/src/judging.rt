//! Asking schemes for their estimates of a column, and the scores of what they answer.

ghost use Rattle.std.specs.Prelude.{◌≡◌, ◌<◌, ◌^◌, ◌++◌, [], None, All, IfOk, map, false};
ghost use Rattle.vx_base.specs.Answers.{Answers, OrMemory};
ghost use Rattle.vx_model.specs.Column.{column_of};
ghost use Rattle.vx_model.specs.Size.{size};
ghost use Rattle.vx_scheme.specs.Asked.{HasPutOff, HasValue};
ghost use Rattle.vx_scheme.specs.Contexts.{site_of, options_of};
ghost use Rattle.vx_scheme.specs.Resolved.{IsResolved};
ghost use Rattle.vx_compressor.specs.Cascade.{verdict_score, size_score};
ghost use Rattle.vx_compressor.specs.Choice.{best_of, is_always};
ghost use Rattle.vx_compressor.specs.Judging.{Holds, IsAskable, IsReady, told, told_by, put_off, put_off_by, meant, meant_pair};

use crate::choice::{Score, better, is_always};
use vx_array::ArrayRef;
use vx_base::{ExecutionCtx, Fraction, VortexResult};
use vx_scheme::{
    ArrayAndStats, CompressionEstimate, CompressorContext, DeferredEstimate, EstimateVerdict,
    Scheme,
};

/// The estimates of a site's schemes so far.
#[derive(Drop)]
pub(crate) struct Told<S> {
    /// The best of the immediate verdicts, with its scheme.
    pub(crate) best: Option<(S, Score)>,
    /// The schemes whose verdict is deferred, each with how it is found.
    pub(crate) deferred: Vec<(S, DeferredEstimate)>,
}

// A scheme's estimate of the column that the bundle holds.
fn ask<S: Scheme>(
    scheme: &S,
    column: &mut ArrayAndStats,
    site: &CompressorContext,
    ctx: &mut ExecutionCtx,
) -> VortexResult<CompressionEstimate>
    requires holds { Holds column.old (column_of column.old.array) (options_of site.now) }
    requires askable { IsAskable (column_of column.old.array) }
    requires value { HasValue (column_of column.old.array) }
    requires ready { IsReady (column_of column.old.array) (options_of site.now) (S.meaning scheme.now) }
    ensures answer { Answers result ((S.meaning scheme.now).estimate (column_of column.old.array) (site_of site.now)) }
    ensures holds { Holds column.new (column_of column.old.array) (options_of site.now) }
    ensures ctx { ctx.new ≡ ctx.old }
{
    scheme.expected_compression_ratio(column, site, ctx)
}

/// A scheme's deferred verdict. Skip may stand for a ratio that isn't above the threshold, since it can't win.
pub(crate) fn resolve<S: Scheme>(
    scheme: &S,
    column: &mut ArrayAndStats,
    threshold: Option<Fraction>,
    site: &CompressorContext,
    ctx: &mut ExecutionCtx,
) -> VortexResult<EstimateVerdict>
    requires holds { Holds column.old (column_of column.old.array) (options_of site.now) }
    requires askable { IsAskable (column_of column.old.array) }
    requires value { HasValue (column_of column.old.array) }
    requires ready { IsReady (column_of column.old.array) (options_of site.now) (S.meaning scheme.now) }
    requires put_off { HasPutOff (S.meaning scheme.now) (column_of column.old.array) (site_of site.now) }
    ensures answer { OrMemory result (IsResolved threshold ((S.meaning scheme.now).resolve (column_of column.old.array) (site_of site.now))) }
    ensures holds { Holds column.new (column_of column.old.array) (options_of site.now) }
    ensures ctx { ctx.new ≡ ctx.old }
{
    scheme.resolve_estimate(column, threshold, site, ctx)
}

impl<S: Scheme> Told<S> {
    // Asks one more scheme: keeps its verdict where that is the best so far, or defers it.
    fn hear(
        &mut self,
        scheme: &S,
        column: &mut ArrayAndStats,
        site: &CompressorContext,
        ctx: &mut ExecutionCtx,
    ) -> VortexResult<()>
        requires holds { Holds column.old (column_of column.old.array) (options_of site.now) }
        requires askable { IsAskable (column_of column.old.array) }
        requires value { HasValue (column_of column.old.array) }
        requires ready { IsReady (column_of column.old.array) (options_of site.now) (S.meaning scheme.now) }
        ensures best { OrMemory result (λ _. self.new.best ≡ best_of self.old.best (told_by scheme.now ((S.meaning scheme.now).estimate (column_of column.old.array) (site_of site.now)) [])) }
        ensures deferred { IfOk result (λ _. self.new.deferred.items ≡ self.old.deferred.items ++ put_off_by scheme.now ((S.meaning scheme.now).estimate (column_of column.old.array) (site_of site.now)) []) }
        ensures holds { Holds column.new (column_of column.old.array) (options_of site.now) }
        ensures ctx { ctx.new ≡ ctx.old }
    {
        match ask(scheme, column, site, ctx)? {
            CompressionEstimate::Verdict(verdict) => {
                self.best = better(self.best, *scheme, verdict_score(verdict));
            }
            CompressionEstimate::Deferred(how) => self.deferred.push((*scheme, how))?,
        }
        Ok(())
    }
}

/// The best immediate verdict of the schemes, and the schemes that defer. After an always-use no later scheme is asked.
pub(crate) fn first_pass<S: Scheme>(
    schemes: &[S],
    column: &mut ArrayAndStats,
    site: &CompressorContext,
    ctx: &mut ExecutionCtx,
) -> VortexResult<Told<S>>
    requires holds { Holds column.old (column_of column.old.array) (options_of site.now) }
    requires askable { IsAskable (column_of column.old.array) }
    requires value { HasValue (column_of column.old.array) }
    requires ready { All (λ s. IsReady (column_of column.old.array) (options_of site.now) (S.meaning s)) schemes.now }
    ensures best { OrMemory result (λ all. meant S.meaning all.best ≡ best_of None (told (column_of column.old.array) (site_of site.now) (map S.meaning schemes.now))) }
    ensures deferred { IfOk result (λ all. is_always all.best ≡ false → map (meant_pair S.meaning) all.deferred.items ≡ put_off (column_of column.old.array) (site_of site.now) (map S.meaning schemes.now)) }
    ensures holds { Holds column.new (column_of column.old.array) (options_of site.now) }
    ensures ctx { ctx.new ≡ ctx.old }
{
    let mut all = Told {
        best: None,
        deferred: Vec::new(ctx.alloc()),
    };
    for scheme in schemes {
        all.hear(scheme, column, site, ctx)?;
        if is_always(all.best) {
            return Ok(all);
        }
    }
    Ok(all)
}

pub(crate) fn verdict_score(verdict: EstimateVerdict) -> Option<Score>
    ensures { result ≡ verdict_score verdict }
{
    match verdict {
        EstimateVerdict::Skip => None,
        EstimateVerdict::AlwaysUse => Some(Score::Always),
        EstimateVerdict::Ratio(ratio) => Some(Score::Finite(ratio)),
    }
}

/// The ratio size(plain) / size(tree). None where the tree isn't smaller, or takes no byte: such a tree of a sample says
/// nothing of the whole column.
pub(crate) fn size_score(plain: &ArrayRef, tree: ArrayRef) -> Option<Score>
    requires { size plain.now < 2 ^ 64 }
    ensures { result ≡ size_score (size plain.now) (size tree) }
{
    let before = plain.nbytes();
    let after = tree.nbytes();
    if after == 0 || before <= after {
        return None;
    }
    Some(Score::Finite(Fraction::new(before as u64, after as u64)))
}
