//! The choice among schemes by their scores.

ghost use Rattle.std.specs.Prelude.{◌≡◌, option_map};
ghost use Rattle.vx_compressor.specs.Choice.{better, is_always, BestIsChoice};
ghost use Rattle.vx_compressor.specs.Judging.{threshold_of};

use vx_base::Fraction;

/// How good a scheme is for a column. Always beats any ratio.
#[derive(Clone, Copy, Debug)]
pub enum Score {
    Always,
    /// The ratio size(plain) / size(tree). A ratio of at most 1 never wins.
    Finite(Fraction),
}

/// Does nothing; its contract holds the law: the best that `better` leaves after one pass is the choice, which is the first
/// always-use, else the first of the greatest ratios above 1.
pub fn best_is_choice<S: Copy>()
    ensures { BestIsChoice S }
{}

// The best so far after one more scheme's score. A tie stays with the earlier scheme.
pub(crate) fn better<S: Copy>(
    best: Option<(S, Score)>,
    scheme: S,
    score: Option<Score>,
) -> Option<(S, Score)>
    ensures { result ≡ better best scheme score }
{
    let Some(score) = score else {
        return best;
    };
    let better = match (best, score) {
        (Some((_, Score::Always)), _) => false,
        (_, Score::Always) => true,
        (None, Score::Finite(ratio)) => ratio.above_one(),
        (Some((_, Score::Finite(old))), Score::Finite(ratio)) => ratio.above_one() && old < ratio,
    };
    if better { Some((scheme, score)) } else { best }
}

// The best scheme.
pub(crate) fn scheme_of<S: Copy>(best: Option<(S, Score)>) -> Option<S>
    ensures { result ≡ option_map (λ p. p.0) best }
{
    let (scheme, _) = best?;
    Some(scheme)
}

// The ratio that a later scheme has to exceed. None where nothing has a score yet, or nothing can beat the best.
pub(crate) fn threshold<S: Copy>(best: Option<(S, Score)>) -> Option<Fraction>
    ensures { result ≡ threshold_of best }
{
    match best {
        Some((_, Score::Finite(ratio))) => Some(ratio),
        Some((_, Score::Always)) | None => None,
    }
}

// Whether no later scheme can be better.
pub(crate) fn is_always<S: Copy>(best: Option<(S, Score)>) -> bool
    ensures { result ≡ is_always best }
{
    matches!(best, Some((_, Score::Always)))
}
