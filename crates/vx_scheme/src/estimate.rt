//! Estimates: what a scheme expects to do for a column.

ghost use Rattle.std.specs.Prelude.{◌≡◌};
ghost use Rattle.vx_scheme.specs.Scores.{finite_of};

use vx_base::Fraction;

/// A scheme's estimate of a column: a verdict, or how the compressor finds one.
#[derive(Clone, Copy, Debug)]
pub enum CompressionEstimate {
    Verdict(EstimateVerdict),
    Deferred(DeferredEstimate),
}

/// What a scheme expects of itself.
#[derive(Clone, Copy, Debug)]
pub enum EstimateVerdict {
    /// The scheme can't serve the column.
    Skip,
    /// The scheme is to be chosen, whatever the others expect.
    AlwaysUse,
    /// `bytes of the plain column / bytes of the tree`.
    Ratio(Fraction),
}

/// How a verdict is found that statistics alone don't give.
#[derive(Clone, Copy, Debug)]
pub enum DeferredEstimate {
    /// The scheme is tried on a sample of the column.
    Sample,
    /// The scheme is asked again, by `resolve_estimate`, with the score to beat.
    Callback,
}

/// The outcome of a trial: `bytes before / bytes after`, unless no bytes were left.
#[derive(Clone, Copy, Debug, PartialEq)]
pub enum EstimateScore {
    FiniteCompression(Fraction),
    ZeroBytes,
}

impl EstimateScore {
    /// The ratio; None exactly for `ZeroBytes`.
    pub fn finite_ratio(self) -> Option<Fraction>
        ensures { result ≡ finite_of self }
    {
        match self {
            EstimateScore::FiniteCompression(ratio) => Some(ratio),
            EstimateScore::ZeroBytes => None,
        }
    }
}
