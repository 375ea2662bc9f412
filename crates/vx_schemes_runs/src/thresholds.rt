//! The threshold of a deferred estimate: the score that a ratio has to pass.

ghost use Rattle.std.specs.Prelude.{◌≡◌};
ghost use Rattle.vx_schemes_runs.specs.Thresholds.{is_beaten};

use vx_base::Fraction;

/// Whether there is a threshold and the ratio is at most that.
pub(crate) fn is_beaten(ratio: Fraction, threshold: Option<Fraction>) -> bool
    ensures { result ≡ is_beaten ratio threshold }
{
    match threshold {
        Some(threshold) => threshold >= ratio,
        None => false,
    }
}
