//! Fractions, compared by their values.

ghost use Rattle.std.specs.Prelude.{◌<◌};

use std::cmp::Ordering;

/// A natural number over a positive one. Equality and order go by the value: 2/4 equals 1/2.
#[derive(Clone, Copy, Debug)]
pub struct Fraction {
    num: u64,
    den: u64,
    ghost positive: { 0 < den },
}

impl Fraction {
    ghost use Rattle.std.specs.Prelude.{◌≡◌, ◌<◌};
    ghost use Rattle.vx_base.specs.Fractions.{numerator, divisor, cross, is_above_one};

    /// `num` over `den`, not reduced.
    pub fn new(num: u64, den: u64) -> Fraction
        requires { 0 < den }
        ensures num { numerator result ≡ num }
        ensures den { divisor result ≡ den }
    {
        Fraction { num, den }
    }

    /// The numerator, as it was given.
    pub fn num(&self) -> u64
        ensures { result ≡ numerator self.now }
    {
        self.num
    }

    /// The denominator, as it was given.
    pub fn den(&self) -> u64
        ensures den { result ≡ divisor self.now }
        ensures positive { 0 < result }
    {
        self.den
    }

    /// Whether the value is greater than one.
    pub fn above_one(&self) -> bool
        ensures { result ≡ is_above_one self.now }
    {
        self.num > self.den
    }

    // `self.num * other.den`, of which 128 bits lose nothing. Fractions compare as these products do.
    fn cross(&self, other: &Fraction) -> u128
        ensures { result ≡ cross self.now other.now }
    {
        u128::from(self.num) * u128::from(other.den)
    }
}

impl PartialEq for Fraction {
    ghost use Rattle.vx_base.specs.Fractions.{same_fraction};
    ghost use Rattle.vx_base.specs.FractionLaws.{same_fraction_equivalence};
    ghost use Rattle.std.specs.Cmp.{partial_equiv_from_equiv};

    ghost eq = { same_fraction };

    ghost laws = { partial_equiv_from_equiv same_fraction_equivalence };

    fn eq(&self, other: &Fraction) -> bool {
        self.cross(other) == other.cross(self)
    }
}

impl Eq for Fraction {
    ghost use Rattle.vx_base.specs.FractionLaws.{same_fraction_equivalence};

    ghost laws = { same_fraction_equivalence };
}

impl PartialOrd for Fraction {
    ghost use Rattle.vx_base.specs.Fractions.{fraction_cmp};
    ghost use Rattle.vx_base.specs.FractionLaws.{fraction_cmp_partial};
    ghost use Rattle.std.specs.Ordering.{as_partial_cmp};

    ghost partial_cmp = { as_partial_cmp fraction_cmp };

    ghost laws = { fraction_cmp_partial };

    fn partial_cmp(&self, other: &Fraction) -> Option<Ordering> {
        Some(self.cmp(other))
    }
}

impl Ord for Fraction {
    ghost use Rattle.vx_base.specs.Fractions.{fraction_cmp};
    ghost use Rattle.vx_base.specs.FractionLaws.{fraction_cmp_total, same_fraction-cmp};
    ghost use Rattle.std.specs.Prelude.{refl};

    ghost cmp = { fraction_cmp };

    ghost total = { fraction_cmp_total };

    ghost matches_partial_cmp = { λ _ _. refl };

    ghost matches_eq = { same_fraction-cmp };

    fn cmp(&self, other: &Fraction) -> Ordering {
        self.cross(other).cmp(&other.cross(self))
    }
}
