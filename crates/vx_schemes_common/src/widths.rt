//! Binary digits of numbers.

ghost use Rattle.std.specs.Prelude.{◌≡◌, ◌<◌, ◌≤◌, ◌-◌, ◌^◌};
ghost use Rattle.vx_base.specs.Digits.{digits};

/// The number of binary digits: 64 less the leading zeros, so 0 for 0.
#[tactic(auto, using(vx_base::proofs::DigitsLemmas::leading_digits))]
pub fn digits(number: u64) -> u32
    ensures digits { result ≡ digits number }
    ensures most { result ≤ 64 }
{
    64 - number.leading_zeros()
}

/// The greatest number of `digits` binary digits, 2^digits - 1.
pub fn greatest_of(digits: u32) -> u64
    requires some { 0 < digits }
    requires most { digits ≤ 64 }
    ensures { result ≡ 2 ^ digits - 1 }
{
    u64::MAX >> (64 - digits)
}
