//! The estimate of a dictionary of integers.

ghost use Rattle.std.specs.Prelude.{◌≡◌, ◌<◌, ◌≤◌, ◌^◌, IfSome, length};
ghost use Rattle.vx_schemes.specs.Dictionary.Meaning.{code_bits, dictionary_verdict};

use vx_base::Fraction;
use vx_scheme::{EstimateVerdict, IntegerStats};
use vx_schemes_common::digits;

// The bits of the codes, `width` bits each: a code a value, or a code and an end of 32 bits a run, whichever is less. The
// codes are compressed in turn, by runs too.
fn code_bits(width: u32, values: u32, run_length: u32) -> u64
    requires width { width ≤ 64 }
    requires run_length { 0 < run_length }
    ensures bits { result ≡ code_bits width values run_length }
    ensures most { result < 2 ^ 39 }
{
    let width = u64::from(width);
    let each_value = width * u64::from(values);
    let each_run = (width + 32) * u64::from(values / run_length);
    each_value.min(each_run)
}

// bits(values) / (bits(distinct values) + bits(codes)); Skip where more than half of the values are distinct.
fn verdict(bits: u32, values: u32, distinct: u32, run_length: u32) -> EstimateVerdict
    requires bits { bits ≤ 64 }
    requires run_length { 0 < values → 0 < run_length }
    ensures { result ≡ dictionary_verdict bits values distinct run_length }
{
    if values == 0 || distinct > values / 2 {
        return EstimateVerdict::Skip;
    }
    let plain = u64::from(values) * u64::from(bits);
    let codes = code_bits(digits(u64::from(distinct)), values, run_length);
    let coded = u64::from(bits) * u64::from(distinct) + codes;
    if coded == 0 {
        return EstimateVerdict::Skip;
    }
    EstimateVerdict::Ratio(Fraction::new(plain, coded))
}

/// The verdict from statistics with distinct values.
pub(crate) fn verdict_by(stats: &IntegerStats, bits: u32) -> EstimateVerdict
    requires bits { bits ≤ 64 }
    requires run_length { 0 < stats.now.value_count → 0 < stats.now.average_run_length }
    ensures { IfSome stats.now.distinct (λ counts. result ≡ dictionary_verdict bits stats.now.value_count (length counts) stats.now.average_run_length) }
{
    match stats.distinct_count() {
        Some(distinct) => verdict(
            bits,
            stats.value_count(),
            distinct,
            stats.average_run_length(),
        ),
        None => EstimateVerdict::Skip,
    }
}
