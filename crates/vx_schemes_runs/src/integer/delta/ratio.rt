//! The estimate of differences from row to row.

ghost use Rattle.std.specs.Prelude.{◌≡◌, ◌<◌, ◌≤◌, ◌^◌, ℕ, IsTrue, length};
ghost use Rattle.vx_base.specs.Answers.{Answers};
ghost use Rattle.vx_base.specs.Digits.{digits};
ghost use Rattle.vx_base.specs.PlainType.{is_integer};
ghost use Rattle.vx_model.specs.Column.{column_of};
ghost use Rattle.vx_model.specs.Plain.{IsPlain};
ghost use Rattle.vx_model.specs.Rows.{rows};
ghost use Rattle.vx_model.specs.TreeType.{tree_type};
ghost use Rattle.vx_scheme.specs.Asked.{most_rows};
ghost use Rattle.vx_scheme.specs.declared.estimate.EstimateVerdict.TheVariants.{Ratio, Skip};
ghost use Rattle.vx_schemes_runs.specs.Delta.Meaning.{delta_ratio, delta_verdict, delta_resolved};
ghost use Rattle.vx_schemes_runs.specs.Thresholds.{above};

use super::spread::spread_of_differences;
use crate::thresholds::is_beaten;
use std::alloc::Global;
use vx_array::ArrayRef;
use vx_base::{Fraction, VortexResult};
use vx_blocks::BLOCK_ROWS;
use vx_scheme::EstimateVerdict;
use vx_schemes_common::{digits, greatest_of};

// The rows of a block.
const BLOCK: u64 = BLOCK_ROWS as u64;

// The percentage of the ratio that counts: 5 % off for the prefix sums that decoding takes.
const KEPT_PERCENT: u64 = 95;

// 0.95 * bits(values) / bits(differences), at `width` + 1 bits a difference and whole blocks of them.
fn ratio(len: u64, bits: u32, width: u32) -> Fraction
    requires some { 0 < len }
    requires few { len ≤ most_rows }
    requires bits { bits ≤ 64 }
    requires width { width ≤ 64 }
    ensures { Ratio result ≡ delta_ratio len bits width }
{
    let padded = BLOCK * ((len + (BLOCK - 1)) / BLOCK);
    Fraction::new(
        KEPT_PERCENT * len * u64::from(bits),
        100 * padded * (u64::from(width) + 1),
    )
}

// The ratio for differences that lie `span` apart. Skip where they are all equal, or where the ratio is at most `min_ratio`
// or the threshold.
fn verdict(
    min_ratio: Fraction,
    threshold: Option<Fraction>,
    len: u64,
    bits: u32,
    span: u64,
) -> EstimateVerdict
    requires some { 0 < len }
    requires few { len ≤ most_rows }
    requires bits { bits ≤ 64 }
    ensures { result ≡ above threshold (delta_verdict min_ratio len bits span) }
{
    if span == 0 {
        return EstimateVerdict::Skip;
    }
    let ratio = ratio(len, bits, digits(span));
    if is_beaten(ratio, Some(min_ratio)) {
        return EstimateVerdict::Skip;
    }
    if is_beaten(ratio, threshold) {
        return EstimateVerdict::Skip;
    }
    EstimateVerdict::Ratio(ratio)
}

// Whether differences whose span has `width` digits are skipped: their ratio is at most `min_ratio` or the threshold.
fn is_skipped(
    len: u64,
    bits: u32,
    width: u32,
    min_ratio: Fraction,
    threshold: Option<Fraction>,
) -> bool
    requires some { 0 < len }
    requires few { len ≤ most_rows }
    requires bits { bits ≤ 64 }
    requires width { width ≤ 64 }
    ensures { IsTrue result → (span : ℕ) → digits span ≡ width → above threshold (delta_verdict min_ratio len bits span) ≡ Skip }
{
    let ratio = ratio(len, bits, width);
    is_beaten(ratio, Some(min_ratio)) || is_beaten(ratio, threshold)
}

// The greatest span whose number of digits isn't skipped; 0 where every span is skipped.
fn most_spread(len: u64, bits: u32, min_ratio: Fraction, threshold: Option<Fraction>) -> u64
    requires some { 0 < len }
    requires few { len ≤ most_rows }
    requires bits { bits ≤ 64 }
    ensures { (span : ℕ) → result < span → span < 2 ^ 64 → above threshold (delta_verdict min_ratio len bits span) ≡ Skip }
{
    let mut width = 64;
    while width > 0 {
        if !is_skipped(len, bits, width, min_ratio, threshold) {
            return greatest_of(width);
        }
        width -= 1;
    }
    0
}

/// The verdict on a plain column of integers: the ratio, or Skip where it is at most `min_ratio` or the threshold. The rows
/// aren't read where every span would be skipped, and else only until the differences lie too far apart.
pub(crate) fn resolved(
    alloc: Global,
    array: &ArrayRef,
    min_ratio: Fraction,
    threshold: Option<Fraction>,
) -> VortexResult<EstimateVerdict>
    requires plain { IsPlain array.now }
    requires integer { IsTrue (is_integer (tree_type array.now)) }
    requires some { 0 < length (rows array.now) }
    requires few { length (rows array.now) ≤ most_rows }
    ensures { Answers result (above threshold (delta_resolved min_ratio (column_of array.now))) }
{
    let len = array.len();
    let bits = array.dtype().ptype().bit_width();
    let most = most_spread(len, bits, min_ratio, threshold);
    if most == 0 {
        return Ok(EstimateVerdict::Skip);
    }
    match spread_of_differences(alloc, array, most)? {
        Some(span) => Ok(verdict(min_ratio, threshold, len, bits, span)),
        None => Ok(EstimateVerdict::Skip),
    }
}
