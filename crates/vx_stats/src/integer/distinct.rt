//! The distinct integers of a column, and the most frequent one.

ghost use Rattle.std.specs.Prelude.{◌≡◌, ◌<◌, ◌^◌, length, ℤ, List, ◌==◌, if◌then◌else◌};
ghost use Rattle.std.specs.List.Sorted.{IsStrictlySortedBy};
ghost use Rattle.std.specs.Ordering.{int_cmp};
ghost use Rattle.vx_stats.specs.Distinct.{distinct, times, most_frequent};
ghost use Rattle.vx_stats.specs.Runs.{whole_count, whole_counts, better};

use std::marker::Model;
use vx_base::{Integer, Items};

/// Values with their counts.
pub type Counts<T> = Items<(T, u32)>;

/// The distinct integers of a column with their counts. Contracts see them as whole numbers.
#[derive(Debug, Drop)]
pub struct DistinctInfo<T: Integer> {
    counts: Counts<T>,
    frequent: (T, u32),
}

impl<T: Integer> Model for DistinctInfo<T> {
    ghost use Rattle.std.specs.Prelude.{◌≡◌, ◌<◌, ◌^◌, ℕ, ℤ, List, length};
    ghost use Rattle.vx_stats.specs.Distinct.{most_frequent};
    ghost use Rattle.vx_stats.specs.Runs.{whole_counts, whole_count};

    ghost Value = { List (ℤ × ℕ) };

    ghost view = { λ a. whole_counts T.whole a.counts };

    ghost invariant = { λ a. (length a.counts < 2 ^ 32) × (whole_count T.whole a.frequent ≡ most_frequent (whole_counts T.whole a.counts)) };
}

// The one with the greater count; the first where they tie.
#[inline(always)]
fn better<T: Integer>(best: (T, u32), item: (T, u32)) -> (T, u32)
    ensures { whole_count T.whole result ≡ better (whole_count T.whole best) (whole_count T.whole item) }
{
    if best.1 < item.1 { item } else { best }
}

// The first entry with the greatest count; (0, 0) without an entry.
fn first_of_most<T: Integer>(counts: &[(T, u32)]) -> (T, u32)
    ensures { whole_count T.whole result ≡ most_frequent (whole_counts T.whole counts.now) }
{
    if counts.is_empty() {
        return (T::zero(), 0);
    }
    let mut best = counts[0];
    for row in 0..counts.len() {
        best = better(best, counts[row]);
    }
    best
}

impl<T: Integer> DistinctInfo<T> {
    pub(crate) fn new(counts: Counts<T>) -> Self
        requires { length counts < 2 ^ 32 }
        ensures { result ≡ whole_counts T.whole counts }
    {
        let frequent = first_of_most(counts.as_slice());
        DistinctInfo { counts, frequent }
    }

    /// Each distinct value with its count, the values ascending.
    pub fn distinct_values(&self) -> &Counts<T>
        ensures { whole_counts T.whole result.now ≡ self.now }
    {
        &self.counts
    }

    pub(crate) fn count(&self) -> u32
        ensures { result ≡ length self.now }
    {
        self.counts.len() as u32
    }

    /// The most frequent value with its count, the least one where several tie; (0, 0) without a value.
    pub(crate) fn most_frequent(&self) -> (i128, u32)
        ensures { result ≡ most_frequent self.now }
    {
        let (value, count) = self.frequent;
        (value.to_whole(), count)
    }
}

/// Does nothing; its contract states the laws of distinct numbers: they ascend strictly, and each number that occurs
/// stands once.
pub fn laws_of_distinct()
    ensures ascending { (zs : List ℤ) → IsStrictlySortedBy int_cmp (distinct zs) }
    ensures once { (zs : List ℤ) (z : ℤ) → times (distinct zs) z ≡ (if times zs z == 0 then 0 else 1) }
{}
