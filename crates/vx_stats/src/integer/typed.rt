//! The extremes and the distinct integers of a column of one type.

ghost use Rattle.std.specs.Prelude.{◌≡◌, ◌<◌, ◌^◌, ◌≤ℤ◌, ◌-ℤ◌, pos, IsTrue, length, option_map, option_copied};
ghost use Rattle.vx_base.specs.Integers.{lies_in, bits_of, bits_in};
ghost use Rattle.vx_base.specs.Integers as integers;
ghost use Rattle.vx_stats.specs.Frequent.{frequent_value};
ghost use Rattle.vx_stats.specs.Stats.{extremes_alone};

use crate::integer::distinct::DistinctInfo;
use crate::integer::range::Range;
use crate::integer::value::PValue;
use std::marker::Model;
use vx_base::Integer;

/// The extremes of the valid integers, and the distinct ones where they were requested. Without a valid integer the least
/// is the type's greatest, and the greatest its least.
#[derive(Debug)]
pub struct TypedStats<T: Integer> {
    min: T,
    max: T,
    distinct: Option<DistinctInfo<T>>,
}

impl<T: Integer> Model for TypedStats<T> {
    ghost use Rattle.vx_stats.specs.Stats.{PlainTyped};

    ghost Value = { PlainTyped };

    ghost view = { λ a. record { extremes = record { least = T.whole a.min; greatest = T.whole a.max }; distinct = a.distinct } };
}

// By hand, so that a drop is one call: derived, it would be written out, and proved, at each exit of each function that owns
// statistics.
impl<T: Integer> Drop for TypedStats<T> {
    fn drop(self) {
        let TypedStats {
            min: _,
            max: _,
            distinct: _,
        } = self;
    }
}

// The value of the type with this whole number.
fn value_of<T: Integer>(whole: i128) -> T
    requires { IsTrue (lies_in T.kind whole) }
    ensures { T.whole result ≡ whole }
{
    match T::from_whole(whole) {
        Some(value) => value,
        None => unreachable!(),
    }
}

impl<T: Integer> TypedStats<T> {
    pub(crate) fn new(min: T, max: T) -> Self
        ensures { result ≡ extremes_alone (record { least = T.whole min; greatest = T.whole max }) }
    {
        TypedStats {
            min,
            max,
            distinct: None,
        }
    }

    pub(crate) fn empty() -> Self
        ensures { result ≡ extremes_alone (record { least = integers.greatest T.kind; greatest = integers.least T.kind }) }
    {
        let ptype = T::ptype();
        TypedStats::new(value_of(ptype.greatest()), value_of(ptype.least()))
    }

    /// These extremes, with distinct values.
    pub(crate) fn with_distinct(&self, distinct: Option<DistinctInfo<T>>) -> Self
        ensures { result ≡ record { extremes = self.now.extremes; distinct = distinct } }
    {
        TypedStats {
            min: self.min,
            max: self.max,
            distinct,
        }
    }

    /// The distinct values; None where they were not requested or there is no row.
    pub fn distinct(&self) -> Option<&DistinctInfo<T>>
        ensures { option_copied result ≡ self.now.distinct }
    {
        self.distinct.as_ref()
    }

    pub(crate) fn distinct_count(&self) -> Option<u32>
        ensures { result ≡ option_map length self.now.distinct }
    {
        match &self.distinct {
            Some(info) => Some(info.count()),
            None => None,
        }
    }

    pub(crate) fn most_frequent(&self) -> Option<(PValue, u32)>
        ensures { result ≡ frequent_value T.kind self.now.distinct }
    {
        match &self.distinct {
            Some(info) => {
                let (value, count) = info.most_frequent();
                let ptype = T::ptype();
                Some((PValue { ptype, value }, count))
            }
            None => None,
        }
    }

    /// The range from the least to the greatest.
    pub(crate) fn range(&self) -> Range<T>
        ensures least { T.whole result.least ≡ self.now.extremes.least }
        ensures greatest { T.whole result.greatest ≡ self.now.extremes.greatest }
    {
        Range {
            least: self.min,
            greatest: self.max,
        }
    }

    pub(crate) fn least(&self) -> i128
        ensures { result ≡ self.now.extremes.least }
    {
        self.min.to_whole()
    }

    pub(crate) fn greatest(&self) -> i128
        ensures { result ≡ self.now.extremes.greatest }
    {
        self.max.to_whole()
    }

    /// `greatest - least`.
    pub(crate) fn span(&self) -> u64
        requires { self.now.extremes.least ≤ℤ self.now.extremes.greatest }
        ensures { pos result ≡ self.now.extremes.greatest -ℤ self.now.extremes.least }
    {
        (self.max.to_whole() - self.min.to_whole()) as u64
    }

    /// The two's complement of the greatest integer.
    pub(crate) fn greatest_bits(&self) -> u64
        ensures { result ≡ bits_in T.kind self.now.extremes.greatest }
    {
        self.max.to_bits()
    }
}
