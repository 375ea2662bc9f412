//! Statistics of columns of texts and binaries.

ghost use Rattle.std.specs.Prelude.{◌≡◌};

mod counting;
mod generating;
mod keys;
mod word_set;

use std::marker::Model;

/// Statistics of a column of texts or binaries. Contracts see them as plain data.
#[derive(Clone, Copy, Debug)]
pub struct StringStats {
    null_count: u32,
    value_count: u32,
    estimated_distinct_count: Option<u32>,
}

impl Model for StringStats {
    ghost use Rattle.vx_stats.specs.Strings.{PlainStrings};

    ghost Value = { PlainStrings };

    ghost view = { λ a. record { null_count = a.null_count; value_count = a.value_count; estimated_distinct_count = a.estimated_distinct_count } };

    ghost inverse = { λ v. record { null_count = v.null_count; value_count = v.value_count; estimated_distinct_count = v.estimated_distinct_count } };
}

impl StringStats {
    // From the numbers of null and of valid rows, and the estimate.
    fn new(counts: (u32, u32), estimate: Option<u32>) -> StringStats
        ensures { result ≡ record { null_count = counts.0; value_count = counts.1; estimated_distinct_count = estimate } }
    {
        let (null_count, value_count) = counts;
        StringStats {
            null_count,
            value_count,
            estimated_distinct_count: estimate,
        }
    }

    /// The number of null rows.
    pub fn null_count(&self) -> u32
        ensures { result ≡ self.now.null_count }
    {
        self.null_count
    }

    /// The number of valid rows.
    pub fn value_count(&self) -> u32
        ensures { result ≡ self.now.value_count }
    {
        self.value_count
    }

    /// An estimate of the number of distinct values: how many distinct pairs of a length and the first four bytes the rows have,
    /// where a null counts as empty. None where it was not requested.
    pub fn estimated_distinct_count(&self) -> Option<u32>
        ensures { result ≡ self.now.estimated_distinct_count }
    {
        self.estimated_distinct_count
    }
}
