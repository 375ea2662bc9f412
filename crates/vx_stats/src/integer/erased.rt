//! The extremes and the distinct integers of a column of any integer type.

ghost use Rattle.std.specs.Prelude.{◌≡◌, ◌≤ℤ◌, ◌-ℤ◌, pos, int_lt, length, option_map};
ghost use Rattle.std.specs.Ordering.{int_eq};
ghost use Rattle.vx_base.specs.Integers.{bits_in};
ghost use Rattle.vx_stats.specs.Frequent.{frequent_value};

use crate::integer::typed::TypedStats;
use crate::integer::value::PValue;

/// The extremes and the distinct integers of a column, in the type of the column.
#[derive(Debug)]
pub enum ErasedStats {
    U8(TypedStats<u8>),
    U16(TypedStats<u16>),
    U32(TypedStats<u32>),
    U64(TypedStats<u64>),
    I8(TypedStats<i8>),
    I16(TypedStats<i16>),
    I32(TypedStats<i32>),
    I64(TypedStats<i64>),
}

// One expression over the statistics of each of the eight types.
macro_rules! with_typed {
    ($stats:expr, $typed:ident => $answer:expr) => {
        match $stats {
            ErasedStats::U8($typed) => $answer,
            ErasedStats::U16($typed) => $answer,
            ErasedStats::U32($typed) => $answer,
            ErasedStats::U64($typed) => $answer,
            ErasedStats::I8($typed) => $answer,
            ErasedStats::I16($typed) => $answer,
            ErasedStats::I32($typed) => $answer,
            ErasedStats::I64($typed) => $answer,
        }
    };
}

// By hand for the same reason as of `TypedStats`: derived, eight variants would be written out at each drop.
impl Drop for ErasedStats {
    fn drop(self) {
        with_typed!(self, typed => drop(typed))
    }
}

impl ErasedStats {
    ghost use Rattle.vx_stats.specs.Erased.{ptype_in, extremes_of, distinct_of, log2_of};

    /// The least valid integer; the type's greatest where there is none.
    pub fn least(&self) -> i128
        ensures { result ≡ (extremes_of self.now).least }
    {
        with_typed!(self, typed => typed.least())
    }

    /// The greatest valid integer; the type's least where there is none.
    pub fn greatest(&self) -> i128
        ensures { result ≡ (extremes_of self.now).greatest }
    {
        with_typed!(self, typed => typed.greatest())
    }

    pub fn min_is_zero(&self) -> bool
        ensures { result ≡ int_eq (extremes_of self.now).least (pos 0) }
    {
        self.least() == 0
    }

    pub fn min_is_negative(&self) -> bool
        ensures { result ≡ int_lt (extremes_of self.now).least (pos 0) }
    {
        self.least() < 0
    }

    /// `greatest - least`. Requires that it isn't negative, as `erased` promises where there is a valid integer.
    pub fn max_minus_min(&self) -> u64
        requires { (extremes_of self.now).least ≤ℤ (extremes_of self.now).greatest }
        ensures { pos result ≡ (extremes_of self.now).greatest -ℤ (extremes_of self.now).least }
    {
        with_typed!(self, typed => typed.span())
    }

    /// The position of the highest set bit of the greatest integer, read as unsigned; None where it is 0.
    #[tactic(auto, using(vx_base::proofs::DigitsLemmas::leading_digits))]
    pub fn max_ilog2(&self) -> Option<u32>
        ensures { result ≡ log2_of (bits_in (ptype_in self.now) (extremes_of self.now).greatest) }
    {
        let bits = with_typed!(self, typed => typed.greatest_bits());
        if bits == 0 {
            None
        } else {
            Some(63 - bits.leading_zeros())
        }
    }

    /// The number of distinct values; None where they were not requested or there is no row.
    pub fn distinct_count(&self) -> Option<u32>
        ensures { result ≡ option_map length (distinct_of self.now) }
    {
        with_typed!(self, typed => typed.distinct_count())
    }

    /// The most frequent value with its count, the least one where several tie; (0, 0) where every row is null. None where
    /// distinct values were not requested or there is no row.
    pub fn most_frequent_value_and_count(&self) -> Option<(PValue, u32)>
        ensures { result ≡ frequent_value (ptype_in self.now) (distinct_of self.now) }
    {
        with_typed!(self, typed => typed.most_frequent())
    }
}

impl From<TypedStats<u8>> for ErasedStats {
    ghost use Rattle.vx_stats.specs.declared.integer.erased.ErasedStats.TheVariants.{U8};

    ghost from_gives = { λ typed r. r ≡ U8 typed };

    fn from(typed: TypedStats<u8>) -> Self {
        ErasedStats::U8(typed)
    }
}

impl From<TypedStats<u16>> for ErasedStats {
    ghost use Rattle.vx_stats.specs.declared.integer.erased.ErasedStats.TheVariants.{U16};

    ghost from_gives = { λ typed r. r ≡ U16 typed };

    fn from(typed: TypedStats<u16>) -> Self {
        ErasedStats::U16(typed)
    }
}

impl From<TypedStats<u32>> for ErasedStats {
    ghost use Rattle.vx_stats.specs.declared.integer.erased.ErasedStats.TheVariants.{U32};

    ghost from_gives = { λ typed r. r ≡ U32 typed };

    fn from(typed: TypedStats<u32>) -> Self {
        ErasedStats::U32(typed)
    }
}

impl From<TypedStats<u64>> for ErasedStats {
    ghost use Rattle.vx_stats.specs.declared.integer.erased.ErasedStats.TheVariants.{U64};

    ghost from_gives = { λ typed r. r ≡ U64 typed };

    fn from(typed: TypedStats<u64>) -> Self {
        ErasedStats::U64(typed)
    }
}

impl From<TypedStats<i8>> for ErasedStats {
    ghost use Rattle.vx_stats.specs.declared.integer.erased.ErasedStats.TheVariants.{I8};

    ghost from_gives = { λ typed r. r ≡ I8 typed };

    fn from(typed: TypedStats<i8>) -> Self {
        ErasedStats::I8(typed)
    }
}

impl From<TypedStats<i16>> for ErasedStats {
    ghost use Rattle.vx_stats.specs.declared.integer.erased.ErasedStats.TheVariants.{I16};

    ghost from_gives = { λ typed r. r ≡ I16 typed };

    fn from(typed: TypedStats<i16>) -> Self {
        ErasedStats::I16(typed)
    }
}

impl From<TypedStats<i32>> for ErasedStats {
    ghost use Rattle.vx_stats.specs.declared.integer.erased.ErasedStats.TheVariants.{I32};

    ghost from_gives = { λ typed r. r ≡ I32 typed };

    fn from(typed: TypedStats<i32>) -> Self {
        ErasedStats::I32(typed)
    }
}

impl From<TypedStats<i64>> for ErasedStats {
    ghost use Rattle.vx_stats.specs.declared.integer.erased.ErasedStats.TheVariants.{I64};

    ghost from_gives = { λ typed r. r ≡ I64 typed };

    fn from(typed: TypedStats<i64>) -> Self {
        ErasedStats::I64(typed)
    }
}
