//! A plain array with its cached statistics.

ghost use Rattle.std.specs.Prelude.{◌≡◌, ◌<◌, ◌/◌, nat_lt, true, false, length, IsTrue, is_ok};
ghost use Rattle.std.specs.Borrow.{sem};
ghost use Rattle.vx_base.specs.Answers.{Decided, SurelyDecided};
ghost use Rattle.vx_base.specs.PlainType.{is_integer, integer_of};
ghost use Rattle.vx_model.specs.Plain.{IsPlain};
ghost use Rattle.vx_model.specs.Rows.{rows};
ghost use Rattle.vx_model.specs.TreeType.{tree_type};
ghost use Rattle.vx_scheme.specs.Bundle.{KeptOrDecided, SameArray, StaysKept};
ghost use Rattle.vx_stats.specs.Options.{no_options};
ghost use Rattle.vx_stats.specs.Stats.{stats_of, stats_refusal, value_count, distinct_count};

mod bools_and_strings;

use std::alloc::Global;
use std::marker::Model;
use vx_array::ArrayRef;
use vx_base::{ExecutionCtx, VortexError, VortexResult};
use vx_stats::{BoolStats, GenerateStatsOptions, IntegerStats, StringStats};

/// A plain array with its statistics, each of which is computed by the first call that asks for it, and then kept. The
/// summary has no distinct values; the statistics have what the options request.
#[derive(Drop)]
pub struct ArrayAndStats {
    array: ArrayRef,
    opts: GenerateStatsOptions,
    summary: Option<IntegerStats>,
    integers: Option<IntegerStats>,
    bools: Option<BoolStats>,
    strings: Option<StringStats>,
}

impl Model for ArrayAndStats {
    ghost use Rattle.std.specs.Prelude.{◌≡◌, IfSome, is_some};
    ghost use Rattle.vx_base.specs.PlainType.{integer_of};
    ghost use Rattle.vx_model.specs.Plain.{IsPlain};
    ghost use Rattle.vx_model.specs.Rows.{rows};
    ghost use Rattle.vx_model.specs.TreeType.{tree_type};
    ghost use Rattle.vx_scheme.specs.Bundle.{Bundle, bundle_code};
    ghost use Rattle.vx_stats.specs.Options.{no_options};
    ghost use Rattle.vx_stats.specs.Bools.{bools_of};
    ghost use Rattle.vx_stats.specs.Stats.{stats_of};
    ghost use Rattle.vx_stats.specs.Strings.{strings_of};

    ghost Value = { Bundle };

    ghost coded = { bundle_code };

    ghost view = { λ a. record { array = a.array; options = a.opts; summary_kept = is_some a.summary; integers_kept = is_some a.integers; bools_kept = is_some a.bools; strings_kept = is_some a.strings } };

    ghost invariant = { λ a. IsPlain a.array × IfSome a.summary (λ stats. stats ≡ stats_of no_options (integer_of (tree_type a.array)) (rows a.array)) × IfSome a.integers (λ stats. stats ≡ stats_of a.opts (integer_of (tree_type a.array)) (rows a.array)) × IfSome a.bools (λ stats. stats ≡ bools_of (rows a.array)) × IfSome a.strings (λ stats. stats ≡ strings_of a.opts (rows a.array)) };
}

impl ArrayAndStats {
    ghost use Rattle.vx_scheme.specs.Keeping.{LendsIntegers, LendsSummary};

    /// A plain array with no statistics kept yet. `opts` says what they will include.
    pub fn new(array: ArrayRef, opts: GenerateStatsOptions) -> ArrayAndStats
        requires { IsPlain array }
        ensures { result ≡ record { array = array; options = opts; summary_kept = false; integers_kept = false; bools_kept = false; strings_kept = false } }
    {
        ArrayAndStats {
            array,
            opts,
            summary: None,
            integers: None,
            bools: None,
            strings: None,
        }
    }

    pub fn array(&self) -> &ArrayRef
        ensures array { result.now ≡ self.now.array }
        ensures plain { IsPlain result.now }
    {
        &self.array
    }

    pub fn into_array(self) -> ArrayRef
        ensures array { result ≡ self.array }
        ensures plain { IsPlain self.array }
    {
        self.array
    }

    /// The number of rows of the array.
    pub fn array_len(&self) -> u64
        ensures { result ≡ length (rows self.now.array) }
    {
        self.array.len()
    }

    /// What its statistics include.
    pub fn options(&self) -> GenerateStatsOptions
        ensures { result ≡ self.now.options }
    {
        self.opts
    }

    /// The summary of an array of integers: its statistics without distinct values, kept from now on. It takes no memory.
    /// Refuses TooManyRows exactly above 2^32 - 1 rows.
    pub fn integer_summary(&mut self) -> VortexResult<&IntegerStats>
        requires { IsTrue (is_integer (tree_type self.old.array)) }
        ensures* kept { sem 𝓛 (LendsSummary self.entry (is_ok result)) }
        ensures answer { SurelyDecided (stats_refusal (rows self.old.array)) (λ stats. stats.now ≡ stats_of no_options (integer_of (tree_type self.old.array)) (rows self.old.array)) result }
    {
        if self.array.len() > u64::from(u32::MAX) {
            return Err(VortexError::TooManyRows);
        }
        if self.summary.is_none() {
            self.summary = Some(IntegerStats::summary_of(&self.array));
        }
        match &self.summary {
            Some(stats) => Ok(stats),
            None => unreachable!(),
        }
    }

    // The statistics with what the options request, which the caller keeps.
    fn completed(&mut self, alloc: Global) -> VortexResult<IntegerStats>
        requires { IsTrue (is_integer (tree_type self.old.array)) }
        ensures answer { Decided (stats_refusal (rows self.old.array)) (λ stats. stats ≡ stats_of self.old.options (integer_of (tree_type self.old.array)) (rows self.old.array)) result }
        ensures same { SameArray self.old self.new }
        ensures stays { StaysKept self.old self.new }
        ensures integers { self.new.integers_kept ≡ self.old.integers_kept }
    {
        self.integer_summary()?;
        match &self.summary {
            Some(summary) => summary.completed(alloc, &self.array, self.opts),
            None => unreachable!(),
        }
    }

    /// The statistics of an array of integers with what the options request, kept from now on. Where they aren't kept yet,
    /// refuses TooManyRows exactly above 2^32 - 1 rows, and NoMemory. The context stays as it was.
    pub fn integer_stats(&mut self, ctx: &mut ExecutionCtx) -> VortexResult<&IntegerStats>
        requires { IsTrue (is_integer (tree_type self.old.array)) }
        ensures* kept { sem 𝓛 (LendsIntegers self.entry (is_ok result)) }
        ensures answer { KeptOrDecided self.old.integers_kept (stats_refusal (rows self.old.array)) (λ stats. stats.now ≡ stats_of self.old.options (integer_of (tree_type self.old.array)) (rows self.old.array)) result }
        ensures ctx { ctx.new ≡ ctx.old }
    {
        if self.integers.is_none() {
            self.integers = Some(self.completed(ctx.alloc())?);
        }
        match &self.integers {
            Some(stats) => Ok(stats),
            None => unreachable!(),
        }
    }

    // A test without counting that more than half of the values are distinct. False says nothing.
    fn shows_mostly_distinct(&mut self, alloc: Global) -> VortexResult<bool>
        requires { IsTrue (is_integer (tree_type self.old.array)) }
        ensures answer { Decided (stats_refusal (rows self.old.array)) (λ shown. shown ≡ true → value_count (rows self.old.array) / 2 < distinct_count (rows self.old.array)) result }
        ensures same { SameArray self.old self.new }
        ensures stays { StaysKept self.old self.new }
        ensures integers { self.new.integers_kept ≡ self.old.integers_kept }
    {
        self.integer_summary()?;
        match &self.summary {
            Some(summary) => summary.shows_mostly_distinct(alloc, &self.array),
            None => unreachable!(),
        }
    }

    /// Whether more than half of the values of an array of integers are distinct; its options request distinct values.
    /// Where a test without counting shows that they are, nothing is counted. Else they are counted, and the statistics are
    /// kept from now on, as they are whenever the answer is false. Where they aren't kept yet, refuses TooManyRows exactly
    /// above 2^32 - 1 rows, and NoMemory. The context stays as it was.
    pub fn is_mostly_distinct(&mut self, ctx: &mut ExecutionCtx) -> VortexResult<bool>
        requires integer { IsTrue (is_integer (tree_type self.old.array)) }
        requires asked { self.old.options.count_distinct_values ≡ true }
        ensures answer { KeptOrDecided self.old.integers_kept (stats_refusal (rows self.old.array)) (λ many. many ≡ nat_lt (value_count (rows self.old.array) / 2) (distinct_count (rows self.old.array))) result }
        ensures same { SameArray self.old self.new }
        ensures stays { StaysKept self.old self.new }
        ensures kept { result ≡ Ok false → self.new.integers_kept ≡ true }
        ensures ctx { ctx.new ≡ ctx.old }
    {
        if self.integers.is_none() && self.shows_mostly_distinct(ctx.alloc())? {
            return Ok(true);
        }
        let stats = self.integer_stats(ctx)?;
        match stats.distinct_count() {
            Some(distinct) => Ok(distinct > stats.value_count() / 2),
            None => Ok(false),
        }
    }
}
