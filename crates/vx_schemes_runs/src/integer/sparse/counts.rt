//! Counts of a column's nulls and values, and its most frequent value.

ghost use Rattle.std.specs.Prelude.{◌≡◌, ◌<◌, ◌≤◌, ◌==◌, ◌*◌, ◌&&◌, ◌||◌, IsTrue, None, Some, if◌then◌else◌, length, nat_le, nat_lt, true};
ghost use Rattle.vx_base.specs.Answers.{Answers};
ghost use Rattle.vx_base.specs.PlainType.{is_integer};
ghost use Rattle.vx_model.specs.Rows.{rows};
ghost use Rattle.vx_model.specs.TreeType.{tree_type};
ghost use Rattle.vx_scheme.specs.Asked.{most_rows};
ghost use Rattle.vx_scheme.specs.Bundle.{SameArray};
ghost use Rattle.vx_stats.specs.Stats.{null_count, value_count, average_run_length, most_frequent};

use vx_base::{ExecutionCtx, VortexResult};
use vx_scheme::ArrayAndStats;

/// The nulls and the values of a column, and its average run length.
#[derive(Clone, Copy)]
pub(crate) struct Counts {
    pub(crate) nulls: u64,
    pub(crate) values: u64,
    run_length: u32,
}

/// The counts of a column.
pub(crate) fn counts_of(column: &mut ArrayAndStats) -> VortexResult<Counts>
    requires integer { IsTrue (is_integer (tree_type column.old.array)) }
    requires few { length (rows column.old.array) ≤ most_rows }
    ensures answer { Answers result (record { nulls = null_count (rows column.old.array); values = value_count (rows column.old.array); run_length = average_run_length (rows column.old.array) }) }
    ensures column { SameArray column.old column.new }
{
    let summary = column.integer_summary()?;
    Ok(Counts {
        nulls: u64::from(summary.null_count()),
        values: u64::from(summary.value_count()),
        run_length: summary.average_run_length(),
    })
}

impl Counts {
    /// Whether the verdict on `rows` rows needs no vote: more than 9 of 10 are null, or the runs are too short for a value
    /// in 9 of 10 of v valid rows. The v / 10 others cut it into runs: at most 2 * (v / 10) + 1 of them together, so the
    /// average run has 4 values or more where v >= 20.
    pub(crate) fn need_no_vote(self, rows: u64) -> bool
        requires rows { rows ≤ most_rows }
        requires nulls { self.nulls ≤ rows }
        ensures { result ≡ (nat_lt (9 * rows) (10 * self.nulls) || (nat_le 20 self.values && nat_lt self.run_length 4)) }
    {
        is_mostly_null(rows, self.nulls) || (self.values >= 20 && self.run_length < 4)
    }
}

/// A fill has to stand in at least 9 of 10 rows: below that its patches, a value and a row number each, cost what it saves.
pub(crate) const FILL_TENTHS: u64 = 9;

/// Whether more than 9 of 10 rows are null.
pub(crate) fn is_mostly_null(rows: u64, nulls: u64) -> bool
    requires rows { rows ≤ most_rows }
    requires nulls { nulls ≤ rows }
    ensures { result ≡ nat_lt (9 * rows) (10 * nulls) }
{
    FILL_TENTHS * rows < 10 * nulls
}

/// The nulls and the values of a column, its most frequent value and how often that occurs.
#[derive(Clone, Copy)]
pub(crate) struct Frequent {
    nulls: u64,
    values: u64,
    value: i128,
    often: u64,
}

/// The counts of a column with rows.
pub(crate) fn frequent_of(
    column: &mut ArrayAndStats,
    ctx: &mut ExecutionCtx,
) -> VortexResult<Frequent>
    requires integer { IsTrue (is_integer (tree_type column.old.array)) }
    requires some { 0 < length (rows column.old.array) }
    requires few { length (rows column.old.array) ≤ most_rows }
    requires options { column.old.options.count_distinct_values ≡ true }
    ensures answer { Answers result (record { nulls = null_count (rows column.old.array); values = value_count (rows column.old.array); value = (most_frequent (rows column.old.array)).0; often = (most_frequent (rows column.old.array)).1 }) }
    ensures column { SameArray column.old column.new }
    ensures ctx { ctx.new ≡ ctx.old }
{
    let stats = column.integer_stats(ctx)?;
    let Some((frequent, often)) = stats.most_frequent_value_and_count() else {
        unreachable!();
    };
    Ok(Frequent {
        nulls: u64::from(stats.null_count()),
        values: u64::from(stats.value_count()),
        value: frequent.value,
        often: u64::from(often),
    })
}

impl Frequent {
    /// The fill of a column of `rows` rows: null (None) where more than 9 of 10 are null, else the most frequent value.
    pub(crate) fn fill(self, rows: u64) -> Option<i128>
        requires rows { rows ≤ most_rows }
        requires nulls { self.nulls ≤ rows }
        ensures { result ≡ (if nat_lt (9 * rows) (10 * self.nulls) then None else Some self.value) }
    {
        if is_mostly_null(rows, self.nulls) {
            None
        } else {
            Some(self.value)
        }
    }

    /// The value that all of `rows` rows share: null (`Some(None)`) where there is no value, or the most frequent value
    /// where it stands in every row; None where rows differ.
    pub(crate) fn shared(self, rows: u64) -> Option<Option<i128>>
        ensures { result ≡ (if self.values == 0 then Some None else (if self.often == rows then Some (Some self.value) else None)) }
    {
        if self.values == 0 {
            Some(None)
        } else if self.often == rows {
            Some(Some(self.value))
        } else {
            None
        }
    }
}
