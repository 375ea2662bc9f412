//! The estimate of the sparse scheme.

ghost use Rattle.std.specs.Prelude.{◌≡◌, ◌≤◌, IsTrue, length};
ghost use Rattle.vx_base.specs.Answers.{Answers};
ghost use Rattle.vx_base.specs.PlainType.{is_integer};
ghost use Rattle.vx_model.specs.Column.{column_of};
ghost use Rattle.vx_model.specs.Rows.{rows};
ghost use Rattle.vx_model.specs.TreeType.{tree_type};
ghost use Rattle.vx_scheme.specs.Asked.{most_rows};
ghost use Rattle.vx_scheme.specs.Bundle.{SameArray};
ghost use Rattle.vx_schemes_runs.specs.Sparse.Meaning.{sparse_estimate, sparse_verdict};

use super::counts::{FILL_TENTHS, counts_of, is_mostly_null};
use super::vote::winner_count;
use vx_base::{Fraction, VortexResult};
use vx_scheme::{ArrayAndStats, EstimateVerdict};

// rows / values where more than 9 of 10 rows are null; else values / (values - often), Skip below 9 of 10 values and where
// all values are equal: a Constant is better.
fn verdict(rows: u64, nulls: u64, values: u64, often: u64) -> EstimateVerdict
    requires rows { rows ≤ most_rows }
    requires nulls { nulls ≤ rows }
    requires values { values ≤ rows }
    requires often { often ≤ values }
    ensures { result ≡ sparse_verdict rows nulls values often }
{
    if values == 0 {
        return EstimateVerdict::Skip;
    }
    if is_mostly_null(rows, nulls) {
        return EstimateVerdict::Ratio(Fraction::new(rows, values));
    }
    if often == values || 10 * often < FILL_TENTHS * values {
        return EstimateVerdict::Skip;
    }
    EstimateVerdict::Ratio(Fraction::new(values, values - often))
}

/// The verdict on a column, without counting its distinct values: a value in 9 of 10 valid rows has the majority and so
/// wins a majority vote, and where the winner stands in fewer no value has as many. There is no vote where the nulls or the
/// run lengths decide.
pub(crate) fn judged(column: &mut ArrayAndStats) -> VortexResult<EstimateVerdict>
    requires integer { IsTrue (is_integer (tree_type column.old.array)) }
    requires few { length (rows column.old.array) ≤ most_rows }
    ensures answer { Answers result (sparse_estimate (column_of column.old.array)) }
    ensures column { SameArray column.old column.new }
{
    let rows = column.array_len();
    let counts = counts_of(column)?;
    let often = if counts.need_no_vote(rows) {
        0
    } else {
        winner_count(column.array())
    };
    Ok(verdict(rows, counts.nulls, counts.values, often))
}
