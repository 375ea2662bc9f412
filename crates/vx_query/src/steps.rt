//! Operations on rows, queries of rows, and their answers.

use vx_array::ArrayRef;
use vx_base::{DType, Mask, Scalar};
use vx_rules::{BetweenOptions, CompareOperator, LikeOptions};

/// An operation: it makes another column of a column.
#[derive(Drop)]
pub enum RowOp {
    /// The rows from the first number up to the second, which is left out.
    Slice(u64, u64),
    /// The rows whose bit is true.
    Filter(Mask),
    /// The rows with these indices, and null at a null index.
    Take(ArrayRef),
    /// The rows whose bit is true, and null in place of the others.
    Mask(Mask),
    /// The rows in another type.
    Cast(DType),
    /// The rows with a value in place of each null.
    FillNull(Scalar),
}

/// A query. A scalar stands for a column of as many rows as are asked about, all equal to it.
#[derive(Drop)]
pub enum RowQuery {
    /// Whether the operator holds between each row and the scalar.
    Compare(CompareOperator, Scalar),
    /// Whether each row lies between the lower scalar and the upper one.
    Between(Scalar, Scalar, BetweenOptions),
    /// Whether each text matches the pattern.
    Like(Scalar, LikeOptions),
    /// Each truth value negated.
    Not,
    /// Whether all rows are equal, and there is one.
    IsConstant,
    /// The least value and the greatest.
    MinMax,
    /// The number of nulls.
    NullCount,
    /// The sum of the values.
    Sum,
    /// The row at an index.
    Row(u64),
    /// All rows.
    Rows,
}

/// The answer to a query.
#[derive(Drop)]
pub enum RowAnswer {
    /// A column, of as many rows as were asked about.
    Column(ArrayRef),
    /// One scalar.
    One(Scalar),
    /// The least and the greatest, None without a value.
    Pair(Option<(Scalar, Scalar)>),
    /// A truth value.
    Yes(bool),
    /// A count.
    Count(u64),
}

// What a command is of a column.
#[derive(Drop)]
pub(crate) enum Step {
    Operation(RowOp),
    Question(RowQuery),
}
