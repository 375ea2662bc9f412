//! Reads commands by the type of the column that they find.

ghost use Rattle.std.specs.List.{list_all};
ghost use Rattle.std.specs.Prelude.{◌≡◌, IfOk, IsTrue, map};
ghost use Rattle.serde_json.specs.View.{view};
ghost use Rattle.vx_base.specs.Answers.{OrMemory};
ghost use Rattle.vx_base.specs.PlainScalar.{fits};
ghost use Rattle.vx_base.specs.PlainType.{primitive};
ghost use Rattle.vx_base.specs.TypeOf.{type_of, value_of};
ghost use Rattle.vx_base.specs.declared.dtype.Nullability.TheVariants.{Nullable};
ghost use Rattle.vx_base.specs.declared.ptype.PType.TheVariants.{U64};
ghost use Rattle.vx_document.specs.CommandView.{command_view};
ghost use Rattle.vx_document.specs.Commands as commands;
ghost use Rattle.vx_document.specs.Reading.{Gives};
ghost use Rattle.vx_model.specs.Column.{column_of};
ghost use Rattle.vx_query.specs.Queries.{index_column, index_row, scalar_read, step_of};
ghost use Rattle.vx_query.specs.Steps.{step_view};

use crate::steps::{RowOp, RowQuery, Step};
use serde_json::Value as Json;
use std::alloc::{AllocError, Global};
use vx_array::ArrayRef;
use vx_base::{DType, Nullability, PType, Scalar, Value, VortexResult};
use vx_document::{Command, Unread, read_row};
use vx_rules::{BetweenOptions, CompareOperator, LikeOptions};

// A value of JSON as a row of the type with this nullability.
fn read_scalar(
    alloc: Global,
    dtype: &DType,
    nullability: Nullability,
    json: Json,
) -> Result<Scalar, Unread>
    ensures { Gives (λ s. s) result (scalar_read nullability (type_of dtype.now) (view json)) }
{
    let Ok(dtype) = dtype.with_nullability(alloc, nullability) else {
        return Err(Unread::NoMemory);
    };
    let value = read_row(alloc, json, &dtype)?;
    match Scalar::new(dtype, value) {
        Ok(scalar) => Ok(scalar),
        // A row that is read fits its type, so this arm is never reached.
        Err(_refused) => Err(Unread::BadDocument),
    }
}

// Indices as values.
fn index_values(alloc: Global, indices: Vec<Option<u64>>) -> Result<Vec<Value>, AllocError>
    ensures values { IfOk result (λ values. map value_of values.items ≡ map index_row indices.items) }
    ensures fit { IfOk result (λ values. IsTrue (list_all (fits (primitive U64 Nullable)) (map value_of values.items))) }
{
    let mut values = Vec::with_capacity(alloc, indices.len())?;
    for index in indices {
        values.push(index_value(index))?;
    }
    Ok(values)
}

// An index as a value.
fn index_value(index: Option<u64>) -> Value
    ensures value { value_of result ≡ index_row index }
    ensures fits { IsTrue (fits (primitive U64 Nullable) (value_of result)) }
{
    match index {
        Some(index) => Value::Int(i128::from(index)),
        None => Value::Null,
    }
}

// Indices as a column.
fn index_tree(alloc: Global, indices: Vec<Option<u64>>) -> VortexResult<ArrayRef>
    ensures { OrMemory result (λ tree. column_of tree ≡ index_column indices.items) }
{
    let values = index_values(alloc, indices)?;
    let dtype = DType::Primitive(PType::U64, Nullability::Nullable);
    ArrayRef::of_values(alloc, &dtype, values)
}

// A take, whose indices become a column.
fn read_take(alloc: Global, dtype: &DType, indices: Vec<Option<u64>>) -> Result<Step, Unread>
    ensures { Gives step_view result (step_of (type_of dtype.now) (commands.take indices.items)) }
{
    match index_tree(alloc, indices) {
        Ok(tree) => Ok(Step::Operation(RowOp::Take(tree))),
        Err(_) => Err(Unread::NoMemory),
    }
}

// A fill, read in the type of the column without nulls.
fn read_fill(alloc: Global, dtype: &DType, fill: Json) -> Result<Step, Unread>
    ensures { Gives step_view result (step_of (type_of dtype.now) (commands.fill_null (view fill))) }
{
    let fill = read_scalar(alloc, dtype, Nullability::NonNullable, fill)?;
    Ok(Step::Operation(RowOp::FillNull(fill)))
}

// A comparison with a value, which may be null.
fn read_compare(
    alloc: Global,
    dtype: &DType,
    operator: CompareOperator,
    value: Json,
) -> Result<Step, Unread>
    ensures { Gives step_view result (step_of (type_of dtype.now) (commands.compare operator (view value))) }
{
    let value = read_scalar(alloc, dtype, Nullability::Nullable, value)?;
    Ok(Step::Question(RowQuery::Compare(operator, value)))
}

// A range between two values, which may be null.
fn read_between(
    alloc: Global,
    dtype: &DType,
    lower: Json,
    upper: Json,
    options: BetweenOptions,
) -> Result<Step, Unread>
    ensures { Gives step_view result (step_of (type_of dtype.now) (commands.between (view lower) (view upper) options)) }
{
    let lower = read_scalar(alloc, dtype, Nullability::Nullable, lower)?;
    let upper = read_scalar(alloc, dtype, Nullability::Nullable, upper)?;
    Ok(Step::Question(RowQuery::Between(lower, upper, options)))
}

// A pattern, which is a text whatever the column is.
fn read_like(
    alloc: Global,
    dtype: &DType,
    pattern: Json,
    options: LikeOptions,
) -> Result<Step, Unread>
    ensures { Gives step_view result (step_of (type_of dtype.now) (commands.like (view pattern) options)) }
{
    let text = DType::Utf8(Nullability::Nullable);
    let pattern = read_scalar(alloc, &text, Nullability::Nullable, pattern)?;
    Ok(Step::Question(RowQuery::Like(pattern, options)))
}

/// A command, by the type of the column. Refuses BadDocument exactly where a value in it isn't one of the type.
pub(crate) fn read_step(alloc: Global, dtype: &DType, command: Command) -> Result<Step, Unread>
    ensures { Gives step_view result (step_of (type_of dtype.now) (command_view command)) }
{
    match command {
        Command::Slice(start, stop) => Ok(Step::Operation(RowOp::Slice(start, stop))),
        Command::Filter(bits) => Ok(Step::Operation(RowOp::Filter(bits))),
        Command::Mask(bits) => Ok(Step::Operation(RowOp::Mask(bits))),
        Command::Take(indices) => read_take(alloc, dtype, indices),
        Command::Cast(to) => Ok(Step::Operation(RowOp::Cast(to))),
        Command::FillNull(fill) => read_fill(alloc, dtype, fill),
        Command::Compare(operator, value) => read_compare(alloc, dtype, operator, value),
        Command::Between(lower, upper, options) => {
            read_between(alloc, dtype, lower, upper, options)
        }
        Command::Like(pattern, options) => read_like(alloc, dtype, pattern, options),
        Command::Not => Ok(Step::Question(RowQuery::Not)),
        Command::IsConstant => Ok(Step::Question(RowQuery::IsConstant)),
        Command::MinMax => Ok(Step::Question(RowQuery::MinMax)),
        Command::NullCount => Ok(Step::Question(RowQuery::NullCount)),
        Command::Sum => Ok(Step::Question(RowQuery::Sum)),
        Command::Row(row) => Ok(Step::Question(RowQuery::Row(row))),
        Command::Rows => Ok(Step::Question(RowQuery::Rows)),
    }
}
