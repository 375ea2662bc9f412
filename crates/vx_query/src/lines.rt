//! Answers as lines of JSON.

ghost use Rattle.std.specs.Prelude.{◌≡◌, ◌<◌, ◌++◌, OnOk, if◌then◌else◌, codes, decimal, length, string_bytes};
ghost use Rattle.vx_base.specs.TypeText.{list_text, value_text};
ghost use Rattle.vx_model.specs.Rows.{row_at, rows};
ghost use Rattle.vx_model.specs.TreeType.{tree_type};
ghost use Rattle.vx_query.specs.Queries.{answer_text, line_of, pair_text, scalar_text};
ghost use Rattle.vx_query.specs.Steps.{answer_of};

use crate::steps::RowAnswer;
use itoa::Buffer;
use std::alloc::{AllocError, Global};
use vx_array::ArrayRef;
use vx_base::{Cell, Scalar};

// Appends a scalar.
fn push_scalar(alloc: Global, text: &mut String, scalar: &Scalar) -> Result<(), AllocError>
    ensures { OnOk result (string_bytes text.new ≡ string_bytes text.old ++ scalar_text scalar.now) }
{
    match scalar.json(alloc) {
        Ok(value) => text.push_str(value.as_str()),
        Err(_) => Err(AllocError),
    }
}

// Appends a row. Nulls, truth values and integers are written with no scalar made of them.
fn push_row(alloc: Global, text: &mut String, tree: &ArrayRef, row: u64) -> Result<(), AllocError>
    requires { row < length (rows tree.now) }
    ensures { OnOk result (string_bytes text.new ≡ string_bytes text.old ++ value_text (tree_type tree.now) (row_at (rows tree.now) row)) }
{
    if !tree.dtype().is_flat() {
        return push_value(alloc, text, tree, row);
    }
    match tree.cell_at(row) {
        Cell::Null => text.push_str("null"),
        Cell::Bool(truth) => push_truth(text, truth),
        Cell::Int(whole) => text.push_str(Buffer::new().format(whole)),
        Cell::Bytes(_) => push_value(alloc, text, tree, row),
    }
}

// Appends a row of any type, as its scalar.
fn push_value(alloc: Global, text: &mut String, tree: &ArrayRef, row: u64) -> Result<(), AllocError>
    requires { row < length (rows tree.now) }
    ensures { OnOk result (string_bytes text.new ≡ string_bytes text.old ++ value_text (tree_type tree.now) (row_at (rows tree.now) row)) }
{
    match tree.scalar_at(alloc, row) {
        Ok(scalar) => push_scalar(alloc, text, &scalar),
        Err(_) => Err(AllocError),
    }
}

// Appends all rows as a list.
fn push_rows(alloc: Global, text: &mut String, tree: &ArrayRef) -> Result<(), AllocError>
    ensures { OnOk result (string_bytes text.new ≡ string_bytes text.old ++ list_text (tree_type tree.now) (rows tree.now)) }
{
    text.push_str("[")?;
    let mut before = "";
    for row in 0..tree.len() {
        text.push_str(before)?;
        push_row(alloc, text, tree, row)?;
        before = ",";
    }
    text.push_str("]")
}

// `push_rows`, decoded first: a single row of a chain of deltas or of runs costs a search.
fn push_column(alloc: Global, text: &mut String, tree: &ArrayRef) -> Result<(), AllocError>
    ensures { OnOk result (string_bytes text.new ≡ string_bytes text.old ++ list_text (tree_type tree.now) (rows tree.now)) }
{
    match tree.canonical(alloc) {
        Ok(plain) => push_rows(alloc, text, &plain),
        Err(_) => Err(AllocError),
    }
}

// Appends a least and a greatest as a list of two, null without them.
fn push_pair(
    alloc: Global,
    text: &mut String,
    pair: &Option<(Scalar, Scalar)>,
) -> Result<(), AllocError>
    ensures { OnOk result (string_bytes text.new ≡ string_bytes text.old ++ pair_text pair.now) }
{
    let Some((least, greatest)) = pair else {
        return text.push_str("null");
    };
    text.push_str("[")?;
    push_scalar(alloc, text, least)?;
    text.push_str(",")?;
    push_scalar(alloc, text, greatest)?;
    text.push_str("]")
}

// Appends a truth value.
fn push_truth(text: &mut String, truth: bool) -> Result<(), AllocError>
    ensures { OnOk result (string_bytes text.new ≡ string_bytes text.old ++ (if truth then codes "true" else codes "false")) }
{
    if truth {
        text.push_str("true")
    } else {
        text.push_str("false")
    }
}

// Appends a count.
fn push_count(alloc: Global, text: &mut String, count: u64) -> Result<(), AllocError>
    ensures { OnOk result (string_bytes text.new ≡ string_bytes text.old ++ decimal count) }
{
    let digits = format!(in alloc; "{count}")?;
    text.push_str(digits.as_str())
}

// Appends an answer.
fn push_answer(alloc: Global, text: &mut String, answer: &RowAnswer) -> Result<(), AllocError>
    ensures { OnOk result (string_bytes text.new ≡ string_bytes text.old ++ answer_text (answer_of answer.now)) }
{
    match answer {
        RowAnswer::Column(tree) => push_column(alloc, text, tree),
        RowAnswer::One(scalar) => push_scalar(alloc, text, scalar),
        RowAnswer::Pair(pair) => push_pair(alloc, text, pair),
        RowAnswer::Yes(truth) => push_truth(text, *truth),
        RowAnswer::Count(count) => push_count(alloc, text, *count),
    }
}

/// Appends an answer and a line feed.
pub(crate) fn push_line(
    alloc: Global,
    text: &mut String,
    answer: &RowAnswer,
) -> Result<(), AllocError>
    ensures { OnOk result (string_bytes text.new ≡ string_bytes text.old ++ line_of (answer_of answer.now)) }
{
    push_answer(alloc, text, answer)?;
    text.push_str("\n")
}
