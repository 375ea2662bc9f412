//! The commands that ask something of the column, each of its arguments.

ghost use Rattle.std.specs.Vec.Iter.{into_iter_items};
ghost use Rattle.serde_json.specs.View.{items_view};
ghost use Rattle.vx_document.specs.CommandView.{command_view};
ghost use Rattle.vx_document.specs.Commands.{compare_in, between_in, like_in, row_in, query_named};
ghost use Rattle.vx_document.specs.Reading.{Gives};

use crate::document::commands::Command;
use crate::document::commands::arguments::{bare, four, one, one_or_two, two};
use crate::document::commands::operands::{
    read_bounds, read_negation, read_number, read_operand, read_operator,
};
use crate::document::unread::Unread;
use serde_json::Value;
use std::vec::IntoIter;

// An operator and a value.
fn read_compare(arguments: IntoIter<Value>) -> Result<Command, Unread>
    ensures { Gives command_view result (compare_in (items_view (into_iter_items arguments))) }
{
    let (operator, value) = two(arguments)?;
    let operator = read_operator(operator)?;
    let value = read_operand(value)?;
    Ok(Command::Compare(operator, value))
}

// The lower bound and the upper one, and whether each is strict.
fn read_between(arguments: IntoIter<Value>) -> Result<Command, Unread>
    ensures { Gives command_view result (between_in (items_view (into_iter_items arguments))) }
{
    let ((lower, upper), strict) = four(arguments)?;
    let lower = read_operand(lower)?;
    let upper = read_operand(upper)?;
    let options = read_bounds(strict)?;
    Ok(Command::Between(lower, upper, options))
}

// A pattern, and perhaps whether it is negated.
fn read_like(arguments: IntoIter<Value>) -> Result<Command, Unread>
    ensures { Gives command_view result (like_in (items_view (into_iter_items arguments))) }
{
    let (pattern, negated) = one_or_two(arguments)?;
    let pattern = read_operand(pattern)?;
    let options = read_negation(negated)?;
    Ok(Command::Like(pattern, options))
}

// An index.
fn read_row(arguments: IntoIter<Value>) -> Result<Command, Unread>
    ensures { Gives command_view result (row_in (items_view (into_iter_items arguments))) }
{
    let index = read_number(one(arguments)?)?;
    Ok(Command::Row(index))
}

// The query with this name.
#[tactic(auto, unfolding(crate::specs::Commands::query_named))]
pub(crate) fn query_named(name: &str, arguments: IntoIter<Value>) -> Result<Command, Unread>
    ensures { Gives command_view result (query_named name.now (items_view (into_iter_items arguments))) }
{
    match name {
        "compare" => read_compare(arguments),
        "between" => read_between(arguments),
        "like" => read_like(arguments),
        "not" => bare(arguments, Command::Not),
        "is_constant" => bare(arguments, Command::IsConstant),
        "min_max" => bare(arguments, Command::MinMax),
        "null_count" => bare(arguments, Command::NullCount),
        "sum" => bare(arguments, Command::Sum),
        "row" => read_row(arguments),
        "rows" => bare(arguments, Command::Rows),
        _ => Err(Unread::BadDocument),
    }
}
