//! Reads the commands of a document: what becomes of its column, and what is asked of it. None is run here.

ghost use Rattle.std.specs.Prelude.{map, option_map};
ghost use Rattle.std.specs.Vec.Iter.{into_iter_items};
ghost use Rattle.serde_json.specs.View.{view, items_view};
ghost use Rattle.vx_document.specs.CommandView.{command_view};
ghost use Rattle.vx_document.specs.Commands.{command_named, command_of, commands_in};
ghost use Rattle.vx_document.specs.Reading.{Gives, all_by};

mod arguments;
mod floats;
mod operands;
mod operations;
mod queries;

use crate::document::commands::operations::{
    read_cast, read_fill_null, read_filter, read_mask, read_slice, read_take,
};
use crate::document::commands::queries::query_named;
use crate::document::unread::Unread;
use serde_json::Value;
use std::alloc::Global;
use std::vec::IntoIter;
use vx_base::{DType, Mask};
use vx_rules::{BetweenOptions, CompareOperator, LikeOptions};

/// What becomes of a document's column, or what is asked of it. A value of JSON here has no float anywhere; which row it is
/// depends on the column's type where the command runs.
#[derive(Drop)]
pub enum Command {
    /// The rows from the first number up to the second, which is left out.
    Slice(u64, u64),
    /// The rows whose bit is true.
    Filter(Mask),
    /// The rows whose bit is true, and null in place of the others.
    Mask(Mask),
    /// The rows at these indices, and null at None.
    Take(Vec<Option<u64>>),
    /// The rows in another type.
    Cast(DType),
    /// The rows with a value in place of each null.
    FillNull(Value),
    /// Whether the operator holds between each row and the value.
    Compare(CompareOperator, Value),
    /// Whether each row lies between the lower value and the upper one.
    Between(Value, Value, BetweenOptions),
    /// Whether each text matches the pattern.
    Like(Value, LikeOptions),
    /// Each truth value negated.
    Not,
    /// Whether all rows are equal.
    IsConstant,
    /// The least value and the greatest.
    MinMax,
    /// The number of nulls.
    NullCount,
    /// The sum of the values.
    Sum,
    /// The row at an index.
    Row(u64),
    /// All rows.
    Rows,
}

// The operation with this name, else the query.
#[tactic(auto, unfolding(crate::specs::Commands::command_named))]
fn command_named(alloc: Global, name: &str, arguments: IntoIter<Value>) -> Result<Command, Unread>
    ensures { Gives command_view result (command_named name.now (items_view (into_iter_items arguments))) }
{
    match name {
        "slice" => read_slice(arguments),
        "filter" => read_filter(alloc, arguments),
        "mask" => read_mask(alloc, arguments),
        "take" => read_take(alloc, arguments),
        "cast" => read_cast(alloc, arguments),
        "fill_null" => read_fill_null(arguments),
        _ => query_named(name, arguments),
    }
}

// A command: a list of its name and its arguments.
fn read_command(alloc: Global, value: Value) -> Result<Command, Unread>
    ensures { Gives command_view result (command_of (view value)) }
{
    let Value::Array(list) = value else {
        return Err(Unread::BadDocument);
    };
    let mut items = list.into_iter();
    match items.next() {
        Some(Value::String(name)) => command_named(alloc, name.as_str(), items),
        _ => Err(Unread::BadDocument),
    }
}

// The commands of a list.
fn read_list(alloc: Global, list: Vec<Value>) -> Result<Vec<Command>, Unread>
    ensures { Gives (λ commands. map command_view commands.items) result (all_by command_of (items_view list.items)) }
{
    let mut commands = Vec::with_capacity(alloc, list.len())?;
    for value in list {
        commands.push(read_command(alloc, value)?)?;
    }
    Ok(commands)
}

// The commands at the key `commands`; none where it is absent.
pub(crate) fn read_commands(alloc: Global, value: Option<Value>) -> Result<Vec<Command>, Unread>
    ensures { Gives (λ commands. map command_view commands.items) result (commands_in (option_map view value)) }
{
    match value {
        None => Ok(Vec::new(alloc)),
        Some(Value::Array(list)) => read_list(alloc, list),
        Some(_) => Err(Unread::BadDocument),
    }
}
