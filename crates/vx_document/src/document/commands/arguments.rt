//! The arguments of a command, by their number.

ghost use Rattle.std.specs.Prelude.{option_map};
ghost use Rattle.std.specs.Vec.Iter.{into_iter_items};
ghost use Rattle.serde_json.specs.View.{view, items_view};
ghost use Rattle.vx_document.specs.Arguments.{one, two, one_or_two, four};
ghost use Rattle.vx_document.specs.CommandView.{command_view};
ghost use Rattle.vx_document.specs.Commands.{bare};
ghost use Rattle.vx_document.specs.Reading.{Gives};

use crate::document::commands::Command;
use crate::document::unread::Unread;
use serde_json::Value;
use std::vec::IntoIter;

// The one argument.
pub(crate) fn one(mut arguments: IntoIter<Value>) -> Result<Value, Unread>
    ensures { Gives view result (one (items_view (into_iter_items arguments))) }
{
    match (arguments.next(), arguments.next()) {
        (Some(argument), None) => Ok(argument),
        _ => Err(Unread::BadDocument),
    }
}

// The two arguments.
pub(crate) fn two(mut arguments: IntoIter<Value>) -> Result<(Value, Value), Unread>
    ensures { Gives (λ p. (view p.0, view p.1)) result (two (items_view (into_iter_items arguments))) }
{
    match (arguments.next(), arguments.next(), arguments.next()) {
        (Some(first), Some(second), None) => Ok((first, second)),
        _ => Err(Unread::BadDocument),
    }
}

// One argument, and perhaps a second.
pub(crate) fn one_or_two(mut arguments: IntoIter<Value>) -> Result<(Value, Option<Value>), Unread>
    ensures { Gives (λ p. (view p.0, option_map view p.1)) result (one_or_two (items_view (into_iter_items arguments))) }
{
    match (arguments.next(), arguments.next(), arguments.next()) {
        (Some(first), second, None) => Ok((first, second)),
        _ => Err(Unread::BadDocument),
    }
}

// Two pairs of arguments.
pub(crate) fn four(
    mut arguments: IntoIter<Value>,
) -> Result<((Value, Value), (Value, Value)), Unread>
    ensures { Gives (λ p. ((view p.0.0, view p.0.1), (view p.1.0, view p.1.1))) result (four (items_view (into_iter_items arguments))) }
{
    let (Some(first), Some(second)) = (arguments.next(), arguments.next()) else {
        return Err(Unread::BadDocument);
    };
    let rest = two(arguments)?;
    Ok(((first, second), rest))
}

// The command where there is no argument.
pub(crate) fn bare(mut arguments: IntoIter<Value>, command: Command) -> Result<Command, Unread>
    ensures { Gives command_view result (bare (command_view command) (items_view (into_iter_items arguments))) }
{
    match arguments.next() {
        None => Ok(command),
        Some(_) => Err(Unread::BadDocument),
    }
}
