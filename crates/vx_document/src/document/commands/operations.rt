//! The commands that replace the column, each of its arguments.

ghost use Rattle.std.specs.Vec.Iter.{into_iter_items};
ghost use Rattle.serde_json.specs.View.{items_view};
ghost use Rattle.vx_document.specs.CommandView.{command_view};
ghost use Rattle.vx_document.specs.Commands.{slice_in, filter_in, mask_in, take_in, cast_in, fill_null_in};
ghost use Rattle.vx_document.specs.Reading.{Gives};

use crate::document::commands::Command;
use crate::document::commands::arguments::{one, two};
use crate::document::commands::operands::{read_bits, read_indices, read_number, read_operand};
use crate::document::types::read_type;
use crate::document::unread::Unread;
use serde_json::Value;
use std::alloc::Global;
use std::vec::IntoIter;

// Two numbers.
pub(crate) fn read_slice(arguments: IntoIter<Value>) -> Result<Command, Unread>
    ensures { Gives command_view result (slice_in (items_view (into_iter_items arguments))) }
{
    let (start, stop) = two(arguments)?;
    let start = read_number(start)?;
    let stop = read_number(stop)?;
    Ok(Command::Slice(start, stop))
}

// A list of truth values.
pub(crate) fn read_filter(alloc: Global, arguments: IntoIter<Value>) -> Result<Command, Unread>
    ensures { Gives command_view result (filter_in (items_view (into_iter_items arguments))) }
{
    let bits = read_bits(alloc, one(arguments)?)?;
    Ok(Command::Filter(bits))
}

// A list of truth values.
pub(crate) fn read_mask(alloc: Global, arguments: IntoIter<Value>) -> Result<Command, Unread>
    ensures { Gives command_view result (mask_in (items_view (into_iter_items arguments))) }
{
    let bits = read_bits(alloc, one(arguments)?)?;
    Ok(Command::Mask(bits))
}

// A list of indices.
pub(crate) fn read_take(alloc: Global, arguments: IntoIter<Value>) -> Result<Command, Unread>
    ensures { Gives command_view result (take_in (items_view (into_iter_items arguments))) }
{
    let indices = read_indices(alloc, one(arguments)?)?;
    Ok(Command::Take(indices))
}

// A type.
pub(crate) fn read_cast(alloc: Global, arguments: IntoIter<Value>) -> Result<Command, Unread>
    ensures { Gives command_view result (cast_in (items_view (into_iter_items arguments))) }
{
    let dtype = read_type(alloc, one(arguments)?)?;
    Ok(Command::Cast(dtype))
}

// A value.
pub(crate) fn read_fill_null(arguments: IntoIter<Value>) -> Result<Command, Unread>
    ensures { Gives command_view result (fill_null_in (items_view (into_iter_items arguments))) }
{
    let fill = read_operand(one(arguments)?)?;
    Ok(Command::FillNull(fill))
}
