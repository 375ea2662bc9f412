//! Reads a document from its bytes.

ghost use Rattle.std.specs.Prelude.{◌<◌, length, map, IfOk};
ghost use Rattle.serde_json.specs.View.{view};
ghost use Rattle.vx_document.specs.CommandView.{command_view};
ghost use Rattle.vx_document.specs.Document.{document_of, document};
ghost use Rattle.vx_document.specs.Reading.{Gives, value_of};

mod cells;
mod column;
mod commands;
mod flat;
mod kinds;
mod members;
mod named_types;
mod rows;
mod timestamps;
mod type_parts;
mod types;
mod unread;
mod words;

use crate::document::column::read_column;
use crate::document::commands::read_commands;
use crate::document::members::{has_only, take_member};
use crate::document::types::read_type;
use crate::document::words::words_in;
pub use cells::read_row;
pub use column::DocumentColumn;
pub use commands::Command;
use serde_json::Value;
use std::alloc::Global;
pub use unread::Unread;
use vx_base::Words;

/// A column with its sample words, by which the compressor places samples, and the commands on it.
#[derive(Drop)]
pub struct Document {
    /// The column.
    pub column: DocumentColumn,
    /// The sample words, in the order of their use; at least one.
    pub words: Words,
    /// What becomes of the column and is asked of it, in this order. `compress` and `store` leave them.
    pub commands: Vec<Command>,
}

// Parses the bytes as one JSON value.
#[tactic(auto, unfolding(crate::specs::Reading::value_of))]
fn read_value(alloc: Global, bytes: &[u8]) -> Result<Value, Unread>
    ensures { Gives view result (value_of bytes.now) }
{
    match Value::from_slice(alloc, bytes) {
        Ok(value) => Ok(value),
        Err(e) => {
            if e.is_memory() {
                Err(Unread::NoMemory)
            } else {
                Err(Unread::BadDocument)
            }
        }
    }
}

// Parses the bytes as one JSON value, and drops them before anything is made of it.
fn value_of(alloc: Global, bytes: Vec<u8>) -> Result<Value, Unread>
    ensures { Gives view result (value_of bytes.items) }
{
    read_value(alloc, bytes.as_slice())
}

// Reads a JSON value as a document. Its rows are dropped one by one as they are read, so that they aren't held twice.
#[tactic(auto, unfolding(crate::specs::Document::document_of))]
fn document_of(alloc: Global, value: Value) -> Result<Document, Unread>
    ensures document { Gives (λ d. record { column = d.column; words = d.words; commands = map command_view d.commands.items }) result (document_of (view value)) }
    ensures words { IfOk result (λ d. 0 < length d.words) }
{
    let Value::Object(mut map) = value else {
        return Err(Unread::BadDocument);
    };
    if !has_only(&map, &["type", "rows", "words", "seed", "commands"]) {
        return Err(Unread::BadDocument);
    }
    let Some(dtype) = take_member(&mut map, "type") else {
        return Err(Unread::BadDocument);
    };
    let Some(rows) = take_member(&mut map, "rows") else {
        return Err(Unread::BadDocument);
    };
    let words = take_member(&mut map, "words");
    let seed = take_member(&mut map, "seed");
    let commands = take_member(&mut map, "commands");
    let dtype = read_type(alloc, dtype)?;
    let column = read_column(alloc, rows, dtype)?;
    let words = words_in(alloc, words, seed)?;
    let commands = read_commands(alloc, commands)?;
    Ok(Document {
        column,
        words,
        commands,
    })
}

/// Reads a document from its bytes. Refuses BadDocument exactly where they are not one, and NoMemory where memory runs
/// out. The bytes are not handed back: they are dropped before the rows are made, since a column and its text together
/// take twice the memory.
#[tactic(auto, unfolding(crate::specs::Document::document))]
pub fn read_document(alloc: Global, bytes: Vec<u8>) -> Result<Document, Unread>
    ensures document { Gives (λ d. record { column = d.column; words = d.words; commands = map command_view d.commands.items }) result (document bytes.items) }
    ensures words { IfOk result (λ d. 0 < length d.words) }
{
    let value = value_of(alloc, bytes)?;
    document_of(alloc, value)
}
