//! The form that runs a document's commands: `query`.

ghost use Rattle.std.specs.Prelude.{◌≡◌, ◌<◌, IfOk, length, map};
ghost use Rattle.vx_base.specs.ErrorName.{error_name};
ghost use Rattle.vx_document.specs.CommandView.{command_view};
ghost use Rattle.vx_document.specs.Document.{document};
ghost use Rattle.vx_model.specs.Column.{column_of};
ghost use Rattle.vx_program.specs.Answer.{lines_reply, of_commands, queried, refusal};
ghost use Rattle.vx_program.specs.Output.{output_bytes};
ghost use Rattle.vx_query.specs.Queries.{query_lines};

use crate::answer::compressed::{Compressed, compressed_column};
use crate::answer::{BAD_INPUT, DONE, REFUSED, Reply, refusal};
use crate::output::Output;
use std::alloc::{AllocError, Global};
use vx_array::ArrayRef;
use vx_base::{ExecutionCtx, VortexError};
use vx_document::{Command, Document, Unread, read_document};
use vx_query::query_lines;

// The refusal of a command.
fn refused(alloc: Global, error: VortexError) -> Result<Reply, AllocError>
    ensures { IfOk result (λ r. (r.status, output_bytes r.output) ≡ refusal 4 (error_name error)) }
{
    let mut text = String::new(alloc);
    text.push_str("refused: ")?;
    text.push_str(error.name())?;
    text.push_str("\n")?;
    Ok(Reply {
        status: REFUSED,
        output: Output::Text(text),
    })
}

// What commands print of a tree, or the first refusal.
fn lines(
    array: ArrayRef,
    commands: Vec<Command>,
    ctx: &mut ExecutionCtx,
) -> Result<Reply, AllocError>
    ensures { IfOk result (λ r. (r.status, output_bytes r.output)
        ≡ lines_reply (query_lines (column_of array) (map command_view commands.items))) }
{
    match query_lines(array, commands, ctx) {
        Ok(text) => Ok(Reply {
            status: DONE,
            output: Output::Text(text),
        }),
        Err(VortexError::NoMemory) => Err(AllocError),
        Err(error) => refused(ctx.alloc(), error),
    }
}

// The reply to a document. Its commands run on the compressed tree.
fn query_document(alloc: Global, document: Document) -> Result<Reply, AllocError>
    requires { 0 < length document.words }
    ensures { IfOk result (λ r. (r.status, output_bytes r.output)
        ≡ queried (map command_view document.commands.items) document.column) }
{
    let Document {
        column,
        words,
        commands,
    } = document;
    if !column.counts_fit() {
        return Ok(refusal(REFUSED, "refused: TooManyRows\n"));
    }
    let mut ctx = ExecutionCtx::new(alloc, words);
    let compressed = compressed_column(alloc, column, &mut ctx)?;
    let Compressed { plain: _, tree } = compressed;
    lines(tree, commands, &mut ctx)
}

/// The reply of `query` to these bytes.
pub(super) fn query(alloc: Global, bytes: Vec<u8>) -> Result<Reply, AllocError>
    ensures { IfOk result (λ r. (r.status, output_bytes r.output)
        ≡ of_commands (document bytes.items)) }
{
    match read_document(alloc, bytes) {
        Ok(document) => query_document(alloc, document),
        Err(Unread::NoMemory) => Err(AllocError),
        Err(Unread::BadDocument) => Ok(refusal(BAD_INPUT, "refused: BadDocument\n")),
    }
}
