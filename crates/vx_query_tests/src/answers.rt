//! What the commands of a document print.

use std::alloc::Global;
use std::test::Fail;
use vx_base::{ExecutionCtx, VortexError, Words};
use vx_document::{Document, read_document};
use vx_query::query_lines;

// A document with a type, rows and commands.
pub(crate) fn document(
    alloc: Global,
    dtype: &str,
    rows: &str,
    commands: &str,
) -> Result<Document, Fail> {
    let text = format!(in alloc;
        "{{\"type\":{dtype},\"rows\":{rows},\"words\":[0],\"commands\":{commands}}}"
    )?;
    let bytes = Vec::from_slice(alloc, text.as_str().as_bytes())?;
    Ok(read_document(alloc, bytes)?)
}

// A context with one sample word.
pub(crate) fn context(alloc: Global) -> Result<ExecutionCtx, Fail> {
    let words = Vec::from_slice(alloc, [0].as_slice())?;
    Ok(ExecutionCtx::new(alloc, Words::from_vec(words)))
}

// What the commands of a document print, or why one is refused.
fn answer(
    alloc: Global,
    dtype: &str,
    rows: &str,
    commands: &str,
) -> Result<Result<String, VortexError>, Fail> {
    let Document {
        column,
        words: _,
        commands,
    } = document(alloc, dtype, rows, commands)?;
    let tree = column.into_plain(alloc)?;
    let mut ctx = context(alloc)?;
    Ok(query_lines(tree, commands, &mut ctx))
}

// Whether the commands print these lines.
pub(crate) fn prints(
    alloc: Global,
    dtype: &str,
    rows: &str,
    commands: &str,
    lines: &str,
) -> Result<bool, Fail> {
    match answer(alloc, dtype, rows, commands)? {
        Ok(text) => Ok(text.as_str() == lines),
        Err(_) => Ok(false),
    }
}

// Whether the commands are refused by this name.
pub(crate) fn is_refused(
    alloc: Global,
    dtype: &str,
    rows: &str,
    commands: &str,
    name: &str,
) -> Result<bool, Fail> {
    match answer(alloc, dtype, rows, commands)? {
        Ok(_) => Ok(false),
        Err(error) => Ok(error.name() == name),
    }
}
