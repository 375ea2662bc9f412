//! The forms that read a file: `show` and `rows`.

ghost use Rattle.std.specs.List.{list_all};
ghost use Rattle.std.specs.Prelude.{◌≡◌, IfOk, Option, option_map, string_bytes};
ghost use Rattle.vx_document.specs.Writing.{extents_are_few};
ghost use Rattle.vx_program.specs.Answer.{of_file, shown, written};
ghost use Rattle.vx_program.specs.Output.{output_bytes};
ghost use Rattle.vx_spelling.specs.FileSpelling.{file_at};

use crate::answer::{BAD_INPUT, DONE, REFUSED, Reply, refusal};
use crate::output::Output;
use std::alloc::{AllocError, Global};
use vx_array::Arrays;
use vx_base::Bytes;
use vx_document::{documents_text, extents_are_few, listings_text};
use vx_file::{FileError, read_file};

// The trees of a file, None where the bytes are none. The bytes are dropped before anything is made of the trees.
fn trees_of(alloc: Global, bytes: Vec<u8>) -> Result<Option<Arrays>, AllocError>
    ensures { IfOk result (λ trees. option_map (λ ts. ts) trees ≡ file_at bytes.items) }
{
    match read_file(alloc, &Bytes::from_vec(bytes)) {
        Ok(trees) => Ok(Some(trees)),
        Err(FileError::BadFile) => Ok(None),
        Err(_) => Err(AllocError),
    }
}

// A text, and the status of a run that wrote it whole.
fn done(text: String) -> Reply
    ensures status { result.status ≡ 0 }
    ensures output { output_bytes result.output ≡ string_bytes text }
{
    Reply {
        status: DONE,
        output: Output::Text(text),
    }
}

// The reply of `show` to trees.
fn show_trees(alloc: Global, trees: &Arrays) -> Result<Reply, AllocError>
    ensures { IfOk result (λ r. (r.status, output_bytes r.output) ≡ shown trees.now) }
{
    Ok(done(listings_text(alloc, trees)?))
}

// Whether no extent of the trees is above the limit.
fn are_few(trees: &Arrays) -> bool
    ensures { result ≡ list_all extents_are_few trees.now }
{
    trees.as_slice().iter().all(|tree| extents_are_few(tree))
}

// The reply of `rows` to trees. Columns above the limit are refused before a row is read, and a text above it before it is
// made whole.
#[tactic(auto, unfolding(crate::specs::Answer::written))]
fn write_trees(alloc: Global, trees: Arrays) -> Result<Reply, AllocError>
    ensures { IfOk result (λ r. (r.status, output_bytes r.output) ≡ written trees) }
{
    if !are_few(&trees) {
        return Ok(refusal(REFUSED, "refused: TooManyRows\n"));
    }
    match documents_text(alloc, trees)? {
        Some(text) => Ok(done(text)),
        None => Ok(refusal(REFUSED, "refused: TooLong\n")),
    }
}

/// The reply of `show` to these bytes.
pub(super) fn show(alloc: Global, bytes: Vec<u8>) -> Result<Reply, AllocError>
    ensures { IfOk result (λ r. (r.status, output_bytes r.output) ≡ of_file shown (file_at bytes.items)) }
{
    match trees_of(alloc, bytes)? {
        Some(trees) => show_trees(alloc, &trees),
        None => Ok(refusal(BAD_INPUT, "refused: BadFile\n")),
    }
}

/// The reply of `rows` to these bytes.
pub(super) fn rows(alloc: Global, bytes: Vec<u8>) -> Result<Reply, AllocError>
    ensures { IfOk result (λ r. (r.status, output_bytes r.output) ≡ of_file written (file_at bytes.items)) }
{
    match trees_of(alloc, bytes)? {
        Some(trees) => write_trees(alloc, trees),
        None => Ok(refusal(BAD_INPUT, "refused: BadFile\n")),
    }
}
