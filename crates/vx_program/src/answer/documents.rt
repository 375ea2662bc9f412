//! The forms that read a document: `compress` and `store`.

ghost use Rattle.std.specs.Prelude.{◌≡◌, ◌<◌, ◌∷◌, [], IfOk, length};
ghost use Rattle.vx_document.specs.Document.{document};
ghost use Rattle.vx_program.specs.Answer.{kept, of_column, of_document, report, stored};
ghost use Rattle.vx_program.specs.Output.{output_bytes};

use crate::answer::compressed::{Compressed, compressed_document};
use crate::answer::{BAD_INPUT, DONE, REFUSED, Reply, refusal};
use crate::output::Output;
use std::alloc::{AllocError, Global};
use vx_array::{ArrayRef, Arrays};
use vx_document::{Document, Unread, read_document, report_text};
use vx_file::{FileError, write_file};

// The listing of a compressed tree, with the bytes of the plain tree and its own.
fn report(alloc: Global, compressed: Compressed) -> Result<Reply, AllocError>
    ensures { IfOk result (λ r. (r.status, output_bytes r.output)
        ≡ report compressed.plain compressed.tree) }
{
    let Compressed { plain, tree } = compressed;
    let text = report_text(alloc, plain, &tree)?;
    Ok(Reply {
        status: DONE,
        output: Output::Text(text),
    })
}

// A list of one tree.
fn alone(alloc: Global, tree: ArrayRef) -> Result<Arrays, AllocError>
    ensures { IfOk result (λ trees. trees ≡ tree ∷ []) }
{
    let mut trees = Arrays::new_in(alloc);
    match trees.push(tree) {
        Ok(()) => Ok(trees),
        Err(_) => Err(AllocError),
    }
}

// The file of a tree, where it can be stored.
fn kept(alloc: Global, tree: ArrayRef) -> Result<Reply, AllocError>
    ensures { IfOk result (λ r. (r.status, output_bytes r.output) ≡ kept tree) }
{
    let trees = alone(alloc, tree)?;
    match write_file(alloc, &trees) {
        Ok(file) => Ok(Reply {
            status: DONE,
            output: Output::File(file),
        }),
        Err(FileError::NotStorable) => Ok(refusal(REFUSED, "refused: NotStorable\n")),
        Err(_) => Err(AllocError),
    }
}

// The reply of `compress` to a document.
fn compress_document(alloc: Global, document: Document) -> Result<Reply, AllocError>
    requires { 0 < length document.words }
    ensures { IfOk result (λ r. (r.status, output_bytes r.output)
        ≡ of_column document.words document.column) }
{
    match compressed_document(alloc, document)? {
        Some(compressed) => report(alloc, compressed),
        None => Ok(refusal(REFUSED, "refused: TooManyRows\n")),
    }
}

// The reply of `store` to a document.
fn store_document(alloc: Global, document: Document) -> Result<Reply, AllocError>
    requires { 0 < length document.words }
    ensures { IfOk result (λ r. (r.status, output_bytes r.output)
        ≡ stored document.words document.column) }
{
    match compressed_document(alloc, document)? {
        Some(compressed) => {
            let Compressed { plain: _, tree } = compressed;
            kept(alloc, tree)
        }
        None => Ok(refusal(REFUSED, "refused: TooManyRows\n")),
    }
}

/// The reply of `compress` to these bytes.
pub(super) fn compress(alloc: Global, bytes: Vec<u8>) -> Result<Reply, AllocError>
    ensures { IfOk result (λ r. (r.status, output_bytes r.output)
        ≡ of_document of_column (document bytes.items)) }
{
    match read_document(alloc, bytes) {
        Ok(document) => compress_document(alloc, document),
        Err(Unread::NoMemory) => Err(AllocError),
        Err(Unread::BadDocument) => Ok(refusal(BAD_INPUT, "refused: BadDocument\n")),
    }
}

/// The reply of `store` to these bytes.
pub(super) fn store(alloc: Global, bytes: Vec<u8>) -> Result<Reply, AllocError>
    ensures { IfOk result (λ r. (r.status, output_bytes r.output)
        ≡ of_document stored (document bytes.items)) }
{
    match read_document(alloc, bytes) {
        Ok(document) => store_document(alloc, document),
        Err(Unread::NoMemory) => Err(AllocError),
        Err(Unread::BadDocument) => Ok(refusal(BAD_INPUT, "refused: BadDocument\n")),
    }
}
