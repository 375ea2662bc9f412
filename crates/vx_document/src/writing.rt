//! Writes the columns of trees as documents.

ghost use Rattle.std.specs.Prelude.{◌≡◌, [], IfOk, OnOk, Some, option_map, string_bytes};
ghost use Rattle.vx_document.specs.CappedText.{put};
ghost use Rattle.vx_document.specs.Writing.{document_text, documents_text};
ghost use Rattle.vx_model.specs.Column.{column_of};

mod capped_text;
mod cells;
mod deltas;
mod extents;
mod reads;
mod rows;
mod types;

use capped_text::CappedText;
pub use capped_text::MOST_BYTES;
use deltas::without_deltas;
pub use extents::extents_are_few;
use rows::push_part;
use std::alloc::{AllocError, Global};
use types::push_type;
use vx_array::{ArrayRef, Arrays};

// Appends the column of a tree as a document of one line.
#[tactic(auto, unfolding(crate::specs::Writing::document_text))]
fn push_document(alloc: Global, text: &mut CappedText, tree: &ArrayRef) -> Result<(), AllocError>
    ensures { OnOk result (text.new ≡ put text.old (document_text (column_of tree.now))) }
{
    text.push("{\"type\":")?;
    push_type(alloc, text, tree.dtype())?;
    text.push(",\"rows\":")?;
    push_part(alloc, text, tree, 0, tree.len())?;
    text.push(",\"words\":[0]}\n")
}

// `push_document` of a tree that may have deltas. They aren't decoded where there are more rows than room.
fn push_column(alloc: Global, text: &mut CappedText, tree: ArrayRef) -> Result<(), AllocError>
    ensures { OnOk result (text.new ≡ put text.old (document_text (column_of tree))) }
{
    if !text.has_room(tree.len() as usize) {
        text.end();
        return Ok(());
    }
    match without_deltas(alloc, tree) {
        Ok(tree) => push_document(alloc, text, &tree),
        Err(_) => Err(AllocError),
    }
}

/// The columns of the trees as documents, a line each; None where they have more than `MOST_BYTES` together. No more than that
/// is kept of the text, and no value that stands in many rows is copied into each. An Err means that memory ran out.
pub fn documents_text(alloc: Global, trees: Arrays) -> Result<Option<String>, AllocError>
    ensures { IfOk result (λ text. option_map string_bytes text ≡ put (Some []) (documents_text trees)) }
{
    let mut text = CappedText::new_in(alloc);
    for tree in trees.into_vec() {
        if text.is_over() {
            return Ok(None);
        }
        push_column(alloc, &mut text, tree)?;
    }
    Ok(text.into_text())
}
