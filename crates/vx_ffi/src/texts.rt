//! The texts that a tree has: its type and its listing.

ghost use Rattle.std.specs.Prelude.{◌≡◌, [], IfOk};
ghost use Rattle.vx_base.specs.TypeText.{type_text};
ghost use Rattle.vx_document.specs.Listing.{listing};
ghost use Rattle.vx_model.specs.TreeType.{tree_type};

use std::alloc::{AllocError, Global};
use vx_array::ArrayRef;
use vx_base::Bytes;
use vx_document::listing_text;

/// The text of a tree's type. An Err means that memory ran out.
pub(crate) fn type_of(alloc: Global, tree: &ArrayRef) -> Result<Bytes, AllocError>
    ensures { IfOk result (λ text. text ≡ type_text (tree_type tree.now)) }
{
    let dtype = tree.dtype();
    let text = format!(in alloc; "{dtype}")?;
    Ok(Bytes::from_vec(text.into_bytes()))
}

/// The listing of a tree, a line for each node. An Err means that memory ran out.
pub(crate) fn listing_of(alloc: Global, tree: &ArrayRef) -> Result<Bytes, AllocError>
    ensures { IfOk result (λ text. text ≡ listing [] tree.now) }
{
    let text = listing_text(alloc, tree)?;
    Ok(Bytes::from_vec(text.into_bytes()))
}
