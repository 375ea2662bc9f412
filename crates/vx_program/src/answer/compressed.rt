//! A document's column, compressed.

ghost use Rattle.std.specs.Prelude.{◌≡◌, ◌<◌, true, IfOk, IfSome, is_some, length, map};
ghost use Rattle.vx_btrblocks.specs.AnyMeaning.{any_meaning};
ghost use Rattle.vx_btrblocks.specs.Shipped.{shipped_schemes, shipped_tree};
ghost use Rattle.vx_model.specs.Column.{column_of};
ghost use Rattle.vx_model.specs.Plain.{IsPlain, plain};
ghost use Rattle.vx_model.specs.Size.{nbytes};
ghost use Rattle.vx_scheme.specs.NoMeaning.{no_meaning};
ghost use Rattle.vx_program.specs.Answer.{counts_fit};
ghost use Rattle.vx_program.specs.Compressed.{IsCompressed};

use std::alloc::{AllocError, Global};
use vx_array::ArrayRef;
use vx_base::ExecutionCtx;
use vx_btrblocks::{BtrBlocksCompressor, NoScheme};
use vx_document::{Document, DocumentColumn};

/// A compressed column.
#[derive(Drop)]
pub(super) struct Compressed {
    /// The bytes of its plain tree.
    pub(super) plain: u128,
    /// Its tree.
    pub(super) tree: ArrayRef,
}

// The plain tree of a column within the row limit, compressed by a compressor of the shipped schemes. The context has the
// sample words.
fn compressed_by(
    compressor: &BtrBlocksCompressor<NoScheme>,
    array: ArrayRef,
    ctx: &mut ExecutionCtx,
) -> Result<Compressed, AllocError>
    requires shipped { map (any_meaning no_meaning) compressor.now.0 ≡ shipped_schemes }
    requires plain { IsPlain array }
    requires few { counts_fit (column_of array) ≡ true }
    ensures { IfOk result (λ c. IsCompressed ctx.old (column_of array) c) }
{
    let plain = array.nbytes();
    match compressor.compress_owned(array, ctx) {
        Ok(tree) => Ok(Compressed { plain, tree }),
        Err(_) => Err(AllocError),
    }
}

// A plain tree, compressed by a compressor made for it.
fn compressed_array(
    alloc: Global,
    array: ArrayRef,
    ctx: &mut ExecutionCtx,
) -> Result<Compressed, AllocError>
    requires plain { IsPlain array }
    requires few { counts_fit (column_of array) ≡ true }
    ensures { IfOk result (λ c. IsCompressed ctx.old (column_of array) c) }
{
    match BtrBlocksCompressor::shipped(alloc) {
        Ok(compressor) => compressed_by(&compressor, array, ctx),
        Err(_) => Err(AllocError),
    }
}

/// A column within the row limit, compressed. Its plain tree is made only here, behind the test of the limit.
pub(super) fn compressed_column(
    alloc: Global,
    column: DocumentColumn,
    ctx: &mut ExecutionCtx,
) -> Result<Compressed, AllocError>
    requires { counts_fit column ≡ true }
    ensures { IfOk result (λ c. IsCompressed ctx.old column c) }
{
    match column.into_plain(alloc) {
        Ok(array) => compressed_array(alloc, array, ctx),
        Err(_) => Err(AllocError),
    }
}

/// A document's column, compressed with its sample words; None where a column is above the row limit, before any tree is made.
pub(super) fn compressed_document(
    alloc: Global,
    document: Document,
) -> Result<Option<Compressed>, AllocError>
    requires { 0 < length document.words }
    ensures within { IfOk result (λ made. is_some made ≡ counts_fit document.column) }
    ensures made { IfOk result (λ made. IfSome made (IsCompressed document.words document.column)) }
{
    let Document {
        column,
        words,
        commands,
    } = document;
    // A list of indices may be as long as the column.
    drop(commands);
    if !column.counts_fit() {
        return Ok(None);
    }
    let mut ctx = ExecutionCtx::new(alloc, words);
    Ok(Some(compressed_column(alloc, column, &mut ctx)?))
}
