//! The writer of files. The length of a tree's spelling is counted first, so that a frame is written once, in its place.

ghost use Rattle.std.specs.Prelude.{◌≡◌, ◌++◌, ◌↔◌, IfOk, IfErr, IsTrue, OnOk, ◌⊎◌, true, false, Err};
ghost use Rattle.vx_codec.specs.Lists.{AllFit};
ghost use Rattle.vx_file.specs.Answers.{are_storable, is_storable};
ghost use Rattle.vx_file.specs.declared.error.FileError.TheVariants.{NoMemory, NotStorable};
ghost use Rattle.vx_spelling.specs.FileSpelling.{file_text, framed_tree};
ghost use Rattle.vx_spelling.specs.Storable.{IsStorable};

mod codes;
mod field_lengths;
mod fields;
mod integers;
mod leaves;
mod lengths;
mod nested;
mod packed;
mod patches;
mod temporal;
mod tree;
mod types;
mod values;

use crate::error::FileError;
use crate::reading::MAGIC;
use crate::storable::are_storable;
use lengths::tree_length;
use std::alloc::{AllocError, Global};
use tree::put_tree;
use vx_array::{ArrayRef, Arrays};
use vx_base::Bytes;
use vx_codec::{put_fixed, put_varint};

// Appends a tree behind the length of its spelling. Room for it is reserved at once: it will be filled.
fn put_frame(alloc: Global, out: &mut Vec<u8>, tree: &ArrayRef) -> Result<(), AllocError>
    requires { IsTrue (is_storable tree.now) }
    ensures { OnOk result (out.new.items ≡ out.old.items ++ framed_tree.spell tree.now) }
{
    let length = tree_length(alloc, tree)?;
    put_varint(out, length)?;
    out.reserve(length as usize)?;
    put_tree(out, tree)
}

// Tells a proof what the test says of well-formed trees.
fn known_storable(trees: &Arrays)
    ensures { (are_storable trees.now ≡ true) ↔ AllFit IsStorable trees.now }
{
    trees.known();
}

/// The file of a list of trees. NotStorable exactly where a tree isn't storable.
pub fn write_file(alloc: Global, trees: &Arrays) -> Result<Bytes, FileError>
    ensures file { IfOk result (λ bytes. bytes ≡ file_text trees.now) }
    ensures refused { (result ≡ Err NotStorable) ↔ (are_storable trees.now ≡ false) }
    ensures only { IfErr result (λ e. (e ≡ NotStorable) ⊎ (e ≡ NoMemory)) }
    // The test is the definition: well formed, at most 64 nodes on a path, and the limits of rows and types at each node.
    ensures test { (are_storable trees.now ≡ true) ↔ AllFit IsStorable trees.now }
{
    known_storable(trees);
    if !are_storable(trees) {
        return Err(FileError::NotStorable);
    }
    let mut out = Vec::new(alloc);
    put_fixed(&mut out, MAGIC, 8)?;
    put_varint(&mut out, trees.len())?;
    for tree in trees.as_slice() {
        put_frame(alloc, &mut out, tree)?;
    }
    Ok(Bytes::from_vec(out))
}
