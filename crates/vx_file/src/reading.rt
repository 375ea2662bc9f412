//! The reader of files. It accepts exactly the files of lists of storable trees, decodes nothing twice, and takes memory for
//! what it has read alone: lists grow item by item, and bytes are copied once they are there.

ghost use Rattle.std.specs.Prelude.{◌≡◌, ◌++◌, ◌∷◌, [], List, IfOk, MatchResult, OnOk, IsOkUnless};
ghost use Rattle.vx_codec.specs.Lists.{repeated_at};
ghost use Rattle.vx_codec.specs.Reads.{Reads};
ghost use Rattle.vx_codec.specs.declared.error.ReadError.TheVariants.{NoMemory};
ghost use Rattle.vx_file.specs.Answers.{ReadsFile};
ghost use Rattle.vx_file.specs.declared.error.FileError.TheVariants as errors;
ghost use Rattle.vx_model.specs.Tree.{Tree};
ghost use Rattle.vx_spelling.specs.FileSpelling.{AllCanBeStored, file_at, file_text, framed_tree, mark};

mod codes;
mod differences;
mod fields;
mod flat_types;
mod integers;
mod leaves;
mod made;
mod nested;
mod packed;
mod patches;
mod temporal;
mod timestamp_kinds;
mod tree;
mod types;
mod values;

use crate::error::FileError;
use crate::storable::MOST_NODES;
use made::Found;
use std::alloc::Global;
use tree::read_tree;
use vx_array::{ArrayRef, Arrays};
use vx_base::Bytes;
use vx_codec::{ReadError, is_end, read_delimited, read_fixed, read_varint};

/// The bytes VXTREES1 as a number, little-endian.
pub(crate) const MAGIC: u128 = 3_554_260_694_961_772_630;

// The mark of a file: the bytes VXTREES1.
fn read_mark(bytes: &[u8]) -> Result<(u128, &[u8]), ReadError>
    ensures { Reads (λ x. (x.0, x.1.now)) result (mark.parse bytes.now) }
{
    let (number, rest) = read_fixed(bytes, 8)?;
    if number != MAGIC {
        return Err(ReadError::Malformed);
    }
    Ok((number, rest))
}

// A tree behind the length of its spelling, which it takes whole.
fn read_frame(alloc: Global, bytes: &[u8]) -> Found<'_>
    ensures { Reads (λ x. (x.0, x.1.now)) result (framed_tree.parse bytes.now) }
{
    let (text, rest) = read_delimited(bytes)?;
    let (tree, after) = read_tree(alloc, text, MOST_NODES)?;
    if !is_end(after) {
        return Err(ReadError::Malformed);
    }
    Ok((tree, rest))
}

fn push_tree(trees: &mut Arrays, tree: ArrayRef) -> Result<(), ReadError>
    ensures pushed { OnOk result (trees.new ≡ trees.old ++ tree ∷ []) }
    ensures memory { IsOkUnless result NoMemory }
{
    match trees.push(tree) {
        Ok(()) => Ok(()),
        Err(_) => Err(ReadError::NoMemory),
    }
}

// `count` trees in frames. The list grows with the bytes that are read.
fn read_frames(alloc: Global, bytes: &[u8], count: u64) -> Result<(Arrays, &[u8]), ReadError>
    ensures { Reads (λ x. (x.0, x.1.now)) result (repeated_at framed_tree.parse count bytes.now) }
{
    let mut trees = Arrays::new_in(alloc);
    let mut rest = bytes;
    for _ in 0..count {
        let (tree, after) = read_frame(alloc, rest)?;
        push_tree(&mut trees, tree)?;
        rest = after;
    }
    Ok((trees, rest))
}

fn read_all(alloc: Global, bytes: &[u8]) -> Result<Arrays, ReadError>
    ensures { Reads (λ trees. trees) result (file_at bytes.now) }
{
    let (_mark, rest) = read_mark(bytes)?;
    let (count, rest) = read_varint(rest)?;
    let (trees, rest) = read_frames(alloc, rest, count)?;
    if !is_end(rest) {
        return Err(ReadError::Malformed);
    }
    Ok(trees)
}

fn read_whole(alloc: Global, bytes: &[u8]) -> Result<Arrays, FileError>
    ensures { ReadsFile (λ trees. trees) result (file_at bytes.now) }
{
    match read_all(alloc, bytes) {
        Ok(trees) => Ok(trees),
        Err(why) => Err(FileError::from(why)),
    }
}

/// The trees of a file. BadFile exactly where the bytes are no file of storable trees. Memory is at most a constant times the
/// bytes that are read; time is linear in them and in the rows that a node's conditions look at one by one.
pub fn read_file(alloc: Global, bytes: &Bytes) -> Result<Arrays, FileError>
    ensures exact { ReadsFile (λ trees. trees) result (file_at bytes.now) }
    // What is read can be stored, and the bytes are its file.
    ensures found { IfOk result (λ trees. AllCanBeStored trees × (bytes.now ≡ file_text trees)) }
    // A file is read as what was written, unless memory runs out.
    ensures again { (trees : List Tree) → AllCanBeStored trees → bytes.now ≡ file_text trees → MatchResult result (λ found. found ≡ trees) (λ e. e ≡ errors.NoMemory) }
{
    read_whole(alloc, bytes.as_slice())
}
