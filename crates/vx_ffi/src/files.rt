//! Trees to the bytes of files, and back.

ghost use Rattle.std.specs.Prelude.{◌≡◌, ◌⊎◌, ◌∷◌, [], IfErr, IfOk, Some};
ghost use Rattle.vx_buffers.specs.declared.refusal.Refusal.TheVariants.{NoMemory};
ghost use Rattle.vx_ffi.specs.Files.{file_of, tree_in};
ghost use Rattle.vx_ffi.specs.Outcomes.{Settled};
ghost use Rattle.vx_ffi.specs.declared.failure.Failure.TheVariants.{NotStorable, Refused};
ghost use Rattle.vx_spelling.specs.FileSpelling.{file_at, file_text};

use crate::failure::Failure;
use std::alloc::{AllocError, Global};
use vx_array::{ArrayRef, Arrays};
use vx_base::Bytes;
use vx_buffers::Refusal;
use vx_file::{FileError, read_file, write_file};

// A list of a copy of one tree. An Err means that memory ran out.
fn copied(alloc: Global, tree: &ArrayRef) -> Result<Arrays, AllocError>
    ensures { IfOk result (λ trees. trees ≡ tree.now ∷ []) }
{
    match tree.copy(alloc) {
        Ok(copy) => {
            let mut trees = Vec::new(alloc);
            trees.push(copy)?;
            Ok(Arrays::from_vec(trees))
        }
        Err(_) => Err(AllocError),
    }
}

/// The file of a tree. Refuses NoMemory and NotStorable alone.
pub(crate) fn file_of(alloc: Global, tree: &ArrayRef) -> Result<Bytes, Failure>
    ensures file { Settled (file_of tree.now) result }
    ensures text { IfOk result (λ file. file ≡ file_text (tree.now ∷ [])) }
    ensures only { IfErr result (λ why. (why ≡ Refused NoMemory) ⊎ (why ≡ NotStorable)) }
{
    let trees = copied(alloc, tree)?;
    match write_file(alloc, &trees) {
        Ok(file) => Ok(file),
        Err(FileError::NotStorable) => Err(Failure::NotStorable),
        Err(_) => Err(Failure::Refused(Refusal::NoMemory)),
    }
}

// The one tree of a list.
fn only(trees: Arrays) -> Result<ArrayRef, Failure>
    ensures { result ≡ tree_in (Some trees) }
{
    let mut items = trees.into_vec();
    if items.len() != 1 {
        return Err(Failure::NotOneTree);
    }
    match items.pop() {
        Some(tree) => Ok(tree),
        None => unreachable!(),
    }
}

/// The tree of a file of one tree.
pub(crate) fn tree_in(alloc: Global, bytes: &[u8]) -> Result<ArrayRef, Failure>
    ensures { Settled (tree_in (file_at bytes.now)) result }
{
    let bytes = Bytes::from_vec(Vec::from_slice(alloc, bytes)?);
    match read_file(alloc, &bytes) {
        Ok(trees) => only(trees),
        Err(FileError::BadFile) => Err(Failure::BadFile),
        Err(_) => Err(Failure::Refused(Refusal::NoMemory)),
    }
}
