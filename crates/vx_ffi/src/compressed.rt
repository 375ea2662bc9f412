//! The compressed tree of a caller's column.

ghost use Rattle.std.specs.Prelude.{◌≡◌, ◌≢◌, ◌<◌, length, map};
ghost use Rattle.vx_base.specs.Answers.{Decided};
ghost use Rattle.vx_btrblocks.specs.AnyMeaning.{any_meaning};
ghost use Rattle.vx_btrblocks.specs.Shipped.{shipped_schemes};
ghost use Rattle.vx_ffi.specs.Compressed.{compressed_column, compressed_rows, compressed_tree};
ghost use Rattle.vx_ffi.specs.Outcomes.{Holds, Settled, followed_by, raised};
ghost use Rattle.vx_ffi.specs.Statuses.{Told};
ghost use Rattle.vx_model.specs.Column.{column_of};
ghost use Rattle.vx_model.specs.Refusals.{compress_refusal};
ghost use Rattle.vx_scheme.specs.NoMeaning.{no_meaning};

use crate::failure::Failure;
use crate::handing::put;
use crate::tree::TreeHandle;
use std::alloc::Global;
use vx_array::ArrayRef;
use vx_base::{ExecutionCtx, VortexResult, Words};
use vx_btrblocks::{BtrBlocksCompressor, NoScheme};
use vx_buffers::Refusal;

// The tree that a compressor over the shipped schemes makes of a column.
#[tactic(auto, unfolding(crate::specs::Compressed::compressed_tree))]
fn compressed_by(
    alloc: Global,
    compressor: &BtrBlocksCompressor<NoScheme>,
    column: ArrayRef,
    words: Words,
) -> VortexResult<ArrayRef>
    requires shipped { map (any_meaning no_meaning) compressor.now.0 ≡ shipped_schemes }
    requires words { 0 < length words }
    ensures { Decided (compress_refusal column) (λ tree. tree ≡ compressed_tree words (column_of column)) result }
{
    let mut ctx = ExecutionCtx::new(alloc, words);
    compressor.compress_owned(column, &mut ctx)
}

// The tree of `compressed_by`, with its refusals as those of an export.
fn settled_by(
    alloc: Global,
    compressor: &BtrBlocksCompressor<NoScheme>,
    column: ArrayRef,
    words: Words,
) -> Result<ArrayRef, Failure>
    requires shipped { map (any_meaning no_meaning) compressor.now.0 ≡ shipped_schemes }
    requires words { 0 < length words }
    ensures { Settled (compressed_column words column) result }
{
    match compressed_by(alloc, compressor, column, words) {
        Ok(tree) => Ok(tree),
        Err(why) => Err(Failure::Refused(Refusal::from(why))),
    }
}

// The compressed tree of a column over the shipped schemes.
fn compressed_column(alloc: Global, column: ArrayRef, words: Words) -> Result<ArrayRef, Failure>
    requires { 0 < length words }
    ensures { Settled (compressed_column words column) result }
{
    match BtrBlocksCompressor::<NoScheme>::shipped(alloc) {
        Ok(compressor) => settled_by(alloc, &compressor, column, words),
        Err(_) => Err(Failure::Refused(Refusal::NoMemory)),
    }
}

// The compressed tree of a column, with the caller's sample words.
fn compressed_rows(alloc: Global, column: ArrayRef, words: &[u64]) -> Result<ArrayRef, Failure>
    ensures { Settled (compressed_rows words.now column) result }
{
    if words.len() == 0 {
        return Err(Failure::NoWords);
    }
    let words = Words::from_vec(Vec::from_slice(alloc, words)?);
    compressed_column(alloc, column, words)
}

// The compressed tree of a column that a caller gave.
fn compressed(
    alloc: Global,
    given: Result<ArrayRef, Refusal>,
    words: &[u64],
) -> Result<ArrayRef, Failure>
    ensures { Settled (followed_by (raised given) (compressed_rows words.now)) result }
{
    match given {
        Ok(column) => compressed_rows(alloc, column, words),
        Err(why) => Err(Failure::Refused(why)),
    }
}

/// Puts the compressed tree of a column that a caller gave into a handle. A refusal leaves the handle as it was.
#[tactic(auto, using(crate::proofs::Telling::telling))]
pub(crate) fn put_compressed(
    alloc: Global,
    given: Result<ArrayRef, Refusal>,
    words: &[u64],
    out: &mut TreeHandle,
) -> u8
    ensures status { Told (followed_by (raised given) (compressed_rows words.now)) result }
    ensures done { result ≡ 0 → Holds (followed_by (raised given) (compressed_rows words.now)) out.new.held.tree }
    ensures refused { result ≢ 0 → out.new ≡ out.old }
{
    put(alloc, compressed(alloc, given, words), out)
}
