//! The compressor over the shipped schemes: the top calls of the library.

ghost use Rattle.std.specs.Prelude.{◌≡◌, ◌≤◌, IfOk, map, true};
ghost use Rattle.vx_base.specs.Answers.{Decided, OrMemory};
ghost use Rattle.vx_model.specs.Cascade.{cascade};
ghost use Rattle.vx_model.specs.Column.{column_of};
ghost use Rattle.vx_model.specs.Extents.{extents_fit};
ghost use Rattle.vx_model.specs.Plain.{plain};
ghost use Rattle.vx_model.specs.Refusals.{compress_refusal};
ghost use Rattle.vx_model.specs.Size.{size};
ghost use Rattle.vx_compressor.specs.Cascade.{setting, leaf_tree};
ghost use Rattle.vx_btrblocks.specs.AnyMeaning.{any_meaning};
ghost use Rattle.vx_btrblocks.specs.Shipped.{shipped_schemes};

use crate::any_scheme::AnyScheme;
use std::alloc::Global;
use vx_array::ArrayRef;
use vx_base::{ExecutionCtx, VortexResult};
use vx_compressor::{CascadingCompressor, Schemes};
use vx_scheme::Scheme;
use vx_schemes::{BitPackingScheme, FoRScheme, IntDictScheme, ZigZagScheme};
use vx_schemes_runs::{DeltaScheme, IntRLEScheme, RunEndScheme, SequenceScheme, SparseScheme};
use vx_schemes_text::{
    BinaryDictScheme, NullDominatedSparseScheme, StringDictScheme, VarBinScheme,
};
use vx_schemes_time::TemporalScheme;

/// Compresses columns with the shipped schemes and a caller's. `X` is the type of the caller's schemes, `NoScheme` where
/// there are none.
#[derive(Drop)]
pub struct BtrBlocksCompressor<X: Scheme>(pub CascadingCompressor<AnyScheme<X>>);

/// The shipped schemes, in the order in which they are judged, as a list that schemes of a caller's may join: of integers
/// frame of reference, zigzag, bit packing, sparse, dictionary, run end, sequence, run length and delta; of texts dictionary
/// and sparse; of binaries dictionary and concatenation; of timestamps their parts. Refuses NoMemory alone.
pub fn shipped_schemes<X: Scheme>(alloc: Global) -> VortexResult<Vec<AnyScheme<X>>>
    ensures { OrMemory result (λ schemes. map (any_meaning X.meaning) schemes.items ≡ shipped_schemes) }
{
    let mut schemes = Vec::new(alloc);
    schemes.push(AnyScheme::FoR(FoRScheme::v1()))?;
    schemes.push(AnyScheme::ZigZag(ZigZagScheme))?;
    schemes.push(AnyScheme::BitPacking(BitPackingScheme::v1()))?;
    schemes.push(AnyScheme::Sparse(SparseScheme))?;
    schemes.push(AnyScheme::IntDict(IntDictScheme))?;
    schemes.push(AnyScheme::RunEnd(RunEndScheme))?;
    schemes.push(AnyScheme::Sequence(SequenceScheme))?;
    schemes.push(AnyScheme::IntRLE(IntRLEScheme))?;
    schemes.push(AnyScheme::Delta(DeltaScheme::default()))?;
    schemes.push(AnyScheme::StringDict(StringDictScheme))?;
    schemes.push(AnyScheme::NullDominatedSparse(NullDominatedSparseScheme))?;
    schemes.push(AnyScheme::BinaryDict(BinaryDictScheme))?;
    schemes.push(AnyScheme::VarBin(VarBinScheme))?;
    schemes.push(AnyScheme::Temporal(TemporalScheme))?;
    Ok(schemes)
}

impl<X: Scheme> BtrBlocksCompressor<X> {
    /// The compressor over the shipped schemes, in the order of `shipped_schemes`. Refuses NoMemory alone.
    pub fn shipped(alloc: Global) -> VortexResult<Self>
        ensures { OrMemory result (λ compressor. map (any_meaning X.meaning) compressor.0 ≡ shipped_schemes) }
    {
        let schemes = Schemes::from_vec(shipped_schemes(alloc)?);
        match CascadingCompressor::new(alloc, schemes) {
            Ok(compressor) => Ok(BtrBlocksCompressor(compressor)),
            Err(refused) => Err(refused.error),
        }
    }

    /// Compresses the array's column. The answer depends on its type and rows and on the context's sample words, and not on
    /// its encodings. It is lossless (same type and rows), no larger than the plain tree, and accepted again: compressing
    /// it answers it unchanged. Refuses TooManyRows exactly where an extent of the array passes 2^31 rows, and NoMemory.
    /// The context stays as it was.
    pub fn compress(&self, array: &ArrayRef, ctx: &mut ExecutionCtx) -> VortexResult<ArrayRef>
        ensures answer { Decided (compress_refusal array.now) (λ tree. tree ≡ cascade (leaf_tree (setting (any_meaning X.meaning) self.now.0 ctx.old)) (column_of array.now)) result }
        ensures kept { IfOk result (λ tree. column_of tree ≡ column_of array.now) }
        ensures fits { IfOk result (λ tree. extents_fit tree ≡ true) }
        ensures smaller { IfOk result (λ tree. size tree ≤ size (plain (column_of array.now))) }
        ensures ctx { ctx.new ≡ ctx.old }
    {
        self.0.compress(array, ctx)
    }

    /// `compress` of an array by value, which is dropped also where the call refuses. A plain array moves to its site,
    /// which saves a copy. Refuses TooManyRows exactly where an extent of the array passes 2^31 rows, and NoMemory. The
    /// context stays as it was.
    pub fn compress_owned(&self, array: ArrayRef, ctx: &mut ExecutionCtx) -> VortexResult<ArrayRef>
        ensures answer { Decided (compress_refusal array) (λ tree. tree ≡ cascade (leaf_tree (setting (any_meaning X.meaning) self.now.0 ctx.old)) (column_of array)) result }
        ensures kept { IfOk result (λ tree. column_of tree ≡ column_of array) }
        ensures fits { IfOk result (λ tree. extents_fit tree ≡ true) }
        ensures smaller { IfOk result (λ tree. size tree ≤ size (plain (column_of array))) }
        ensures ctx { ctx.new ≡ ctx.old }
    {
        self.0.compress_owned(array, ctx)
    }
}
