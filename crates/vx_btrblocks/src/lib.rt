//! The compressor over the shipped schemes, to which a caller may add schemes of its own. It exports what a caller names: of
//! arrays and their types, of schemes, and of compressors over lists of schemes.
#![tactic(auto)]

mod any_scheme;
mod compressor;
mod laws;

pub use any_scheme::AnyScheme;
pub use compressor::{BtrBlocksCompressor, shipped_schemes};
pub use laws::laws_of_shipped_schemes;
pub use vx_array::{ArrayRef, Arrays, Node, Patches};
pub use vx_base::{
    ArrayId, ByteRows, Bytes, Cell, DType, ExecutionCtx, Fields, Fraction, IdSet, IntList, Items,
    Mask, Names, Nullability, PType, Refused, Scalar, Steps, Text, TimeUnit, TimestampType, Value,
    Values, VortexError, VortexResult, Words,
};
pub use vx_compressor::{CascadingCompressor, Schemes};
pub use vx_scheme::{
    AllowedIds, AncestorExclusion, AncestorRules, ArrayAndStats, ChildSelection,
    CompressionEstimate, CompressorContext, DeferredEstimate, DescendantExclusion, DescendantRules,
    EstimateVerdict, GenerateStatsOptions, NoScheme, Scheme, SchemeId, Split,
};
pub use vx_schemes::{BitPackingScheme, FoRScheme, IntDictScheme, ZigZagScheme};
pub use vx_schemes_runs::{DeltaScheme, IntRLEScheme, RunEndScheme, SequenceScheme, SparseScheme};
pub use vx_schemes_text::{
    BinaryDictScheme, NullDominatedSparseScheme, StringDictScheme, VarBinScheme,
};
pub use vx_schemes_time::TemporalScheme;
pub use vx_values::Ints;
