//! The trait of a compression scheme with its laws, and the types of its signatures.
#![tactic(auto)]

mod allowed;
mod array_and_stats;
mod context;
mod estimate;
mod no_scheme;
mod rules;
mod scheme;
mod scheme_id;
mod selection;
mod split;

pub use allowed::AllowedIds;
pub use array_and_stats::ArrayAndStats;
pub use context::CompressorContext;
pub use estimate::{CompressionEstimate, DeferredEstimate, EstimateScore, EstimateVerdict};
pub use no_scheme::NoScheme;
pub use rules::{
    AncestorExclusion, AncestorRules, DescendantExclusion, DescendantRules, SchemeIds,
};
pub use scheme::Scheme;
pub use scheme_id::SchemeId;
pub use selection::ChildSelection;
pub use split::Split;
pub use vx_stats::{
    BoolStats, Counts, DistinctInfo, ErasedStats, GenerateStatsOptions, IntegerStats, PValue,
    StringStats, TypedStats, laws_of_distinct, laws_of_merge,
};

/// The budget of a fresh site: this many schemes may stand one below another below the first, so at most five on one path.
pub const MAX_CASCADE: usize = 4;
