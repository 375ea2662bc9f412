//! A scheme of a caller's own that takes every leaf column and answers one estimate: its one part is the column itself.

ghost use Rattle.std.specs.Prelude.{◌≡◌};
ghost use Rattle.vx_cascade_tests.specs.WholeMeaning.{whole_name};

use std::alloc::Global;
use std::sync::ledger::Ledger;
use vx_array::{ArrayRef, Arrays};
use vx_base::{DType, ExecutionCtx, Fraction, IdSet, Steps, VortexError, VortexResult};
use vx_scheme::{
    AllowedIds, AncestorRules, ArrayAndStats, CompressionEstimate, CompressorContext,
    DescendantRules, EstimateVerdict, GenerateStatsOptions, Scheme, Split,
};

// A scheme that answers this estimate of every leaf column. Its tree is that of the column, so it is never smaller than plain.
#[derive(Clone, Copy, Debug)]
pub(crate) struct Whole {
    pub(crate) estimate: CompressionEstimate,
    // The threshold that it awaits where it defers. With any other it refuses NoMemory, so that a test can tell.
    pub(crate) awaits: Option<Fraction>,
    // Whether its name is the root's, which no compressor accepts.
    pub(crate) is_root: bool,
}

// The scheme with the root's name.
pub(crate) fn named_as_root() -> Whole {
    Whole {
        estimate: CompressionEstimate::Verdict(EstimateVerdict::Skip),
        awaits: None,
        is_root: true,
    }
}

fn name_of(is_root: bool) -> &'static str
    ensures { result.now ≡ whole_name is_root }
{
    if is_root {
        "vortex.compressor.root"
    } else {
        "test.whole"
    }
}

impl Scheme for Whole {
    ghost use Rattle.vx_cascade_tests.specs.WholeMeaning.{whole_meaning, whole_lawful};
    ghost use Rattle.std.specs.Prelude.{refl};

    ghost meaning = { λ s. whole_meaning s.is_root s.estimate };

    ghost refined = { λ s allowed. s };

    ghost lawful = { λ s. whole_lawful s.is_root s.estimate };

    ghost keeps_name = { λ s allowed. refl };

    fn scheme_name(&self) -> &'static str {
        name_of(self.is_root)
    }

    fn matches(&self, dtype: &DType) -> bool {
        dtype.is_leaf()
    }

    fn produced_encodings(&self) -> IdSet {
        IdSet::empty()
    }

    fn refine(&self, _allowed: &AllowedIds) -> Self {
        *self
    }

    fn stats_options(&self) -> GenerateStatsOptions {
        GenerateStatsOptions::default()
    }

    fn num_children(&self) -> usize {
        1
    }

    fn descendant_exclusions(&self, alloc: Global) -> VortexResult<DescendantRules> {
        Ok(DescendantRules::new_in(alloc))
    }

    fn ancestor_exclusions(&self, alloc: Global) -> VortexResult<AncestorRules> {
        Ok(AncestorRules::new_in(alloc))
    }

    fn expected_compression_ratio(
        &self,
        _column: &mut ArrayAndStats,
        _site: &CompressorContext,
        _ctx: &mut ExecutionCtx,
    ) -> VortexResult<CompressionEstimate> {
        Ok(self.estimate)
    }

    fn resolve_estimate(
        &self,
        _column: &mut ArrayAndStats,
        threshold: Option<Fraction>,
        _site: &CompressorContext,
        _ctx: &mut ExecutionCtx,
    ) -> VortexResult<EstimateVerdict> {
        if threshold == self.awaits {
            Ok(EstimateVerdict::AlwaysUse)
        } else {
            Err(VortexError::NoMemory)
        }
    }

    fn split<L: Ledger>(
        &self,
        column: &mut ArrayAndStats,
        _site: &CompressorContext,
        ctx: &mut ExecutionCtx,
        steps: &mut Steps<L>,
    ) -> VortexResult<Split> {
        steps.tick();
        let mut parts = Vec::new(ctx.alloc());
        parts.push(column.array().copy(ctx.alloc())?)?;
        Ok(Split::Parts(Arrays::from_vec(parts)))
    }

    fn join(
        &self,
        column: &mut ArrayAndStats,
        _site: &CompressorContext,
        trees: Arrays,
        ctx: &mut ExecutionCtx,
    ) -> VortexResult<ArrayRef> {
        match trees.get(0) {
            Some(tree) => tree.copy(ctx.alloc()),
            None => column.array().copy(ctx.alloc()),
        }
    }
}
