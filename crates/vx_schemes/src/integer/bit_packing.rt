//! The bit-packing scheme.

ghost use Rattle.std.specs.Prelude.{◌≡◌, ◌≤◌, length, IsTrue};
ghost use Rattle.vx_base.specs.Answers.{Answers};
ghost use Rattle.vx_base.specs.PlainType.{is_integer};
ghost use Rattle.vx_model.specs.Column.{column_of};
ghost use Rattle.vx_model.specs.Rows.{rows};
ghost use Rattle.vx_model.specs.TreeType.{tree_type};
ghost use Rattle.vx_scheme.specs.Asked.{most_rows};
ghost use Rattle.vx_scheme.specs.Bundle.{SameArray};
ghost use Rattle.vx_schemes.specs.BitPacking.Meaning.{bit_packing_meaning};
ghost use Rattle.vx_schemes.specs.BitPacking.Tree.{has_negative};
ghost use Rattle.vx_schemes_common.specs.Produced.{MakesProduced};

mod tree;

use std::alloc::Global;
use std::sync::ledger::Ledger;
pub(crate) use tree::{bit_packing_tree, counts_above};
use vx_array::{ArrayRef, Arrays};
use vx_base::{ArrayId, DType, ExecutionCtx, Fraction, IdSet, Steps, VortexResult};
use vx_scheme::{
    AllowedIds, AncestorRules, ArrayAndStats, CompressionEstimate, CompressorContext,
    DeferredEstimate, DescendantRules, EstimateVerdict, GenerateStatsOptions, Scheme, Split,
};
use vx_schemes_common::finished_or_kept;

/// Bit packing, `vortex.int.bitpacking`: integers packed at the width of least cost, wider values as patches. Skips a
/// column with a negative value; any other is tried on a sample. The column stays plain where the width of least cost is
/// the type's own. No children: the tree is finished at once. The default is `v1`.
#[derive(Clone, Copy, Debug, Default, PartialEq, Eq)]
pub struct BitPackingScheme(());

impl BitPackingScheme {
    /// Version 1: one width for the whole column.
    pub fn v1() -> BitPackingScheme
        ensures { MakesProduced (bit_packing_meaning result) }
    {
        BitPackingScheme(())
    }
}

/// Whether some value of the column is negative.
pub(crate) fn has_negative(column: &mut ArrayAndStats) -> VortexResult<bool>
    requires integer { IsTrue (is_integer (tree_type column.old.array)) }
    requires few { length (rows column.old.array) ≤ most_rows }
    ensures answer { Answers result (has_negative (column_of column.old.array)) }
    ensures column { SameArray column.old column.new }
{
    Ok(column.integer_summary()?.erased().min_is_negative())
}

impl Scheme for BitPackingScheme {
    ghost use Rattle.std.specs.Prelude.{refl};
    ghost use Rattle.vx_schemes.specs.BitPacking.Meaning.{bit_packing_lawful};

    ghost meaning = { bit_packing_meaning };

    ghost refined = { λ s allowed. s };

    ghost lawful = { bit_packing_lawful };

    ghost keeps_name = { λ s allowed. refl };

    fn scheme_name(&self) -> &'static str {
        "vortex.int.bitpacking"
    }

    fn matches(&self, dtype: &DType) -> bool {
        dtype.is_integer()
    }

    fn produced_encodings(&self) -> IdSet {
        IdSet::empty().with(ArrayId::BitPacked)
    }

    fn refine(&self, _allowed: &AllowedIds) -> Self {
        *self
    }

    fn stats_options(&self) -> GenerateStatsOptions {
        GenerateStatsOptions::default()
    }

    fn num_children(&self) -> usize {
        0
    }

    fn descendant_exclusions(&self, alloc: Global) -> VortexResult<DescendantRules> {
        Ok(DescendantRules::new_in(alloc))
    }

    fn ancestor_exclusions(&self, alloc: Global) -> VortexResult<AncestorRules> {
        Ok(AncestorRules::new_in(alloc))
    }

    fn expected_compression_ratio(
        &self,
        column: &mut ArrayAndStats,
        _site: &CompressorContext,
        _ctx: &mut ExecutionCtx,
    ) -> VortexResult<CompressionEstimate> {
        if !self.matches(column.array().dtype()) {
            return Ok(CompressionEstimate::Verdict(EstimateVerdict::Skip));
        }
        if has_negative(column)? {
            Ok(CompressionEstimate::Verdict(EstimateVerdict::Skip))
        } else {
            Ok(CompressionEstimate::Deferred(DeferredEstimate::Sample))
        }
    }

    // Not reached: no estimate of this scheme is `Callback`.
    fn resolve_estimate(
        &self,
        _column: &mut ArrayAndStats,
        _threshold: Option<Fraction>,
        _site: &CompressorContext,
        _ctx: &mut ExecutionCtx,
    ) -> VortexResult<EstimateVerdict> {
        Ok(EstimateVerdict::Skip)
    }

    fn split<L: Ledger>(
        &self,
        column: &mut ArrayAndStats,
        _site: &CompressorContext,
        ctx: &mut ExecutionCtx,
        steps: &mut Steps<L>,
    ) -> VortexResult<Split> {
        steps.tick();
        if !self.matches(column.array().dtype()) {
            return Ok(Split::Kept);
        }
        if has_negative(column)? {
            return Ok(Split::Kept);
        }
        Ok(finished_or_kept(bit_packing_tree(column.array(), ctx)?))
    }

    // No parts, so the column stays plain.
    fn join(
        &self,
        column: &mut ArrayAndStats,
        _site: &CompressorContext,
        _trees: Arrays,
        ctx: &mut ExecutionCtx,
    ) -> VortexResult<ArrayRef> {
        column.array().copy(ctx.alloc())
    }
}
