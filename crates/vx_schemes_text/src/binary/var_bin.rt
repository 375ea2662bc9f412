//! The scheme of concatenated binaries.

ghost use Rattle.std.specs.Prelude.{◌≡◌, ◌≤◌, IsTrue, None, length, true};
ghost use Rattle.vx_base.specs.Answers.{Answers};
ghost use Rattle.vx_base.specs.PlainType.{is_bytes};
ghost use Rattle.vx_base.specs.TypeOf.{type_of};
ghost use Rattle.vx_model.specs.Column.{column_of};
ghost use Rattle.vx_model.specs.Plain.{IsPlain};
ghost use Rattle.vx_model.specs.Refusals.{kept, var_bin_refusal};
ghost use Rattle.vx_model.specs.Rows.{rows};
ghost use Rattle.vx_model.specs.Tree.{var_bin};
ghost use Rattle.vx_model.specs.TreeType.{tree_type};
ghost use Rattle.vx_scheme.specs.Asked.{most_rows, FitParts};
ghost use Rattle.vx_scheme.specs.Meaning.{split_of};
ghost use Rattle.vx_schemes_common.specs.OnePart.{part_where, over_part};
ghost use Rattle.vx_schemes_text.specs.VarBin.Tree.{binaries_over, binary_offsets};

use crate::views::views_of;
use std::alloc::Global;
use std::sync::ledger::Ledger;
use vx_array::{ArrayRef, Arrays};
use vx_base::{ArrayId, Bytes, DType, ExecutionCtx, Fraction, IdSet, Mask, Steps, VortexResult};
use vx_scheme::{
    AllowedIds, AncestorRules, ArrayAndStats, CompressionEstimate, CompressorContext,
    DeferredEstimate, DescendantRules, EstimateVerdict, GenerateStatsOptions, Scheme, Split,
};
use vx_schemes_common::{narrowed_numbers, one_part, only};
use vx_values::{byte_rows, copy_validity};

/// Concatenated binaries, `vortex.binary.varbin`: all bytes in one run. Tried on a sample. Child 0: the offsets between
/// the rows, one more than there are rows, in the narrowest unsigned type; a null row has no bytes.
#[derive(Clone, Copy, Debug, Default, PartialEq, Eq)]
pub struct VarBinScheme;

// The offsets between the rows, as the only part.
fn split_by(alloc: Global, array: &ArrayRef) -> VortexResult<Split>
    requires plain { IsPlain array.now }
    requires bytes { IsTrue (is_bytes (tree_type array.now)) }
    ensures { Answers result (split_of (part_where true (binary_offsets (column_of array.now)))) }
{
    let (rows, _) = views_of(array);
    let offsets = byte_rows::offsets(alloc, rows)?;
    one_part(alloc, narrowed_numbers(alloc, offsets)?)
}

// `ArrayRef::var_bin_of_offsets`, whose refusal drops the inputs.
fn var_bin_of(
    alloc: Global,
    offsets: ArrayRef,
    bytes: Bytes,
    valid: Option<Mask>,
    dtype: DType,
) -> VortexResult<ArrayRef>
    requires { var_bin_refusal offsets bytes valid (type_of dtype) ≡ None }
    ensures { Answers result (var_bin offsets bytes (kept valid) (type_of dtype)) }
{
    match ArrayRef::var_bin_of_offsets(alloc, offsets, bytes, valid, dtype) {
        Ok(tree) => Ok(tree),
        Err(refused) => Err(refused.error),
    }
}

// The bytes of all rows over a tree of the offsets between them. They are known to be offsets, so none is looked up: in a
// tree of deltas each look-up sums up to 1,024 of them.
fn var_bin_tree(alloc: Global, array: &ArrayRef, offsets: ArrayRef) -> VortexResult<ArrayRef>
    requires plain { IsPlain array.now }
    requires bytes { IsTrue (is_bytes (tree_type array.now)) }
    requires offsets { column_of offsets ≡ binary_offsets (column_of array.now) }
    ensures { Answers result (binaries_over (column_of array.now) offsets) }
{
    array.known();
    let (rows, valid) = views_of(array);
    let bytes = byte_rows::concatenated(alloc, rows)?;
    let valid = copy_validity(alloc, valid)?;
    let dtype = array.dtype().copy(alloc)?;
    var_bin_of(alloc, offsets, bytes, valid, dtype)
}

// The tree over that of the part; the column stays plain without one.
fn joined_by(alloc: Global, array: &ArrayRef, trees: Arrays) -> VortexResult<ArrayRef>
    requires plain { IsPlain array.now }
    requires bytes { IsTrue (is_bytes (tree_type array.now)) }
    requires few { length (rows array.now) ≤ most_rows }
    requires trees { FitParts (part_where true (binary_offsets (column_of array.now))) trees }
    ensures { Answers result (over_part binaries_over (column_of array.now) trees) }
{
    match only(trees) {
        Some(offsets) => var_bin_tree(alloc, array, offsets),
        None => array.copy(alloc),
    }
}

impl Scheme for VarBinScheme {
    ghost use Rattle.std.specs.Prelude.{refl};
    ghost use Rattle.vx_schemes_text.specs.VarBin.Meaning.{var_bin_meaning, var_bin_lawful};

    ghost meaning = { var_bin_meaning };

    ghost refined = { λ s allowed. s };

    ghost lawful = { var_bin_lawful };

    ghost keeps_name = { λ s allowed. refl };

    fn scheme_name(&self) -> &'static str {
        "vortex.binary.varbin"
    }

    fn matches(&self, dtype: &DType) -> bool {
        matches!(dtype, DType::Binary(_))
    }

    fn produced_encodings(&self) -> IdSet {
        IdSet::empty().with(ArrayId::VarBin)
    }

    fn refine(&self, _allowed: &AllowedIds) -> Self {
        *self
    }

    fn stats_options(&self) -> GenerateStatsOptions {
        GenerateStatsOptions::default()
    }

    // The offsets.
    fn num_children(&self) -> usize {
        1
    }

    fn descendant_exclusions(&self, alloc: Global) -> VortexResult<DescendantRules> {
        Ok(DescendantRules::new_in(alloc))
    }

    fn ancestor_exclusions(&self, alloc: Global) -> VortexResult<AncestorRules> {
        Ok(AncestorRules::new_in(alloc))
    }

    fn expected_compression_ratio(
        &self,
        _column: &mut ArrayAndStats,
        _site: &CompressorContext,
        _ctx: &mut ExecutionCtx,
    ) -> VortexResult<CompressionEstimate> {
        Ok(CompressionEstimate::Deferred(DeferredEstimate::Sample))
    }

    // Not reached: the estimate of this scheme is a trial.
    fn resolve_estimate(
        &self,
        _column: &mut ArrayAndStats,
        _threshold: Option<Fraction>,
        _site: &CompressorContext,
        _ctx: &mut ExecutionCtx,
    ) -> VortexResult<EstimateVerdict> {
        Ok(EstimateVerdict::Skip)
    }

    fn split<L: Ledger>(
        &self,
        column: &mut ArrayAndStats,
        _site: &CompressorContext,
        ctx: &mut ExecutionCtx,
        steps: &mut Steps<L>,
    ) -> VortexResult<Split> {
        steps.tick();
        if !self.matches(column.array().dtype()) {
            return Ok(Split::Kept);
        }
        split_by(ctx.alloc(), column.array())
    }

    fn join(
        &self,
        column: &mut ArrayAndStats,
        _site: &CompressorContext,
        trees: Arrays,
        ctx: &mut ExecutionCtx,
    ) -> VortexResult<ArrayRef> {
        if !self.matches(column.array().dtype()) {
            return column.array().copy(ctx.alloc());
        }
        joined_by(ctx.alloc(), column.array(), trees)
    }
}
