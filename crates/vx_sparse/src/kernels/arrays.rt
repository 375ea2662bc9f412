//! The kernels of sparse arrays as methods of `SparseArray`.

ghost use Rattle.std.specs.Prelude.{◌≡◌};
ghost use Rattle.vx_model.specs.Tree.{sparse_of};
ghost use Rattle.vx_model.specs.TreeType.{tree_type};

use super::answers::repeated_value;
use super::{
    SparseKernels, casts, comparing, comparisons, constants, extremes, filters, matching, negating,
    null_fills, nulls, ranging, single_rows, slices, sums,
};
use std::sync::ledger::Ledger;
use vx_array::{ArrayRef, Node, Patches};
use vx_base::{DType, ExecutionCtx, Mask, Scalar, Steps, VortexResult};
use vx_rules::{BetweenOptions, CompareOperator, LikeOptions};
use vx_selections::{mask, take};
use vx_sparse_array::SparseArray;

impl SparseKernels for SparseArray {
    ghost tree = { λ a. a };

    fn slice(&self, start: u64, end: u64, ctx: &mut ExecutionCtx) -> VortexResult<ArrayRef> {
        let (patches, fill) = parts(self);
        patches.known();
        slices::slice(ctx.alloc(), patches, fill, start, end)
    }

    fn filter(&self, keep: &Mask, ctx: &mut ExecutionCtx) -> VortexResult<ArrayRef> {
        let (patches, fill) = parts(self);
        filters::filtered(patches, fill, keep, ctx)
    }

    fn take(&self, indices: &ArrayRef, ctx: &mut ExecutionCtx) -> VortexResult<ArrayRef> {
        take(self.as_array(), indices, ctx)
    }

    fn mask(&self, keep: &Mask, ctx: &mut ExecutionCtx) -> VortexResult<ArrayRef> {
        mask(self.as_array(), keep, ctx)
    }

    fn cast(&self, dtype: &DType, ctx: &mut ExecutionCtx) -> VortexResult<ArrayRef> {
        let (patches, fill) = parts(self);
        casts::cast_rows(patches, fill, dtype, ctx)
    }

    fn fill_null(&self, fill: &Scalar, ctx: &mut ExecutionCtx) -> VortexResult<ArrayRef> {
        let (patches, own) = parts(self);
        null_fills::filled(patches, own, fill, ctx)
    }

    fn is_constant(&self, ctx: &mut ExecutionCtx) -> VortexResult<bool> {
        let (patches, fill) = parts(self);
        constants::is_constant(ctx.alloc(), patches, fill)
    }

    fn min_max(&self, ctx: &mut ExecutionCtx) -> VortexResult<Option<(Scalar, Scalar)>> {
        let (patches, fill) = parts(self);
        extremes::min_max(ctx.alloc(), patches, fill)
    }

    fn null_count(&self, ctx: &mut ExecutionCtx) -> VortexResult<u64> {
        let (patches, fill) = parts(self);
        Ok(nulls::null_count(patches, fill))
    }

    fn sum(&self, ctx: &mut ExecutionCtx) -> VortexResult<Scalar> {
        let (patches, fill) = parts(self);
        sums::sum(patches, fill)
    }

    fn scalar_at(&self, row: u64, ctx: &mut ExecutionCtx) -> VortexResult<Scalar> {
        let (patches, fill) = parts(self);
        single_rows::row(ctx.alloc(), patches, fill, row)
    }

    fn compare(
        &self,
        other: &ArrayRef,
        operator: CompareOperator,
        ctx: &mut ExecutionCtx,
    ) -> VortexResult<ArrayRef> {
        let whole = self.as_array();
        let (patches, fill) = parts(self);
        match repeated_value(other, whole.len()) {
            Some(value) => comparing::compare_value(patches, fill, value, operator, ctx),
            None => vx_rows::compare(whole, other, operator, ctx),
        }
    }

    fn between(
        &self,
        lower: &ArrayRef,
        upper: &ArrayRef,
        options: BetweenOptions,
        ctx: &mut ExecutionCtx,
    ) -> VortexResult<ArrayRef> {
        let whole = self.as_array();
        let (patches, fill) = parts(self);
        match ranging::repeated_values(lower, upper, whole.len()) {
            Some((low, high)) => ranging::between_values(patches, fill, low, high, options, ctx),
            None => vx_rows::between(whole, lower, upper, options, ctx),
        }
    }

    fn like(
        &self,
        pattern: &ArrayRef,
        options: LikeOptions,
        ctx: &mut ExecutionCtx,
    ) -> VortexResult<ArrayRef> {
        let whole = self.as_array();
        let (patches, fill) = parts(self);
        match repeated_value(pattern, whole.len()) {
            Some(value) => matching::like_value(patches, fill, value, options, ctx),
            None => vx_rows::like(whole, pattern, options, ctx),
        }
    }

    fn not(&self, ctx: &mut ExecutionCtx) -> VortexResult<ArrayRef> {
        let (patches, fill) = parts(self);
        negating::negated(patches, fill, ctx)
    }

    fn compare_counted<L: Ledger>(
        &self,
        value: &Scalar,
        operator: CompareOperator,
        ctx: &mut ExecutionCtx,
        steps: &mut Steps<L>,
    ) -> VortexResult<ArrayRef> {
        let (patches, fill) = parts(self);
        comparisons::counted_comparison(ctx.alloc(), patches, fill, value, operator, steps)
    }

    fn scalar_at_counted<L: Ledger>(
        &self,
        row: u64,
        ctx: &mut ExecutionCtx,
        steps: &mut Steps<L>,
    ) -> VortexResult<Scalar> {
        let (patches, fill) = parts(self);
        single_rows::counted_row(ctx.alloc(), patches, fill, row, steps)
    }
}

// The patches, and the fill, which is of the type of their values.
fn parts(array: &SparseArray) -> (&Patches, &Scalar)
    ensures tree { array.now ≡ sparse_of result.0.now result.1.now }
    ensures typed { tree_type result.0.now.values ≡ result.1.now.dtype }
{
    match array.as_array().node() {
        Node::Sparse(patches, fill) => {
            typed(array.as_array(), patches, fill);
            (patches, fill)
        }
        _ => unreachable!(),
    }
}

// Tells a proof that the values of a Sparse are of the fill's type.
fn typed(array: &ArrayRef, patches: &Patches, fill: &Scalar)
    requires { array.now ≡ sparse_of patches.now fill.now }
    ensures { tree_type patches.now.values ≡ fill.now.dtype }
{
    array.known();
}
