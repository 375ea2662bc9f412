//! Operations on a tree.

ghost use Rattle.std.specs.Prelude.{◌≡◌};
ghost use Rattle.vx_model.specs.Column.{column_of};
ghost use Rattle.vx_query.specs.Steps.{op_of};
ghost use Rattle.vx_rules.specs.Operations.{applied};
ghost use Rattle.vx_rules.specs.Outcomes.{Follows};

use crate::rooted::{Rooted, has_kernels};
use crate::steps::RowOp;
use vx_array::ArrayRef;
use vx_base::{ExecutionCtx, VortexResult};
use vx_rows::{cast, fill_null};
use vx_selections::{filter, mask, slice, take};

/// What an operation makes of a tree, by the kernels of its root. Refuses as the operation does. A tree whose root has kernels of its
/// own is copied first, encoded as it is.
#[tactic(auto, using(crate::proofs::Following::no_memory))]
pub fn apply(array: &ArrayRef, op: &RowOp, ctx: &mut ExecutionCtx) -> VortexResult<ArrayRef>
    ensures answer { Follows (applied (op_of op.now) (column_of array.now)) (λ out column. column_of out ≡ column) result }
    ensures ctx { ctx.new ≡ ctx.old }
{
    if !has_kernels(array) {
        return apply_decoded(array, op, ctx);
    }
    Rooted::of(array.copy(ctx.alloc())?).apply(op, ctx)
}

/// What an operation makes of a tree by the row functions.
#[tactic(auto, using(crate::proofs::Following::following))]
pub(crate) fn apply_decoded(
    array: &ArrayRef,
    op: &RowOp,
    ctx: &mut ExecutionCtx,
) -> VortexResult<ArrayRef>
    ensures answer { Follows (applied (op_of op.now) (column_of array.now)) (λ out column. column_of out ≡ column) result }
    ensures ctx { ctx.new ≡ ctx.old }
{
    match op {
        RowOp::Slice(start, end) => slice(array, *start, *end, ctx),
        RowOp::Filter(keep) => filter(array, keep, ctx),
        RowOp::Take(indices) => take(array, indices, ctx),
        RowOp::Mask(keep) => mask(array, keep, ctx),
        RowOp::Cast(dtype) => cast(array, dtype, ctx),
        RowOp::FillNull(fill) => fill_null(array, fill, ctx),
    }
}
