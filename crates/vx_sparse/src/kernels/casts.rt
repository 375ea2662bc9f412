//! Casts, of the patches and the fill.

ghost use Rattle.std.specs.Prelude.{◌≡◌, None};
ghost use Rattle.vx_base.specs.TypeOf.{type_of};
ghost use Rattle.vx_model.specs.Column.{column_of};
ghost use Rattle.vx_model.specs.Tree.{sparse_of};
ghost use Rattle.vx_model.specs.TreeType.{tree_type};
ghost use Rattle.vx_rules.specs.Conversions.{cast_refusal, casted};
ghost use Rattle.vx_rules.specs.Outcomes.{Follows, outcome};

use crate::kernels::nulls::unpatched;
use crate::kernels::over_patches::over_patches;
use std::alloc::Global;
use vx_array::{ArrayRef, Patches};
use vx_base::{DType, ExecutionCtx, Scalar, VortexResult};
use vx_rows::cast;

/// The values in another type: a Sparse at the same indices, or with a patch in each row the patch values alone. Refuses
/// MismatchedTypes where there is no cast between the types, then CastRefused where a row is not one of the new type. A fill without
/// a row is never refused.
pub(crate) fn cast_rows(
    patches: &Patches,
    fill: &Scalar,
    dtype: &DType,
    ctx: &mut ExecutionCtx,
) -> VortexResult<ArrayRef>
    requires { tree_type patches.now.values ≡ fill.now.dtype }
    ensures answer { Follows (outcome (cast_refusal (column_of (sparse_of patches.now fill.now)) (type_of dtype.now)) (casted (column_of (sparse_of patches.now fill.now)) (type_of dtype.now))) (λ out column. column_of out ≡ column) result }
    ensures ctx { ctx.new ≡ ctx.old }
{
    patches.known();
    match cast(patches.values(), dtype, ctx) {
        Ok(values) => over_cast(ctx.alloc(), patches, fill, dtype, values),
        Err(error) => Err(error),
    }
}

// Patch values in another type, over the fill in that type where a row has no patch.
fn over_cast(
    alloc: Global,
    patches: &Patches,
    fill: &Scalar,
    dtype: &DType,
    values: ArrayRef,
) -> VortexResult<ArrayRef>
    requires typed { tree_type patches.now.values ≡ fill.now.dtype }
    requires accepted { cast_refusal (column_of patches.now.values) (type_of dtype.now) ≡ None }
    requires values { column_of values ≡ casted (column_of patches.now.values) (type_of dtype.now) }
    ensures { Follows (outcome (cast_refusal (column_of (sparse_of patches.now fill.now)) (type_of dtype.now)) (casted (column_of (sparse_of patches.now fill.now)) (type_of dtype.now))) (λ out column. column_of out ≡ column) result }
{
    patches.known();
    let others = unpatched(patches);
    if others == 0 {
        return Ok(values);
    }
    match fill.cast(alloc, dtype) {
        Ok(other) => over_patches(alloc, patches, values, other),
        Err(error) => Err(error),
    }
}
