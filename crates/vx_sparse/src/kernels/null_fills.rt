//! A value in place of nulls, in the patches and the fill.

ghost use Rattle.std.specs.Prelude.{◌≡◌, None, true};
ghost use Rattle.vx_base.specs.Answers.{Answers, Decided, OrMemory};
ghost use Rattle.vx_base.specs.Defaults.{or_default};
ghost use Rattle.vx_base.specs.PlainScalar.{scalar};
ghost use Rattle.vx_base.specs.PlainType.{same_base};
ghost use Rattle.vx_model.specs.Column.{column_of};
ghost use Rattle.vx_model.specs.Tree.{sparse_of};
ghost use Rattle.vx_model.specs.TreeType.{tree_type};
ghost use Rattle.vx_rules.specs.Conversions.{fill_null_refusal, null_filled};

use crate::kernels::over_patches::over_patches;
use std::alloc::Global;
use vx_array::{ArrayRef, Patches};
use vx_base::{ExecutionCtx, Scalar, VortexResult};
use vx_rows::fill_null;

/// A value in place of each null: a Sparse at the same indices. Refuses MismatchedTypes where the value is null or not of the
/// column's type, up to outermost nullability.
pub(crate) fn filled(
    patches: &Patches,
    fill: &Scalar,
    value: &Scalar,
    ctx: &mut ExecutionCtx,
) -> VortexResult<ArrayRef>
    requires { tree_type patches.now.values ≡ fill.now.dtype }
    ensures answer { Decided (fill_null_refusal (column_of (sparse_of patches.now fill.now)) value.now) (λ out. column_of out ≡ null_filled (column_of (sparse_of patches.now fill.now)) value.now) result }
    ensures ctx { ctx.new ≡ ctx.old }
{
    match fill_null(patches.values(), value, ctx) {
        Ok(values) => over_filled(ctx.alloc(), patches, fill, value, values),
        Err(error) => Err(error),
    }
}

// Patch values without nulls, over the fill or, where it is null, the value.
fn over_filled(
    alloc: Global,
    patches: &Patches,
    fill: &Scalar,
    value: &Scalar,
    values: ArrayRef,
) -> VortexResult<ArrayRef>
    requires typed { tree_type patches.now.values ≡ fill.now.dtype }
    requires accepted { fill_null_refusal (column_of patches.now.values) value.now ≡ None }
    requires values { column_of values ≡ null_filled (column_of patches.now.values) value.now }
    ensures { OrMemory result (λ out. column_of out ≡ null_filled (column_of (sparse_of patches.now fill.now)) value.now) }
{
    let other = filled_scalar(alloc, fill, value)?;
    over_patches(alloc, patches, values, other)
}

// A scalar or, where it is null, the value, in the value's type.
fn filled_scalar(alloc: Global, fill: &Scalar, value: &Scalar) -> VortexResult<Scalar>
    requires { same_base fill.now.dtype value.now.dtype ≡ true }
    ensures { Answers result (scalar value.now.dtype (or_default value.now.value fill.now.value)) }
{
    if fill.is_null() {
        return value.copy(alloc);
    }
    fill.known();
    fill.cast(alloc, value.dtype())
}
