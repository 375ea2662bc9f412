//! Comparison with a column.

ghost use Rattle.std.specs.Prelude.{◌≡◌, IfOk};
ghost use Rattle.vx_base.specs.Answers.{Decided};
ghost use Rattle.vx_model.specs.Column.{column_of};
ghost use Rattle.vx_model.specs.Tree.{sparse_of};
ghost use Rattle.vx_model.specs.TreeType.{tree_type};
ghost use Rattle.vx_rules.specs.Comparisons.{compare_refusal, comparison};
ghost use Rattle.vx_rules.specs.Operations.{repeated};
ghost use Rattle.vx_sparse.specs.Places.{places_in};

use crate::kernels::answers::{fill_row, over_answers};
use vx_array::{ArrayRef, Patches};
use vx_base::{ExecutionCtx, Scalar, VortexResult};
use vx_rows::compare_scalar;
use vx_rules::CompareOperator;

/// Whether the operator holds between each row and a value, null where either is. Refuses MismatchedTypes unless both are of one
/// flat type, up to nullability.
pub(crate) fn compare_value(
    patches: &Patches,
    fill: &Scalar,
    value: &Scalar,
    operator: CompareOperator,
    ctx: &mut ExecutionCtx,
) -> VortexResult<ArrayRef>
    requires { tree_type patches.now.values ≡ fill.now.dtype }
    ensures answer { Decided (compare_refusal (column_of (sparse_of patches.now fill.now)) (repeated value.now (column_of (sparse_of patches.now fill.now)))) (λ out. column_of out ≡ comparison operator (column_of (sparse_of patches.now fill.now)) (repeated value.now (column_of (sparse_of patches.now fill.now)))) result }
    ensures places { IfOk result (λ out. places_in out ≡ places_in (sparse_of patches.now fill.now)) }
    ensures ctx { ctx.new ≡ ctx.old }
{
    let values = compare_scalar(patches.values(), value, operator, ctx)?;
    let row = fill_row(ctx.alloc(), fill)?;
    let fills = compare_scalar(&row, value, operator, ctx)?;
    over_answers(ctx.alloc(), patches, values, &fills)
}
