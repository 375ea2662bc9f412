//! Truth values negated.

ghost use Rattle.std.specs.Prelude.{◌≡◌, IfOk};
ghost use Rattle.vx_base.specs.Answers.{Decided};
ghost use Rattle.vx_model.specs.Column.{column_of};
ghost use Rattle.vx_model.specs.Tree.{sparse_of};
ghost use Rattle.vx_model.specs.TreeType.{tree_type};
ghost use Rattle.vx_rules.specs.Comparisons.{negation, not_refusal};
ghost use Rattle.vx_sparse.specs.Places.{places_in};

use crate::kernels::answers::{fill_row, over_answers};
use vx_array::{ArrayRef, Patches};
use vx_base::{ExecutionCtx, Scalar, VortexResult};

/// Each truth value negated; null stays null. Refuses MismatchedTypes unless the rows are truth values.
pub(crate) fn negated(
    patches: &Patches,
    fill: &Scalar,
    ctx: &mut ExecutionCtx,
) -> VortexResult<ArrayRef>
    requires { tree_type patches.now.values ≡ fill.now.dtype }
    ensures answer { Decided (not_refusal (column_of (sparse_of patches.now fill.now))) (λ out. column_of out ≡ negation (column_of (sparse_of patches.now fill.now))) result }
    ensures places { IfOk result (λ out. places_in out ≡ places_in (sparse_of patches.now fill.now)) }
    ensures ctx { ctx.new ≡ ctx.old }
{
    let values = vx_rows::not(patches.values(), ctx)?;
    let row = fill_row(ctx.alloc(), fill)?;
    let fills = vx_rows::not(&row, ctx)?;
    over_answers(ctx.alloc(), patches, values, &fills)
}
