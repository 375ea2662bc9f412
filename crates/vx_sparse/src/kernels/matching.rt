//! Texts that match a pattern.

ghost use Rattle.std.specs.Prelude.{◌≡◌, IfOk};
ghost use Rattle.vx_base.specs.Answers.{Decided};
ghost use Rattle.vx_model.specs.Column.{column_of};
ghost use Rattle.vx_model.specs.Tree.{sparse_of};
ghost use Rattle.vx_model.specs.TreeType.{tree_type};
ghost use Rattle.vx_rules.specs.Operations.{repeated};
ghost use Rattle.vx_rules.specs.Patterns.{like, like_refusal};
ghost use Rattle.vx_sparse.specs.Places.{places_in};

use crate::kernels::answers::{fill_row, over_answers};
use vx_array::{ArrayRef, Patches};
use vx_base::{ExecutionCtx, Scalar, VortexResult};
use vx_rows::like_scalar;
use vx_rules::LikeOptions;

/// Whether each text matches a pattern, or doesn't where the match is negated; null where the text or the pattern is. Refuses
/// MismatchedTypes unless the texts and the pattern are of texts.
pub(crate) fn like_value(
    patches: &Patches,
    fill: &Scalar,
    pattern: &Scalar,
    options: LikeOptions,
    ctx: &mut ExecutionCtx,
) -> VortexResult<ArrayRef>
    requires { tree_type patches.now.values ≡ fill.now.dtype }
    ensures answer { Decided (like_refusal (column_of (sparse_of patches.now fill.now)) (repeated pattern.now (column_of (sparse_of patches.now fill.now)))) (λ out. column_of out ≡ like options (column_of (sparse_of patches.now fill.now)) (repeated pattern.now (column_of (sparse_of patches.now fill.now)))) result }
    ensures places { IfOk result (λ out. places_in out ≡ places_in (sparse_of patches.now fill.now)) }
    ensures ctx { ctx.new ≡ ctx.old }
{
    let values = like_scalar(patches.values(), pattern, options, ctx)?;
    let row = fill_row(ctx.alloc(), fill)?;
    let fills = like_scalar(&row, pattern, options, ctx)?;
    over_answers(ctx.alloc(), patches, values, &fills)
}
