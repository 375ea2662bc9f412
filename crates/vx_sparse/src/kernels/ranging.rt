//! Whether rows lie between bounds.

ghost use Rattle.std.specs.Prelude.{◌≡◌, IfOk, MatchOption};
ghost use Rattle.vx_base.specs.Answers.{Decided};
ghost use Rattle.vx_base.specs.PlainScalar.{PlainScalar};
ghost use Rattle.vx_model.specs.Column.{column_of};
ghost use Rattle.vx_model.specs.Tree.{constant, sparse_of};
ghost use Rattle.vx_model.specs.TreeType.{tree_type};
ghost use Rattle.vx_rules.specs.Comparisons.{between, between_refusal};
ghost use Rattle.vx_rules.specs.Operations.{repeated};
ghost use Rattle.vx_sparse.specs.Places.{places_in};

use crate::kernels::answers::{fill_row, over_answers, repeated_value};
use vx_array::{ArrayRef, Patches};
use vx_base::{ExecutionCtx, Scalar, VortexResult};
use vx_rows::between_scalars;
use vx_rules::BetweenOptions;

/// The values of two Constants of this length; None where either is another tree.
pub(crate) fn repeated_values<'a>(
    lower: &'a ArrayRef,
    upper: &'a ArrayRef,
    len: u64,
) -> Option<(&'a Scalar, &'a Scalar)>
    ensures { MatchOption result ((low high : PlainScalar) → lower.now ≡ constant low len → upper.now ≡ constant high len → ⊥) (λ values. (lower.now ≡ constant values.0.now len) × (upper.now ≡ constant values.1.now len)) }
{
    let low = repeated_value(lower, len)?;
    let high = repeated_value(upper, len)?;
    Some((low, high))
}

/// Whether each row lies between two values, null where the row or either value is. Refuses MismatchedTypes unless the three are of
/// one flat type, up to nullability.
pub(crate) fn between_values(
    patches: &Patches,
    fill: &Scalar,
    low: &Scalar,
    high: &Scalar,
    options: BetweenOptions,
    ctx: &mut ExecutionCtx,
) -> VortexResult<ArrayRef>
    requires { tree_type patches.now.values ≡ fill.now.dtype }
    ensures answer { Decided (between_refusal (column_of (sparse_of patches.now fill.now)) (repeated low.now (column_of (sparse_of patches.now fill.now))) (repeated high.now (column_of (sparse_of patches.now fill.now)))) (λ out. column_of out ≡ between options (column_of (sparse_of patches.now fill.now)) (repeated low.now (column_of (sparse_of patches.now fill.now))) (repeated high.now (column_of (sparse_of patches.now fill.now)))) result }
    ensures places { IfOk result (λ out. places_in out ≡ places_in (sparse_of patches.now fill.now)) }
    ensures ctx { ctx.new ≡ ctx.old }
{
    let values = between_scalars(patches.values(), low, high, options, ctx)?;
    let row = fill_row(ctx.alloc(), fill)?;
    let fills = between_scalars(&row, low, high, options, ctx)?;
    over_answers(ctx.alloc(), patches, values, &fills)
}
