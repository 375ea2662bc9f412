//! Operations on timestamps in parts, and queries of them: on the parts. What has no kernel there is refused by the type, or
//! answered by the row functions.

ghost use Rattle.std.specs.Prelude.{◌≡◌};
ghost use Rattle.vx_model.specs.Column.{column_of};
ghost use Rattle.vx_query.specs.Steps.{answer_of, op_of, query_of};
ghost use Rattle.vx_rules.specs.Comparisons.{between, between_refusal, compare_refusal, comparison};
ghost use Rattle.vx_rules.specs.Operations.{answered, applied, repeated};
ghost use Rattle.vx_rules.specs.Outcomes.{Follows, outcome};

use crate::answers::{constant_of, of_column, one, yes};
use crate::applying::apply_decoded;
use crate::asking::ask_decoded;
use crate::steps::{RowAnswer, RowOp, RowQuery};
use vx_array::ArrayRef;
use vx_base::{ExecutionCtx, Scalar, VortexResult};
use vx_datetime::DateTimePartsArray;
use vx_rules::{BetweenOptions, CompareOperator};

/// What an operation makes of timestamps in parts.
#[tactic(auto, using(crate::proofs::Following::following))]
pub(crate) fn apply_parts(
    array: &DateTimePartsArray,
    op: &RowOp,
    ctx: &mut ExecutionCtx,
) -> VortexResult<ArrayRef>
    ensures answer { Follows (applied (op_of op.now) (column_of array.now)) (λ out column. column_of out ≡ column) result }
    ensures ctx { ctx.new ≡ ctx.old }
{
    match op {
        RowOp::Slice(start, end) => array.slice(*start, *end, ctx),
        RowOp::Filter(keep) => array.filter(keep, ctx),
        RowOp::Take(indices) => array.take(indices, ctx),
        RowOp::Mask(keep) => array.mask(keep, ctx),
        RowOp::Cast(dtype) => array.cast(dtype, ctx),
        RowOp::FillNull(_) => apply_decoded(array.as_array(), op, ctx),
    }
}

/// What a query answers of timestamps in parts.
#[tactic(auto, using(crate::proofs::Following::column_followed))]
pub(crate) fn ask_parts(
    array: &DateTimePartsArray,
    query: &RowQuery,
    ctx: &mut ExecutionCtx,
) -> VortexResult<RowAnswer>
    ensures answer { Follows (answered (query_of query.now) (column_of array.now)) (λ out answer. answer_of out ≡ answer) result }
    ensures ctx { ctx.new ≡ ctx.old }
{
    match query {
        RowQuery::Compare(operator, value) => of_column(compared(array, value, *operator, ctx)),
        RowQuery::Between(low, high, options) => {
            of_column(bounded(array, low, high, *options, ctx))
        }
        RowQuery::IsConstant => yes(array.is_constant(ctx)),
        RowQuery::Row(row) => one(array.scalar_at(*row, ctx)),
        _ => ask_decoded(array.as_array(), query, ctx),
    }
}

// `compare` with one value.
#[tactic(auto, using(crate::proofs::Following::following))]
fn compared(
    array: &DateTimePartsArray,
    value: &Scalar,
    operator: CompareOperator,
    ctx: &mut ExecutionCtx,
) -> VortexResult<ArrayRef>
    ensures answer { Follows (outcome (compare_refusal (column_of array.now) (repeated value.now (column_of array.now))) (comparison operator (column_of array.now) (repeated value.now (column_of array.now)))) (λ out column. column_of out ≡ column) result }
    ensures ctx { ctx.new ≡ ctx.old }
{
    let other = constant_of(ctx.alloc(), value, array.as_array())?;
    array.compare(&other, operator, ctx)
}

// `between` two values.
#[tactic(auto, using(crate::proofs::Following::following))]
fn bounded(
    array: &DateTimePartsArray,
    low: &Scalar,
    high: &Scalar,
    options: BetweenOptions,
    ctx: &mut ExecutionCtx,
) -> VortexResult<ArrayRef>
    ensures answer { Follows (outcome (between_refusal (column_of array.now) (repeated low.now (column_of array.now)) (repeated high.now (column_of array.now))) (between options (column_of array.now) (repeated low.now (column_of array.now)) (repeated high.now (column_of array.now)))) (λ out column. column_of out ≡ column) result }
    ensures ctx { ctx.new ≡ ctx.old }
{
    let low = constant_of(ctx.alloc(), low, array.as_array())?;
    let high = constant_of(ctx.alloc(), high, array.as_array())?;
    array.between(&low, &high, options, ctx)
}
