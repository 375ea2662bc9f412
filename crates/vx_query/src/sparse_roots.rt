//! Operations on sparse arrays, and queries of them: on the patches and the fill.

ghost use Rattle.std.specs.Prelude.{◌≡◌};
ghost use Rattle.vx_model.specs.Column.{column_of};
ghost use Rattle.vx_query.specs.Steps.{answer_of, op_of, query_of};
ghost use Rattle.vx_rules.specs.Comparisons.{between, between_refusal, compare_refusal, comparison};
ghost use Rattle.vx_rules.specs.Operations.{answered, applied, repeated};
ghost use Rattle.vx_rules.specs.Outcomes.{Follows, outcome};
ghost use Rattle.vx_rules.specs.Patterns.{like, like_refusal};

use crate::answers::{constant_of, of_column, of_count, of_pair, one, yes};
use crate::steps::{RowAnswer, RowOp, RowQuery};
use vx_array::ArrayRef;
use vx_base::{ExecutionCtx, Scalar, VortexResult};
use vx_rules::{BetweenOptions, CompareOperator, LikeOptions};
use vx_sparse::SparseKernels;
use vx_sparse_array::SparseArray;

/// What an operation makes of a sparse array.
#[tactic(auto, using(crate::proofs::Following::following))]
pub(crate) fn apply_sparse(
    array: &SparseArray,
    op: &RowOp,
    ctx: &mut ExecutionCtx,
) -> VortexResult<ArrayRef>
    ensures answer { Follows (applied (op_of op.now) (column_of array.now)) (λ out column. column_of out ≡ column) result }
    ensures ctx { ctx.new ≡ ctx.old }
{
    match op {
        RowOp::Slice(start, end) => array.slice(*start, *end, ctx),
        RowOp::Filter(keep) => array.filter(keep, ctx),
        RowOp::Take(indices) => array.take(indices, ctx),
        RowOp::Mask(keep) => array.mask(keep, ctx),
        RowOp::Cast(dtype) => array.cast(dtype, ctx),
        RowOp::FillNull(fill) => array.fill_null(fill, ctx),
    }
}

/// What a query answers of a sparse array.
#[tactic(auto, using(crate::proofs::Following::column_followed))]
pub(crate) fn ask_sparse(
    array: &SparseArray,
    query: &RowQuery,
    ctx: &mut ExecutionCtx,
) -> VortexResult<RowAnswer>
    ensures answer { Follows (answered (query_of query.now) (column_of array.now)) (λ out answer. answer_of out ≡ answer) result }
    ensures ctx { ctx.new ≡ ctx.old }
{
    match query {
        RowQuery::Compare(operator, value) => of_column(compared(array, value, *operator, ctx)),
        RowQuery::Between(low, high, options) => {
            of_column(bounded(array, low, high, *options, ctx))
        }
        RowQuery::Like(pattern, options) => of_column(liked(array, pattern, *options, ctx)),
        RowQuery::Not => of_column(array.not(ctx)),
        RowQuery::IsConstant => yes(array.is_constant(ctx)),
        RowQuery::MinMax => of_pair(array.min_max(ctx)),
        RowQuery::NullCount => of_count(array.null_count(ctx)),
        RowQuery::Sum => one(array.sum(ctx)),
        RowQuery::Row(row) => one(array.scalar_at(*row, ctx)),
        RowQuery::Rows => of_column(array.as_array().copy(ctx.alloc())),
    }
}

// `compare` with one value.
#[tactic(auto, using(crate::proofs::Following::following))]
fn compared(
    array: &SparseArray,
    value: &Scalar,
    operator: CompareOperator,
    ctx: &mut ExecutionCtx,
) -> VortexResult<ArrayRef>
    ensures answer { Follows (outcome (compare_refusal (column_of array.now) (repeated value.now (column_of array.now))) (comparison operator (column_of array.now) (repeated value.now (column_of array.now)))) (λ out column. column_of out ≡ column) result }
    ensures ctx { ctx.new ≡ ctx.old }
{
    let other = constant_of(ctx.alloc(), value, array.as_array())?;
    array.compare(&other, operator, ctx)
}

// `between` two values.
#[tactic(auto, using(crate::proofs::Following::following))]
fn bounded(
    array: &SparseArray,
    low: &Scalar,
    high: &Scalar,
    options: BetweenOptions,
    ctx: &mut ExecutionCtx,
) -> VortexResult<ArrayRef>
    ensures answer { Follows (outcome (between_refusal (column_of array.now) (repeated low.now (column_of array.now)) (repeated high.now (column_of array.now))) (between options (column_of array.now) (repeated low.now (column_of array.now)) (repeated high.now (column_of array.now)))) (λ out column. column_of out ≡ column) result }
    ensures ctx { ctx.new ≡ ctx.old }
{
    let low = constant_of(ctx.alloc(), low, array.as_array())?;
    let high = constant_of(ctx.alloc(), high, array.as_array())?;
    array.between(&low, &high, options, ctx)
}

// `like` one pattern.
#[tactic(auto, using(crate::proofs::Following::following))]
fn liked(
    array: &SparseArray,
    pattern: &Scalar,
    options: LikeOptions,
    ctx: &mut ExecutionCtx,
) -> VortexResult<ArrayRef>
    ensures answer { Follows (outcome (like_refusal (column_of array.now) (repeated pattern.now (column_of array.now))) (like options (column_of array.now) (repeated pattern.now (column_of array.now)))) (λ out column. column_of out ≡ column) result }
    ensures ctx { ctx.new ≡ ctx.old }
{
    let pattern = constant_of(ctx.alloc(), pattern, array.as_array())?;
    array.like(&pattern, options, ctx)
}
