//! Queries of a tree.

ghost use Rattle.std.specs.Prelude.{◌≡◌};
ghost use Rattle.vx_model.specs.Column.{column_of};
ghost use Rattle.vx_query.specs.Steps.{answer_of, query_of};
ghost use Rattle.vx_rules.specs.Operations.{answered};
ghost use Rattle.vx_rules.specs.Outcomes.{Follows};

use crate::answers::{of_column, of_count, of_pair, one, yes};
use crate::rooted::{Rooted, has_kernels};
use crate::steps::{RowAnswer, RowQuery};
use vx_array::ArrayRef;
use vx_base::{ExecutionCtx, VortexResult};
use vx_rows::{
    between_scalars, compare_scalar, is_constant, like_scalar, min_max, not, null_count, sum,
};
use vx_selections::scalar_at;

/// What a query answers of a tree, by the kernels of its root. Refuses as the query does. A tree whose root has kernels of its own is
/// copied first, encoded as it is.
#[tactic(auto, using(crate::proofs::Following::no_memory))]
pub fn ask(array: &ArrayRef, query: &RowQuery, ctx: &mut ExecutionCtx) -> VortexResult<RowAnswer>
    ensures answer { Follows (answered (query_of query.now) (column_of array.now)) (λ out answer. answer_of out ≡ answer) result }
    ensures ctx { ctx.new ≡ ctx.old }
{
    if !has_kernels(array) {
        return ask_decoded(array, query, ctx);
    }
    Rooted::of(array.copy(ctx.alloc())?).ask(query, ctx)
}

/// What a query answers of a tree by the row functions.
#[tactic(auto, using(crate::proofs::Following::following))]
pub(crate) fn ask_decoded(
    array: &ArrayRef,
    query: &RowQuery,
    ctx: &mut ExecutionCtx,
) -> VortexResult<RowAnswer>
    ensures answer { Follows (answered (query_of query.now) (column_of array.now)) (λ out answer. answer_of out ≡ answer) result }
    ensures ctx { ctx.new ≡ ctx.old }
{
    match query {
        RowQuery::Compare(operator, value) => {
            of_column(compare_scalar(array, value, *operator, ctx))
        }
        RowQuery::Between(lower, upper, options) => {
            of_column(between_scalars(array, lower, upper, *options, ctx))
        }
        RowQuery::Like(pattern, options) => of_column(like_scalar(array, pattern, *options, ctx)),
        RowQuery::Not => of_column(not(array, ctx)),
        RowQuery::IsConstant => yes(is_constant(array, ctx)),
        RowQuery::MinMax => of_pair(min_max(array, ctx)),
        RowQuery::NullCount => of_count(null_count(array, ctx)),
        RowQuery::Sum => one(sum(array, ctx)),
        RowQuery::Row(row) => one(scalar_at(array, *row, ctx)),
        RowQuery::Rows => of_column(array.copy(ctx.alloc())),
    }
}
