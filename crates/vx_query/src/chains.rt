//! Operations one after another, and a query of what they leave.

ghost use Rattle.std.specs.Prelude.{◌≡◌, map};
ghost use Rattle.vx_model.specs.Column.{column_of};
ghost use Rattle.vx_query.specs.Steps.{answer_of, op_of, query_of};
ghost use Rattle.vx_rules.specs.Operations.{all_answered};
ghost use Rattle.vx_rules.specs.Outcomes.{Follows};

use crate::applying::apply;
use crate::asking::ask;
use crate::steps::{RowAnswer, RowOp, RowQuery};
use vx_array::ArrayRef;
use vx_base::{ExecutionCtx, VortexResult};

/// What a query answers of what operations leave of a tree, one after another. Refuses as the first of all of them that is refused
/// does.
pub fn apply_all(
    tree: &ArrayRef,
    ops: &[RowOp],
    question: &RowQuery,
    ctx: &mut ExecutionCtx,
) -> VortexResult<RowAnswer>
    ensures answer { Follows (all_answered (map op_of ops.now) (query_of question.now) (column_of tree.now)) (λ out answer. answer_of out ≡ answer) result }
    ensures ctx { ctx.new ≡ ctx.old }
{
    if ops.len() == 0 {
        return ask(tree, question, ctx);
    }
    let mut left = apply(tree, &ops[0], ctx)?;
    for place in 1..ops.len() {
        left = apply(&left, &ops[place], ctx)?;
    }
    ask(&left, question, ctx)
}
