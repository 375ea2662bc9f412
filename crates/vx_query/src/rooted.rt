//! A tree with the kernels of its root: a sparse array and timestamps in parts have their own, any other tree is served by the row
//! functions.

ghost use Rattle.std.specs.Prelude.{◌≡◌};
ghost use Rattle.vx_model.specs.Column.{column_of};
ghost use Rattle.vx_query.specs.Roots.{tree_in};
ghost use Rattle.vx_query.specs.Steps.{answer_of, op_of, query_of};
ghost use Rattle.vx_rules.specs.Operations.{answered, applied};
ghost use Rattle.vx_rules.specs.Outcomes.{Follows};

use crate::applying::apply_decoded;
use crate::asking::ask_decoded;
use crate::parts_roots::{apply_parts, ask_parts};
use crate::sparse_roots::{apply_sparse, ask_sparse};
use crate::steps::{RowAnswer, RowOp, RowQuery};
use vx_array::ArrayRef;
use vx_base::{ArrayId, ExecutionCtx, VortexResult};
use vx_datetime::DateTimePartsArray;
use vx_sparse_array::SparseArray;

// A tree by its root.
#[derive(Drop)]
pub(crate) enum Rooted {
    Sparse(SparseArray),
    Parts(DateTimePartsArray),
    Other(ArrayRef),
}

impl Rooted {
    // A tree by its root. Takes no memory.
    pub(crate) fn of(array: ArrayRef) -> Rooted
        ensures { tree_in result ≡ array }
    {
        match SparseArray::from_array(array) {
            Ok(sparse) => Rooted::Sparse(sparse),
            Err(array) => match DateTimePartsArray::from_array(array) {
                Ok(parts) => Rooted::Parts(parts),
                Err(array) => Rooted::Other(array),
            },
        }
    }

    pub(crate) fn into_array(self) -> ArrayRef
        ensures { result ≡ tree_in self }
    {
        match self {
            Rooted::Sparse(sparse) => sparse.into_array(),
            Rooted::Parts(parts) => parts.into_array(),
            Rooted::Other(array) => array,
        }
    }

    // What an operation makes of the tree, by the kernels of its root.
    pub(crate) fn apply(&self, op: &RowOp, ctx: &mut ExecutionCtx) -> VortexResult<ArrayRef>
        ensures answer { Follows (applied (op_of op.now) (column_of (tree_in self.now))) (λ out column. column_of out ≡ column) result }
        ensures ctx { ctx.new ≡ ctx.old }
    {
        match self {
            Rooted::Sparse(sparse) => apply_sparse(sparse, op, ctx),
            Rooted::Parts(parts) => apply_parts(parts, op, ctx),
            Rooted::Other(array) => apply_decoded(array, op, ctx),
        }
    }

    // What a query answers of the tree, by the kernels of its root.
    pub(crate) fn ask(&self, query: &RowQuery, ctx: &mut ExecutionCtx) -> VortexResult<RowAnswer>
        ensures answer { Follows (answered (query_of query.now) (column_of (tree_in self.now))) (λ out answer. answer_of out ≡ answer) result }
        ensures ctx { ctx.new ≡ ctx.old }
    {
        match self {
            Rooted::Sparse(sparse) => ask_sparse(sparse, query, ctx),
            Rooted::Parts(parts) => ask_parts(parts, query, ctx),
            Rooted::Other(array) => ask_decoded(array, query, ctx),
        }
    }
}

// Whether the root has kernels of its own.
pub(crate) fn has_kernels(array: &ArrayRef) -> bool {
    match array.encoding_id() {
        ArrayId::Sparse | ArrayId::DateTimeParts => true,
        _ => false,
    }
}
