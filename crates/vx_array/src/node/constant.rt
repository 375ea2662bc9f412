//! One scalar in every row.

ghost use Rattle.std.specs.Prelude.{◌≡◌, ◌-◌};
ghost use Rattle.vx_array.specs.TreeOf.{tree_of};
ghost use Rattle.vx_base.specs.Answers.{OrMemory};
ghost use Rattle.vx_model.specs.Tree.{constant};

use crate::array::{ArrayRef, Node};
use std::alloc::Global;
use vx_base::{Scalar, VortexResult};

impl ArrayRef {
    /// `len` rows, each the scalar's value. No children; takes no memory, and refuses nothing.
    pub fn constant(value: Scalar, len: u64) -> ArrayRef
        ensures { result ≡ constant value len }
    {
        value.known();
        ArrayRef {
            node: Node::Constant(value, len),
            own_type: None,
            len,
        }
    }
}

// A copy of the node.
pub(crate) fn copied_constant(alloc: Global, value: &Scalar, len: u64) -> VortexResult<Node>
    ensures { OrMemory result (λ copy. tree_of copy ≡ constant value.now len) }
{
    Ok(Node::Constant(value.copy(alloc)?, len))
}
