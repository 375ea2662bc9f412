//! Nulls alone.

ghost use Rattle.std.specs.Prelude.{◌≡◌};
ghost use Rattle.vx_model.specs.Tree.{nulls};

use crate::array::{ArrayRef, Node};
use vx_base::DType;

impl ArrayRef {
    /// `len` nulls, of the type of nulls alone. No children; takes no memory.
    #[tactic(auto, using(crate::proofs::Making::nulls_array))]
    pub fn null(len: u64) -> ArrayRef
        ensures { result ≡ nulls len }
    {
        ArrayRef {
            node: Node::Null(len),
            own_type: Some(DType::null()),
            len,
        }
    }
}
