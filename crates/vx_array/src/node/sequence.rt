//! Arithmetic sequences of integers.

ghost use Rattle.std.specs.Prelude.{◌≡◌, ◌<◌, ◌-◌, ◌||◌};
ghost use Rattle.vx_base.specs.Answers.{SurelyDecided};
ghost use Rattle.vx_model.specs.Refusals.{sequence_refusal};
ghost use Rattle.vx_model.specs.Tree.{sequence};

use crate::array::{ArrayRef, Node};
use vx_base::{DType, Nullability, PType, VortexError, VortexResult};
use vx_flat::{are_held, is_held};

impl ArrayRef {
    /// `first + row * step` in each of `len` rows, never null. No children; takes no memory. Refuses OutOfBounds where the
    /// step doesn't lie in the type, or, where there are rows, the first or the last row doesn't.
    #[tactic(auto, using(crate::proofs::Blocks::sequence_array))]
    pub fn sequence(
        ptype: PType,
        nullability: Nullability,
        first: i128,
        step: i128,
        len: u64,
    ) -> VortexResult<ArrayRef>
        ensures { SurelyDecided (sequence_refusal ptype first step len) (λ tree. tree ≡ sequence ptype nullability first step len) result }
    {
        if !is_held(ptype, step) || !are_held(ptype, first, step, len) {
            return Err(VortexError::OutOfBounds);
        }
        Ok(ArrayRef {
            node: Node::Sequence(ptype, nullability, first, step, len),
            own_type: Some(DType::primitive(ptype, nullability)),
            len,
        })
    }
}
