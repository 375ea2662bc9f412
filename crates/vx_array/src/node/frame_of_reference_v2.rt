//! Frames of reference by blocks: integers, each less the reference of its block of 1,024 rows.

ghost use Rattle.std.specs.Prelude.{◌≡◌, IsTrue};
ghost use Rattle.vx_array.specs.TreeOf.{tree_of};
ghost use Rattle.vx_base.specs.Answers.{Makes, OrMemory};
ghost use Rattle.vx_base.specs.PlainType.{is_integer, same_type};
ghost use Rattle.vx_base.specs.TypeOf.{type_of};
ghost use Rattle.vx_model.specs.Refusals.{for_v2_refusal};
ghost use Rattle.vx_model.specs.Tree.{frame_of_reference_v2};
ghost use Rattle.vx_model.specs.WellFormed.{differences_type};

use super::offsets::are_integers;
use super::rle::block_count;
use crate::array::{ArrayRef, Child, Node};
use crate::node::{Made, boxed};
use std::alloc::Global;
use vx_base::{DType, Refused, VortexError, VortexResult};

impl ArrayRef {
    /// `references[row / 1024] + encoded[row]` in each row, wrapping in the references' type; null where `encoded` is.
    /// Child 0: `encoded`, as many rows; child 1: `references`, one for each block of 1,024 rows.
    ///
    /// Refuses MismatchedTypes where the references aren't non-nullable integers, or `encoded` isn't of the unsigned type
    /// of their width; then LengthMismatch where the references are too many or too few.
    #[tactic(auto, using(crate::proofs::Frames::frames_array))]
    pub fn frame_of_reference_v2(
        alloc: Global,
        encoded: ArrayRef,
        references: ArrayRef,
    ) -> Made<(ArrayRef, ArrayRef)>
        ensures { Makes (for_v2_refusal encoded references) (frame_of_reference_v2 encoded references) (encoded, references) result }
    {
        if let Some(error) = refusal(&encoded, &references) {
            return Err(Refused {
                error,
                inputs: (encoded, references),
            });
        }
        let own_type = DType::primitive(references.dtype().ptype(), encoded.dtype().nullability());
        let len = encoded.len();
        encoded.known();
        references.known();
        match boxed(alloc, encoded, references) {
            Ok((encoded, references)) => Ok(ArrayRef {
                node: Node::FoRV2(Child { array: encoded }, Child { array: references }),
                own_type: Some(own_type),
                len,
            }),
            Err(inputs) => Err(Refused {
                error: VortexError::NoMemory,
                inputs,
            }),
        }
    }
}

// The refusal of these inputs, if there is one.
#[tactic(auto, using(crate::proofs::PartArrays::part_types))]
fn refusal(encoded: &ArrayRef, references: &ArrayRef) -> Option<VortexError>
    ensures { result ≡ for_v2_refusal encoded.now references.now }
{
    if !are_integers(references.dtype()) || !are_differences(encoded.dtype(), references.dtype()) {
        return Some(VortexError::MismatchedTypes);
    }
    if references.len() != block_count(encoded.len()) {
        return Some(VortexError::LengthMismatch);
    }
    None
}

// Whether the type is the unsigned one of the references' width, nullable or not.
fn are_differences(encoded: &DType, references: &DType) -> bool
    requires { IsTrue (is_integer (type_of references.now)) }
    ensures { result ≡ same_type (type_of encoded.now) (differences_type (type_of references.now) (type_of encoded.now)) }
{
    *encoded == DType::primitive(references.ptype().to_unsigned(), encoded.nullability())
}

// A deep copy of the node, over the caller's copy of the references.
#[cycle(copy)]
pub(crate) fn copied_frames(
    alloc: Global,
    encoded: &ArrayRef,
    references: ArrayRef,
) -> VortexResult<Node>
    ensures { OrMemory result (λ copy. tree_of copy ≡ frame_of_reference_v2 encoded.now references) }
{
    let encoded = Box::new(alloc, encoded.copy(alloc)?)?;
    let references = Box::new(alloc, references)?;
    Ok(Node::FoRV2(Child { array: encoded }, Child { array: references }))
}
