//! Frame of reference: integers as differences from one reference.

ghost use Rattle.std.specs.Prelude.{◌≡◌};
ghost use Rattle.vx_array.specs.IsDecoded.{IsDecoded};
ghost use Rattle.vx_array.specs.TreeOf.{tree_of};
ghost use Rattle.vx_base.specs.Answers.{Makes, OrMemory};
ghost use Rattle.vx_base.specs.PlainType as types;
ghost use Rattle.vx_base.specs.PlainType.{is_integer};
ghost use Rattle.vx_base.specs.PlainValue.{is_null};
ghost use Rattle.vx_model.specs.Refusals.{for_refusal};
ghost use Rattle.vx_model.specs.Tree.{frame_of_reference};
ghost use Rattle.vx_model.specs.WellFormed.{WellFormed};

use crate::array::{ArrayRef, Child, Node};
use crate::node::Made;
use std::alloc::Global;
use vx_base::{DType, Refused, Scalar, VortexError, VortexResult};
use vx_flat::{decoded_moved, decoded_moved_words};
use vx_values::Decoded;

impl ArrayRef {
    /// `reference + encoded[row]` in each row, wrapping in the reference's type; null where `encoded` is. Child 0:
    /// `encoded`, as many rows. Refuses MismatchedTypes where the reference is null or no integer, or `encoded` isn't of
    /// the unsigned type of its width.
    #[tactic(auto, using(crate::proofs::Making::frame_array))]
    pub fn frame_of_reference(
        alloc: Global,
        encoded: ArrayRef,
        reference: Scalar,
    ) -> Made<(ArrayRef, Scalar)>
        ensures { Makes (for_refusal encoded reference) (frame_of_reference encoded reference) (encoded, reference) result }
    {
        if let Some(error) = refusal(&encoded, &reference) {
            return Err(Refused {
                error,
                inputs: (encoded, reference),
            });
        }
        let own_type = DType::primitive(reference.dtype().ptype(), encoded.dtype().nullability());
        let len = encoded.len();
        encoded.known();
        reference.known();
        match Box::new(alloc, encoded) {
            Ok(encoded) => Ok(ArrayRef {
                node: Node::FoR(Child { array: encoded }, reference),
                own_type: Some(own_type),
                len,
            }),
            Err(failed) => Err(Refused {
                error: VortexError::NoMemory,
                inputs: (failed.value, reference),
            }),
        }
    }

    // `decoded` of a frame of reference over this tree. Packed differences without patches are summed a block after another,
    // and no list of them is made.
    #[cycle(decoded)]
    pub(crate) fn decoded_framed(&self, alloc: Global, reference: &Scalar) -> VortexResult<Decoded>
        requires { WellFormed (frame_of_reference self.now reference.now) }
        ensures { OrMemory result (λ rows. IsDecoded (frame_of_reference self.now reference.now) rows) }
    {
        match &self.node {
            Node::BitPacked(_, width, packed, len, valid, patches, _) if patches.is_none() => {
                decoded_moved_words(alloc, *width, packed, *len, valid, reference)
            }
            _ => {
                let (differences, valid) = self.integers(alloc)?;
                decoded_moved(alloc, differences.as_ints(), valid, reference)
            }
        }
    }
}

// The refusal of these inputs, if there is one.
fn refusal(encoded: &ArrayRef, reference: &Scalar) -> Option<VortexError>
    ensures { result ≡ for_refusal encoded.now reference.now }
{
    if !reference.dtype().is_integer() || reference.is_null() {
        return Some(VortexError::MismatchedTypes);
    }
    let unsigned = reference.dtype().ptype().to_unsigned();
    let differences = DType::primitive(unsigned, encoded.dtype().nullability());
    if *encoded.dtype() == differences {
        None
    } else {
        Some(VortexError::MismatchedTypes)
    }
}

// A copy of the node, over the caller's copy of the differences.
pub(crate) fn copied_frame(
    alloc: Global,
    encoded: ArrayRef,
    reference: &Scalar,
) -> VortexResult<Node>
    ensures { OrMemory result (λ copy. tree_of copy ≡ frame_of_reference encoded reference.now) }
{
    let encoded = Box::new(alloc, encoded)?;
    Ok(Node::FoR(Child { array: encoded }, reference.copy(alloc)?))
}
