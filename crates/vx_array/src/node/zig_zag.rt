//! Integers as their zigzag.

ghost use Rattle.std.specs.Prelude.{◌≡◌};
ghost use Rattle.vx_array.specs.IsDecoded.{IsDecoded};
ghost use Rattle.vx_array.specs.TreeOf.{tree_of};
ghost use Rattle.vx_base.specs.Answers.{Makes, OrMemory};
ghost use Rattle.vx_base.specs.PlainType as types;
ghost use Rattle.vx_model.specs.Refusals.{zig_zag_refusal};
ghost use Rattle.vx_model.specs.Tree.{zig_zag};
ghost use Rattle.vx_model.specs.WellFormed.{WellFormed};

use crate::array::{ArrayRef, Child, Node};
use crate::node::Made;
use std::alloc::Global;
use vx_base::{DType, Refused, VortexError, VortexResult};
use vx_flat::{decoded_zig_zag, decoded_zig_zag_words};
use vx_values::Decoded;

impl ArrayRef {
    /// The integers whose zigzags `encoded` holds, in the signed type of its width; null where `encoded` is. Child 0:
    /// `encoded`, as many rows. Refuses MismatchedTypes where `encoded` isn't of an unsigned type.
    #[tactic(auto, using(crate::proofs::Making::zig_zag_array))]
    pub fn zig_zag(alloc: Global, encoded: ArrayRef) -> Made<ArrayRef>
        ensures { Makes (zig_zag_refusal encoded) (zig_zag encoded) encoded result }
    {
        if !encoded.dtype().is_unsigned() {
            return Err(Refused {
                error: VortexError::MismatchedTypes,
                inputs: encoded,
            });
        }
        let signed = encoded.dtype().ptype().to_signed();
        let own_type = DType::primitive(signed, encoded.dtype().nullability());
        let len = encoded.len();
        encoded.known();
        match Box::new(alloc, encoded) {
            Ok(encoded) => Ok(ArrayRef {
                node: Node::ZigZag(Child { array: encoded }),
                own_type: Some(own_type),
                len,
            }),
            Err(failed) => Err(Refused {
                error: VortexError::NoMemory,
                inputs: failed.value,
            }),
        }
    }

    // `decoded` of a zigzag over this tree. Packed zigzags without patches are decoded a block after another, and no list of
    // them is made.
    #[cycle(decoded)]
    pub(crate) fn decoded_zigzags(&self, alloc: Global) -> VortexResult<Decoded>
        requires { WellFormed (zig_zag self.now) }
        ensures { OrMemory result (λ rows. IsDecoded (zig_zag self.now) rows) }
    {
        match &self.node {
            Node::BitPacked(ptype, width, packed, len, valid, patches, _) if patches.is_none() => {
                decoded_zig_zag_words(alloc, *ptype, *width, packed, *len, valid)
            }
            _ => {
                let (zigzags, valid) = self.decoded(alloc)?.into_integers();
                decoded_zig_zag(alloc, zigzags, valid)
            }
        }
    }
}

// A copy of the node, over the caller's copy of the zigzags.
pub(crate) fn copied_zig_zag(alloc: Global, encoded: ArrayRef) -> VortexResult<Node>
    ensures { OrMemory result (λ copy. tree_of copy ≡ zig_zag encoded) }
{
    Ok(Node::ZigZag(Child {
        array: Box::new(alloc, encoded)?,
    }))
}
