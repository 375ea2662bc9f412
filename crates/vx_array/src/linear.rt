//! Rows that are all equal or an arithmetic sequence, found by the nodes alone. A few bytes can name 2^31 of them, so a
//! condition on such rows is answered by the first and the last, without a walk and without memory.

ghost use Rattle.std.specs.Prelude.{IsTrue};
ghost use Rattle.vx_array.specs.Linear.{IsLinear, IsUniform};
ghost use Rattle.vx_model.specs.Rows.{rows};

use crate::array::{ArrayRef, Node};

impl ArrayRef {
    // Where true, all rows are equal: those of a Constant, of a Sparse without patches, of integers packed at width 0, and of
    // nodes over such children.
    #[cycle(is_uniform)]
    pub(crate) fn is_uniform(&self) -> bool
        ensures { IsTrue result → IsUniform (rows self.now) }
    {
        match &self.node {
            Node::Constant(_, _) => true,
            Node::Sequence(_, _, _, step, _) => *step == 0,
            Node::BitPacked(_, width, _, _, valid, patches, _) => {
                (*width == 0) & valid.is_none() & patches.is_none()
            }
            Node::BitPackedV2(_, packed, _, _, valid, patches, _) => {
                (packed.len() == 0) & valid.is_none() & patches.is_none()
            }
            Node::FoR(encoded, _) => encoded.array.is_uniform(),
            Node::ZigZag(encoded) => encoded.array.is_uniform(),
            Node::Dict(codes, _) => codes.array.is_uniform(),
            Node::Sparse(patches, _) => patches.num_patches() == 0,
            Node::RunEnd(_, values) => values.array.is_uniform(),
            Node::Rle(_, indices, offsets, _) => {
                indices.array.is_uniform() && offsets.array.is_uniform()
            }
            Node::FoRV2(encoded, references) => {
                encoded.array.is_uniform() && references.array.is_uniform()
            }
            _ => false,
        }
    }

    // Where true, all rows are equal or an arithmetic sequence.
    pub(crate) fn is_linear(&self) -> bool
        ensures { IsTrue result → IsLinear (rows self.now) }
    {
        match &self.node {
            Node::Sequence(_, _, _, _, _) => true,
            _ => self.is_uniform(),
        }
    }
}
