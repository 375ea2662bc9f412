//! Deep copies of trees.

ghost use Rattle.std.specs.Prelude.{◌≡◌, option_map};
ghost use Rattle.vx_base.specs.Answers.{Answers, OrMemory};
ghost use Rattle.vx_base.specs.TypeOf.{type_of};

use crate::array::{ArrayRef, Node, Patches};
use crate::node::{
    copied_blocks, copied_bool, copied_constant, copied_delta, copied_dict, copied_fixed,
    copied_frame, copied_frames, copied_list, copied_masked, copied_packed, copied_parts,
    copied_primitive, copied_rle, copied_runs, copied_sparse, copied_struct, copied_timestamp,
    copied_var_bin, copied_view, copied_zig_zag, without_chunks,
};
use std::alloc::Global;
use vx_base::{DType, VortexResult};

impl ArrayRef {
    /// A deep copy.
    #[cycle(copy)]
    pub fn copy(&self, alloc: Global) -> VortexResult<ArrayRef>
        ensures { Answers result self.now }
    {
        let own_type = copy_type(&self.own_type, alloc)?;
        let node = self.node.copy(alloc)?.without_chunks();
        Ok(ArrayRef {
            node,
            own_type,
            len: self.len,
        })
    }
}

impl Node {
    ghost use Rattle.vx_array.specs.HasNoChunks.{HasNoChunks};
    ghost use Rattle.vx_array.specs.TreeOf.{tree_of};

    // The node, with no chunk offsets of the patches of packed integers. A copy of a node in a tree has none either: said
    // here once, and not at the copy of each node.
    fn without_chunks(self) -> Node
        ensures tree { tree_of result ≡ tree_of self }
        ensures none { HasNoChunks result }
    {
        match self {
            Node::BitPacked(ptype, width, packed, len, valid, patches, nulls) => {
                let patches = without_chunks(patches);
                Node::BitPacked(ptype, width, packed, len, valid, patches, nulls)
            }
            Node::BitPackedV2(ptype, packed, offsets, len, valid, patches, nulls) => {
                let patches = without_chunks(patches);
                Node::BitPackedV2(ptype, packed, offsets, len, valid, patches, nulls)
            }
            node => node,
        }
    }

    #[cycle(copy)]
    fn copy(&self, alloc: Global) -> VortexResult<Node>
        ensures { OrMemory result (λ copy. tree_of copy ≡ tree_of self.now) }
    {
        match self {
            Node::Bool(values, valid, nulls) => copied_bool(alloc, values, valid, *nulls),
            Node::Primitive(values, valid, nulls) => copied_primitive(alloc, values, valid, *nulls),
            Node::VarBinView(values, valid, dtype) => copied_view(alloc, values, valid, dtype),
            Node::VarBin(offsets, bytes, valid, dtype) => {
                copied_var_bin(alloc, offsets.array.copy(alloc)?, bytes, valid, dtype)
            }
            Node::Timestamp(storage, kind) => copied_timestamp(
                alloc,
                storage.array.copy(alloc)?,
                kind,
            ),
            Node::Constant(value, len) => copied_constant(alloc, value, *len),
            Node::Masked(child, valid) => copied_masked(alloc, child.array.copy(alloc)?, valid),
            Node::BitPacked(ptype, width, packed, len, valid, patches, nulls) => {
                copied_packed(alloc, *ptype, *width, packed, *len, valid, patches, *nulls)
            }
            Node::FoR(encoded, reference) => copied_frame(
                alloc,
                encoded.array.copy(alloc)?,
                reference,
            ),
            Node::ZigZag(encoded) => copied_zig_zag(alloc, encoded.array.copy(alloc)?),
            Node::Dict(codes, values) => copied_dict(
                alloc,
                &codes.array,
                values.array.copy(alloc)?,
            ),
            Node::Null(len) => Ok(Node::Null(*len)),
            Node::Struct(names, fields, len, valid, nulls) => {
                copied_struct(alloc, names, fields.copy(alloc)?, *len, valid, *nulls)
            }
            Node::List(elements, offsets, valid, nulls) => {
                copied_list(
                    alloc,
                    &elements.array,
                    offsets.array.copy(alloc)?,
                    valid,
                    *nulls,
                )
            }
            Node::FixedSizeList(elements, size, len, valid, nulls) => {
                copied_fixed(
                    alloc,
                    elements.array.copy(alloc)?,
                    *size,
                    *len,
                    valid,
                    *nulls,
                )
            }
            Node::Sparse(patches, fill) => copied_sparse(alloc, patches, fill),
            Node::RunEnd(ends, values) => copied_runs(
                alloc,
                &ends.array,
                values.array.copy(alloc)?,
            ),
            Node::Rle(values, indices, offsets, len) => {
                let indices = indices.array.copy(alloc)?;
                copied_rle(
                    alloc,
                    &values.array,
                    indices,
                    offsets.array.copy(alloc)?,
                    *len,
                )
            }
            Node::Sequence(ptype, nulls, first, step, len) => {
                Ok(Node::Sequence(*ptype, *nulls, *first, *step, *len))
            }
            Node::Delta(bases, deltas, len, valid, nulls) => {
                copied_delta(
                    alloc,
                    &bases.array,
                    deltas.array.copy(alloc)?,
                    *len,
                    valid,
                    *nulls,
                )
            }
            Node::BitPackedV2(ptype, packed, offsets, len, valid, patches, nulls) => {
                let offsets = offsets.array.copy(alloc)?;
                copied_blocks(alloc, *ptype, packed, *len, valid, patches, *nulls, offsets)
            }
            Node::DateTimeParts(kind, nulls, days, seconds, subseconds) => {
                let seconds = seconds.array.copy(alloc)?;
                copied_parts(
                    alloc,
                    kind,
                    *nulls,
                    &days.array,
                    seconds,
                    subseconds.array.copy(alloc)?,
                )
            }
            Node::FoRV2(encoded, references) => {
                copied_frames(alloc, &encoded.array, references.array.copy(alloc)?)
            }
        }
    }
}

impl Patches {
    // A deep copy.
    #[cycle(copy)]
    pub(crate) fn copy(&self, alloc: Global) -> VortexResult<Patches>
        ensures { Answers result self.now }
    {
        let indices = self.indices.copy(alloc)?;
        let values = self.values.copy(alloc)?;
        let chunks = copied_chunks(alloc, &self.chunks)?;
        Ok(Patches {
            array_len: self.array_len,
            offset: self.offset,
            indices,
            values,
            chunks,
        })
    }
}

// A deep copy of chunk offsets, if there are any.
#[cycle(copy)]
fn copied_chunks(alloc: Global, chunks: &Option<ArrayRef>) -> VortexResult<Option<ArrayRef>>
    ensures { Answers result chunks.now }
{
    match chunks {
        Some(chunks) => Ok(Some(chunks.copy(alloc)?)),
        None => Ok(None),
    }
}

fn copy_type(dtype: &Option<DType>, alloc: Global) -> VortexResult<Option<DType>>
    ensures { OrMemory result (λ copy. option_map type_of copy ≡ option_map type_of dtype.now) }
{
    match dtype {
        Some(dtype) => Ok(Some(dtype.copy(alloc)?)),
        None => Ok(None),
    }
}
