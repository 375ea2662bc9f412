//! The bytes of a tree, and whether its extents fit the row limit.

ghost use Rattle.std.specs.Prelude.{◌≡◌, ◌-◌, ◌+◌, ◌^◌, min, nat_le};
ghost use Rattle.std.specs.List.{list_all};
ghost use Rattle.vx_model.specs.Extents.{all_extents, extents_fit, row_limit};
ghost use Rattle.vx_model.specs.Size.{chunks_size, nbytes, size, sizes};
ghost use Rattle.vx_model.specs.Tree.{of_list};

use crate::array::{ArrayRef, Node, Patches};
use crate::arrays::Arrays;
use crate::node::{blocks_bytes, packed_bytes, sparse_bytes, var_bin_extents_fit};
use vx_flat::{
    bool_bytes, constant_bytes, constant_extents_fit, is_few, masked_bytes, primitive_bytes,
    var_bin_bytes, view_bytes, with_validity,
};

impl ArrayRef {
    /// The size of the tree in bytes. Saturates at 2^128 - 1.
    #[cycle(nbytes)]
    #[tactic(auto, using(crate::proofs::SparseOf::roots))]
    pub fn nbytes(&self) -> u128
        ensures { result ≡ nbytes self.now }
    {
        match &self.node {
            Node::Bool(values, valid, _) => bool_bytes(values, valid),
            Node::Primitive(values, valid, _) => primitive_bytes(values, valid),
            Node::VarBinView(values, valid, _) => view_bytes(values, valid),
            Node::VarBin(offsets, bytes, valid, _) => var_bin_bytes(
                offsets.array.nbytes(),
                bytes,
                valid,
            ),
            Node::Timestamp(storage, _) => storage.array.nbytes(),
            Node::Constant(value, _) => constant_bytes(value),
            Node::Masked(child, valid) => masked_bytes(child.array.nbytes(), valid),
            Node::BitPacked(_, width, _, len, valid, patches, _) => {
                packed_bytes(*width, *len, valid, patches)
            }
            Node::FoR(encoded, _) | Node::ZigZag(encoded) => encoded.array.nbytes(),
            Node::Dict(codes, values) => codes.array.nbytes().saturating_add(values.array.nbytes()),
            Node::Null(_) => 0,
            Node::Struct(_, fields, _, valid, _) => with_validity(fields.nbytes(), valid),
            Node::List(elements, offsets, valid, _) => {
                let inside = elements
                    .array
                    .nbytes()
                    .saturating_add(offsets.array.nbytes());
                with_validity(inside, valid)
            }
            Node::FixedSizeList(elements, _, _, valid, _) => {
                with_validity(elements.array.nbytes(), valid)
            }
            Node::Sparse(patches, fill) => sparse_bytes(patches, fill),
            Node::RunEnd(ends, values) => ends.array.nbytes().saturating_add(values.array.nbytes()),
            Node::Rle(values, indices, offsets, _) => {
                let places = indices
                    .array
                    .nbytes()
                    .saturating_add(offsets.array.nbytes());
                values.array.nbytes().saturating_add(places)
            }
            Node::Sequence(_, _, _, _, _) => 0,
            Node::Delta(bases, deltas, _, valid, _) => {
                with_validity(
                    bases.array.nbytes().saturating_add(deltas.array.nbytes()),
                    valid,
                )
            }
            Node::BitPackedV2(_, packed, offsets, _, valid, patches, _) => {
                blocks_bytes(packed, offsets.array.nbytes(), valid, patches)
            }
            Node::DateTimeParts(_, _, days, seconds, subseconds) => {
                let times = days.array.nbytes().saturating_add(seconds.array.nbytes());
                times.saturating_add(subseconds.array.nbytes())
            }
            Node::FoRV2(encoded, references) => {
                encoded
                    .array
                    .nbytes()
                    .saturating_add(references.array.nbytes())
            }
        }
    }

    /// Whether each extent of the tree, its own rows and those of each nested column, is at most 2^31. Extents are counted
    /// without decoding, so a constant's value counts once a row.
    #[cycle(extents_fit)]
    #[tactic(auto, using(vx_model::proofs::TreesLemmas::lists, vx_model::proofs::TreesLemmas::falls))]
    pub fn extents_fit(&self) -> bool
        ensures { result ≡ extents_fit self.now }
    {
        match &self.node {
            Node::Bool(values, _, _) => is_few(values.len()),
            Node::Primitive(values, _, _) => is_few(values.len()),
            Node::VarBinView(values, _, _) => is_few(values.len()),
            Node::VarBin(offsets, _, _, _) => var_bin_extents_fit(&offsets.array),
            Node::Timestamp(storage, _) => storage.array.extents_fit(),
            Node::Constant(value, len) => constant_extents_fit(value, *len),
            Node::Masked(child, _) => child.array.extents_fit(),
            Node::BitPacked(_, _, _, len, _, _, _) => is_few(*len),
            Node::FoR(encoded, _) | Node::ZigZag(encoded) => encoded.array.extents_fit(),
            Node::Dict(codes, _) => codes.array.extents_fit(),
            Node::Null(len) => is_few(*len),
            Node::Struct(_, fields, len, _, _) => is_few(*len) && fields.extents_fit(),
            Node::List(elements, offsets, _, _) => {
                var_bin_extents_fit(&offsets.array) && elements.array.extents_fit()
            }
            Node::FixedSizeList(elements, _, len, _, _) => is_few(*len)
                && elements.array.extents_fit(),
            Node::Sparse(_, _) => self.columns_fit(),
            Node::RunEnd(_, _) => is_few(self.len),
            Node::Rle(_, _, _, len) | Node::Sequence(_, _, _, _, len) => is_few(*len),
            Node::Delta(_, _, len, _, _) => is_few(*len),
            Node::BitPackedV2(_, _, _, len, _, _, _) => is_few(*len),
            Node::DateTimeParts(_, _, days, _, _) => days.array.extents_fit(),
            Node::FoRV2(encoded, _) => encoded.array.extents_fit(),
        }
    }
}

impl Arrays {
    // The bytes of the trees together. Saturates at 2^128 - 1.
    #[cycle(nbytes)]
    #[tactic(auto, using(vx_model::proofs::TreesLemmas::lists, vx_model::proofs::TreesLemmas::falls))]
    pub(crate) fn nbytes(&self) -> u128
        ensures { result ≡ min (sizes (of_list self.now)) (2 ^ 128 - 1) }
    {
        let mut sum: u128 = 0;
        for tree in self.as_slice() {
            sum = sum.saturating_add(tree.nbytes());
        }
        sum
    }

    // Whether each extent of each tree is at most 2^31.
    #[cycle(extents_fit)]
    #[tactic(auto, using(vx_model::proofs::TreesLemmas::lists, vx_model::proofs::TreesLemmas::falls))]
    fn extents_fit(&self) -> bool
        ensures { result ≡ list_all (λ extent. nat_le extent row_limit) (all_extents (of_list self.now)) }
    {
        for tree in self.as_slice() {
            if !tree.extents_fit() {
                return false;
            }
        }
        true
    }
}

impl Patches {
    // The bytes of the indices and the values, without those of chunk offsets. Saturates at 2^128 - 1.
    #[cycle(nbytes)]
    pub(crate) fn nbytes(&self) -> u128
        ensures { result ≡ min (size self.now.indices + size self.now.values) (2 ^ 128 - 1) }
    {
        let indices = self.indices.nbytes();
        indices.saturating_add(self.values.nbytes())
    }

    // The bytes of the chunk offsets, if there are any. Saturates at 2^128 - 1.
    #[cycle(nbytes)]
    pub(crate) fn chunks_bytes(&self) -> u128
        ensures { result ≡ min (chunks_size self.now.chunks) (2 ^ 128 - 1) }
    {
        match &self.chunks {
            Some(chunks) => chunks.nbytes(),
            None => 0,
        }
    }
}
