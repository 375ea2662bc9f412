//! A tree of encodings, and the node at its root.

ghost use Rattle.std.specs.Prelude.{◌≡◌, length, slice_get, option_copied};
ghost use Rattle.vx_model.specs.Rows.{rows};

use crate::arrays::Arrays;
use std::marker::Model;
use vx_base::{
    ArrayId, ByteRows, Bytes, DType, Mask, Names, Nullability, PType, Scalar, TimestampType,
};
use vx_values::Ints;

/// The node at the root of a tree. Children stand inside, numbered from 0.
#[cycle(tree)]
#[derive(Drop)]
pub enum Node {
    /// Truth values, their validity and nullability. No children.
    Bool(Mask, Option<Mask>, Nullability),
    /// Integers, their validity and nullability. No children.
    Primitive(Ints, Option<Mask>, Nullability),
    /// Texts or binaries, their validity and type. No children.
    VarBinView(ByteRows, Option<Mask>, DType),
    /// Texts or binaries, in each row the bytes from child 0's offset to its next one; their validity and type.
    VarBin(Child, Bytes, Option<Mask>, DType),
    /// Timestamps of a kind, over child 0's `i64` storage.
    Timestamp(Child, TimestampType),
    /// One scalar in every row, and the number of rows. No children.
    Constant(Scalar, u64),
    /// Child 0's rows, null where the mask is false.
    Masked(Child, Mask),
    /// Bit-packed integers: type, bit width, packed bytes, number of rows, validity, patches and nullability. Children 0
    /// and 1 are the patches' indices and values, where there are patches.
    BitPacked(PType, u32, Bytes, u64, Option<Mask>, Option<Box<Patches>>, Nullability),
    /// Child 0's integers, each plus the reference, wrapping in the reference's type.
    FoR(Child, Scalar),
    /// The integers whose zigzags child 0 holds.
    ZigZag(Child),
    /// Dictionary encoding: child 0 has a code for each row, the index of the row's value in child 1.
    Dict(Child, Child),
    /// Nulls alone, and how many. No children.
    Null(u64),
    /// Structs: the fields' names, the fields, the number of rows, validity and nullability. A child for each field, of as
    /// many rows.
    Struct(Names, Arrays, u64, Option<Mask>, Nullability),
    /// Lists, in each row child 0's rows from child 1's offset to its next one; their validity and nullability.
    List(Child, Child, Option<Mask>, Nullability),
    /// Fixed-size lists of child 0's rows: the size of each list, the number of lists, validity and nullability.
    FixedSizeList(Child, u32, u64, Option<Mask>, Nullability),
    /// The patches' values in their rows and the scalar in every other one. Children 0 and 1 are the patches' indices and
    /// values, child 2 their chunk offsets, where there are any.
    Sparse(Box<Patches>, Scalar),
    /// Runs of equal integers: child 0 has the exclusive end of each run, child 1 its value.
    RunEnd(Child, Child),
    /// Runs in blocks of 1,024 rows, and the number of rows. A row's value is child 0's at index
    /// `child 2 [row / 1024] + child 1 [row]`.
    Rle(Child, Child, Child, u64),
    /// An arithmetic sequence of integers: type, nullability, first row, step and number of rows. No children.
    Sequence(PType, Nullability, i128, i128, u64),
    /// Delta-encoded integers: row r of a block of 1,024 rows is child 0's base of the block plus child 1's differences 0 to
    /// r of the block. Then the number of rows, validity and nullability.
    Delta(Child, Child, u64, Option<Mask>, Nullability),
    /// Integers bit-packed in blocks of 1,024 rows, each at a width of its own: type, packed bytes, child 0's block offsets
    /// in units of 128 bytes, number of rows, validity, patches and nullability. Children 1 and 2 are the patches' indices
    /// and values, where there are patches.
    BitPackedV2(PType, Bytes, Child, u64, Option<Mask>, Option<Box<Patches>>, Nullability),
    /// Timestamps of a kind and nullability in parts: child 0's days, child 1's seconds and child 2's subseconds.
    DateTimeParts(TimestampType, Nullability, Child, Child, Child),
    /// Child 0's integers, each plus child 1's reference of its block of 1,024 rows, wrapping in the references' type.
    FoRV2(Child, Child),
}

/// A child tree, in a box. A type of its own, so that a proof over trees goes through the box once and not at each child of
/// each node.
#[cycle(tree)]
#[derive(Drop)]
pub struct Child {
    /// The child.
    pub array: Box<ArrayRef>,
}

/// Values that replace an array's own in some rows: the patch with index `i` replaces row `i - offset`. Chunk offsets, if there
/// are any, count the indices before each chunk of 1,024 indices. Contracts see all of them as plain data.
#[cycle(tree)]
pub struct Patches {
    pub(crate) array_len: u64,
    pub(crate) offset: u64,
    pub(crate) indices: ArrayRef,
    pub(crate) values: ArrayRef,
    pub(crate) chunks: Option<ArrayRef>,
}

/// A well-formed tree of encodings. Contracts see it as plain data.
#[cycle(tree)]
pub struct ArrayRef {
    pub(crate) node: Node,
    // The type, None where the root holds it already: Constant, VarBinView, VarBin and Sparse.
    pub(crate) own_type: Option<DType>,
    pub(crate) len: u64,
}

impl Model for ArrayRef {
    ghost use Rattle.std.specs.Prelude.{option_map};
    ghost use Rattle.vx_model.specs.Tree.{Tree, node_count};
    ghost use Rattle.vx_model.specs.TreeCode.{tree_code};

    ghost Value = { Tree };

    ghost coded = { tree_code };

    ghost use Rattle.vx_base.specs.TypeOf.{type_of};
    ghost use Rattle.vx_array.specs.TreeOf.{tree_of};
    ghost use Rattle.vx_array.specs.HasNoChunks.{HasNoChunks};
    ghost use Rattle.vx_array.specs.IsArray.{IsArray};

    ghost view = { λ a. tree_of a.node };

    ghost invariant = { λ a. IsArray (tree_of a.node) (option_map type_of a.own_type) a.len × HasNoChunks a.node };

    ghost size = { node_count };

    ghost use Rattle.vx_array.specs.TreeFalls.{depth_le-node_count};

    ghost size_decreases = { λ a h. depth_le-node_count a.node h.1 };
}

// By hand, so that dropping a tree is one call to prove. Derived, it would be written out at each exit of each function that
// owns one.
impl Drop for ArrayRef {
    #[cycle(letting_go)]
    fn drop(self) {
        let ArrayRef {
            node: _,
            own_type: _,
            len: _,
        } = self;
    }
}

// By hand for the same reason.
impl Drop for Patches {
    #[cycle(letting_go)]
    fn drop(self) {
        let Patches {
            array_len: _,
            offset: _,
            indices: _,
            values: _,
            chunks: _,
        } = self;
    }
}

impl Model for Patches {
    ghost use Rattle.vx_model.specs.Tree.{PlainPatches, chunked, patches_count};
    ghost use Rattle.vx_model.specs.TreeCode.{patches_code};

    ghost Value = { PlainPatches };

    ghost coded = { patches_code };

    ghost use Rattle.vx_model.specs.WellFormed.{WellFormedPatches};

    ghost view = { λ a. chunked a.array_len a.offset a.indices a.values a.chunks };

    ghost invariant = { λ a. WellFormedPatches (chunked a.array_len a.offset a.indices a.values a.chunks) };

    ghost size = { patches_count };

    ghost use Rattle.std.proofs.Common.{arith};
    ghost use Rattle.vx_array.specs.TreeFalls.{chunks-depth};

    ghost size_decreases = { λ a h. omega (arith, chunks-depth a.array_len a.offset a.indices a.values a.chunks) };
}

impl ArrayRef {
    ghost use Rattle.vx_base.specs.TypeOf.{type_of};
    ghost use Rattle.vx_model.specs.Nodes.{encoding, children};
    ghost use Rattle.vx_model.specs.TreeType.{tree_type};
    ghost use Rattle.vx_model.specs.WellFormed.{WellFormed};
    ghost use Rattle.vx_array.specs.TreeOf.{tree_of};

    /// The root, borrowed.
    pub fn node(&self) -> &Node
        ensures tree { tree_of result.now ≡ self.now }
        ensures well_formed { WellFormed self.now }
    {
        &self.node
    }

    /// The root, moved out.
    pub fn into_node(self) -> Node
        ensures tree { tree_of result ≡ self }
        ensures well_formed { WellFormed self }
    {
        let ArrayRef {
            node,
            own_type: _,
            len: _,
        } = self;
        node
    }

    /// Tells a proof that the tree is well formed.
    pub fn known(&self)
        ensures { WellFormed self.now }
    {
        let _node = &self.node;
    }

    /// The number of rows.
    pub fn len(&self) -> u64
        ensures { result ≡ length (rows self.now) }
    {
        self.len
    }

    /// The type.
    pub fn dtype(&self) -> &DType
        ensures { type_of result.now ≡ tree_type self.now }
    {
        match &self.own_type {
            Some(dtype) => dtype,
            None => match &self.node {
                Node::Constant(value, _) => value.dtype(),
                Node::VarBinView(_, _, dtype) => dtype,
                Node::VarBin(_, _, _, dtype) => dtype,
                Node::Sparse(_, fill) => fill.dtype(),
                _ => unreachable!(),
            },
        }
    }

    /// The root's encoding.
    #[tactic(auto, using(crate::proofs::SparseOf::roots))]
    pub fn encoding_id(&self) -> ArrayId
        ensures { result ≡ encoding self.now }
    {
        match &self.node {
            Node::Bool(_, _, _) => ArrayId::Bool,
            Node::Primitive(_, _, _) => ArrayId::Primitive,
            Node::VarBinView(_, _, _) => ArrayId::VarBinView,
            Node::VarBin(_, _, _, _) => ArrayId::VarBin,
            Node::Timestamp(_, _) => ArrayId::Timestamp,
            Node::Constant(_, _) => ArrayId::Constant,
            Node::Masked(_, _) => ArrayId::Masked,
            Node::BitPacked(_, _, _, _, _, _, _) => ArrayId::BitPacked,
            Node::FoR(_, _) => ArrayId::FoR,
            Node::ZigZag(_) => ArrayId::ZigZag,
            Node::Dict(_, _) => ArrayId::Dict,
            Node::Null(_) => ArrayId::Null,
            Node::Struct(_, _, _, _, _) => ArrayId::Struct,
            Node::List(_, _, _, _) => ArrayId::List,
            Node::FixedSizeList(_, _, _, _, _) => ArrayId::FixedSizeList,
            Node::Sparse(_, _) => ArrayId::Sparse,
            Node::RunEnd(_, _) => ArrayId::RunEnd,
            Node::Rle(_, _, _, _) => ArrayId::Rle,
            Node::Sequence(_, _, _, _, _) => ArrayId::Sequence,
            Node::Delta(_, _, _, _, _) => ArrayId::Delta,
            Node::BitPackedV2(_, _, _, _, _, _, _) => ArrayId::BitPackedV2,
            Node::DateTimeParts(_, _, _, _, _) => ArrayId::DateTimeParts,
            Node::FoRV2(_, _) => ArrayId::FoRV2,
        }
    }

    /// The number of children.
    #[tactic(auto, using(vx_model::proofs::TreesLemmas::trees))]
    pub fn num_children(&self) -> usize
        ensures { result ≡ length (children self.now) }
    {
        match &self.node {
            Node::Bool(_, _, _) | Node::Primitive(_, _, _) | Node::VarBinView(_, _, _) => 0,
            Node::Constant(_, _) | Node::Null(_) => 0,
            Node::VarBin(_, _, _, _) | Node::Timestamp(_, _) | Node::Masked(_, _) => 1,
            Node::FoR(_, _) | Node::ZigZag(_) => 1,
            Node::BitPacked(_, _, _, _, _, Some(_), _) | Node::Dict(_, _) => 2,
            Node::BitPacked(_, _, _, _, _, None, _) => 0,
            Node::Struct(_, fields, _, _, _) => fields.len() as usize,
            Node::List(_, _, _, _) => 2,
            Node::FixedSizeList(_, _, _, _, _) => 1,
            Node::Sparse(patches, _) => patches.num_children(),
            Node::RunEnd(_, _) | Node::Delta(_, _, _, _, _) | Node::FoRV2(_, _) => 2,
            Node::Rle(_, _, _, _) | Node::DateTimeParts(_, _, _, _, _) => 3,
            Node::BitPackedV2(_, _, _, _, _, Some(_), _) => 3,
            Node::BitPackedV2(_, _, _, _, _, None, _) => 1,
            Node::Sequence(_, _, _, _, _) => 0,
        }
    }

    /// Child number `place`, from 0; None out of bounds.
    #[tactic(auto, using(vx_model::proofs::TreesLemmas::trees))]
    pub fn child(&self, place: usize) -> Option<&ArrayRef>
        ensures { option_copied result ≡ slice_get (children self.now) place }
    {
        match &self.node {
            Node::VarBin(offsets, _, _, _) if place == 0 => Some(&offsets.array),
            Node::Timestamp(storage, _) if place == 0 => Some(&storage.array),
            Node::Masked(child, _) if place == 0 => Some(&child.array),
            Node::FoR(encoded, _) if place == 0 => Some(&encoded.array),
            Node::ZigZag(encoded) if place == 0 => Some(&encoded.array),
            Node::Dict(codes, _) if place == 0 => Some(&codes.array),
            Node::Dict(_, values) if place == 1 => Some(&values.array),
            Node::BitPacked(_, _, _, _, _, Some(patches), _) if place == 0 => Some(
                &patches.indices,
            ),
            Node::BitPacked(_, _, _, _, _, Some(patches), _) if place == 1 => Some(&patches.values),
            Node::Struct(_, fields, _, _, _) => fields.get(place as u64),
            Node::List(elements, _, _, _) if place == 0 => Some(&elements.array),
            Node::List(_, offsets, _, _) if place == 1 => Some(&offsets.array),
            Node::FixedSizeList(elements, _, _, _, _) if place == 0 => Some(&elements.array),
            Node::Sparse(patches, _) => patches.child(place),
            Node::RunEnd(ends, _) if place == 0 => Some(&ends.array),
            Node::RunEnd(_, values) if place == 1 => Some(&values.array),
            Node::Rle(values, _, _, _) if place == 0 => Some(&values.array),
            Node::Rle(_, indices, _, _) if place == 1 => Some(&indices.array),
            Node::Rle(_, _, offsets, _) if place == 2 => Some(&offsets.array),
            Node::Delta(bases, _, _, _, _) if place == 0 => Some(&bases.array),
            Node::Delta(_, deltas, _, _, _) if place == 1 => Some(&deltas.array),
            Node::BitPackedV2(_, _, offsets, _, _, _, _) if place == 0 => Some(&offsets.array),
            Node::BitPackedV2(_, _, _, _, _, Some(patches), _) if place == 1 => Some(
                &patches.indices,
            ),
            Node::BitPackedV2(_, _, _, _, _, Some(patches), _) if place == 2 => Some(
                &patches.values,
            ),
            Node::DateTimeParts(_, _, days, _, _) if place == 0 => Some(&days.array),
            Node::DateTimeParts(_, _, _, seconds, _) if place == 1 => Some(&seconds.array),
            Node::DateTimeParts(_, _, _, _, subseconds) if place == 2 => Some(&subseconds.array),
            Node::FoRV2(encoded, _) if place == 0 => Some(&encoded.array),
            Node::FoRV2(_, references) if place == 1 => Some(&references.array),
            _ => None,
        }
    }
}

impl Patches {
    /// The indices and the values, moved out.
    pub fn into_parts(self) -> (ArrayRef, ArrayRef)
        ensures { result ≡ (self.indices, self.values) }
    {
        let Patches {
            array_len: _,
            offset: _,
            indices,
            values,
            chunks: _,
        } = self;
        (indices, values)
    }
}
