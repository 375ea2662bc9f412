//! The writer of trees: the place of a node's id, and then what the node has, children as trees.

ghost use Rattle.std.specs.Prelude.{◌≡◌, ◌++◌, IsTrue, OnOk, true, false};
ghost use Rattle.vx_base.specs.IdNumber.{id_number};
ghost use Rattle.vx_file.specs.Writing.{is_childless, is_packed};
ghost use Rattle.vx_spelling.specs.Storable.{all_within};
ghost use Rattle.vx_spelling.specs.TreeSpelling.{body, tree_text};

use super::codes::{put_masked, put_rle, put_var_bin};
use super::leaves::{put_bool, put_constant, put_primitive, put_sequence, put_view};
use super::nested::{put_fixed_size_list, put_list, put_struct};
use super::packed::{put_bit_packed, put_bit_packed_v2, put_delta, put_for};
use super::patches::put_sparse;
use super::temporal::{put_datetime_parts, put_timestamp};
use std::alloc::AllocError;
use vx_array::{ArrayRef, Child, Node};
use vx_base::ArrayId;
use vx_codec::{put_byte, put_varint};

// The place of an id, from 0.
fn id_number(id: ArrayId) -> u8
    ensures { result ≡ id_number id }
{
    match id {
        ArrayId::Null => 0,
        ArrayId::Bool => 1,
        ArrayId::Primitive => 2,
        ArrayId::VarBinView => 3,
        ArrayId::Struct => 4,
        ArrayId::List => 5,
        ArrayId::FixedSizeList => 6,
        ArrayId::Timestamp => 7,
        ArrayId::Constant => 8,
        ArrayId::Masked => 9,
        ArrayId::Dict => 10,
        ArrayId::VarBin => 11,
        ArrayId::Sparse => 12,
        ArrayId::DateTimeParts => 13,
        ArrayId::RunEnd => 14,
        ArrayId::BitPacked => 15,
        ArrayId::BitPackedV2 => 16,
        ArrayId::FoR => 17,
        ArrayId::FoRV2 => 18,
        ArrayId::Delta => 19,
        ArrayId::Rle => 20,
        ArrayId::ZigZag => 21,
        ArrayId::Sequence => 22,
    }
}

/// Appends a tree whose nodes are within the limits of rows and types.
#[cycle(put_tree)]
pub(super) fn put_tree(out: &mut Vec<u8>, tree: &ArrayRef) -> Result<(), AllocError>
    requires { IsTrue (all_within tree.now) }
    ensures { OnOk result (out.new.items ≡ out.old.items ++ tree_text tree.now) }
{
    put_byte(out, id_number(tree.encoding_id()))?;
    put_node(out, tree)
}

// Appends what stands behind the id.
#[cycle(put_tree)]
fn put_node(out: &mut Vec<u8>, tree: &ArrayRef) -> Result<(), AllocError>
    requires { IsTrue (all_within tree.now) }
    ensures { OnOk result (out.new.items ≡ out.old.items ++ body tree.now) }
{
    match tree.node() {
        Node::Null(len) => put_varint(out, *len),
        Node::Bool(values, valid, nulls) => put_bool(out, values, valid, *nulls),
        Node::Primitive(values, valid, nulls) => put_primitive(out, values, valid, *nulls),
        Node::VarBinView(values, valid, dtype) => put_view(out, values, valid, dtype),
        Node::Constant(value, len) => put_constant(out, value, *len),
        Node::Sequence(ptype, nulls, first, step, len) => {
            put_sequence(out, (*ptype, *nulls), *first, *step, *len)
        }
        _ => put_parent(out, tree),
    }
}

// `put_node` of a node that has children.
#[cycle(put_tree)]
fn put_parent(out: &mut Vec<u8>, tree: &ArrayRef) -> Result<(), AllocError>
    requires within { IsTrue (all_within tree.now) }
    requires parent { is_childless tree.now ≡ false }
    ensures { OnOk result (out.new.items ≡ out.old.items ++ body tree.now) }
{
    match tree.node() {
        Node::Struct(names, fields, len, valid, nulls) => {
            put_struct(out, names, fields, *len, valid, *nulls)
        }
        Node::List(elements, offsets, valid, nulls) => {
            put_list(out, elements, offsets, valid, *nulls)
        }
        Node::FixedSizeList(elements, size, len, valid, nulls) => {
            put_fixed_size_list(out, elements, *size, *len, valid, *nulls)
        }
        Node::Timestamp(storage, kind) => put_timestamp(out, storage, kind),
        Node::Masked(child, valid) => put_masked(out, child, valid),
        Node::Dict(first, second) => put_two(out, first, second),
        Node::RunEnd(first, second) => put_two(out, first, second),
        Node::FoRV2(first, second) => put_two(out, first, second),
        Node::VarBin(offsets, bytes, valid, dtype) => {
            put_var_bin(out, offsets, bytes, valid, dtype)
        }
        Node::DateTimeParts(kind, nulls, days, seconds, subseconds) => {
            put_datetime_parts(out, kind, *nulls, days, seconds, subseconds)
        }
        Node::Rle(values, indices, offsets, len) => put_rle(out, values, indices, offsets, *len),
        Node::ZigZag(encoded) => put_tree(out, &encoded.array),
        _ => put_packed(out, tree),
    }
}

// `put_node` of a node of packed or patched integers.
#[cycle(put_tree)]
fn put_packed(out: &mut Vec<u8>, tree: &ArrayRef) -> Result<(), AllocError>
    requires within { IsTrue (all_within tree.now) }
    requires packed { is_packed tree.now ≡ true }
    ensures { OnOk result (out.new.items ≡ out.old.items ++ body tree.now) }
{
    match tree.node() {
        Node::Sparse(patches, fill) => put_sparse(out, patches, fill),
        Node::BitPacked(ptype, width, packed, len, valid, patches, nulls) => {
            put_bit_packed(out, (*ptype, *nulls), *width, *len, packed, valid, patches)
        }
        Node::BitPackedV2(ptype, packed, offsets, len, valid, patches, nulls) => {
            put_bit_packed_v2(out, (*ptype, *nulls), *len, offsets, packed, valid, patches)
        }
        Node::FoR(encoded, reference) => put_for(out, encoded, reference),
        Node::Delta(bases, deltas, len, valid, nulls) => {
            put_delta(out, bases, deltas, *len, valid, *nulls)
        }
        _ => unreachable!(),
    }
}

/// Appends two children.
#[cycle(put_tree)]
pub(super) fn put_two(out: &mut Vec<u8>, first: &Child, second: &Child) -> Result<(), AllocError>
    requires first_within { IsTrue (all_within first.now.array.value) }
    requires second_within { IsTrue (all_within second.now.array.value) }
    ensures { OnOk result (out.new.items ≡ out.old.items ++ (tree_text first.now.array.value ++ tree_text second.now.array.value)) }
{
    put_tree(out, &first.array)?;
    put_tree(out, &second.array)
}
