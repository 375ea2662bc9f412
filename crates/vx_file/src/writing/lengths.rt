//! The length of a tree's spelling, counted without spelling it: own fields, and then each child. A sum stops at 2^64 - 1,
//! above which no memory holds the spelling.

ghost use Rattle.std.specs.Prelude.{◌≡◌, IfOk, IsTrue, false};
ghost use Rattle.vx_file.specs.Lengths.{capped, has_scalar, own_size, text_size};
ghost use Rattle.vx_spelling.specs.Storable.{all_within, is_within};

use super::field_lengths::{
    bits_length, delimited_length, item_count, items_length, kind_length, maybe_flat_length,
    names_length, patch_length, rows_length, scalar_length, texts_length, validity_length,
    varint_length,
};
use std::alloc::{AllocError, Global};
use vx_array::{ArrayRef, Node};

/// The bytes that a tree takes in a file, 2^64 - 1 where they are more.
#[cycle(tree_length)]
#[tactic(auto, using(crate::proofs::Children::children_of))]
pub(super) fn tree_length(alloc: Global, tree: &ArrayRef) -> Result<u64, AllocError>
    requires { IsTrue (all_within tree.now) }
    ensures { IfOk result (λ found. found ≡ capped (text_size tree.now)) }
{
    tree.known();
    let mut length = own_length(alloc, tree)?;
    for place in 0..tree.num_children() {
        let Some(child) = tree.child(place) else {
            unreachable!();
        };
        length = length.saturating_add(tree_length(alloc, child)?);
    }
    Ok(length)
}

// The bytes of a node's own fields and its id, without its children's.
#[tactic(auto, using(crate::proofs::Sizes::own))]
fn own_length(alloc: Global, tree: &ArrayRef) -> Result<u64, AllocError>
    requires { IsTrue (is_within tree.now) }
    ensures { IfOk result (λ own. own ≡ capped (own_size tree.now)) }
{
    match tree.node() {
        Node::Constant(value, len) => {
            Ok(scalar_length(alloc, value)?.saturating_add(1 + varint_length(*len)))
        }
        Node::Sparse(patches, fill) => {
            Ok(scalar_length(alloc, fill)?.saturating_add(2 + patch_length(patches)))
        }
        Node::FoR(_, reference) => Ok(scalar_length(alloc, reference)?.saturating_add(1)),
        _ => Ok(plain_length(tree)),
    }
}

// `own_length` of a node without a scalar.
#[tactic(auto, using(crate::proofs::Sizes::own))]
fn plain_length(tree: &ArrayRef) -> u64
    ensures { has_scalar tree.now ≡ false → result ≡ capped (own_size tree.now) }
{
    match tree.node() {
        Node::Dict(_, _) | Node::RunEnd(_, _) | Node::FoRV2(_, _) | Node::ZigZag(_) => 1,
        Node::Null(len) | Node::Rle(_, _, _, len) => 1 + varint_length(*len),
        Node::Sequence(_, _, _, _, len) => 35 + varint_length(*len),
        Node::Bool(bits, valid, _) => rows_length(2, bits.len(), bits_length(bits.len()), valid),
        Node::Primitive(values, valid, _) => {
            rows_length(3, values.len(), items_length(values), valid)
        }
        Node::VarBinView(values, valid, _) => {
            rows_length(3, values.len(), texts_length(values), valid)
        }
        Node::Struct(names, _, len, valid, _) => rows_length(2, *len, names_length(names), valid),
        Node::FixedSizeList(_, size, len, valid, _) => {
            rows_length(2, *len, varint_length(u64::from(*size)), valid)
        }
        Node::Delta(_, _, len, valid, _) => rows_length(2, *len, 0, valid),
        Node::List(_, offsets, valid, _) => 2 + validity_length(valid, item_count(&offsets.array)),
        Node::VarBin(offsets, bytes, valid, _) => {
            let count = item_count(&offsets.array);
            delimited_length(bytes.len()).saturating_add(3 + validity_length(valid, count))
        }
        Node::Masked(child, _) => 1 + bits_length(child.array.len()),
        Node::Timestamp(_, kind) => kind_length(kind).saturating_add(1),
        Node::DateTimeParts(kind, _, _, _, _) => kind_length(kind).saturating_add(2),
        Node::BitPacked(_, _, packed, len, valid, patches, _) => {
            rows_length(4 + maybe_flat_length(patches), *len, packed.len(), valid)
        }
        Node::BitPackedV2(_, packed, _, len, valid, patches, _) => {
            let content = delimited_length(packed.len());
            rows_length(3 + maybe_flat_length(patches), *len, content, valid)
        }
        Node::Constant(_, _) | Node::Sparse(_, _) | Node::FoR(_, _) => 0,
    }
}
