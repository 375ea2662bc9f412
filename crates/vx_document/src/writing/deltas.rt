//! Columns with deltas, decoded. Rows are read one by one, and a row of a Delta node takes up to 1,024 sums: over a child with
//! such a node as many as the product. Decoded as a whole the column takes one sum a row. Columns of texts and binaries
//! aren't decoded, since a value that stands in many rows would be copied into each.

ghost use Rattle.std.specs.Prelude.{◌≡◌, true};
ghost use Rattle.vx_base.specs.Answers.{OrMemory};
ghost use Rattle.vx_base.specs.TypeOf.{type_of};
ghost use Rattle.vx_base.specs.declared.array_id.ArrayId.TheVariants as ids;
ghost use Rattle.vx_document.specs.Accepted.{IsAccepted, is_decoded};
ghost use Rattle.vx_model.specs.Column.{column_of};
ghost use Rattle.vx_model.specs.Nodes.{encoding};
ghost use Rattle.vx_model.specs.Tree.{dict, masked, sparse_of, var_bin};
ghost use Rattle.vx_model.specs.WellFormed.{WellFormed};

mod nested;

use nested::{fixed, lists, structs};
use std::alloc::Global;
use vx_array::{ArrayRef, Made, Node, Patches};
use vx_base::{ArrayId, Bytes, DType, Mask, Scalar, VortexResult};

// The nodes on a path that are looked at: as many as a file has at most.
const MOST_NODES: u8 = 64;

// Whether a Delta node stands among the first `limit` nodes of a path, or a path has more.
#[cycle(has_delta)]
fn has_delta(tree: &ArrayRef, limit: u8) -> bool
    ensures { encoding tree.now ≡ ids.Delta → result ≡ true }
{
    if limit == 0 || tree.encoding_id() == ArrayId::Delta {
        return true;
    }
    for place in 0..tree.num_children() {
        if let Some(child) = tree.child(place) {
            if has_delta(child, limit - 1) {
                return true;
            }
        }
    }
    false
}

// What is made, or why it is refused.
fn accepted<I: Drop>(made: Made<I>) -> VortexResult<ArrayRef>
    ensures { IsAccepted made result }
{
    match made {
        Ok(tree) => Ok(tree),
        Err(refused) => Err(refused.error),
    }
}

// Whether columns of a type are decoded as a whole: those of numbers, truth values and timestamps.
fn is_decoded(dtype: &DType) -> bool
    ensures { result ≡ is_decoded (type_of dtype.now) }
{
    dtype.is_flat() && !dtype.is_bytes()
}

/// A tree of the same column in which no column of numbers or truth values has deltas. Refuses NoMemory alone.
#[cycle(deltas)]
pub(super) fn without_deltas(alloc: Global, tree: ArrayRef) -> VortexResult<ArrayRef>
    ensures { OrMemory result (λ made. column_of made ≡ column_of tree) }
{
    if tree.num_children() == 0 {
        return Ok(tree);
    }
    if !has_delta(&tree, MOST_NODES) {
        return Ok(tree);
    }
    if is_decoded(tree.dtype()) {
        return tree.canonical(alloc);
    }
    match tree.into_node() {
        Node::VarBin(offsets, bytes, valid, dtype) => {
            var_bin(alloc, Box::into_inner(offsets.array), bytes, valid, dtype)
        }
        Node::Masked(child, mask) => masked(alloc, Box::into_inner(child.array), mask),
        Node::Dict(codes, values) => {
            dict(
                alloc,
                Box::into_inner(codes.array),
                Box::into_inner(values.array),
            )
        }
        Node::Sparse(patches, fill) => sparse(alloc, Box::into_inner(patches), fill),
        Node::Struct(names, fields, len, valid, nullability) => {
            structs(alloc, names, fields, len, valid, nullability)
        }
        Node::List(elements, offsets, valid, nullability) => {
            let elements = Box::into_inner(elements.array);
            lists(
                alloc,
                elements,
                Box::into_inner(offsets.array),
                valid,
                nullability,
            )
        }
        Node::FixedSizeList(elements, size, len, valid, nullability) => {
            fixed(
                alloc,
                Box::into_inner(elements.array),
                size,
                len,
                valid,
                nullability,
            )
        }
        _ => unreachable!(),
    }
}

// `without_deltas` of concatenated texts or binaries, by their offsets.
#[cycle(deltas)]
fn var_bin(
    alloc: Global,
    offsets: ArrayRef,
    bytes: Bytes,
    valid: Option<Mask>,
    dtype: DType,
) -> VortexResult<ArrayRef>
    requires { WellFormed (var_bin offsets bytes valid (type_of dtype)) }
    ensures { OrMemory result (λ made. column_of made ≡ column_of (var_bin offsets bytes valid (type_of dtype))) }
{
    let offsets = without_deltas(alloc, offsets)?;
    accepted(ArrayRef::var_bin(alloc, offsets, bytes, valid, dtype))
}

// `without_deltas` of texts or binaries beneath a mask.
#[cycle(deltas)]
fn masked(alloc: Global, child: ArrayRef, mask: Mask) -> VortexResult<ArrayRef>
    requires { WellFormed (masked child mask) }
    ensures { OrMemory result (λ made. column_of made ≡ column_of (masked child mask)) }
{
    let child = without_deltas(alloc, child)?;
    accepted(ArrayRef::masked(alloc, child, mask))
}

// `without_deltas` of a dictionary of texts or binaries.
#[cycle(deltas)]
fn dict(alloc: Global, codes: ArrayRef, values: ArrayRef) -> VortexResult<ArrayRef>
    requires { WellFormed (dict codes values) }
    ensures { OrMemory result (λ made. column_of made ≡ column_of (dict codes values)) }
{
    let codes = without_deltas(alloc, codes)?;
    let values = without_deltas(alloc, values)?;
    accepted(ArrayRef::dict(alloc, codes, values))
}

// `without_deltas` of a fill and patches. Their chunk offsets are dropped, since a search does without them.
#[cycle(deltas)]
fn sparse(alloc: Global, patches: Patches, fill: Scalar) -> VortexResult<ArrayRef>
    requires { WellFormed (sparse_of patches fill) }
    ensures { OrMemory result (λ made. column_of made ≡ column_of (sparse_of patches fill)) }
{
    let (len, offset) = (patches.array_len(), patches.offset());
    let (indices, values) = patches.into_parts();
    let indices = without_deltas(alloc, indices)?;
    let values = without_deltas(alloc, values)?;
    match Patches::new(len, offset, indices, values) {
        Ok(patches) => accepted(ArrayRef::sparse(alloc, patches, fill)),
        Err(refused) => Err(refused.error),
    }
}
