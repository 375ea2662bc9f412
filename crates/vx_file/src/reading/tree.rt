//! The reader of trees: an encoding, and what its node has, children as trees. `depth` falls at each child, so that no file
//! nests deeper than its reader can follow.

ghost use Rattle.vx_codec.specs.Format.{both};
ghost use Rattle.vx_codec.specs.Reads.{Reads};
ghost use Rattle.vx_spelling.specs.TreeSpelling.{node_behind, node_id, tree_at, trees_by};

use super::codes::{read_dict, read_masked, read_rle, read_run_end, read_var_bin};
use super::differences::{read_delta, read_for, read_for_v2, read_zig_zag};
use super::leaves::{
    read_bool, read_constant, read_null, read_primitive, read_sequence, read_view,
};
use super::made::Found;
use super::nested::{read_fixed_size_list, read_list, read_struct};
use super::packed::{read_bit_packed, read_bit_packed_v2};
use super::patches::read_sparse;
use super::temporal::{read_datetime_parts, read_timestamp};
use crate::storable::is_within;
use std::alloc::Global;
use vx_array::ArrayRef;
use vx_base::ArrayId;
use vx_codec::{ReadError, read_byte};

/// Three children, in their order.
pub(super) type Three = (ArrayRef, (ArrayRef, ArrayRef));

// The encoding of a node: the place of its id, from 0.
fn read_id(bytes: &[u8]) -> Result<(ArrayId, &[u8]), ReadError>
    ensures { Reads (λ x. (x.0, x.1.now)) result (node_id.parse bytes.now) }
{
    let (number, rest) = read_byte(bytes)?;
    match number {
        0 => Ok((ArrayId::Null, rest)),
        1 => Ok((ArrayId::Bool, rest)),
        2 => Ok((ArrayId::Primitive, rest)),
        3 => Ok((ArrayId::VarBinView, rest)),
        4 => Ok((ArrayId::Struct, rest)),
        5 => Ok((ArrayId::List, rest)),
        6 => Ok((ArrayId::FixedSizeList, rest)),
        7 => Ok((ArrayId::Timestamp, rest)),
        8 => Ok((ArrayId::Constant, rest)),
        9 => Ok((ArrayId::Masked, rest)),
        10 => Ok((ArrayId::Dict, rest)),
        11 => Ok((ArrayId::VarBin, rest)),
        12 => Ok((ArrayId::Sparse, rest)),
        13 => Ok((ArrayId::DateTimeParts, rest)),
        14 => Ok((ArrayId::RunEnd, rest)),
        15 => Ok((ArrayId::BitPacked, rest)),
        16 => Ok((ArrayId::BitPackedV2, rest)),
        17 => Ok((ArrayId::FoR, rest)),
        18 => Ok((ArrayId::FoRV2, rest)),
        19 => Ok((ArrayId::Delta, rest)),
        20 => Ok((ArrayId::Rle, rest)),
        21 => Ok((ArrayId::ZigZag, rest)),
        22 => Ok((ArrayId::Sequence, rest)),
        _ => Err(ReadError::Malformed),
    }
}

/// A tree with at most `depth` nodes on a path, each within the limits of rows and types.
#[cycle(read_tree)]
pub(super) fn read_tree(alloc: Global, bytes: &[u8], depth: u8) -> Found<'_>
    ensures { Reads (λ x. (x.0, x.1.now)) result (tree_at depth bytes.now) }
{
    if depth == 0 {
        return Err(ReadError::Malformed);
    }
    let (id, rest) = read_id(bytes)?;
    let (tree, rest) = read_node(alloc, rest, id, depth - 1)?;
    if !is_within(&tree) {
        return Err(ReadError::Malformed);
    }
    Ok((tree, rest))
}

// What stands behind an id.
#[cycle(read_tree)]
fn read_node(alloc: Global, bytes: &[u8], id: ArrayId, depth: u8) -> Found<'_>
    ensures { Reads (λ x. (x.0, x.1.now)) result (node_behind (trees_by (tree_at depth)) id bytes.now) }
{
    match id {
        ArrayId::Null => read_null(bytes),
        ArrayId::Bool => read_bool(alloc, bytes),
        ArrayId::Primitive => read_primitive(alloc, bytes),
        ArrayId::VarBinView => read_view(alloc, bytes),
        ArrayId::Struct => read_struct(alloc, bytes, depth),
        ArrayId::List => read_list(alloc, bytes, depth),
        ArrayId::FixedSizeList => read_fixed_size_list(alloc, bytes, depth),
        ArrayId::Timestamp => read_timestamp(alloc, bytes, depth),
        ArrayId::Constant => read_constant(alloc, bytes),
        ArrayId::Masked => read_masked(alloc, bytes, depth),
        ArrayId::Dict => read_dict(alloc, bytes, depth),
        ArrayId::VarBin => read_var_bin(alloc, bytes, depth),
        ArrayId::Sparse => read_sparse(alloc, bytes, depth),
        ArrayId::DateTimeParts => read_datetime_parts(alloc, bytes, depth),
        ArrayId::RunEnd => read_run_end(alloc, bytes, depth),
        ArrayId::BitPacked => read_bit_packed(alloc, bytes, depth),
        ArrayId::BitPackedV2 => read_bit_packed_v2(alloc, bytes, depth),
        ArrayId::FoR => read_for(alloc, bytes, depth),
        ArrayId::FoRV2 => read_for_v2(alloc, bytes, depth),
        ArrayId::Delta => read_delta(alloc, bytes, depth),
        ArrayId::Rle => read_rle(alloc, bytes, depth),
        ArrayId::ZigZag => read_zig_zag(alloc, bytes, depth),
        ArrayId::Sequence => read_sequence(bytes),
    }
}

/// Two children.
#[cycle(read_tree)]
pub(super) fn read_two(
    alloc: Global,
    bytes: &[u8],
    depth: u8,
) -> Result<((ArrayRef, ArrayRef), &[u8]), ReadError>
    ensures { Reads (λ x. (x.0, x.1.now)) result ((both (trees_by (tree_at depth)) (trees_by (tree_at depth))).parse bytes.now) }
{
    let (first, rest) = read_tree(alloc, bytes, depth)?;
    let (second, rest) = read_tree(alloc, rest, depth)?;
    Ok(((first, second), rest))
}

/// Three children.
#[cycle(read_tree)]
pub(super) fn read_three(
    alloc: Global,
    bytes: &[u8],
    depth: u8,
) -> Result<(Three, &[u8]), ReadError>
    ensures { Reads (λ x. (x.0, x.1.now)) result ((both (trees_by (tree_at depth)) (both (trees_by (tree_at depth)) (trees_by (tree_at depth)))).parse bytes.now) }
{
    let (first, rest) = read_tree(alloc, bytes, depth)?;
    let (others, rest) = read_two(alloc, rest, depth)?;
    Ok(((first, others), rest))
}
