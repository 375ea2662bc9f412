//! The line of a node.

ghost use Rattle.std.specs.Prelude.{◌≡◌, ◌++◌, OnOk, string_bytes, codes};
ghost use Rattle.vx_base.specs.Packed.{block_count};
ghost use Rattle.vx_base.specs.TypeText.{value_text};
ghost use Rattle.vx_model.specs.Tree.{PlainBlocks, PlainPacked, Tree, blocks_of, packed_of, sparse_of};
ghost use Rattle.vx_array.specs.TreeOf.{tree_of, unboxed};
ghost use Rattle.vx_document.specs.Listing.{block_numbers, packed_numbers, own_numbers, heading, line};

use std::alloc::{AllocError, Global};
use vx_array::{ArrayRef, Node, Patches};
use vx_base::Scalar;

// The rows of a block of packed integers.
const BLOCK_ROWS: u64 = 1_024;

// Appends ` name=value`, the value of a scalar as compact JSON.
fn push_named(
    alloc: Global,
    text: &mut String,
    name: &str,
    scalar: &Scalar,
) -> Result<(), AllocError>
    ensures { OnOk result (string_bytes text.new
        ≡ string_bytes text.old ++ (codes " " ++ name.now ++ codes "=" ++ value_text scalar.now.dtype scalar.now.value)) }
{
    let Ok(value) = scalar.json(alloc) else {
        return Err(AllocError);
    };
    let value = value.as_str();
    write!(text, " {name}={value}")?;
    Ok(())
}

// The number of patches, 0 where there are none.
fn patch_count(patches: &Option<Box<Patches>>) -> u64
    ensures packed { (k : PlainPacked) → own_numbers (packed_of k (unboxed patches.now)) ≡ packed_numbers k.width result }
    ensures blocks { (k : PlainBlocks) (offsets : Tree) → own_numbers (blocks_of k offsets (unboxed patches.now)) ≡ block_numbers (block_count k.len) result }
{
    match patches {
        Some(patches) => patches.num_patches(),
        None => 0,
    }
}

// Appends the offset of patches, the fill of all other rows, and the number of patches.
fn push_patched(
    alloc: Global,
    text: &mut String,
    patches: &Patches,
    fill: &Scalar,
) -> Result<(), AllocError>
    ensures { OnOk result (string_bytes text.new
        ≡ string_bytes text.old ++ own_numbers (sparse_of patches.now fill.now)) }
{
    let offset = patches.offset();
    write!(text, " offset={offset}")?;
    push_named(alloc, text, "fill", fill)?;
    let count = patches.num_patches();
    write!(text, " patches={count}")?;
    Ok(())
}

// Appends the number of blocks of packed rows, and the number of patches.
fn push_blocks(
    text: &mut String,
    len: u64,
    patches: &Option<Box<Patches>>,
) -> Result<(), AllocError>
    ensures { OnOk result ((k : PlainBlocks) (offsets : Tree) → k.len ≡ len → string_bytes text.new
        ≡ string_bytes text.old ++ own_numbers (blocks_of k offsets (unboxed patches.now))) }
{
    let blocks = len.div_ceil(BLOCK_ROWS);
    let count = patch_count(patches);
    write!(text, " blocks={blocks} patches={count}")?;
    Ok(())
}

// Appends the numbers that the encoding has beside those of every node.
fn push_own_numbers(alloc: Global, text: &mut String, node: &Node) -> Result<(), AllocError>
    ensures { OnOk result (string_bytes text.new
        ≡ string_bytes text.old ++ own_numbers (tree_of node.now)) }
{
    match node {
        Node::Constant(scalar, _) => push_named(alloc, text, "value", scalar),
        Node::FoR(_, reference) => push_named(alloc, text, "reference", reference),
        Node::BitPacked(_, width, _, _, _, patches, _) => {
            let count = patch_count(patches);
            write!(text, " width={width} patches={count}")?;
            Ok(())
        }
        Node::BitPackedV2(_, _, _, len, _, patches, _) => push_blocks(text, *len, patches),
        Node::FixedSizeList(_, list_size, _, _, _) => {
            write!(text, " list_size={list_size}")?;
            Ok(())
        }
        Node::Sparse(patches, fill) => push_patched(alloc, text, patches, fill),
        Node::Sequence(_, _, first, step, _) => {
            write!(text, " first={first} step={step}")?;
            Ok(())
        }
        Node::Bool(_, _, _) | Node::Primitive(_, _, _) | Node::VarBinView(_, _, _) => Ok(()),
        Node::VarBin(_, _, _, _) | Node::Timestamp(_, _) | Node::Masked(_, _) => Ok(()),
        Node::ZigZag(_) | Node::Dict(_, _) | Node::Null(_) => Ok(()),
        Node::Struct(_, _, _, _, _) | Node::List(_, _, _, _) => Ok(()),
        Node::RunEnd(_, _) | Node::Rle(_, _, _, _) | Node::Delta(_, _, _, _, _) => Ok(()),
        Node::DateTimeParts(_, _, _, _, _) | Node::FoRV2(_, _) => Ok(()),
    }
}

// Appends the root's encoding, type, rows and bytes.
#[tactic(auto, unfolding(crate::specs::Listing::heading))]
fn push_heading(text: &mut String, tree: &ArrayRef) -> Result<(), AllocError>
    ensures { OnOk result (string_bytes text.new ≡ string_bytes text.old ++ heading tree.now) }
{
    let id = tree.encoding_id();
    let dtype = tree.dtype();
    let len = tree.len();
    let size = tree.nbytes();
    write!(text, "{id} {dtype} len={len} size={size}")?;
    Ok(())
}

// Appends the root's line.
#[tactic(auto, unfolding(crate::specs::Listing::line))]
pub(super) fn push_line(
    alloc: Global,
    text: &mut String,
    indent: &str,
    tree: &ArrayRef,
) -> Result<(), AllocError>
    ensures { OnOk result (string_bytes text.new ≡ string_bytes text.old ++ line indent.now tree.now) }
{
    write!(text, "{indent}")?;
    push_heading(text, tree)?;
    push_own_numbers(alloc, text, tree.node())?;
    writeln!(text, "")?;
    Ok(())
}
