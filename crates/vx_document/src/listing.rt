//! The text of a tree: a line for each node, and the line of sizes.

ghost use Rattle.std.specs.Prelude.{◌≡◌, ◌++◌, IfOk, OnOk, string_bytes, [], option_map, unwrap_or};
ghost use Rattle.vx_model.specs.Size.{nbytes};
ghost use Rattle.vx_model.specs.Tree.{of_list};
ghost use Rattle.vx_document.specs.Listing.{deeper, listing, listings, sizes_line};

mod line;

use line::push_line;
use std::alloc::{AllocError, Global};
use vx_array::{ArrayRef, Arrays, Node, Patches};

// The indent of a node's children: two spaces more.
fn deeper(alloc: Global, indent: &str) -> Result<String, AllocError>
    ensures { IfOk result (λ s. string_bytes s ≡ deeper indent.now) }
{
    format!(in alloc; "{indent}  ")
}

// Appends the listing of a tree, in preorder.
#[cycle(push)]
fn push_tree(
    alloc: Global,
    text: &mut String,
    indent: &str,
    tree: &ArrayRef,
) -> Result<(), AllocError>
    ensures { OnOk result (string_bytes text.new
        ≡ string_bytes text.old ++ listing indent.now tree.now) }
{
    push_line(alloc, text, indent, tree)?;
    match tree.node() {
        Node::VarBin(child, _, _, _)
        | Node::Timestamp(child, _)
        | Node::Masked(child, _)
        | Node::FoR(child, _)
        | Node::ZigZag(child)
        | Node::FixedSizeList(child, _, _, _, _) => {
            let next = deeper(alloc, indent)?;
            push_tree(alloc, text, next.as_str(), &child.array)
        }
        Node::BitPacked(_, _, _, _, _, patches, _) => match patches {
            Some(patches) => push_patches(alloc, text, indent, patches),
            None => Ok(()),
        },
        Node::Sparse(patches, _) => {
            push_patches(alloc, text, indent, patches)?;
            push_chunks(alloc, text, indent, patches)
        }
        Node::BitPackedV2(_, _, offsets, _, _, patches, _) => {
            let next = deeper(alloc, indent)?;
            push_tree(alloc, text, next.as_str(), &offsets.array)?;
            match patches {
                Some(patches) => push_patches(alloc, text, indent, patches),
                None => Ok(()),
            }
        }
        Node::Dict(first, second)
        | Node::List(first, second, _, _)
        | Node::RunEnd(first, second)
        | Node::FoRV2(first, second)
        | Node::Delta(first, second, _, _, _) => {
            let next = deeper(alloc, indent)?;
            push_tree(alloc, text, next.as_str(), &first.array)?;
            push_tree(alloc, text, next.as_str(), &second.array)
        }
        Node::Rle(first, second, third, _) | Node::DateTimeParts(_, _, first, second, third) => {
            let next = deeper(alloc, indent)?;
            push_tree(alloc, text, next.as_str(), &first.array)?;
            push_tree(alloc, text, next.as_str(), &second.array)?;
            push_tree(alloc, text, next.as_str(), &third.array)
        }
        Node::Struct(_, fields, _, _, _) => {
            let next = deeper(alloc, indent)?;
            push_trees(alloc, text, next.as_str(), fields)
        }
        Node::Bool(_, _, _) | Node::Primitive(_, _, _) | Node::VarBinView(_, _, _) => Ok(()),
        Node::Constant(_, _) | Node::Null(_) | Node::Sequence(_, _, _, _, _) => Ok(()),
    }
}

// Appends the listings of the indices and of the values of patches, which are children.
#[cycle(push)]
fn push_patches(
    alloc: Global,
    text: &mut String,
    indent: &str,
    patches: &Patches,
) -> Result<(), AllocError>
    ensures { OnOk result (string_bytes text.new
        ≡ string_bytes text.old ++ listing (deeper indent.now) patches.now.indices ++ listing (deeper indent.now) patches.now.values) }
{
    let next = deeper(alloc, indent)?;
    push_tree(alloc, text, next.as_str(), patches.indices())?;
    push_tree(alloc, text, next.as_str(), patches.values())
}

// Appends the listing of the chunk offsets of patches, which are a child where there are any.
#[cycle(push)]
fn push_chunks(
    alloc: Global,
    text: &mut String,
    indent: &str,
    patches: &Patches,
) -> Result<(), AllocError>
    ensures { OnOk result (string_bytes text.new ≡ string_bytes text.old ++ unwrap_or (option_map (listing (deeper indent.now)) patches.now.chunks) []) }
{
    match patches.chunk_offsets() {
        Some(chunks) => {
            let next = deeper(alloc, indent)?;
            push_tree(alloc, text, next.as_str(), chunks)
        }
        None => Ok(()),
    }
}

// Appends the listings of several trees, one after the other.
#[cycle(push)]
#[tactic(auto, using(vx_model::proofs::TreesLemmas::falls))]
fn push_trees(
    alloc: Global,
    text: &mut String,
    indent: &str,
    trees: &Arrays,
) -> Result<(), AllocError>
    ensures { OnOk result (string_bytes text.new
        ≡ string_bytes text.old ++ listings indent.now (of_list trees.now)) }
{
    for tree in trees.as_slice() {
        push_tree(alloc, text, indent, tree)?;
    }
    Ok(())
}

/// The listing of a tree: a line for each node, in preorder, with its encoding, type, rows, bytes and own numbers.
/// Bytes above 2^128 - 1 are listed as 2^128 - 1. An Err means that memory ran out.
pub fn listing_text(alloc: Global, tree: &ArrayRef) -> Result<String, AllocError>
    ensures { IfOk result (λ text. string_bytes text ≡ listing [] tree.now) }
{
    let mut text = String::new(alloc);
    push_tree(alloc, &mut text, "", tree)?;
    Ok(text)
}

/// The listings of trees, one after the other. An Err means that memory ran out.
pub fn listings_text(alloc: Global, trees: &Arrays) -> Result<String, AllocError>
    ensures { IfOk result (λ text. string_bytes text ≡ listings [] (of_list trees.now)) }
{
    let mut text = String::new(alloc);
    push_trees(alloc, &mut text, "", trees)?;
    Ok(text)
}

// Appends the line of sizes, in bytes.
#[tactic(auto, unfolding(crate::specs::Listing::sizes_line))]
fn push_sizes(text: &mut String, plain: u128, tree: u128) -> Result<(), AllocError>
    ensures { OnOk result (string_bytes text.new ≡ string_bytes text.old ++ sizes_line plain tree) }
{
    writeln!(text, "plain={plain} tree={tree}")?;
    Ok(())
}

/// The listing of a tree, then the line of sizes: `plain`, the bytes of the plain tree, and the tree's own. An Err means
/// that memory ran out.
pub fn report_text(alloc: Global, plain: u128, tree: &ArrayRef) -> Result<String, AllocError>
    ensures { IfOk result (λ text. string_bytes text
        ≡ listing [] tree.now ++ sizes_line plain (nbytes tree.now)) }
{
    let mut text = String::new(alloc);
    push_tree(alloc, &mut text, "", tree)?;
    push_sizes(&mut text, plain, tree.nbytes())?;
    Ok(text)
}
