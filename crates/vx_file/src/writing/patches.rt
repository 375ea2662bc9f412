//! Writers of patches, and of sparse columns, which are patches over a fill.

ghost use Rattle.std.specs.Prelude.{◌≡◌, ◌≤◌, ◌++◌, OnOk};
ghost use Rattle.vx_file.specs.Writing.{ChunksWithin, MaybeWithin, PatchesWithin, chunks_text, maybe_flat_text};
ghost use Rattle.vx_array.specs.TreeOf.{unboxed};
ghost use Rattle.vx_spelling.specs.TreeSpelling.{flat_text, tree_text};
ghost use Rattle.vx_spelling.specs.TypeSpelling.{type_depth};
ghost use Rattle.vx_spelling.specs.ValueSpelling.{scalar_parts};

use super::tree::put_tree;
use super::values::put_scalar;
use std::alloc::AllocError;
use vx_array::Patches;
use vx_base::Scalar;
use vx_codec::{put_byte, put_varint};

// Appends row count of the array, offset, indices and values.
#[cycle(put_tree)]
fn put_patch_fields(out: &mut Vec<u8>, patches: &Patches) -> Result<(), AllocError>
    requires { PatchesWithin patches.now }
    ensures { OnOk result (out.new.items ≡ out.old.items ++ flat_text patches.now.array_len patches.now.offset (tree_text patches.now.indices) (tree_text patches.now.values)) }
{
    put_varint(out, patches.array_len())?;
    put_varint(out, patches.offset())?;
    put_tree(out, patches.indices())?;
    put_tree(out, patches.values())
}

/// Appends the patches of packed integers where there are any: 0, or 1 and the patches, with 0 for no chunk offsets.
#[cycle(put_tree)]
pub(super) fn put_maybe_flat(
    out: &mut Vec<u8>,
    patches: &Option<Box<Patches>>,
) -> Result<(), AllocError>
    requires { MaybeWithin (unboxed patches.now) }
    ensures { OnOk result (out.new.items ≡ out.old.items ++ maybe_flat_text (unboxed patches.now)) }
{
    match patches {
        None => put_byte(out, 0),
        Some(patches) => {
            put_byte(out, 1)?;
            put_patch_fields(out, patches)?;
            put_byte(out, 0)
        }
    }
}

// Appends patches: their fields, and 0, or 1 and the chunk offsets.
#[cycle(put_tree)]
fn put_patches(out: &mut Vec<u8>, patches: &Patches) -> Result<(), AllocError>
    requires fields { PatchesWithin patches.now }
    requires chunks { ChunksWithin patches.now.chunks }
    ensures { OnOk result (out.new.items ≡ out.old.items ++ (flat_text patches.now.array_len patches.now.offset (tree_text patches.now.indices) (tree_text patches.now.values) ++ chunks_text patches.now.chunks)) }
{
    put_patch_fields(out, patches)?;
    match patches.chunk_offsets() {
        None => put_byte(out, 0),
        Some(chunks) => {
            put_byte(out, 1)?;
            put_tree(out, chunks)
        }
    }
}

/// Appends a sparse column: its patches, and the fill as a scalar.
#[cycle(put_tree)]
pub(super) fn put_sparse(
    out: &mut Vec<u8>,
    patches: &Patches,
    fill: &Scalar,
) -> Result<(), AllocError>
    requires fields { PatchesWithin patches.now }
    requires chunks { ChunksWithin patches.now.chunks }
    requires nests { type_depth fill.now.dtype ≤ 64 }
    ensures { OnOk result (out.new.items ≡ out.old.items ++ ((flat_text patches.now.array_len patches.now.offset (tree_text patches.now.indices) (tree_text patches.now.values) ++ chunks_text patches.now.chunks) ++ scalar_parts.spell (fill.now.dtype, fill.now.value))) }
{
    put_patches(out, patches)?;
    put_scalar(out, fill)
}
