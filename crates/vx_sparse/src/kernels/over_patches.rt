//! The sparse tree over other patch values and another fill: what a kernel that works row by row answers.

ghost use Rattle.std.specs.Prelude.{◌≡◌, length};
ghost use Rattle.vx_base.specs.Answers.{Answers};
ghost use Rattle.vx_model.specs.Rows.{rows};
ghost use Rattle.vx_model.specs.Tree.{sparse, sparse_of};
ghost use Rattle.vx_model.specs.TreeType.{tree_type};

use std::alloc::Global;
use vx_array::{ArrayRef, Patches};
use vx_base::{Scalar, VortexResult};

/// The patches with other values, over a fill of their type. The indices are copied, without chunk offsets.
pub(crate) fn over_patches(
    alloc: Global,
    patches: &Patches,
    values: ArrayRef,
    fill: Scalar,
) -> VortexResult<ArrayRef>
    requires lengths { length (rows values) ≡ length (rows patches.now.values) }
    requires typed { tree_type values ≡ fill.dtype }
    ensures { Answers result (sparse patches.now.array_len patches.now.offset patches.now.indices values fill) }
{
    patches.known();
    let indices = patches.indices().copy(alloc)?;
    let others = Patches::of_rising(patches.array_len(), patches.offset(), indices, values);
    sparse_tree(alloc, others, fill)
}

/// Patches and a fill of their type as a tree.
pub(crate) fn sparse_tree(alloc: Global, patches: Patches, fill: Scalar) -> VortexResult<ArrayRef>
    requires { tree_type patches.values ≡ fill.dtype }
    ensures { Answers result (sparse_of patches fill) }
{
    match ArrayRef::sparse(alloc, patches, fill) {
        Ok(tree) => Ok(tree),
        Err(refused) => Err(refused.error),
    }
}
