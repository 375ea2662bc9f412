//! The patches of a sparse array.

ghost use Rattle.std.specs.Prelude.{◌≡◌, Some, None, option_map};
ghost use Rattle.vx_base.specs.Answers.{Answers, OrMemory};
ghost use Rattle.vx_base.specs.declared.dtype.Nullability.TheVariants.{NonNullable};
ghost use Rattle.vx_base.specs.declared.ptype.PType.TheVariants.{U64};
ghost use Rattle.vx_sparse_array.specs.Resolved.{patched_places, patches_in, resolved};
ghost use Rattle.vx_model.specs.Tree.{Tree, primitive};

use crate::array::SparseArray;
use crate::filled::{index_tree, plain_tree};
use std::alloc::Global;
use vx_array::{ArrayRef, Patches};
use vx_base::{ExecutionCtx, PType, VortexResult};

/// Access to the patches of a sparse array.
pub trait SparseExt {
    /// The tree of the array.
    ghost tree: { Self → Tree };

    /// The patches as they stand in the node, where a patched row is `index - offset`.
    fn patches(&self) -> &Patches
        ensures { patches_in (tree self.now) ≡ Some result.now };

    /// Patches of the same rows with the same values, with offset 0 and plain `u64` indices, which are the rows.
    fn resolved_patches(&self, ctx: &mut ExecutionCtx) -> VortexResult<Patches>
        ensures answer { OrMemory result (λ own. option_map resolved (patches_in (tree self.now)) ≡ Some own) }
        ensures ctx { ctx.new ≡ ctx.old };
}

impl SparseExt for SparseArray {
    ghost tree = { λ a. a };

    fn patches(&self) -> &Patches {
        let (patches, _) = self.parts();
        patches
    }

    fn resolved_patches(&self, ctx: &mut ExecutionCtx) -> VortexResult<Patches> {
        resolved(ctx.alloc(), self.patches())
    }
}

// Patches of the same rows with offset 0.
fn resolved(alloc: Global, patches: &Patches) -> VortexResult<Patches>
    ensures { Answers result (resolved patches.now) }
{
    patches.known();
    let indices = places(alloc, patches)?;
    let values = patches.values().copy(alloc)?;
    match Patches::new(patches.array_len(), 0, indices, values) {
        Ok(patches) => Ok(patches),
        Err(refused) => Err(refused.error),
    }
}

// The patched rows, as an index tree.
#[tactic(auto, using(vx_model::proofs::PrimitiveLemmas::plain_roots))]
fn places(alloc: Global, patches: &Patches) -> VortexResult<ArrayRef>
    ensures { Answers result (primitive U64 (patched_places patches.now) None NonNullable) }
{
    patches.known();
    let plain = plain_tree(alloc, patches.indices())?;
    let (indices, _, _) = plain.as_primitive();
    let words = indices.in_unsigned(alloc, PType::U64)?;
    index_tree(words.differences(alloc, i128::from(patches.offset()))?)
}
