//! Filters, of the patches.

ghost use Rattle.std.specs.Prelude.{◌≡◌, ◌==◌, None, length, map, pos};
ghost use Rattle.vx_base.specs.Answers.{Answers, Decided, OrMemory};
ghost use Rattle.vx_base.specs.declared.dtype.Nullability.TheVariants.{NonNullable};
ghost use Rattle.vx_base.specs.declared.ptype.PType.TheVariants.{U64};
ghost use Rattle.vx_model.specs.Column.{column_of};
ghost use Rattle.vx_model.specs.Refusals.{patches_refusal};
ghost use Rattle.vx_model.specs.Rows.{rows};
ghost use Rattle.vx_model.specs.Tree.{patches, primitive, sparse, sparse_of};
ghost use Rattle.vx_model.specs.TreeType.{tree_type};
ghost use Rattle.vx_rules.specs.Selections.{filtered, mask_refusal};
ghost use Rattle.vx_sparse.specs.Filters.{kept_bits};

use crate::kernels::kept_patches::{patch_bits, patch_ranks};
use crate::kernels::over_patches::sparse_tree;
use crate::kernels::slices::constant;
use std::alloc::Global;
use vx_array::{ArrayRef, Patches};
use vx_base::{ExecutionCtx, IntList, Mask, Nullability, Scalar, VortexError, VortexResult};
use vx_selections::filter;
use vx_values::Ints;

/// The rows whose bit is true: a Sparse over the kept patches, or without one a Constant of the fill. Refuses LengthMismatch where
/// the mask doesn't have one bit per row. Linear in mask and patches.
pub(crate) fn filtered(
    patches: &Patches,
    fill: &Scalar,
    keep: &Mask,
    ctx: &mut ExecutionCtx,
) -> VortexResult<ArrayRef>
    requires { tree_type patches.now.values ≡ fill.now.dtype }
    ensures answer { Decided (mask_refusal (column_of (sparse_of patches.now fill.now)) keep.now) (λ out. column_of out ≡ filtered (column_of (sparse_of patches.now fill.now)) keep.now) result }
    ensures ctx { ctx.new ≡ ctx.old }
{
    if !has_bits(patches, keep) {
        return Err(VortexError::LengthMismatch);
    }
    kept_rows(patches, fill, keep, ctx)
}

// Whether the mask has one bit per row.
fn has_bits(patches: &Patches, keep: &Mask) -> bool
    ensures { result ≡ (length keep.now == patches.now.array_len) }
{
    keep.len() == patches.array_len()
}

// `filter` by a mask of the right length.
fn kept_rows(
    patches: &Patches,
    fill: &Scalar,
    keep: &Mask,
    ctx: &mut ExecutionCtx,
) -> VortexResult<ArrayRef>
    requires typed { tree_type patches.now.values ≡ fill.now.dtype }
    requires bits { length keep.now ≡ patches.now.array_len }
    ensures answer { OrMemory result (λ out. column_of out ≡ filtered (column_of (sparse_of patches.now fill.now)) keep.now) }
    ensures ctx { ctx.new ≡ ctx.old }
{
    patches.known();
    let bits = patch_bits(ctx.alloc(), patches, keep)?;
    let count = bits.true_count();
    if count == 0 {
        let len = keep.true_count();
        return constant(ctx.alloc(), fill, len);
    }
    kept_patches(patches, fill, keep, &bits, ctx)
}

// The kept patches over the fill. The index of a kept row is the number of kept rows before it.
fn kept_patches(
    patches: &Patches,
    fill: &Scalar,
    keep: &Mask,
    bits: &Mask,
    ctx: &mut ExecutionCtx,
) -> VortexResult<ArrayRef>
    requires typed { tree_type patches.now.values ≡ fill.now.dtype }
    requires rows { length keep.now ≡ patches.now.array_len }
    requires bits { bits.now ≡ kept_bits keep.now patches.now.offset (rows patches.now.indices) }
    ensures answer { OrMemory result (λ out. column_of out ≡ filtered (column_of (sparse_of patches.now fill.now)) keep.now) }
    ensures ctx { ctx.new ≡ ctx.old }
{
    patches.known();
    let ranks = patch_ranks(ctx.alloc(), patches, keep.as_slice())?;
    let numbers = index_tree(ranks);
    let indices = kept(&numbers, bits, ctx)?;
    let values = kept(patches.values(), bits, ctx)?;
    let len = keep.true_count();
    over_kept(ctx.alloc(), len, indices, values, fill)
}

// `filter` by a mask of the right length, of any tree.
fn kept(tree: &ArrayRef, keep: &Mask, ctx: &mut ExecutionCtx) -> VortexResult<ArrayRef>
    requires { length keep.now ≡ length (rows tree.now) }
    ensures answer { OrMemory result (λ out. column_of out ≡ filtered (column_of tree.now) keep.now) }
    ensures ctx { ctx.new ≡ ctx.old }
{
    filter(tree, keep, ctx)
}

// Row numbers as indices.
fn index_tree(numbers: Vec<u64>) -> ArrayRef
    ensures { result ≡ primitive U64 (map pos numbers.items) None NonNullable }
{
    let values = Ints::U64(IntList::from_vec(numbers));
    ArrayRef::primitive_of(values, None, Nullability::NonNullable)
}

// Patches with offset 0, over a copy of the fill.
fn over_kept(
    alloc: Global,
    len: u64,
    indices: ArrayRef,
    values: ArrayRef,
    fill: &Scalar,
) -> VortexResult<ArrayRef>
    requires accepted { patches_refusal (patches len 0 indices values) ≡ None }
    requires typed { tree_type values ≡ fill.now.dtype }
    ensures { Answers result (sparse len 0 indices values fill.now) }
{
    let own = fill.copy(alloc)?;
    let others = Patches::of_rising(len, 0, indices, values);
    sparse_tree(alloc, others, own)
}
