//! The tree of a column of any type. Structs and lists are taken apart, and the columns within become trees of their own.

ghost use Rattle.std.specs.Prelude.{◌≡◌, All, map};
ghost use Rattle.vx_base.specs.Answers.{Answers};
ghost use Rattle.vx_model.specs.Cascade.{cascade};
ghost use Rattle.vx_model.specs.Column.{column_of};
ghost use Rattle.vx_model.specs.Plain.{plain};
ghost use Rattle.vx_model.specs.Tree.{structure, list, fixed_size_list, of_list};
ghost use Rattle.vx_model.specs.WellFormed.{WellFormed};
ghost use Rattle.vx_model.specs.Whole.{IsWhole};
ghost use Rattle.vx_compressor.specs.Cascade.{setting, leaf_tree};
ghost use Rattle.vx_compressor.specs.CascadeLaws.{IsWithin};

use crate::compressor::{CascadingCompressor, flat_plain_tree, flat_tree};
use crate::offsets::offsets_tree;
use crate::trials::with_tree;
use std::alloc::Global;
use vx_array::{ArrayRef, Arrays, Node};
use vx_base::{ExecutionCtx, Mask, Names, Nullability, VortexResult};
use vx_scheme::Scheme;

/// The tree of the array's column.
pub(crate) fn column_tree<S: Scheme>(
    compressor: &CascadingCompressor<S>,
    array: &ArrayRef,
    ctx: &mut ExecutionCtx,
) -> VortexResult<ArrayRef>
    requires { IsWithin (column_of array.now) }
    ensures answer { Answers result (cascade (leaf_tree (setting S.meaning compressor.now ctx.old)) (column_of array.now)) }
    ensures ctx { ctx.new ≡ ctx.old }
{
    if array.dtype().is_flat() {
        return flat_tree(compressor, array, ctx);
    }
    let plain = plain_copy(ctx.alloc(), array)?;
    plain_tree(compressor, plain, ctx)
}

/// The plain tree of the array's column.
pub(crate) fn plain_copy(alloc: Global, array: &ArrayRef) -> VortexResult<ArrayRef>
    ensures { Answers result (plain (column_of array.now)) }
{
    if array.is_plain() {
        array.copy(alloc)
    } else {
        array.canonical(alloc)
    }
}

/// The tree of a plain tree's column. The children of structs and lists move to where they become trees, without a copy.
#[cycle(nested)]
pub(crate) fn plain_tree<S: Scheme>(
    compressor: &CascadingCompressor<S>,
    plain: ArrayRef,
    ctx: &mut ExecutionCtx,
) -> VortexResult<ArrayRef>
    requires { IsWhole plain }
    ensures answer { Answers result (cascade (leaf_tree (setting S.meaning compressor.now ctx.old)) (column_of plain)) }
    ensures ctx { ctx.new ≡ ctx.old }
{
    if plain.dtype().is_flat() {
        return flat_plain_tree(compressor, plain, ctx);
    }
    match plain.into_node() {
        Node::Null(len) => Ok(ArrayRef::null(len)),
        Node::Struct(names, fields, len, valid, nullability) => {
            let fields = field_trees(compressor, fields, ctx)?;
            struct_over(ctx.alloc(), names, fields, len, valid, nullability)
        }
        Node::List(elements, offsets, valid, nullability) => {
            let end = elements.array.len();
            let elements = plain_tree(compressor, Box::into_inner(elements.array), ctx)?;
            let offsets = offsets_tree(compressor, Box::into_inner(offsets.array), end, ctx)?;
            list_over(ctx.alloc(), elements, offsets, valid, nullability)
        }
        Node::FixedSizeList(elements, size, len, valid, nullability) => {
            let elements = plain_tree(compressor, Box::into_inner(elements.array), ctx)?;
            fixed_size_list_over(ctx.alloc(), elements, size, len, valid, nullability)
        }
        _ => unreachable!(),
    }
}

// The trees of the fields' columns, in order.
#[cycle(nested)]
fn field_trees<S: Scheme>(
    compressor: &CascadingCompressor<S>,
    fields: Arrays,
    ctx: &mut ExecutionCtx,
) -> VortexResult<Arrays>
    requires { All IsWhole fields }
    ensures answer { Answers result (map (λ field. cascade (leaf_tree (setting S.meaning compressor.now ctx.old)) (column_of field)) fields) }
    ensures ctx { ctx.new ≡ ctx.old }
{
    let mut trees = Arrays::new_in(ctx.alloc());
    for field in fields.into_vec() {
        let tree = plain_tree(compressor, field, ctx)?;
        trees = with_tree(trees, tree)?;
    }
    Ok(trees)
}

// A struct over field trees that its constructor accepts.
fn struct_over(
    alloc: Global,
    names: Names,
    fields: Arrays,
    len: u64,
    valid: Option<Mask>,
    nullability: Nullability,
) -> VortexResult<ArrayRef>
    requires { WellFormed (structure names (of_list fields) len valid nullability) }
    ensures { Answers result (structure names (of_list fields) len valid nullability) }
{
    match ArrayRef::structure(alloc, names, fields, len, valid, nullability) {
        Ok(tree) => Ok(tree),
        Err(refused) => Err(refused.error),
    }
}

// Lists over an element tree and an offset tree that their constructor accepts.
fn list_over(
    alloc: Global,
    elements: ArrayRef,
    offsets: ArrayRef,
    valid: Option<Mask>,
    nullability: Nullability,
) -> VortexResult<ArrayRef>
    requires { WellFormed (list elements offsets valid nullability) }
    ensures { Answers result (list elements offsets valid nullability) }
{
    match ArrayRef::list_of_offsets(alloc, elements, offsets, valid, nullability) {
        Ok(tree) => Ok(tree),
        Err(refused) => Err(refused.error),
    }
}

// Fixed-size lists over an element tree that their constructor accepts.
fn fixed_size_list_over(
    alloc: Global,
    elements: ArrayRef,
    size: u32,
    len: u64,
    valid: Option<Mask>,
    nullability: Nullability,
) -> VortexResult<ArrayRef>
    requires { WellFormed (fixed_size_list elements size len valid nullability) }
    ensures { Answers result (fixed_size_list elements size len valid nullability) }
{
    match ArrayRef::fixed_size_list(alloc, elements, size, len, valid, nullability) {
        Ok(tree) => Ok(tree),
        Err(refused) => Err(refused.error),
    }
}
