//! Children of a site, with ample memory.

use crate::comparing::{Form, form_of};
use std::alloc::Global;
use std::test::Fail;
use vx_array::ArrayRef;
use vx_base::ArrayId::{Constant, Primitive};
use vx_base::PType::U8;
use vx_base::{VortexError, VortexResult};
use vx_compressor::{CascadingCompressor, Schemes};
use vx_fixtures::{accepted, column, context, has_wholes};
use vx_scheme::{CompressorContext, NoScheme, Scheme};
use vx_schemes::BitPackingScheme;

// What a short leaf column becomes as child 0 of a scheme at a site.
fn tree_of_child<S: Scheme>(
    alloc: Global,
    compressor: &CascadingCompressor<S>,
    child: &ArrayRef,
    scheme: &S,
    site: &CompressorContext,
) -> VortexResult<ArrayRef> {
    if !child.dtype().is_leaf() || child.len() > 100 {
        return Err(VortexError::MismatchedTypes);
    }
    let mut ctx = context(alloc)?;
    compressor.compress_child(child, site, scheme.id(), 0, &mut ctx)
}

// The form of that tree below the scheme that takes nothing.
fn form_of_child(
    alloc: Global,
    compressor: &CascadingCompressor<NoScheme>,
    child: &ArrayRef,
    site: &CompressorContext,
) -> VortexResult<Form> {
    let tree = tree_of_child(alloc, compressor, child, &NoScheme, site)?;
    Ok(form_of(&tree))
}

#[test]
fn a_child_is_compressed_while_schemes_may_follow(rt: HostRuntime) -> Result<(), Fail> {
    let schemes = Schemes::from_vec(vec![in rt.alloc(); NoScheme]?);
    let compressor = accepted(CascadingCompressor::new(rt.alloc(), schemes))?;
    let child = column(rt.alloc(), U8, &[Some(7), Some(7), Some(7)])?;
    let top = CompressorContext::new();
    let below_top = form_of_child(rt.alloc(), &compressor, &child, &top)?;
    let below_leaf = form_of_child(rt.alloc(), &compressor, &child, &top.as_leaf())?;
    assert!(rt; below_top == (Constant, 2, None) && below_leaf == (Primitive, 3, None));
    Ok(())
}

// The child of bit packing at a site without budget, by a compressor over bit packing alone.
fn below_a_leaf(alloc: Global, child: &ArrayRef) -> VortexResult<ArrayRef> {
    let packing = BitPackingScheme::v1();
    let schemes = Schemes::from_vec(vec![in alloc; packing]?);
    let compressor = accepted(CascadingCompressor::new(alloc, schemes))?;
    let site = CompressorContext::new().as_leaf();
    tree_of_child(alloc, &compressor, child, &packing, &site)
}

#[test]
fn a_child_is_copied_where_no_budget_is_left(rt: HostRuntime) -> Result<(), Fail> {
    let child = column(rt.alloc(), U8, &[Some(3), Some(1)])?;
    let tree = below_a_leaf(rt.alloc(), &child)?;
    assert!(rt; form_of(&tree) == (Primitive, 2, None) && has_wholes(&tree, &[3, 1]));
    Ok(())
}
