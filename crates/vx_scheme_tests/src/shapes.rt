//! Trees, compared by their shapes.

use std::alloc::Global;
use vx_array::ArrayRef;
use vx_base::{ArrayId, PType, VortexResult};
use vx_fixtures::{has_rows, made_of};
use vx_scheme::Scheme;

// The encoding, type, bytes and rows of a tree.
pub(crate) type Shape<'a> = (ArrayId, PType, u128, &'a [Option<i128>]);

// Whether this is the shape of a tree.
pub(crate) fn has_shape(tree: &ArrayRef, shape: &Shape) -> bool {
    let (encoding, ptype, nbytes, rows) = *shape;
    tree.encoding_id() == encoding
        && tree.dtype().is_integer()
        && tree.dtype().ptype() == ptype
        && tree.nbytes() == nbytes
        && has_rows(tree, rows)
}

// Whether these are the shapes of a tree and of its children.
pub(crate) fn is_tree(tree: &ArrayRef, root: Shape, children: &[Shape]) -> bool {
    if !has_shape(tree, &root) || tree.num_children() != children.len() {
        return false;
    }
    for place in 0..children.len() {
        match tree.child(place) {
            Some(child) if has_shape(child, &children[place]) => {}
            _ => return false,
        }
    }
    true
}

// Whether a scheme makes this number of parts of a tree's rows, and this is the tree with the parts as they are.
pub(crate) fn makes<S: Scheme>(
    alloc: Global,
    scheme: &S,
    parts: u64,
    root: Shape,
    children: &[Shape],
) -> VortexResult<bool> {
    let (_, ptype, _, rows) = root;
    let (made, tree) = made_of(alloc, scheme, ptype, rows)?;
    Ok(made == parts && is_tree(&tree, root, children))
}
