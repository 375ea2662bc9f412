//! Lists of trees.

use std::alloc::Global;
use std::test::Fail;
use vx_array::Arrays;
use vx_base::Nullability::NonNullable;
use vx_base::PType::{U8, U16};
use vx_base::{VortexError, VortexResult};
use vx_fixtures::{flat, has_wholes};

// A tree with the one row 5, and one with the one row 300.
fn two(alloc: Global) -> VortexResult<Arrays> {
    let mut trees = Arrays::new_in(alloc);
    for (ptype, whole) in [(U8, 5), (U16, 300)] {
        let tree = flat(alloc, ptype, NonNullable, &[whole])?;
        trees.push(tree).ok().ok_or(VortexError::NoMemory)?;
    }
    Ok(trees)
}

// Whether the tree at a place has this one row.
fn is_at(trees: &Arrays, place: u64, whole: i128) -> bool {
    match trees.get(place) {
        Some(tree) => has_wholes(tree, &[whole]),
        None => false,
    }
}

#[test]
fn lists_of_trees_grow(rt: HostRuntime) -> Result<(), Fail> {
    let trees = two(rt.alloc())?;
    assert!(rt; trees.len() == 2 && is_at(&trees, 0, 5) && is_at(&trees, 1, 300));
    Ok(())
}
