//! Listings of small trees. The expected lines are worked out by hand.

use std::alloc::{AllocError, Global};
use std::test::Fail;
use vx_array::{ArrayRef, Patches};
use vx_base::Nullability::NonNullable;
use vx_base::PType::{I8, I32, U8};
use vx_base::{Scalar, VortexResult};
use vx_fixtures::{accepted, flat};
use vx_program::listing_text;

// Whether the listing of the tree is this text.
fn lists(alloc: Global, tree: &ArrayRef, text: &str) -> Result<bool, AllocError> {
    Ok(listing_text(alloc, tree)?.as_str() == text)
}

// The rows 9, 7 and 9 as a dictionary.
fn dict(alloc: Global) -> VortexResult<ArrayRef> {
    let codes = flat(alloc, U8, NonNullable, &[1, 0, 1])?;
    let values = flat(alloc, U8, NonNullable, &[7, 9])?;
    accepted(ArrayRef::dict(alloc, codes, values))
}

#[test]
fn codes_come_before_their_values(rt: HostRuntime) -> Result<(), Fail> {
    let tree = dict(rt.alloc())?;
    let listing =
        "vortex.dict u8 len=3 size=5\n  vortex.primitive u8 len=3 size=3\n  vortex.primitive u8 len=2 size=2\n";
    assert!(rt; lists(rt.alloc(), &tree, listing)?);
    Ok(())
}

// Eight rows of 1, but for 10, 20 and 30 in the rows 1, 3 and 5. The offset 2 stands in each index.
fn sparse(alloc: Global) -> VortexResult<ArrayRef> {
    let indices = flat(alloc, U8, NonNullable, &[3, 5, 7])?;
    let values = flat(alloc, I32, NonNullable, &[10, 20, 30])?;
    let patches = accepted(Patches::new(8, 2, indices, values))?;
    let fill = Scalar::primitive(1, I32, NonNullable)?;
    accepted(ArrayRef::sparse(alloc, patches, fill))
}

// 20 bytes: three indices of 1 byte, three values of 4, and 1 + 4 of the fill.
#[test]
fn the_numbers_of_a_sparse_column(rt: HostRuntime) -> Result<(), Fail> {
    let tree = sparse(rt.alloc())?;
    let listing =
        "vortex.sparse i32 len=8 size=20 offset=2 fill=1 patches=3\n  vortex.primitive u8 len=3 size=3\n  vortex.primitive i32 len=3 size=12\n";
    assert!(rt; lists(rt.alloc(), &tree, listing)?);
    Ok(())
}

// A sequence takes no byte.
#[test]
fn the_numbers_of_a_sequence(rt: HostRuntime) -> Result<(), Fail> {
    let falling = ArrayRef::sequence(I8, NonNullable, 100, -7, 3)?;
    let listing = "vortex.sequence i8 len=3 size=0 first=100 step=-7\n";
    assert!(rt; lists(rt.alloc(), &falling, listing)?);
    Ok(())
}
