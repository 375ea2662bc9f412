//! Flat integers, constants and masked constants.

use std::test::Fail;
use vx_array::ArrayRef;
use vx_base::Nullability::Nullable;
use vx_base::PType::{I16, U8};
use vx_base::Scalar;
use vx_fixtures::{accepted, bits, is_made_plain, with_nulls};

#[test]
fn a_primitive_is_copied_and_made_plain(rt: HostRuntime) -> Result<(), Fail> {
    let tree = with_nulls(rt.alloc(), I16, &[300, 9, -7], &[true, false, true])?;
    let rows = [Some(300), None, Some(-7)];
    assert!(rt; !tree.is_plain() && is_made_plain(rt.alloc(), &tree, (7, 7), &rows)?);
    Ok(())
}

#[test]
fn a_masked_constant_is_copied_and_made_plain(rt: HostRuntime) -> Result<(), Fail> {
    let fives = ArrayRef::constant(Scalar::primitive(5, U8, Nullable)?, 3);
    let valid = bits(rt.alloc(), &[true, true, false])?;
    let tree = accepted(ArrayRef::masked(rt.alloc(), fives, valid))?;
    assert!(rt; is_made_plain(rt.alloc(), &tree, (3, 4), &[Some(5), Some(5), None])?);
    Ok(())
}
