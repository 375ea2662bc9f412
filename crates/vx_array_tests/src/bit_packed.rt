//! Bit-packed columns: rows, sizes, plain trees and copies.

use std::alloc::Global;
use std::test::Fail;
use vx_array::{ArrayRef, Patches};
use vx_base::Nullability::{NonNullable, Nullable};
use vx_base::PType::{I16, U8};
use vx_base::VortexResult;
use vx_fixtures::{accepted, bits, flat, is_made_plain, packed};

#[test]
fn three_rows_at_two_bits(rt: HostRuntime) -> Result<(), Fail> {
    let alloc = rt.alloc();
    let bytes = packed(alloc, &[1u8, 2, 3], 2)?;
    let made = ArrayRef::bit_packed(alloc, U8, 2, bytes, 3, None, None, NonNullable);
    let tree = accepted(made)?;
    assert!(rt; is_made_plain(alloc, &tree, (256, 3), &[Some(1), Some(2), Some(3)])?);
    Ok(())
}

// Patches in rows 1 to 3 of five.
fn three_patches(alloc: Global) -> VortexResult<Patches> {
    let indices = flat(alloc, U8, NonNullable, &[11, 12, 13])?;
    let values = flat(alloc, I16, NonNullable, &[300, -7, 77])?;
    accepted(Patches::new(5, 10, indices, values))
}

// 5 to 9 at four bits; from row 1 on 300, -7 and 77 in their place, and row 3 is null.
fn patched(alloc: Global) -> VortexResult<ArrayRef> {
    let bytes = packed(alloc, &[5i16, 6, 7, 8, 9], 4)?;
    let valid = Some(bits(alloc, &[true, true, true, false, true])?);
    let patches = Some(three_patches(alloc)?);
    accepted(ArrayRef::bit_packed(alloc, I16, 4, bytes, 5, valid, patches, Nullable))
}

#[test]
fn patches_stand_in_place_of_rows_that_are_not_null(rt: HostRuntime) -> Result<(), Fail> {
    let tree = patched(rt.alloc())?;
    let rows = [Some(5), Some(300), Some(-7), None, Some(9)];
    // The packed bytes, the patches' indices and values, and validity.
    assert!(rt; is_made_plain(rt.alloc(), &tree, (512 + 3 + 6 + 1, 11), &rows)?);
    Ok(())
}
