//! Mask.

use crate::printed::{is_refused, masked, prints};
use crate::trees::{
    dictionary, equal_lists, holes, lists, moments, pairs, sparse, structs, texts, truths, wholes,
};
use std::alloc::Global;
use std::test::Fail;
use vx_array::ArrayRef;
use vx_base::Nullability::{NonNullable, Nullable};
use vx_base::PType::U8;
use vx_base::{VortexError, VortexResult};
use vx_fixtures::{bits, flat, has_stamps};

// Whether four rows print as these, the rows 0 and 2 of them masked.
fn masks_even(alloc: Global, tree: &ArrayRef, rows: &[&str]) -> VortexResult<bool> {
    let keep = bits(alloc, &[false, true, false, true])?;
    prints(alloc, &masked(alloc, tree, &keep)?, Nullable, rows)
}

#[test]
fn rows_of_flat_types(rt: HostRuntime) -> Result<(), Fail> {
    let alloc = rt.alloc();
    assert!(rt; masks_even(alloc, &truths(alloc)?, &["null", "false", "null", "true"])?);
    assert!(rt; masks_even(alloc, &wholes(alloc)?, &["null", "20", "null", "40"])?);
    assert!(rt; masks_even(alloc, &holes(alloc)?, &["null", "null", "null", "null"])?);
    assert!(rt;
        masks_even(
            alloc,
            &texts(alloc)?,
            &["null", "\"bc\"", "null", "\"def\""]
        )?
    );
    Ok(())
}

#[test]
fn rows_of_nested_types(rt: HostRuntime) -> Result<(), Fail> {
    let alloc = rt.alloc();
    let nulls = ArrayRef::null(4);
    assert!(rt; masks_even(alloc, &lists(alloc)?, &["null", "[]", "null", "[3]"])?);
    assert!(rt; masks_even(alloc, &pairs(alloc)?, &["null", "[3,4]", "null", "[7,8]"])?);
    assert!(rt;
        masks_even(
            alloc,
            &structs(alloc)?,
            &["null", "[20,[]]", "null", "[40,[3]]"]
        )?
    );
    assert!(rt;
        masks_even(
            alloc,
            &equal_lists(alloc)?,
            &["null", "[1,2]", "null", "[1,2]"]
        )?
    );
    assert!(rt; masks_even(alloc, &nulls, &["null", "null", "null", "null"])?);
    Ok(())
}

#[test]
fn rows_of_an_encoded_tree(rt: HostRuntime) -> Result<(), Fail> {
    let alloc = rt.alloc();
    let keep = bits(alloc, &[true, true, false, false, true, true, true])?;
    let column = masked(alloc, &sparse(alloc)?, &keep)?;
    let rows = ["33", "null", "null", "null", "null", "null", "55"];
    assert!(rt; prints(alloc, &column, Nullable, &rows)?);
    assert!(rt; masks_even(alloc, &dictionary(alloc)?, &["null", "null", "null", "8"])?);
    Ok(())
}

// The type is nullable even if no row is null.
#[test]
fn a_mask_that_keeps_all_rows(rt: HostRuntime) -> Result<(), Fail> {
    let alloc = rt.alloc();
    let keep = bits(alloc, &[true, true, true, true])?;
    let column = masked(alloc, &wholes(alloc)?, &keep)?;
    assert!(rt; prints(alloc, &column, Nullable, &["10", "20", "30", "40"])?);
    Ok(())
}

#[test]
fn a_mask_of_another_length_is_refused(rt: HostRuntime) -> Result<(), Fail> {
    let alloc = rt.alloc();
    let tree = wholes(alloc)?;
    let short = bits(alloc, &[true, true, true])?;
    let long = bits(alloc, &[true, true, true, true, true])?;
    let length = VortexError::LengthMismatch;
    assert!(rt; is_refused(masked(alloc, &tree, &short), length));
    assert!(rt; is_refused(masked(alloc, &tree, &long), length));
    Ok(())
}

#[test]
fn rows_of_timestamps(rt: HostRuntime) -> Result<(), Fail> {
    let alloc = rt.alloc();
    let keep = bits(alloc, &[false, true, true, true])?;
    let column = masked(alloc, &moments(alloc)?, &keep)?;
    assert!(rt; has_stamps(&column, &[None, None, Some(5), Some(86_400)]));
    Ok(())
}

#[test]
fn no_rows(rt: HostRuntime) -> Result<(), Fail> {
    let alloc = rt.alloc();
    let none = bits(alloc, &[])?;
    let tree = flat(alloc, U8, NonNullable, &[])?;
    assert!(rt; prints(alloc, &masked(alloc, &tree, &none)?, Nullable, &[])?);
    assert!(rt;
        prints(
            alloc,
            &masked(alloc, &ArrayRef::null(0), &none)?,
            Nullable,
            &[]
        )?
    );
    Ok(())
}
