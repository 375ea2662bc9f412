//! Filter.

use crate::printed::{filtered, is_refused, prints};
use crate::trees::{
    dictionary, equal_lists, holes, lists, moments, pairs, sparse, structs, texts, truths, wholes,
};
use std::alloc::Global;
use std::test::Fail;
use vx_array::ArrayRef;
use vx_base::Nullability::{NonNullable, Nullable};
use vx_base::{ArrayId, Nullability, VortexError, VortexResult};
use vx_fixtures::{bits, has_stamps};

// Whether the rows 1 and 3 of four print as these.
fn keeps_odd(
    alloc: Global,
    tree: &ArrayRef,
    nullability: Nullability,
    rows: &[&str],
) -> VortexResult<bool> {
    let keep = bits(alloc, &[false, true, false, true])?;
    prints(alloc, &filtered(alloc, tree, &keep)?, nullability, rows)
}

#[test]
fn rows_of_flat_types(rt: HostRuntime) -> Result<(), Fail> {
    let alloc = rt.alloc();
    assert!(rt; keeps_odd(alloc, &truths(alloc)?, Nullable, &["false", "true"])?);
    assert!(rt; keeps_odd(alloc, &wholes(alloc)?, NonNullable, &["20", "40"])?);
    assert!(rt; keeps_odd(alloc, &holes(alloc)?, Nullable, &["null", "null"])?);
    assert!(rt; keeps_odd(alloc, &texts(alloc)?, Nullable, &["\"bc\"", "\"def\""])?);
    Ok(())
}

#[test]
fn rows_of_nested_types(rt: HostRuntime) -> Result<(), Fail> {
    let alloc = rt.alloc();
    assert!(rt; keeps_odd(alloc, &lists(alloc)?, Nullable, &["[]", "[3]"])?);
    assert!(rt; keeps_odd(alloc, &pairs(alloc)?, NonNullable, &["[3,4]", "[7,8]"])?);
    assert!(rt;
        keeps_odd(
            alloc,
            &structs(alloc)?,
            NonNullable,
            &["[20,[]]", "[40,[3]]"]
        )?
    );
    assert!(rt;
        keeps_odd(
            alloc,
            &equal_lists(alloc)?,
            NonNullable,
            &["[1,2]", "[1,2]"]
        )?
    );
    assert!(rt; keeps_odd(alloc, &ArrayRef::null(4), Nullable, &["null", "null"])?);
    Ok(())
}

#[test]
fn rows_of_an_encoded_tree(rt: HostRuntime) -> Result<(), Fail> {
    let alloc = rt.alloc();
    let keep = bits(alloc, &[false, true, false, true, false, true, true])?;
    let kept = filtered(alloc, &sparse(alloc)?, &keep)?;
    assert!(rt; prints(alloc, &kept, Nullable, &["null", "44", "null", "55"])?);
    Ok(())
}

#[test]
fn a_mask_of_another_length_is_refused(rt: HostRuntime) -> Result<(), Fail> {
    let alloc = rt.alloc();
    let tree = wholes(alloc)?;
    let short = bits(alloc, &[true, true, true])?;
    let long = bits(alloc, &[true, true, true, true, true])?;
    let length = VortexError::LengthMismatch;
    assert!(rt; is_refused(filtered(alloc, &tree, &short), length));
    assert!(rt; is_refused(filtered(alloc, &tree, &long), length));
    Ok(())
}

#[test]
fn rows_of_timestamps(rt: HostRuntime) -> Result<(), Fail> {
    let alloc = rt.alloc();
    let keep = bits(alloc, &[true, true, false, true])?;
    let kept = filtered(alloc, &moments(alloc)?, &keep)?;
    assert!(rt; has_stamps(&kept, &[Some(-1), None, Some(86_400)]));
    Ok(())
}

#[test]
fn no_rows(rt: HostRuntime) -> Result<(), Fail> {
    let alloc = rt.alloc();
    let keep = bits(alloc, &[false, false, false, false])?;
    assert!(rt;
        prints(
            alloc,
            &filtered(alloc, &texts(alloc)?, &keep)?,
            Nullable,
            &[]
        )?
    );
    assert!(rt;
        prints(
            alloc,
            &filtered(alloc, &lists(alloc)?, &keep)?,
            Nullable,
            &[]
        )?
    );
    let none = bits(alloc, &[])?;
    assert!(rt;
        prints(
            alloc,
            &filtered(alloc, &ArrayRef::null(0), &none)?,
            Nullable,
            &[]
        )?
    );
    Ok(())
}

#[test]
fn rows_that_are_not_decoded(rt: HostRuntime) -> Result<(), Fail> {
    let alloc = rt.alloc();
    let keep = bits(alloc, &[true, true, false, true])?;
    let lists = filtered(alloc, &equal_lists(alloc)?, &keep)?;
    assert!(rt; lists.encoding_id() == ArrayId::Constant);
    let coded = filtered(alloc, &dictionary(alloc)?, &keep)?;
    assert!(rt; coded.encoding_id() == ArrayId::Dict);
    assert!(rt; prints(alloc, &coded, Nullable, &["7", "null", "8"])?);
    Ok(())
}
