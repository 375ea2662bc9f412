//! Slice, and single rows.

use crate::printed::{is_refused, prints, row_at, sliced};
use crate::trees::{
    dictionary, equal_lists, holes, lists, moments, pairs, sparse, structs, texts, truths, wholes,
};
use std::alloc::Global;
use std::test::Fail;
use vx_array::ArrayRef;
use vx_base::Nullability::{NonNullable, Nullable};
use vx_base::PType::{I32, U16};
use vx_base::{ArrayId, Nullability, VortexError, VortexResult};
use vx_fixtures::{accepted, flat, has_stamps, with_nulls};

// Whether the rows 1 and 2 of four print as these.
fn has_middle(
    alloc: Global,
    tree: &ArrayRef,
    nullability: Nullability,
    rows: &[&str],
) -> VortexResult<bool> {
    prints(alloc, &sliced(alloc, tree, 1, 3)?, nullability, rows)
}

#[test]
fn rows_of_flat_types(rt: HostRuntime) -> Result<(), Fail> {
    let alloc = rt.alloc();
    assert!(rt; has_middle(alloc, &truths(alloc)?, Nullable, &["false", "null"])?);
    assert!(rt; has_middle(alloc, &wholes(alloc)?, NonNullable, &["20", "30"])?);
    assert!(rt; has_middle(alloc, &holes(alloc)?, Nullable, &["null", "30"])?);
    assert!(rt; has_middle(alloc, &texts(alloc)?, Nullable, &["\"bc\"", "null"])?);
    Ok(())
}

#[test]
fn few_rows_of_long_runs(rt: HostRuntime) -> Result<(), Fail> {
    let alloc = rt.alloc();
    let ends = flat(alloc, U16, NonNullable, &[400, 1000])?;
    let values = with_nulls(alloc, I32, &[7, 8], &[true, false])?;
    let runs = accepted(ArrayRef::run_end(alloc, ends, values))?;
    assert!(rt;
        prints(
            alloc,
            &sliced(alloc, &runs, 399, 402)?,
            Nullable,
            &["7", "null", "null"]
        )?
    );
    assert!(rt; prints(alloc, &sliced(alloc, &runs, 1000, 1000)?, Nullable, &[])?);
    let most = sliced(alloc, &runs, 1, 999)?;
    assert!(rt; most.len() == 998 && most.is_null_at(399) && !most.is_null_at(398));
    Ok(())
}

#[test]
fn rows_of_nested_types(rt: HostRuntime) -> Result<(), Fail> {
    let alloc = rt.alloc();
    assert!(rt; has_middle(alloc, &lists(alloc)?, Nullable, &["[]", "null"])?);
    assert!(rt; has_middle(alloc, &pairs(alloc)?, NonNullable, &["[3,4]", "[5,6]"])?);
    assert!(rt;
        has_middle(
            alloc,
            &structs(alloc)?,
            NonNullable,
            &["[20,[]]", "[30,null]"]
        )?
    );
    assert!(rt;
        has_middle(
            alloc,
            &equal_lists(alloc)?,
            NonNullable,
            &["[1,2]", "[1,2]"]
        )?
    );
    assert!(rt; has_middle(alloc, &ArrayRef::null(4), Nullable, &["null", "null"])?);
    Ok(())
}

#[test]
fn rows_of_an_encoded_tree(rt: HostRuntime) -> Result<(), Fail> {
    let alloc = rt.alloc();
    let part = sliced(alloc, &sparse(alloc)?, 2, 7)?;
    assert!(rt;
        prints(
            alloc,
            &part,
            Nullable,
            &["null", "44", "null", "null", "55"]
        )?
    );
    Ok(())
}

#[test]
fn whole_and_empty_ranges(rt: HostRuntime) -> Result<(), Fail> {
    let alloc = rt.alloc();
    let tree = wholes(alloc)?;
    let all = sliced(alloc, &tree, 0, 4)?;
    let none = sliced(alloc, &tree, 4, 4)?;
    assert!(rt; prints(alloc, &all, NonNullable, &["10", "20", "30", "40"])?);
    assert!(rt; prints(alloc, &none, NonNullable, &[])?);
    Ok(())
}

#[test]
fn ranges_and_rows_out_of_bounds_are_refused(rt: HostRuntime) -> Result<(), Fail> {
    let alloc = rt.alloc();
    let tree = wholes(alloc)?;
    assert!(rt; is_refused(sliced(alloc, &tree, 3, 5), VortexError::OutOfBounds));
    assert!(rt; is_refused(sliced(alloc, &tree, 3, 2), VortexError::OutOfBounds));
    assert!(rt; is_refused(row_at(alloc, &tree, 4), VortexError::OutOfBounds));
    Ok(())
}

#[test]
fn rows_of_timestamps(rt: HostRuntime) -> Result<(), Fail> {
    let alloc = rt.alloc();
    let part = sliced(alloc, &moments(alloc)?, 1, 4)?;
    assert!(rt; has_stamps(&part, &[None, Some(5), Some(86_400)]));
    Ok(())
}

#[test]
fn rows_that_are_not_decoded(rt: HostRuntime) -> Result<(), Fail> {
    let alloc = rt.alloc();
    let lists = sliced(alloc, &equal_lists(alloc)?, 1, 3)?;
    assert!(rt; lists.encoding_id() == ArrayId::Constant);
    let coded = sliced(alloc, &dictionary(alloc)?, 1, 4)?;
    assert!(rt; coded.encoding_id() == ArrayId::Dict);
    assert!(rt; prints(alloc, &coded, Nullable, &["null", "7", "8"])?);
    let steps = ArrayRef::sequence(I32, NonNullable, 5, -2, 4)?;
    let part = sliced(alloc, &steps, 1, 3)?;
    assert!(rt; part.encoding_id() == ArrayId::Sequence);
    assert!(rt; prints(alloc, &part, NonNullable, &["3", "1"])?);
    assert!(rt; prints(alloc, &sliced(alloc, &steps, 4, 4)?, NonNullable, &[])?);
    Ok(())
}
