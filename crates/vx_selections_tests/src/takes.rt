//! Take.

use crate::printed::{is_refused, prints, taken};
use crate::trees::{
    dictionary, equal_lists, holes, lists, moments, pairs, sparse, structs, texts, truths, wholes,
};
use std::alloc::Global;
use std::test::Fail;
use vx_array::ArrayRef;
use vx_base::Nullability::{NonNullable, Nullable};
use vx_base::PType::{I32, U8};
use vx_base::{ArrayId, Nullability, Scalar, VortexError, VortexResult};
use vx_fixtures::{accepted, flat, has_stamps, with_nulls};

// Whether the rows 3, 0 and 0 print as these.
fn takes_three(
    alloc: Global,
    tree: &ArrayRef,
    nullability: Nullability,
    rows: &[&str],
) -> VortexResult<bool> {
    let indices = flat(alloc, U8, NonNullable, &[3, 0, 0])?;
    prints(alloc, &taken(alloc, tree, &indices)?, nullability, rows)
}

#[test]
fn rows_of_flat_types(rt: HostRuntime) -> Result<(), Fail> {
    let alloc = rt.alloc();
    assert!(rt; takes_three(alloc, &truths(alloc)?, Nullable, &["true", "true", "true"])?);
    assert!(rt; takes_three(alloc, &wholes(alloc)?, NonNullable, &["40", "10", "10"])?);
    assert!(rt; takes_three(alloc, &holes(alloc)?, Nullable, &["null", "10", "10"])?);
    assert!(rt;
        takes_three(
            alloc,
            &texts(alloc)?,
            Nullable,
            &["\"def\"", "\"a\"", "\"a\""]
        )?
    );
    Ok(())
}

#[test]
fn rows_of_nested_types(rt: HostRuntime) -> Result<(), Fail> {
    let alloc = rt.alloc();
    let rows = ["[40,[3]]", "[10,[1,2]]", "[10,[1,2]]"];
    assert!(rt; takes_three(alloc, &lists(alloc)?, Nullable, &["[3]", "[1,2]", "[1,2]"])?);
    assert!(rt;
        takes_three(
            alloc,
            &pairs(alloc)?,
            NonNullable,
            &["[7,8]", "[1,2]", "[1,2]"]
        )?
    );
    assert!(rt; takes_three(alloc, &structs(alloc)?, NonNullable, &rows)?);
    assert!(rt;
        takes_three(
            alloc,
            &equal_lists(alloc)?,
            NonNullable,
            &["[1,2]", "[1,2]", "[1,2]"]
        )?
    );
    assert!(rt;
        takes_three(
            alloc,
            &ArrayRef::null(4),
            Nullable,
            &["null", "null", "null"]
        )?
    );
    Ok(())
}

// Whether the rows 2, none and 1 print as these; what stands beneath the null index is no row.
fn takes_nothing(alloc: Global, tree: &ArrayRef, rows: &[&str]) -> VortexResult<bool> {
    let indices = with_nulls(alloc, I32, &[2, -7, 1], &[true, false, true])?;
    prints(alloc, &taken(alloc, tree, &indices)?, Nullable, rows)
}

#[test]
fn a_null_index_takes_a_null(rt: HostRuntime) -> Result<(), Fail> {
    let alloc = rt.alloc();
    assert!(rt; takes_nothing(alloc, &wholes(alloc)?, &["30", "null", "20"])?);
    assert!(rt; takes_nothing(alloc, &texts(alloc)?, &["null", "null", "\"bc\""])?);
    assert!(rt; takes_nothing(alloc, &pairs(alloc)?, &["[5,6]", "null", "[3,4]"])?);
    assert!(rt; takes_nothing(alloc, &structs(alloc)?, &["[30,null]", "null", "[20,[]]"])?);
    Ok(())
}

#[test]
fn rows_of_an_encoded_tree(rt: HostRuntime) -> Result<(), Fail> {
    let alloc = rt.alloc();
    let indices = flat(alloc, U8, NonNullable, &[6, 5, 3])?;
    let column = taken(alloc, &sparse(alloc)?, &indices)?;
    assert!(rt; prints(alloc, &column, Nullable, &["55", "null", "44"])?);
    assert!(rt; takes_three(alloc, &dictionary(alloc)?, Nullable, &["8", "7", "7"])?);
    Ok(())
}

#[test]
fn rows_that_are_not_decoded(rt: HostRuntime) -> Result<(), Fail> {
    let alloc = rt.alloc();
    let indices = flat(alloc, U8, NonNullable, &[2, 1])?;
    let column = taken(alloc, &dictionary(alloc)?, &indices)?;
    assert!(rt; column.encoding_id() == ArrayId::Dict);
    assert!(rt; prints(alloc, &column, Nullable, &["7", "null"])?);
    Ok(())
}

#[test]
fn a_constant_is_taken_as_often_as_there_are_indices(rt: HostRuntime) -> Result<(), Fail> {
    let alloc = rt.alloc();
    let same = ArrayRef::constant(Scalar::primitive(7, I32, NonNullable)?, 4);
    let column = taken(alloc, &same, &flat(alloc, U8, NonNullable, &[3, 0])?)?;
    assert!(rt; column.encoding_id() == ArrayId::Constant);
    assert!(rt; prints(alloc, &column, NonNullable, &["7", "7"])?);
    assert!(rt; takes_nothing(alloc, &same, &["7", "null", "7"])?);
    let outside = flat(alloc, U8, NonNullable, &[4])?;
    assert!(rt; is_refused(taken(alloc, &same, &outside), VortexError::OutOfBounds));
    Ok(())
}

#[test]
fn few_rows_of_many_are_found_one_by_one(rt: HostRuntime) -> Result<(), Fail> {
    let alloc = rt.alloc();
    let odd = ArrayRef::sequence(I32, NonNullable, 1, 2, 1000)?;
    let column = taken(alloc, &odd, &flat(alloc, I32, NonNullable, &[999, 0, 500])?)?;
    assert!(rt; prints(alloc, &column, NonNullable, &["1999", "1", "1001"])?);
    assert!(rt; takes_nothing(alloc, &odd, &["5", "null", "3"])?);
    Ok(())
}

#[test]
fn indices_may_be_encoded(rt: HostRuntime) -> Result<(), Fail> {
    let alloc = rt.alloc();
    let codes = flat(alloc, U8, NonNullable, &[1, 0])?;
    let values = flat(alloc, U8, NonNullable, &[3, 2])?;
    let indices = accepted(ArrayRef::dict(alloc, codes, values))?;
    let column = taken(alloc, &wholes(alloc)?, &indices)?;
    assert!(rt; prints(alloc, &column, NonNullable, &["30", "40"])?);
    Ok(())
}

#[test]
fn encoded_indices_may_be_null(rt: HostRuntime) -> Result<(), Fail> {
    let alloc = rt.alloc();
    let codes = flat(alloc, U8, NonNullable, &[1, 0, 1])?;
    let values = with_nulls(alloc, U8, &[3, 9], &[true, false])?;
    let indices = accepted(ArrayRef::dict(alloc, codes, values))?;
    let column = taken(alloc, &lists(alloc)?, &indices)?;
    assert!(rt; prints(alloc, &column, Nullable, &["null", "[3]", "null"])?);
    Ok(())
}

#[test]
fn encoded_indices_are_refused(rt: HostRuntime) -> Result<(), Fail> {
    let alloc = rt.alloc();
    let codes = flat(alloc, U8, NonNullable, &[1, 0])?;
    let values = flat(alloc, U8, NonNullable, &[3, 4])?;
    let indices = accepted(ArrayRef::dict(alloc, codes, values))?;
    assert!(rt;
        is_refused(
            taken(alloc, &wholes(alloc)?, &indices),
            VortexError::OutOfBounds
        )
    );
    Ok(())
}

#[test]
fn other_indices_are_refused(rt: HostRuntime) -> Result<(), Fail> {
    let alloc = rt.alloc();
    let tree = wholes(alloc)?;
    let four = flat(alloc, U8, NonNullable, &[0, 4])?;
    let below = flat(alloc, I32, NonNullable, &[-1])?;
    assert!(rt; is_refused(taken(alloc, &tree, &four), VortexError::OutOfBounds));
    assert!(rt; is_refused(taken(alloc, &tree, &below), VortexError::OutOfBounds));
    assert!(rt;
        is_refused(
            taken(alloc, &tree, &texts(alloc)?),
            VortexError::MismatchedTypes
        )
    );
    Ok(())
}

#[test]
fn rows_of_timestamps(rt: HostRuntime) -> Result<(), Fail> {
    let alloc = rt.alloc();
    let indices = with_nulls(alloc, I32, &[3, 9, 0], &[true, false, true])?;
    let column = taken(alloc, &moments(alloc)?, &indices)?;
    assert!(rt; has_stamps(&column, &[Some(86_400), None, Some(-1)]));
    Ok(())
}

// Null alone may be an index of no rows.
#[test]
fn rows_of_no_rows(rt: HostRuntime) -> Result<(), Fail> {
    let alloc = rt.alloc();
    let none = flat(alloc, I32, NonNullable, &[])?;
    let indices = with_nulls(alloc, U8, &[0], &[false])?;
    let column = taken(alloc, &none, &indices)?;
    assert!(rt; prints(alloc, &column, Nullable, &["null"])?);
    Ok(())
}
