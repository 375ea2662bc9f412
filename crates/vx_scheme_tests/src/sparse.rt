//! The sparse scheme, over columns worked by hand.

use crate::shapes::makes;
use std::test::Fail;
use vx_base::ArrayId::{Constant, Primitive, Sparse};
use vx_base::PType::{I32, U8};
use vx_fixtures::{Told, told_of};
use vx_scheme::CompressorContext;
use vx_schemes_runs::SparseScheme;

const NINE_ONES: [Option<i128>; 10] = [
    Some(1),
    Some(1),
    Some(1),
    Some(1),
    Some(1),
    Some(1),
    Some(1),
    Some(1),
    Some(1),
    Some(2),
];

const EIGHT_ONES: [Option<i128>; 10] = [
    Some(1),
    Some(1),
    Some(1),
    Some(1),
    Some(1),
    Some(1),
    Some(1),
    Some(1),
    Some(2),
    Some(3),
];

const MOST_NULL: [Option<i128>; 11] = [
    Some(3),
    None,
    None,
    None,
    None,
    None,
    None,
    None,
    None,
    None,
    None,
];

#[test]
fn one_value_has_to_stand_in_nine_of_ten(rt: HostRuntime) -> Result<(), Fail> {
    let top = CompressorContext::new();
    for (rows, estimate) in [
        (&NINE_ONES[..], Told::Ratio(10, 1)),
        (&EIGHT_ONES[..], Told::Nothing),
        (&MOST_NULL[..], Told::Ratio(11, 1)),
        (&[Some(4), Some(4)][..], Told::Nothing),
    ] {
        let told = told_of(rt.alloc(), &SparseScheme, &top, I32, rows)?;
        assert!(rt; told == (estimate, Told::Nothing), "{rows:?}");
    }
    Ok(())
}

#[test]
fn other_rows_are_patches(rt: HostRuntime) -> Result<(), Fail> {
    let children = [
        (Primitive, U8, 1, &[Some(9)][..]),
        (Primitive, I32, 4, &[Some(2)][..]),
    ];
    let root = (Sparse, I32, 10, &NINE_ONES[..]);
    let over_ones = makes(rt.alloc(), &SparseScheme, 2, root, &children)?;
    let children = [
        (Primitive, U8, 1, &[Some(0)][..]),
        (Primitive, I32, 4, &[Some(3)][..]),
    ];
    let root = (Sparse, I32, 6, &MOST_NULL[..]);
    let over_nulls = makes(rt.alloc(), &SparseScheme, 2, root, &children)?;
    // A null is a patch of a value.
    let rows = &[Some(5), None, Some(5)];
    let children = [
        (Primitive, U8, 1, &[Some(1)][..]),
        (Primitive, I32, 5, &[None][..]),
    ];
    let of_a_null = makes(
        rt.alloc(),
        &SparseScheme,
        2,
        (Sparse, I32, 11, rows),
        &children,
    )?;
    assert!(rt; over_ones && over_nulls && of_a_null);
    Ok(())
}

#[test]
fn one_value_in_every_row_is_a_constant(rt: HostRuntime) -> Result<(), Fail> {
    for (rows, size) in [([Some(4), Some(4)], 5), ([None, None], 1)] {
        let made = makes(
            rt.alloc(),
            &SparseScheme,
            0,
            (Constant, I32, size, &rows),
            &[],
        )?;
        assert!(rt; made);
    }
    Ok(())
}
