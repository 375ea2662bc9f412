//! The run-end scheme, over columns worked by hand.

use crate::run_length::in_turn;
use crate::shapes::makes;
use std::test::Fail;
use vx_base::ArrayId::{Primitive, RunEnd};
use vx_base::PType::{I32, U8, U16, U32};
use vx_fixtures::{Told, told_of};
use vx_scheme::CompressorContext;
use vx_schemes_runs::RunEndScheme;

#[test]
fn four_values_a_run_are_tried(rt: HostRuntime) -> Result<(), Fail> {
    let top = CompressorContext::new();
    for (site, rows, estimate) in [
        (
            top,
            &[Some(1), Some(1), Some(1), Some(1)][..],
            Told::Sampled,
        ),
        (
            top.as_leaf(),
            &[Some(1), Some(1), Some(1), Some(1)],
            Told::Sampled,
        ),
        (top, &[Some(1), Some(1), Some(1), None], Told::Nothing),
        (top, &[Some(1), Some(1), Some(1), Some(2)], Told::Nothing),
        // A null between equal values ends no run where runs are counted.
        (
            top,
            &[Some(2), Some(2), None, Some(2), Some(2)],
            Told::Sampled,
        ),
    ] {
        let told = told_of(rt.alloc(), &RunEndScheme, &site, I32, rows)?;
        assert!(rt; told == (estimate, Told::Nothing), "{rows:?}");
    }
    Ok(())
}

#[test]
fn runs_stand_over_their_ends_and_values(rt: HostRuntime) -> Result<(), Fail> {
    let rows = &[Some(5), Some(5), None, None, Some(5)];
    let ends = &[Some(2), Some(4), Some(5)][..];
    let values = &[Some(5), None, Some(5)][..];
    let children = [(Primitive, U8, 3, ends), (Primitive, I32, 13, values)];
    let of_values = makes(
        rt.alloc(),
        &RunEndScheme,
        2,
        (RunEnd, I32, 16, rows),
        &children,
    )?;
    let children = [
        (Primitive, U8, 1, &[Some(2)][..]),
        (Primitive, I32, 5, &[None][..]),
    ];
    let nulls = (RunEnd, I32, 6, &[None, None][..]);
    let of_nulls = makes(rt.alloc(), &RunEndScheme, 2, nulls, &children)?;
    assert!(rt; of_values && of_nulls);
    Ok(())
}

#[test]
fn ends_take_the_narrowest_type(rt: HostRuntime) -> Result<(), Fail> {
    let rows = in_turn(rt.alloc(), &[(7, 256)])?;
    let ends = &[Some(256)][..];
    let children = [
        (Primitive, U16, 2, ends),
        (Primitive, U32, 4, &[Some(7)][..]),
    ];
    let root = (RunEnd, U32, 6, rows.as_slice());
    let made = makes(rt.alloc(), &RunEndScheme, 2, root, &children)?;
    assert!(rt; made);
    Ok(())
}
