//! The run-length scheme, over columns worked by hand.

use crate::shapes::makes;
use std::alloc::Global;
use std::test::Fail;
use vx_base::ArrayId::{Primitive, Rle};
use vx_base::PType::{I32, U8, U32};
use vx_base::VortexResult;
use vx_fixtures::{Told, told_of};
use vx_scheme::CompressorContext;
use vx_schemes_runs::IntRLEScheme;

#[test]
fn four_values_a_run_are_tried_where_a_scheme_may_follow(rt: HostRuntime) -> Result<(), Fail> {
    let top = CompressorContext::new();
    for (site, rows, estimate) in [
        (top, [Some(1), Some(1), Some(1), Some(1)], Told::Sampled),
        (
            top.as_leaf(),
            [Some(1), Some(1), Some(1), Some(1)],
            Told::Nothing,
        ),
        (top, [Some(1), Some(1), Some(1), None], Told::Nothing),
        (top, [Some(1), Some(1), Some(1), Some(2)], Told::Nothing),
    ] {
        let told = told_of(rt.alloc(), &IntRLEScheme, &site, I32, &rows)?;
        assert!(rt; told == (estimate, Told::Nothing), "{rows:?}");
    }
    Ok(())
}

// Numbers one after another, each in a run of the given length.
pub(crate) fn in_turn(alloc: Global, numbers: &[(i128, u16)]) -> VortexResult<Vec<Option<i128>>> {
    let mut rows = Vec::new(alloc);
    for place in 0..numbers.len() {
        let (number, times) = numbers[place];
        for _ in 0..times {
            rows.push(Some(number))?;
        }
    }
    Ok(rows)
}

#[test]
fn nulls_make_a_run_of_their_own(rt: HostRuntime) -> Result<(), Fail> {
    let rows = &[Some(5), Some(5), None, None, Some(5)];
    let numbers = in_turn(rt.alloc(), &[(0, 2), (1, 2), (2, 1), (0, 1019)])?;
    let values = &[Some(5), None, Some(5)][..];
    let children = [
        (Primitive, I32, 13, values),
        (Primitive, U8, 1024, numbers.as_slice()),
        (Primitive, U8, 1, &[Some(0)][..]),
    ];
    let made = makes(
        rt.alloc(),
        &IntRLEScheme,
        3,
        (Rle, I32, 1038, rows),
        &children,
    )?;
    assert!(rt; made);
    Ok(())
}

#[test]
fn a_run_ends_with_its_block(rt: HostRuntime) -> Result<(), Fail> {
    let rows = in_turn(rt.alloc(), &[(0, 1000), (7, 1000)])?;
    let numbers = in_turn(rt.alloc(), &[(0, 1000), (1, 24), (0, 1024)])?;
    let children = [
        (Primitive, U32, 12, &[Some(0), Some(7), Some(7)][..]),
        (Primitive, U8, 2048, numbers.as_slice()),
        (Primitive, U8, 2, &[Some(0), Some(2)][..]),
    ];
    let root = (Rle, U32, 2062, rows.as_slice());
    let made = makes(rt.alloc(), &IntRLEScheme, 3, root, &children)?;
    assert!(rt; made);
    Ok(())
}
