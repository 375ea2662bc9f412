//! The dictionary scheme of integers, over columns worked by hand.

use crate::shapes::makes;
use std::test::Fail;
use vx_base::ArrayId::{Dict, Primitive};
use vx_base::PType::{I16, I32, U8};
use vx_fixtures::{Told, told_of};
use vx_scheme::CompressorContext;
use vx_schemes::IntDictScheme;

#[test]
fn a_column_of_many_distinct_values_is_skipped(rt: HostRuntime) -> Result<(), Fail> {
    for (rows, estimate) in [
        // Two values of 8 bits, and four codes of 2.
        ([Some(1), Some(2), Some(1), Some(2)], Told::Ratio(32, 24)),
        ([Some(1), Some(2), Some(1), Some(3)], Told::Nothing),
        ([Some(1), Some(2), Some(1), None], Told::Nothing),
    ] {
        let top = CompressorContext::new();
        let told = told_of(rt.alloc(), &IntDictScheme, &top, U8, &rows)?;
        assert!(rt; told == (estimate, Told::Nothing), "{rows:?}");
    }
    Ok(())
}

#[test]
fn codes_stand_for_ascending_values(rt: HostRuntime) -> Result<(), Fail> {
    let rows = &[Some(100), Some(200), Some(100), None, Some(100)];
    let codes = &[Some(0), Some(1), Some(0), None, Some(0)][..];
    let values = &[Some(100), Some(200)][..];
    let children = [(Primitive, U8, 6, codes), (Primitive, I32, 8, values)];
    let with_a_null = makes(
        rt.alloc(),
        &IntDictScheme,
        2,
        (Dict, I32, 14, rows),
        &children,
    )?;
    let rows = &[Some(3), Some(-2), Some(3)];
    let codes = &[Some(1), Some(0), Some(1)][..];
    let values = &[Some(-2), Some(3)][..];
    let children = [(Primitive, U8, 3, codes), (Primitive, I16, 4, values)];
    let whole = makes(
        rt.alloc(),
        &IntDictScheme,
        2,
        (Dict, I16, 7, rows),
        &children,
    )?;
    let nulls = (Primitive, I32, 9, &[None, None][..]);
    let kept = makes(rt.alloc(), &IntDictScheme, 0, nulls, &[])?;
    assert!(rt; with_a_null && whole && kept);
    Ok(())
}
