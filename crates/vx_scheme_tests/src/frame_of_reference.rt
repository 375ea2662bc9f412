//! The frame-of-reference scheme, over columns worked by hand.

use crate::shapes::makes;
use std::test::Fail;
use vx_base::ArrayId::{BitPacked, FoR, Primitive};
use vx_base::PType::{I8, I16, I32, U8, U32};
use vx_fixtures::{Told, told_of};
use vx_scheme::CompressorContext;
use vx_schemes::FoRScheme;

#[test]
fn columns_without_a_gain_are_skipped(rt: HostRuntime) -> Result<(), Fail> {
    let top = CompressorContext::new();
    for (site, ptype, rows, estimate) in [
        (top, U8, [Some(9), Some(6)], Told::Ratio(8, 2)),
        (top, I16, [Some(-1), Some(0)], Told::Ratio(16, 1)),
        // The greatest has no more digits than the span; the least is 0; the span is 0; budget 0.
        (top, U8, [Some(3), Some(1)], Told::Nothing),
        (top, U8, [Some(9), Some(0)], Told::Nothing),
        (top, I16, [Some(-9), None], Told::Nothing),
        (top.as_leaf(), U8, [Some(9), Some(6)], Told::Nothing),
    ] {
        let told = told_of(rt.alloc(), &FoRScheme::v1(), &site, ptype, &rows)?;
        assert!(rt; told == (estimate, Told::Nothing), "{rows:?}");
    }
    Ok(())
}

#[test]
fn differences_are_of_the_unsigned_type(rt: HostRuntime) -> Result<(), Fail> {
    let scheme = FoRScheme::v1();
    // Two bits of each difference from 1,000, in a block of 1,024 rows.
    let rows = &[Some(1000), Some(1001), Some(1003)];
    let differences = (BitPacked, U32, 256, &[Some(0), Some(1), Some(3)][..]);
    let packed = makes(
        rt.alloc(),
        &scheme,
        0,
        (FoR, I32, 256, rows),
        &[differences],
    )?;
    // From -128 on; 255 takes all bits of the unsigned type.
    let rows = &[Some(127), Some(-128), None];
    let differences = (Primitive, U8, 4, &[Some(255), Some(0), None][..]);
    let plain = makes(rt.alloc(), &scheme, 0, (FoR, I8, 4, rows), &[differences])?;
    let nulls = (Primitive, I32, 9, &[None, None][..]);
    let kept = makes(rt.alloc(), &scheme, 0, nulls, &[])?;
    assert!(rt; packed && plain && kept);
    Ok(())
}
