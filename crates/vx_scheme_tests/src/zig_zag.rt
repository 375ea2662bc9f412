//! The zigzag scheme, over columns worked by hand.

use crate::shapes::makes;
use std::test::Fail;
use vx_base::ArrayId::{Primitive, ZigZag};
use vx_base::PType::{I8, I32, I64, U8, U32, U64};
use vx_fixtures::{Told, told_of};
use vx_scheme::CompressorContext;
use vx_schemes::ZigZagScheme;

#[test]
fn a_negative_value_is_tried_where_a_scheme_may_follow(rt: HostRuntime) -> Result<(), Fail> {
    let top = CompressorContext::new();
    for (site, ptype, last, estimate) in [
        (top, I32, -1, Told::Sampled),
        (top.as_leaf(), I32, -1, Told::Nothing),
        (top, I32, 0, Told::Nothing),
        (top, U32, 1, Told::Nothing),
    ] {
        let rows = [Some(3), None, Some(last)];
        let told = told_of(rt.alloc(), &ZigZagScheme, &site, ptype, &rows)?;
        assert!(rt; told == (estimate, Told::Nothing), "{last}");
    }
    Ok(())
}

#[test]
fn zigzag_stands_over_its_part(rt: HostRuntime) -> Result<(), Fail> {
    for (ptype, unsigned, nbytes, rows, words) in [
        (
            I64,
            U64,
            24,
            [Some(-1), Some(0), Some(1)],
            [Some(1), Some(0), Some(2)],
        ),
        (
            I8,
            U8,
            4,
            [Some(-128), None, Some(127)],
            [Some(255), None, Some(254)],
        ),
    ] {
        let root = (ZigZag, ptype, nbytes, &rows[..]);
        let children = [(Primitive, unsigned, nbytes, &words[..])];
        let made = makes(rt.alloc(), &ZigZagScheme, 1, root, &children)?;
        assert!(rt; made);
    }
    let rows = &[Some(7), None];
    let kept = makes(rt.alloc(), &ZigZagScheme, 0, (Primitive, U8, 3, rows), &[])?;
    assert!(rt; kept);
    Ok(())
}
