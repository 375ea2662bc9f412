//! The delta scheme, over columns worked by hand.

use crate::shapes::has_shape;
use std::test::Fail;
use vx_array::ArrayRef;
use vx_base::ArrayId::{Delta, Primitive};
use vx_base::Fraction;
use vx_base::PType::{I32, U8, U64};
use vx_fixtures::{Told, made_of, told_above, told_of};
use vx_scheme::CompressorContext;
use vx_schemes_runs::DeltaScheme;

// The squares of 2,048 numbers: differences from 0 to 4,093, which have 12 digits.
fn squares() -> [Option<i128>; 2048] {
    let mut rows = [Some(0); 2048];
    for row in 0..2048usize {
        let number = row as i128;
        rows[row] = Some(number * number);
    }
    rows
}

#[test]
fn squares_are_worth_their_differences(rt: HostRuntime) -> Result<(), Fail> {
    let (top, scheme) = (CompressorContext::new(), DeltaScheme::default());
    let told = told_of(rt.alloc(), &scheme, &top, U64, &squares())?;
    let told_leaf = told_of(rt.alloc(), &scheme, &top.as_leaf(), U64, &squares())?;
    let ratio = Told::Ratio(95 * 2048 * 64, 100 * 2048 * 13);
    assert!(rt; told == (Told::Later, ratio) && told_leaf == (Told::Nothing, ratio));
    Ok(())
}

#[test]
fn the_ratio_has_to_be_above_the_least(rt: HostRuntime) -> Result<(), Fail> {
    let top = CompressorContext::new();
    let scheme = DeltaScheme::new(Fraction::new(95 * 64, 100 * 13));
    let told = told_of(rt.alloc(), &scheme, &top, U64, &squares())?;
    assert!(rt; told == (Told::Later, Told::Nothing));
    Ok(())
}

// At one digit the ratio would be 95 * 64 / 200; the true one has 13 bits a row.
#[test]
fn a_threshold_is_passed_or_nothing_is_told(rt: HostRuntime) -> Result<(), Fail> {
    let (top, scheme) = (CompressorContext::new(), DeltaScheme::default());
    let rows = squares();
    for (threshold, verdict) in [
        (
            Fraction::new(4, 1),
            Told::Ratio(95 * 2048 * 64, 100 * 2048 * 13),
        ),
        (Fraction::new(95 * 64, 200), Told::Nothing),
    ] {
        let told = told_above(rt.alloc(), &scheme, &top, Some(threshold), U64, &rows)?;
        assert!(rt; told == (Told::Later, verdict));
    }
    Ok(())
}

#[test]
fn equal_rows_and_short_columns_are_skipped(rt: HostRuntime) -> Result<(), Fail> {
    let (top, scheme) = (CompressorContext::new(), DeltaScheme::default());
    let equal = told_of(rt.alloc(), &scheme, &top, I32, &[Some(7); 1024])?;
    let short = told_of(rt.alloc(), &scheme, &top, I32, &[Some(7); 1023])?;
    assert!(rt; equal == (Told::Later, Told::Nothing) && short == (Told::Nothing, Told::Nothing));
    Ok(())
}

// Whether the bases of a tree are 5 alone, and its differences are those of a block, a byte each.
fn stands_over_five(tree: &ArrayRef) -> bool {
    match (tree.child(0), tree.child(1)) {
        (Some(bases), Some(differences)) => {
            has_shape(bases, &(Primitive, U8, 1, &[Some(5)]))
                && differences.len() == 1024
                && differences.nbytes() == 1024
        }
        _ => false,
    }
}

#[test]
fn differences_stand_over_bases(rt: HostRuntime) -> Result<(), Fail> {
    let rows = &[Some(5), Some(7), None, Some(4)];
    let (parts, tree) = made_of(rt.alloc(), &DeltaScheme::default(), U8, rows)?;
    assert!(rt;
        parts == 2 && has_shape(&tree, &(Delta, U8, 1026, rows)) && stands_over_five(&tree)
    );
    Ok(())
}
