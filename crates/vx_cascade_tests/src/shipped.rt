//! The shipped compressor, with ample memory.

use crate::comparing::{Form, form_by, form_of, tens};
use std::alloc::Global;
use std::test::Fail;
use vx_array::ArrayRef;
use vx_base::ArrayId::{BitPacked, Delta, FoR, Primitive, RunEnd, Sequence, Sparse};
use vx_base::Nullability::NonNullable;
use vx_base::PType::{I32, U32, U64};
use vx_base::{PType, VortexResult};
use vx_btrblocks::BtrBlocksCompressor;
use vx_fixtures::{context, flat};
use vx_scheme::NoScheme;

// The form of an array's tree, and of the tree's tree.
fn forms_of(alloc: Global, array: &ArrayRef) -> VortexResult<(Form, Form)> {
    let mut ctx = context(alloc)?;
    let compressor = BtrBlocksCompressor::<NoScheme>::shipped(alloc)?;
    let tree = compressor.compress(array, &mut ctx)?;
    let again = form_by(&compressor, &tree, &mut ctx)?;
    Ok((form_of(&tree), again))
}

#[test]
fn a_tree_becomes_the_same_tree_again(rt: HostRuntime) -> Result<(), Fail> {
    let wholes = tens(rt.alloc(), 1000, 1000)?;
    let array = flat(rt.alloc(), I32, NonNullable, wholes.as_slice())?;
    let forms = forms_of(rt.alloc(), &array)?;
    let frame = (FoR, 512, Some(BitPacked));
    assert!(rt; forms == (frame, frame));
    Ok(())
}

// The form of integers.
fn form_of_wholes(alloc: Global, ptype: PType, wholes: &[i128]) -> VortexResult<Form> {
    let compressor = BtrBlocksCompressor::<NoScheme>::shipped(alloc)?;
    let array = flat(alloc, ptype, NonNullable, wholes)?;
    let mut ctx = context(alloc)?;
    form_by(&compressor, &array, &mut ctx)
}

// 0 to 99.
fn ramp(alloc: Global) -> VortexResult<Vec<i128>> {
    let mut wholes = Vec::new(alloc);
    for place in 0..100_u16 {
        wholes.push(i128::from(place))?;
    }
    Ok(wholes)
}

// A run of one number, and then a run of another: each its rows and its number.
fn two_runs(alloc: Global, first: (u16, i128), second: (u16, i128)) -> VortexResult<Vec<i128>> {
    let mut wholes = Vec::new(alloc);
    for _ in 0..first.0 {
        wholes.push(first.1)?;
    }
    for _ in 0..second.0 {
        wholes.push(second.1)?;
    }
    Ok(wholes)
}

// The squares of 0 to 2,047.
fn squares(alloc: Global) -> VortexResult<Vec<i128>> {
    let mut wholes = Vec::new(alloc);
    for place in 0..2048_u32 {
        wholes.push(i128::from(place.wrapping_mul(place)))?;
    }
    Ok(wholes)
}

// No row of a sequence takes a byte.
#[test]
fn numbers_in_steps_are_a_sequence(rt: HostRuntime) -> Result<(), Fail> {
    let ramp = ramp(rt.alloc())?;
    let form = form_of_wholes(rt.alloc(), I32, ramp.as_slice())?;
    assert!(rt; form == (Sequence, 0, None));
    Ok(())
}

// One patch has an index of 1 byte and a value of 8, and the fill takes 9.
#[test]
fn a_rare_number_is_a_patch(rt: HostRuntime) -> Result<(), Fail> {
    let rare = two_runs(rt.alloc(), (1, 0), (999, 999))?;
    let form = form_of_wholes(rt.alloc(), U64, rare.as_slice())?;
    assert!(rt; form == (Sparse, 18, Some(Primitive)));
    Ok(())
}

// Two ends of 1 byte and two values of 4.
#[test]
fn two_long_runs_have_two_ends_and_two_values(rt: HostRuntime) -> Result<(), Fail> {
    let runs = two_runs(rt.alloc(), (50, 0), (50, 7))?;
    let form = form_of_wholes(rt.alloc(), U32, runs.as_slice())?;
    assert!(rt; form == (RunEnd, 10, Some(Primitive)));
    Ok(())
}

// The differences are at most 4,093: two bases of 8 bytes, and two blocks of 12 bits a row.
#[test]
fn a_slow_series_is_its_differences(rt: HostRuntime) -> Result<(), Fail> {
    let squares = squares(rt.alloc())?;
    let form = form_of_wholes(rt.alloc(), U64, squares.as_slice())?;
    assert!(rt; form == (Delta, 3088, Some(Primitive)));
    Ok(())
}
