//! Compressors over one scheme or none, with ample memory.

use crate::comparing::{Form, form_of, inside};
use crate::whole::{Whole, named_as_root};
use std::alloc::Global;
use std::test::Fail;
use vx_array::ArrayRef;
use vx_base::ArrayId::{Dict, Primitive};
use vx_base::Nullability::NonNullable;
use vx_base::PType::{I64, U32};
use vx_base::{VortexError, VortexResult};
use vx_compressor::{CascadingCompressor, Schemes};
use vx_fixtures::{accepted, column, context, flat};
use vx_scheme::{NoScheme, Scheme};
use vx_schemes::{BitPackingScheme, FoRScheme, IntDictScheme, ZigZagScheme};

// The tree of an array by a list of schemes.
fn compressed<S: Scheme>(
    alloc: Global,
    schemes: Vec<S>,
    array: &ArrayRef,
) -> VortexResult<ArrayRef> {
    let compressor = accepted(CascadingCompressor::new(alloc, Schemes::from_vec(schemes)))?;
    compressor.compress(array, &mut context(alloc)?)
}

// 2,048 rows, all 0 but the last, which is 1.
fn one_at_the_end(alloc: Global) -> VortexResult<ArrayRef> {
    let mut wholes = Vec::new(alloc);
    for row in 0..2048_u16 {
        wholes.push(if row == 2047 { 1 } else { 0 })?;
    }
    flat(alloc, U32, NonNullable, wholes.as_slice())
}

// The sample of the word 0 misses the last row of each partition. It is all zeros, so its packed tree takes no byte and has no
// score.
#[test]
fn a_sample_that_takes_no_byte_has_no_score(rt: HostRuntime) -> Result<(), Fail> {
    let schemes = vec![in rt.alloc(); BitPackingScheme::v1()]?;
    let tree = compressed(rt.alloc(), schemes, &one_at_the_end(rt.alloc())?)?;
    assert!(rt; form_of(&tree) == (Primitive, 8192, None));
    Ok(())
}

// 0 and 70,000 in turn, a thousand rows.
fn two_values(alloc: Global) -> VortexResult<ArrayRef> {
    let mut wholes = Vec::new(alloc);
    for row in 0..1000_u16 {
        wholes.push(i128::from(row % 2) * 70_000)?;
    }
    flat(alloc, U32, NonNullable, wholes.as_slice())
}

// No scheme may follow a dictionary but itself, which stands above: codes of one byte, and two values of four.
#[test]
fn codes_and_values_stay_plain_below_a_dictionary_alone(rt: HostRuntime) -> Result<(), Fail> {
    let schemes = vec![in rt.alloc(); IntDictScheme]?;
    let tree = compressed(rt.alloc(), schemes, &two_values(rt.alloc())?)?;
    assert!(rt;
        form_of(&tree) == (Dict, 1008, Some(Primitive))
            && inside(&tree, 0) == Some((Primitive, 1000))
            && inside(&tree, 1) == Some((Primitive, 8))
    );
    Ok(())
}

// 0 to 99, null in every tenth row.
fn tenths_null(alloc: Global) -> VortexResult<ArrayRef> {
    let mut rows = Vec::new(alloc);
    for row in 0..100_u16 {
        rows.push(if row % 10 == 0 {
            None
        } else {
            Some(i128::from(row))
        })?;
    }
    column(alloc, U32, rows.as_slice())
}

// 0 to 99.
fn ramp(alloc: Global) -> VortexResult<ArrayRef> {
    let mut wholes = Vec::new(alloc);
    for row in 0..100_u16 {
        wholes.push(i128::from(row))?;
    }
    flat(alloc, I64, NonNullable, wholes.as_slice())
}

// What an array becomes where there is no scheme at all.
fn form_by_none(alloc: Global, array: &ArrayRef) -> VortexResult<Form> {
    let none: Vec<NoScheme> = Vec::new(alloc);
    let tree = compressed(alloc, none, array)?;
    Ok(form_of(&tree))
}

// 400 bytes of values and 13 of validity bits; 800 bytes of values.
#[test]
fn without_schemes_columns_stay_plain(rt: HostRuntime) -> Result<(), Fail> {
    let nullable = form_by_none(rt.alloc(), &tenths_null(rt.alloc())?)?;
    let rising = form_by_none(rt.alloc(), &ramp(rt.alloc())?)?;
    assert!(rt; nullable == (Primitive, 413, None) && rising == (Primitive, 800, None));
    Ok(())
}

// Why a list of schemes makes no compressor.
fn refusal_of<S: Scheme>(alloc: Global, schemes: Vec<S>) -> Option<VortexError> {
    match CascadingCompressor::new(alloc, Schemes::from_vec(schemes)) {
        Ok(_) => None,
        Err(refused) => Some(refused.error),
    }
}

#[test]
fn a_name_stands_once_and_is_not_the_roots(rt: HostRuntime) -> Result<(), Fail> {
    let alloc = rt.alloc();
    let frames = refusal_of(alloc, vec![in alloc; FoRScheme::v1(), FoRScheme::v1()]?);
    let zigzags = refusal_of(alloc, vec![in alloc; ZigZagScheme, ZigZagScheme]?);
    let root = refusal_of::<Whole>(alloc, vec![in alloc; named_as_root()]?);
    let duplicate = Some(VortexError::DuplicateScheme);
    assert!(rt; frames == duplicate && zigzags == duplicate && root == duplicate);
    Ok(())
}
