//! Runs within blocks, by a compressor over their scheme alone, with ample memory.

use crate::comparing::inside;
use std::alloc::Global;
use std::test::Fail;
use vx_array::ArrayRef;
use vx_base::ArrayId::{Primitive, Rle};
use vx_base::Nullability::NonNullable;
use vx_base::PType::U32;
use vx_base::VortexResult;
use vx_compressor::{CascadingCompressor, Schemes};
use vx_fixtures::{accepted, context, flat};
use vx_schemes_runs::IntRLEScheme;

// 0 in a thousand rows, and then 7 in a thousand.
fn two_runs(alloc: Global) -> VortexResult<ArrayRef> {
    let mut wholes = Vec::new(alloc);
    for row in 0..2000_u16 {
        wholes.push(if row < 1000 { 0 } else { 7 })?;
    }
    flat(alloc, U32, NonNullable, wholes.as_slice())
}

// The tree of the one scheme.
fn compressed(alloc: Global, array: &ArrayRef) -> VortexResult<ArrayRef> {
    let schemes = Schemes::from_vec(vec![in alloc; IntRLEScheme]?);
    let compressor = accepted(CascadingCompressor::new(alloc, schemes))?;
    compressor.compress(array, &mut context(alloc)?)
}

// One run in the first block, and two in the second: three values of 4 bytes, a run number of 1 byte for each row of the two
// blocks, and 1 byte a block for where its runs begin.
#[test]
fn a_run_ends_with_its_block(rt: HostRuntime) -> Result<(), Fail> {
    let tree = compressed(rt.alloc(), &two_runs(rt.alloc())?)?;
    assert!(rt;
        tree.encoding_id() == Rle
            && tree.nbytes() == 2062
            && inside(&tree, 0) == Some((Primitive, 12))
            && inside(&tree, 1) == Some((Primitive, 2048))
            && inside(&tree, 2) == Some((Primitive, 2))
    );
    Ok(())
}
