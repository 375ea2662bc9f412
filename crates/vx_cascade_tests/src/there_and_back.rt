//! From a plain column to its tree and back: the README's example, word for word, with ample memory.

use crate::comparing::form_of;
use std::alloc::Global;
use std::test::Fail;
use vx_btrblocks::ArrayId::{Primitive, Sequence};
use vx_btrblocks::Nullability::NonNullable;
use vx_btrblocks::{
    ArrayRef, BtrBlocksCompressor, ExecutionCtx, IntList, Ints, NoScheme, VortexResult, Words,
};

fn there_and_back(alloc: Global, rows: Vec<i64>) -> VortexResult<(ArrayRef, ArrayRef)> {
    let column = ArrayRef::primitive(Ints::I64(IntList::from_vec(rows)), None, NonNullable)?;
    let mut ctx = ExecutionCtx::new(alloc, Words::from_vec(vec![in alloc; 0]?));
    let compressor = BtrBlocksCompressor::<NoScheme>::shipped(alloc)?;
    let tree = compressor.compress(&column, &mut ctx)?;
    let plain = tree.canonical(alloc)?;
    Ok((tree, plain))
}

// A thousand moments, one a minute.
fn moments(alloc: Global) -> VortexResult<Vec<i64>> {
    let mut rows = Vec::new(alloc);
    for minute in 0..1000_u16 {
        rows.push(1_000_000_000 + 60 * i64::from(minute))?;
    }
    Ok(rows)
}

// The tree is the first moment and the step, and no row takes a byte.
#[test]
fn a_column_comes_back(rt: HostRuntime) -> Result<(), Fail> {
    let (tree, plain) = there_and_back(rt.alloc(), moments(rt.alloc())?)?;
    let (encoding, nbytes, _) = form_of(&tree);
    assert!(rt; encoding == Sequence && nbytes == 0 && form_of(&plain) == (Primitive, 8000, None));
    Ok(())
}
