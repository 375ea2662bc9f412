//! Nested columns by the shipped compressor, with ample memory.

use crate::comparing::inside;
use std::alloc::Global;
use std::test::Fail;
use vx_array::ArrayRef;
use vx_base::ArrayId::{List, Null, Primitive, Sequence};
use vx_base::Nullability::{NonNullable, Nullable};
use vx_base::PType::{I32, U64};
use vx_base::{VortexError, VortexResult};
use vx_btrblocks::BtrBlocksCompressor;
use vx_fixtures::{accepted, bits, context, flat};
use vx_scheme::NoScheme;

// The tree that the shipped compressor makes.
fn compressed(alloc: Global, array: &ArrayRef) -> VortexResult<ArrayRef> {
    let compressor = BtrBlocksCompressor::<NoScheme>::shipped(alloc)?;
    compressor.compress(array, &mut context(alloc)?)
}

// [1, 2], [], null, [3].
fn lists(alloc: Global) -> VortexResult<ArrayRef> {
    let elements = flat(alloc, I32, Nullable, &[1, 2, 3])?;
    let offsets = flat(alloc, U64, NonNullable, &[0, 2, 2, 2, 3])?;
    let valid = Some(bits(alloc, &[true, true, false, true])?);
    accepted(ArrayRef::list(alloc, elements, offsets, valid, Nullable))
}

// Five offsets of 64 bits become five of 8 bits. The elements 1, 2, 3 are a sequence; the lists' validity takes 1 byte.
#[test]
fn the_offsets_of_lists_are_narrowed(rt: HostRuntime) -> Result<(), Fail> {
    let tree = compressed(rt.alloc(), &lists(rt.alloc())?)?;
    assert!(rt;
        tree.encoding_id() == List
            && tree.nbytes() == 6
            && inside(&tree, 0) == Some((Sequence, 0))
            && inside(&tree, 1) == Some((Primitive, 5))
    );
    Ok(())
}

// Whether `len` nulls stay a node of nulls.
fn stay(alloc: Global, len: u64) -> VortexResult<bool> {
    let tree = compressed(alloc, &ArrayRef::null(len))?;
    Ok(tree.encoding_id() == Null && tree.len() == len)
}

#[test]
fn nulls_alone_stay_up_to_the_limit_of_rows(rt: HostRuntime) -> Result<(), Fail> {
    let as_many = stay(rt.alloc(), 2_147_483_648)?;
    let one_more = stay(rt.alloc(), 2_147_483_649);
    assert!(rt; as_many && one_more == Err(VortexError::TooManyRows));
    Ok(())
}
