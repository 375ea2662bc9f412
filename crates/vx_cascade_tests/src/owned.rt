//! Arrays that are given up, by the shipped compressor, with ample memory.

use crate::comparing::{Form, form_of, tens};
use std::alloc::Global;
use std::test::Fail;
use vx_array::ArrayRef;
use vx_base::ArrayId::{BitPacked, FoR, Timestamp};
use vx_base::Nullability::NonNullable;
use vx_base::PType::I64;
use vx_base::{TimeUnit, TimestampType, VortexResult};
use vx_btrblocks::BtrBlocksCompressor;
use vx_fixtures::{accepted, context, flat};
use vx_scheme::NoScheme;

// The form of the tree of an array that is given up.
fn form_of_owned(alloc: Global, array: ArrayRef) -> VortexResult<Form> {
    let compressor = BtrBlocksCompressor::<NoScheme>::shipped(alloc)?;
    let tree = compressor.compress_owned(array, &mut context(alloc)?)?;
    Ok(form_of(&tree))
}

// A thousand integers, 1,000 to 1,009 in turn: 4 bits a row above the least.
fn wholes(alloc: Global) -> VortexResult<ArrayRef> {
    let wholes = tens(alloc, 1000, 1000)?;
    flat(alloc, I64, NonNullable, wholes.as_slice())
}

// Those numbers as timestamps in seconds.
fn moments(alloc: Global) -> VortexResult<ArrayRef> {
    let kind = accepted(TimestampType::new(TimeUnit::Seconds, None))?;
    accepted(ArrayRef::timestamp(alloc, wholes(alloc)?, kind))
}

#[test]
fn what_is_given_up_becomes_the_same_tree(rt: HostRuntime) -> Result<(), Fail> {
    let of_wholes = form_of_owned(rt.alloc(), wholes(rt.alloc())?)?;
    let of_moments = form_of_owned(rt.alloc(), moments(rt.alloc())?)?;
    assert!(rt;
        of_wholes == (FoR, 512, Some(BitPacked)) && of_moments == (Timestamp, 512, Some(FoR))
    );
    Ok(())
}
