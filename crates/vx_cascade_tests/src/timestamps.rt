//! Timestamps by the shipped compressor, with ample memory.

use crate::comparing::{Form, form_by, tens};
use std::alloc::Global;
use std::test::Fail;
use vx_array::ArrayRef;
use vx_base::ArrayId::{Constant, FoR, Timestamp};
use vx_base::Nullability::NonNullable;
use vx_base::PType::I64;
use vx_base::{TimeUnit, TimestampType, VortexResult};
use vx_btrblocks::BtrBlocksCompressor;
use vx_fixtures::{accepted, context, flat};
use vx_scheme::NoScheme;

// The form of timestamps in seconds.
fn form_of_moments(alloc: Global, seconds: &[i128]) -> VortexResult<Form> {
    let kind = accepted(TimestampType::new(TimeUnit::Seconds, None))?;
    let storage = flat(alloc, I64, NonNullable, seconds)?;
    let moments = accepted(ArrayRef::timestamp(alloc, storage, kind))?;
    let compressor = BtrBlocksCompressor::<NoScheme>::shipped(alloc)?;
    let mut ctx = context(alloc)?;
    form_by(&compressor, &moments, &mut ctx)
}

// A constant timestamp takes 1 + 8 bytes. A thousand rows of ten moments in turn take 4 bits each above the least.
#[test]
fn moments_are_a_constant_or_their_whole_numbers(rt: HostRuntime) -> Result<(), Fail> {
    let equal = form_of_moments(rt.alloc(), &[60, 60, 60])?;
    let seconds = tens(rt.alloc(), 1000, 1000)?;
    let in_turn = form_of_moments(rt.alloc(), seconds.as_slice())?;
    assert!(rt; equal == (Constant, 9, None) && in_turn == (Timestamp, 512, Some(FoR)));
    Ok(())
}
