//! Listings of encodings that no scheme makes yet. The expected lines are worked out by hand.

use crate::reading::lists;
use std::alloc::Global;
use std::test::Fail;
use vx_array::{ArrayRef, Patches};
use vx_base::Nullability::NonNullable;
use vx_base::PType::{I32, U8, U16, U32};
use vx_base::{Bytes, Scalar, TimeUnit, TimestampType, VortexResult};
use vx_fixtures::{accepted, flat, packed};

// `row % 10` in 2,048 rows, at 4 bits.
fn digits(alloc: Global) -> VortexResult<ArrayRef> {
    let mut rows = Vec::new(alloc);
    for row in 0..2048u32 {
        rows.push(row % 10)?;
    }
    let bytes = packed(alloc, rows.as_slice(), 4)?;
    accepted(ArrayRef::bit_packed(alloc, U32, 4, bytes, 2048, None, None, NonNullable))
}

#[test]
fn frames_by_blocks_have_their_references(rt: HostRuntime) -> Result<(), Fail> {
    let alloc = rt.alloc();
    let references = flat(alloc, U32, NonNullable, &[1_000_000, 1_000_100])?;
    let tree = accepted(ArrayRef::frame_of_reference_v2(alloc, digits(alloc)?, references))?;
    let listing =
        "vortex.for.v2 u32 len=2048 size=1032\n  vortex.bitpacked u32 len=2048 size=1024 width=4 patches=0\n  vortex.primitive u32 len=2 size=8\n";
    assert!(rt; lists(alloc, &tree, listing)?);
    Ok(())
}

// `row & last` in 1,024 rows, at a width.
fn block(alloc: Global, last: u32, width: u32) -> VortexResult<Bytes> {
    let mut rows = Vec::new(alloc);
    for row in 0..1024u32 {
        rows.push(row & last)?;
    }
    packed(alloc, rows.as_slice(), width)
}

// 0 and 1 in turn in a block of 1 bit a row, then 0 to 255 four times in one of 8.
fn two_widths(alloc: Global) -> VortexResult<ArrayRef> {
    let mut bytes = Vec::new(alloc);
    bytes.extend_from_slice(block(alloc, 1, 1)?.as_slice())?;
    bytes.extend_from_slice(block(alloc, 255, 8)?.as_slice())?;
    let packed = Bytes::from_vec(bytes);
    let offsets = flat(alloc, U8, NonNullable, &[0, 1, 9])?;
    accepted(ArrayRef::bit_packed_v2(alloc, U32, packed, offsets, 2048, None, None, NonNullable))
}

#[test]
fn blocks_have_their_offsets(rt: HostRuntime) -> Result<(), Fail> {
    let tree = two_widths(rt.alloc())?;
    let listing =
        "vortex.bitpacked.v2 u32 len=2048 size=1155 blocks=2 patches=0\n  vortex.primitive u8 len=3 size=3\n";
    assert!(rt; lists(rt.alloc(), &tree, listing)?);
    Ok(())
}

// Zeros in 2,048 rows: of no bits in the first block and of one in the second, with 7 as the patch of row 5.
fn blocks(alloc: Global) -> VortexResult<ArrayRef> {
    let bytes = Bytes::from_vec(vec![in alloc; 0u8; 128]?);
    let offsets = flat(alloc, U8, NonNullable, &[0, 0, 1])?;
    let indices = flat(alloc, U8, NonNullable, &[5])?;
    let values = flat(alloc, U16, NonNullable, &[7])?;
    let patches = accepted(Patches::new(2048, 0, indices, values))?;
    accepted(ArrayRef::bit_packed_v2(
        alloc,
        U16,
        bytes,
        offsets,
        2048,
        None,
        Some(patches),
        NonNullable,
    ))
}

#[test]
fn packed_blocks_have_their_offsets_and_patches(rt: HostRuntime) -> Result<(), Fail> {
    let tree = blocks(rt.alloc())?;
    let listing =
        "vortex.bitpacked.v2 u16 len=2048 size=134 blocks=2 patches=1\n  vortex.primitive u8 len=3 size=3\n  vortex.primitive u8 len=1 size=1\n  vortex.primitive u16 len=1 size=2\n";
    assert!(rt; lists(rt.alloc(), &tree, listing)?);
    Ok(())
}

// 0 in four rows.
fn zeros() -> VortexResult<ArrayRef> {
    Ok(ArrayRef::constant(Scalar::primitive(0, U8, NonNullable)?, 4))
}

#[test]
fn timestamps_in_parts_have_three_children(rt: HostRuntime) -> Result<(), Fail> {
    let alloc = rt.alloc();
    let days = flat(alloc, U8, NonNullable, &[0, 1, 3, 4])?;
    let kind = accepted(TimestampType::new(TimeUnit::Milliseconds, None))?;
    let tree = accepted(ArrayRef::datetime_parts(
        alloc,
        kind,
        NonNullable,
        days,
        zeros()?,
        zeros()?,
    ))?;
    let listing =
        "vortex.datetimeparts timestamp ms len=4 size=8\n  vortex.primitive u8 len=4 size=4\n  vortex.constant u8 len=4 size=2 value=0\n  vortex.constant u8 len=4 size=2 value=0\n";
    assert!(rt; lists(alloc, &tree, listing)?);
    Ok(())
}

// 9 in row 1,500 of 3,000, and 1 in the others.
fn chunked(alloc: Global) -> VortexResult<ArrayRef> {
    let indices = flat(alloc, U16, NonNullable, &[1500])?;
    let values = flat(alloc, I32, NonNullable, &[9])?;
    let chunks = flat(alloc, U8, NonNullable, &[0, 0, 1])?;
    let patches = accepted(Patches::new_chunked(3000, 0, indices, values, chunks))?;
    accepted(ArrayRef::sparse(alloc, patches, Scalar::primitive(1, I32, NonNullable)?))
}

#[test]
fn chunk_offsets_are_the_third_child(rt: HostRuntime) -> Result<(), Fail> {
    let tree = chunked(rt.alloc())?;
    let listing =
        "vortex.sparse i32 len=3000 size=14 offset=0 fill=1 patches=1\n  vortex.primitive u16 len=1 size=2\n  vortex.primitive i32 len=1 size=4\n  vortex.primitive u8 len=3 size=3\n";
    assert!(rt; lists(rt.alloc(), &tree, listing)?);
    Ok(())
}
