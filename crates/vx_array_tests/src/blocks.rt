//! Integers packed at a width for each block, and frames of reference by blocks: rows, sizes and refusals.

use std::alloc::Global;
use std::test::Fail;
use vx_array::{ArrayRef, Patches};
use vx_base::Nullability::NonNullable;
use vx_base::PType::{I32, I64, U8, U16, U32};
use vx_base::{Bytes, PType, VortexError, VortexResult};
use vx_fixtures::{accepted, flat, packed};

// Row `row` of two blocks: 0 and 1 in turn, and then 0 to 255 again and again.
fn in_turn(row: u32) -> u32 {
    if row < 1024 { row % 2 } else { row % 256 }
}

// The 1,024 rows from `start` on, at a width.
fn block(alloc: Global, start: u32, width: u32) -> VortexResult<Bytes> {
    let mut rows = Vec::new(alloc);
    for row in 0..1024u32 {
        rows.push(in_turn(start % 2048 + row))?;
    }
    packed(alloc, rows.as_slice(), width)
}

// Two blocks of u32, of 1 bit a row and of 8.
fn two_widths(alloc: Global, patches: Option<Patches>) -> VortexResult<ArrayRef> {
    let mut bytes = Vec::new(alloc);
    bytes.extend_from_slice(block(alloc, 0, 1)?.as_slice())?;
    bytes.extend_from_slice(block(alloc, 1024, 8)?.as_slice())?;
    let packed = Bytes::from_vec(bytes);
    let offsets = flat(alloc, U8, NonNullable, &[0, 1, 9])?;
    accepted(ArrayRef::bit_packed_v2(
        alloc,
        U32,
        packed,
        offsets,
        2048,
        None,
        patches,
        NonNullable,
    ))
}

// Whether a tree has the rows of `in_turn`.
fn is_in_turn(tree: &ArrayRef) -> bool {
    if !tree.dtype().is_integer() || tree.len() != 2048 {
        return false;
    }
    for row in 0..2048u32 {
        if tree.integer_at(row.into()) != Some(in_turn(row).into()) {
            return false;
        }
    }
    true
}

#[test]
fn each_block_has_its_width(rt: HostRuntime) -> Result<(), Fail> {
    let tree = two_widths(rt.alloc(), None)?;
    let plain = tree.copy(rt.alloc())?.canonical(rt.alloc())?;
    let is_small = tree.nbytes() == 1155 && tree.num_children() == 1;
    assert!(rt; is_small && is_in_turn(&tree) && plain.is_plain() && is_in_turn(&plain));
    Ok(())
}

// Rows 0 and 1,500 patched with 999 and 70,000.
fn patched(alloc: Global) -> VortexResult<ArrayRef> {
    let indices = flat(alloc, U16, NonNullable, &[0, 1500])?;
    let values = flat(alloc, U32, NonNullable, &[999, 70_000])?;
    let patches = accepted(Patches::new(2048, 0, indices, values))?;
    two_widths(alloc, Some(patches))
}

// Whether a tree of integers has these values in three rows.
fn begins(tree: &ArrayRef, first: i128, second: i128, last: i128) -> bool {
    if !tree.dtype().is_integer() || tree.len() != 2048 {
        return false;
    }
    let begin = tree.integer_at(0) == Some(first) && tree.integer_at(1) == Some(second);
    begin && tree.integer_at(1500) == Some(last)
}

#[test]
fn a_patch_stands_in_place_of_its_row(rt: HostRuntime) -> Result<(), Fail> {
    let tree = patched(rt.alloc())?;
    let plain = tree.canonical(rt.alloc())?;
    // The offsets, two indices of 2 bytes and two values of 4.
    let is_small = tree.nbytes() == 1152 + 3 + 4 + 8 && tree.num_children() == 3;
    assert!(rt; is_small && begins(&tree, 999, 1, 70_000) && begins(&plain, 999, 1, 70_000));
    Ok(())
}

// Why block offsets are refused over one row of u8 and `bytes` packed bytes.
fn refusal(alloc: Global, bytes: usize, offsets: &[i128]) -> VortexResult<Option<VortexError>> {
    let packed = Bytes::from_vec(vec![in alloc; 0u8; bytes]?);
    let offsets = flat(alloc, I64, NonNullable, offsets)?;
    let made = ArrayRef::bit_packed_v2(alloc, U8, packed, offsets, 1, None, None, NonNullable);
    match made {
        Ok(_) => Ok(None),
        Err(refused) => Ok(Some(refused.error)),
    }
}

#[test]
fn block_offsets_begin_at_0_and_rise_by_a_width(rt: HostRuntime) -> Result<(), Fail> {
    let alloc = rt.alloc();
    let wide = refusal(alloc, 1152, &[0, 9])? == Some(VortexError::OutOfBounds);
    let few = refusal(alloc, 0, &[0])? == Some(VortexError::LengthMismatch);
    let late = refusal(alloc, 128, &[1, 1])? == Some(VortexError::OutOfBounds);
    let falling = refusal(alloc, 128, &[0, -1])? == Some(VortexError::OutOfBounds);
    let short = refusal(alloc, 127, &[0, 1])? == Some(VortexError::OutOfBounds);
    let whole = refusal(alloc, 128, &[0, 1])?.is_none();
    assert!(rt; wide && few && late && falling && short && whole);
    Ok(())
}

// 1,000,000 to 1,000,009 again and again, and in the second block 100 more.
fn frames(alloc: Global) -> VortexResult<ArrayRef> {
    let mut rows = Vec::new(alloc);
    for row in 0..2048u32 {
        rows.push(row % 10)?;
    }
    let bytes = packed(alloc, rows.as_slice(), 4)?;
    let encoded = accepted(ArrayRef::bit_packed(
        alloc,
        U32,
        4,
        bytes,
        2048,
        None,
        None,
        NonNullable,
    ))?;
    let references = flat(alloc, U32, NonNullable, &[1_000_000, 1_000_100])?;
    accepted(ArrayRef::frame_of_reference_v2(alloc, encoded, references))
}

#[test]
fn each_block_has_its_reference(rt: HostRuntime) -> Result<(), Fail> {
    let tree = frames(rt.alloc())?;
    let plain = tree.copy(rt.alloc())?.canonical(rt.alloc())?;
    let last = 1_000_100;
    let is_small = tree.nbytes() == 1032 && tree.num_children() == 2;
    assert!(rt;
        is_small
            && begins(&tree, 1_000_000, 1_000_001, last)
            && plain.is_plain()
            && begins(&plain, 1_000_000, 1_000_001, last)
    );
    Ok(())
}

// Why references are refused over two differences of u32.
fn frame_refusal(
    alloc: Global,
    ptype: PType,
    references: &[i128],
) -> VortexResult<Option<VortexError>> {
    let encoded = flat(alloc, U32, NonNullable, &[1, 2])?;
    let references = flat(alloc, ptype, NonNullable, references)?;
    match ArrayRef::frame_of_reference_v2(alloc, encoded, references) {
        Ok(_) => Ok(None),
        Err(refused) => Ok(Some(refused.error)),
    }
}

#[test]
fn references_are_of_the_width_and_one_a_block(rt: HostRuntime) -> Result<(), Fail> {
    let alloc = rt.alloc();
    let wide = frame_refusal(alloc, I64, &[0])? == Some(VortexError::MismatchedTypes);
    let many = frame_refusal(alloc, I32, &[0, 0])? == Some(VortexError::LengthMismatch);
    assert!(rt; wide && many && frame_refusal(alloc, I32, &[-1])?.is_none());
    Ok(())
}
