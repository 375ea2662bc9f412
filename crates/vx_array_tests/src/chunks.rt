//! Chunk offsets of patches: refusals, the search by chunks, and a fill over such patches.

use crate::patches::place_of;
use std::alloc::Global;
use std::test::Fail;
use vx_array::{ArrayRef, Patches};
use vx_base::Nullability::{NonNullable, Nullable};
use vx_base::PType::{I32, U8, U16};
use vx_base::{Refused, Scalar, VortexError, VortexResult};
use vx_fixtures::{accepted, bits, flat};

// Of 2,500 rows at offset 500, in three chunks: two indices in the first, two in the second and one in the third.
const INDICES: [i128; 5] = [505, 1023, 1024, 2047, 2999];

// The patches of those indices, whose values are 10 to 14, with these chunk offsets.
fn chunked(alloc: Global, chunks: ArrayRef) -> Result<Patches, VortexError> {
    let indices = flat(alloc, U16, NonNullable, &INDICES)?;
    let values = flat(alloc, I32, NonNullable, &[10, 11, 12, 13, 14])?;
    match Patches::new_chunked(2500, 500, indices, values, chunks) {
        Ok(patches) => Ok(patches),
        Err(refused) => Err(refused.error),
    }
}

// The patches of those indices without chunk offsets.
fn unchunked(alloc: Global) -> VortexResult<Patches> {
    let indices = flat(alloc, U16, NonNullable, &INDICES)?;
    let values = flat(alloc, I32, NonNullable, &[10, 11, 12, 13, 14])?;
    accepted(Patches::new(2500, 500, indices, values))
}

// Whether the chunk offsets are refused with the error.
fn are_refused(alloc: Global, chunks: ArrayRef, error: VortexError) -> bool {
    match chunked(alloc, chunks) {
        Ok(_) => false,
        Err(refused) => refused == error,
    }
}

#[test]
fn chunk_offsets_are_integers_without_nulls(rt: HostRuntime) -> Result<(), Fail> {
    let alloc = rt.alloc();
    let nullable = flat(alloc, U8, Nullable, &[0, 2, 4])?;
    let truths = accepted(ArrayRef::bool(bits(alloc, &[false, true, true])?, None, NonNullable))?;
    assert!(rt; are_refused(alloc, nullable, VortexError::MismatchedTypes));
    assert!(rt; are_refused(alloc, truths, VortexError::MismatchedTypes));
    Ok(())
}

#[test]
fn each_chunk_has_an_offset(rt: HostRuntime) -> Result<(), Fail> {
    let alloc = rt.alloc();
    let few = flat(alloc, U8, NonNullable, &[0, 2])?;
    let many = flat(alloc, U8, NonNullable, &[0, 2, 4, 5])?;
    assert!(rt; are_refused(alloc, few, VortexError::LengthMismatch));
    assert!(rt; are_refused(alloc, many, VortexError::LengthMismatch));
    Ok(())
}

#[test]
fn chunk_offsets_count_the_indices_before_each_chunk(rt: HostRuntime) -> Result<(), Fail> {
    let alloc = rt.alloc();
    let later = flat(alloc, U8, NonNullable, &[0, 3, 4])?;
    let earlier = flat(alloc, U8, NonNullable, &[0, 2, 3])?;
    let from_one = flat(alloc, U8, NonNullable, &[1, 2, 4])?;
    assert!(rt; are_refused(alloc, later, VortexError::OutOfBounds));
    assert!(rt; are_refused(alloc, earlier, VortexError::OutOfBounds));
    assert!(rt; are_refused(alloc, from_one, VortexError::OutOfBounds));
    Ok(())
}

// Whether two indices that fall are what is refused, and the three inputs come back.
fn hands_back(made: Result<Patches, Refused<(ArrayRef, ArrayRef, ArrayRef)>>) -> bool {
    let Err(refused) = made else {
        return false;
    };
    let Refused { error, inputs } = refused;
    let (indices, values, chunks) = inputs;
    let all_are_back = indices.len() == 2 && values.len() == 2 && chunks.len() == 1;
    error == VortexError::IndicesNotAscending && all_are_back
}

#[test]
fn falling_indices_are_told_before_wrong_offsets(rt: HostRuntime) -> Result<(), Fail> {
    let alloc = rt.alloc();
    let indices = flat(alloc, U8, NonNullable, &[7, 3])?;
    let values = flat(alloc, I32, NonNullable, &[1, 2])?;
    let chunks = flat(alloc, U8, NonNullable, &[9])?;
    assert!(rt; hands_back(Patches::new_chunked(8, 0, indices, values, chunks)));
    Ok(())
}

// Patches at these indices, each with the value 1.
fn ones(
    alloc: Global,
    len: u64,
    offset: u64,
    indices: &[i128],
    chunks: &[i128],
) -> VortexResult<Patches> {
    let values = Scalar::primitive(1, I32, NonNullable)?;
    let values = ArrayRef::constant(values, indices.len() as u64);
    let indices = flat(alloc, U16, NonNullable, indices)?;
    let chunks = flat(alloc, U8, NonNullable, chunks)?;
    accepted(Patches::new_chunked(len, offset, indices, values, chunks))
}

#[test]
fn a_patch_is_found_in_its_chunk(rt: HostRuntime) -> Result<(), Fail> {
    let spread = ones(rt.alloc(), 3000, 0, &[5, 1500, 2999], &[0, 1, 2])?;
    assert!(rt; place_of(&spread, 1500) == Some(1) && place_of(&spread, 6).is_none());
    let behind = ones(rt.alloc(), 100, 1000, &[1050], &[0, 0])?;
    assert!(rt; place_of(&behind, 50) == Some(0));
    Ok(())
}

#[test]
fn a_search_by_chunks_finds_what_a_search_of_all_finds(rt: HostRuntime) -> Result<(), Fail> {
    let alloc = rt.alloc();
    let all = unchunked(alloc)?;
    let by_chunks = chunked(alloc, flat(alloc, U8, NonNullable, &[0, 2, 4])?)?;
    assert!(rt; by_chunks.chunk_offsets().is_some() && all.chunk_offsets().is_none());
    for row in [0, 5, 6, 523, 524, 525, 1547, 1548, 2499] {
        assert!(rt; place_of(&by_chunks, row) == place_of(&all, row));
    }
    assert!(rt; place_of(&by_chunks, 523) == Some(1) && place_of(&by_chunks, 524) == Some(2));
    assert!(rt; place_of(&by_chunks, 2499) == Some(4) && place_of(&by_chunks, 1548).is_none());
    Ok(())
}

// A fill of 7 and the patches.
fn sparse(alloc: Global, patches: Patches) -> VortexResult<ArrayRef> {
    let fill = Scalar::primitive(7, I32, NonNullable)?;
    accepted(ArrayRef::sparse(alloc, patches, fill))
}

// The integer in a row, None where there is none.
fn whole(tree: &ArrayRef, row: u64) -> Option<i128> {
    if tree.dtype().is_integer() && row < tree.len() {
        tree.integer_at(row)
    } else {
        None
    }
}

#[test]
fn a_fill_over_chunks_decodes_to_its_rows(rt: HostRuntime) -> Result<(), Fail> {
    let alloc = rt.alloc();
    let offsets = flat(alloc, U8, NonNullable, &[0, 2, 4])?;
    let tree = sparse(alloc, chunked(alloc, offsets)?)?;
    let plain = tree.copy(alloc)?.canonical(alloc)?;
    let rows = [
        (4, 7),
        (5, 10),
        (523, 11),
        (524, 12),
        (525, 7),
        (1547, 13),
        (2499, 14),
    ];
    for (row, value) in rows {
        assert!(rt; whole(&tree, row) == Some(value) && whole(&plain, row) == Some(value));
    }
    assert!(rt; plain.is_plain() && plain.len() == 2500 && tree.extents_fit());
    Ok(())
}

#[test]
fn chunk_offsets_are_the_third_child(rt: HostRuntime) -> Result<(), Fail> {
    let alloc = rt.alloc();
    let offsets = flat(alloc, U8, NonNullable, &[0, 2, 4])?;
    let tree = sparse(alloc, chunked(alloc, offsets)?)?;
    let other = sparse(alloc, unchunked(alloc)?)?;
    let has_offsets = match tree.child(2) {
        Some(chunks) => chunks.len() == 3,
        None => false,
    };
    assert!(rt; tree.num_children() == 3 && has_offsets && tree.child(3).is_none());
    assert!(rt; other.num_children() == 2 && other.child(2).is_none());
    // Three offsets of a byte.
    assert!(rt; tree.nbytes() == other.nbytes().saturating_add(3));
    Ok(())
}
