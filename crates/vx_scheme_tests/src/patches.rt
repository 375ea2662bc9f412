//! Compressed patches: the type of the indices, and what becomes of the values and of chunk offsets.

use crate::shapes::{Shape, has_shape};
use std::alloc::Global;
use std::test::Fail;
use vx_array::{ArrayRef, Patches};
use vx_base::ArrayId::{Constant, Primitive};
use vx_base::PType::{I16, U8, U16, U32, U64};
use vx_base::{DType, Nullability, VortexResult};
use vx_fixtures::{accepted, byte_rows, column, context, flat};
use vx_schemes::compress_patches;

// The rows that are patched.
const ROWS: u64 = 5_000_000_000;

// Whether compressed patches of five billion rows have their rows and offset, these indices and values, and no chunk offsets.
fn shortens(alloc: Global, offset: u64, indices: Shape, values: Shape) -> VortexResult<bool> {
    let (_, _, _, places) = indices;
    let (_, _, _, items) = values;
    let places = column(alloc, U64, places)?;
    let items = column(alloc, I16, items)?;
    let patches = accepted(Patches::new(ROWS, offset, places, items))?;
    let short = compress_patches(&patches, &mut context(alloc)?)?;
    Ok(
        short.array_len() == ROWS
            && short.offset() == offset
            && has_shape(short.indices(), &indices)
            && has_shape(short.values(), &values)
            && short.chunk_offsets().is_none(),
    )
}

#[test]
fn the_last_index_decides_on_the_type(rt: HostRuntime) -> Result<(), Fail> {
    for (last, ptype, nbytes) in [
        (255, U8, 2),
        (256, U16, 4),
        (65_536, U32, 8),
        (4_294_967_296, U64, 16),
    ] {
        let indices = (Primitive, ptype, nbytes, &[Some(7), Some(last)][..]);
        let values = (Primitive, I16, 4, &[Some(9), Some(8)][..]);
        assert!(rt; shortens(rt.alloc(), 7, indices, values)?, "{last}");
    }
    Ok(())
}

#[test]
fn equal_values_are_one_scalar(rt: HostRuntime) -> Result<(), Fail> {
    // Null is equal to null, and to no value.
    for (values, encoding, nbytes) in [
        (&[Some(9), Some(9)], Constant, 3),
        (&[None, None], Constant, 1),
        (&[None, Some(0)], Primitive, 5),
    ] {
        let indices = (Primitive, U16, 4, &[Some(1), Some(300)][..]);
        let values = (encoding, I16, nbytes, &values[..]);
        assert!(rt; shortens(rt.alloc(), 0, indices, values)?, "{nbytes}");
    }
    Ok(())
}

// The bytes of compressed patches of these two values, where they became one scalar.
fn shared_bytes(alloc: Global, values: ArrayRef) -> VortexResult<Option<u128>> {
    let places = column(alloc, U64, &[Some(1), Some(300)])?;
    let patches = accepted(Patches::new(ROWS, 0, places, values))?;
    let short = compress_patches(&patches, &mut context(alloc)?)?;
    if short.values().encoding_id() != Constant {
        return Ok(None);
    }
    Ok(Some(short.values().nbytes()))
}

fn texts(alloc: Global, texts: &[&[u8]]) -> VortexResult<ArrayRef> {
    let rows = byte_rows(alloc, texts)?;
    accepted(ArrayRef::var_bin_view(rows, None, DType::utf8(Nullability::NonNullable)))
}

#[test]
fn equal_texts_are_one_scalar(rt: HostRuntime) -> Result<(), Fail> {
    let same = texts(rt.alloc(), &[b"thirteen byte", b"thirteen byte"])?;
    let of_same = shared_bytes(rt.alloc(), same)?;
    let other = texts(rt.alloc(), &[b"thirteen byte", b"thirteen bytE"])?;
    let of_other = shared_bytes(rt.alloc(), other)?;
    assert!(rt; of_same == Some(14) && of_other.is_none());
    Ok(())
}

// Lists of two numbers each.
fn pairs(alloc: Global, numbers: &[i128]) -> VortexResult<ArrayRef> {
    let numbers = flat(alloc, U8, Nullability::NonNullable, numbers)?;
    let pairs = ArrayRef::fixed_size_list(alloc, numbers, 2, 2, None, Nullability::NonNullable);
    accepted(pairs)
}

#[test]
fn equal_lists_are_one_scalar(rt: HostRuntime) -> Result<(), Fail> {
    let same = pairs(rt.alloc(), &[7, 8, 7, 8])?;
    let of_same = shared_bytes(rt.alloc(), same)?;
    let other = pairs(rt.alloc(), &[7, 8, 7, 9])?;
    let of_other = shared_bytes(rt.alloc(), other)?;
    assert!(rt; of_same == Some(3) && of_other.is_none());
    Ok(())
}

// Patches of 2,500 rows at offset 500, in three chunks: two indices in the first, one in the second and none in the third.
fn chunked(alloc: Global) -> VortexResult<Patches> {
    let indices = column(alloc, U64, &[Some(505), Some(1023), Some(2047)])?;
    let values = column(alloc, I16, &[Some(9), Some(8), Some(9)])?;
    let chunks = column(alloc, U64, &[Some(0), Some(2), Some(3)])?;
    accepted(Patches::new_chunked(2500, 500, indices, values, chunks))
}

// Whether these patches, compressed, have two bytes for each index and one for each chunk offset.
fn narrows_chunks(alloc: Global) -> VortexResult<bool> {
    let short = compress_patches(&chunked(alloc)?, &mut context(alloc)?)?;
    let indices = (Primitive, U16, 6, &[Some(505), Some(1023), Some(2047)][..]);
    let offsets = (Primitive, U8, 3, &[Some(0), Some(2), Some(3)][..]);
    match short.chunk_offsets() {
        Some(chunks) => Ok(has_shape(chunks, &offsets) && has_shape(short.indices(), &indices)),
        None => Ok(false),
    }
}

#[test]
fn chunk_offsets_are_narrowed(rt: HostRuntime) -> Result<(), Fail> {
    assert!(rt; narrows_chunks(rt.alloc())?);
    Ok(())
}
