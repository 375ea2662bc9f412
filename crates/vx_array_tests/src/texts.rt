//! Texts and binaries: in a list, by offsets, and by codes.

use std::alloc::Global;
use std::test::Fail;
use vx_array::ArrayRef;
use vx_base::Nullability::{NonNullable, Nullable};
use vx_base::PType::{U8, U16};
use vx_base::{ByteRows, Bytes, Cell, DType, Refused, VortexError, VortexResult};
use vx_fixtures::{accepted, bits, flat, with_nulls};

// The bytes of a slice.
fn bytes(alloc: Global, items: &[u8]) -> VortexResult<Bytes> {
    Ok(Bytes::from_vec(Vec::from_slice(alloc, items)?))
}

// Rows of bytes, from slices.
fn byte_rows(alloc: Global, rows: &[&[u8]]) -> VortexResult<ByteRows> {
    let mut items = Vec::new(alloc);
    for row in rows {
        items.push(bytes(alloc, *row)?)?;
    }
    Ok(ByteRows::from_vec(items))
}

// Whether a row of texts or binaries has these bytes, or is null where there are none.
fn is_row(array: &ArrayRef, row: u64, bytes: Option<&[u8]>) -> bool {
    if !array.dtype().is_flat() || row >= array.len() {
        return false;
    }
    match (array.cell_at(row), bytes) {
        (Cell::Bytes(own), Some(bytes)) => own == bytes,
        (Cell::Null, None) => true,
        _ => false,
    }
}

// Whether these are the rows, all of them.
fn are_rows(array: &ArrayRef, rows: &[Option<&[u8]>]) -> bool {
    for row in 0..rows.len() {
        if !is_row(array, row as u64, rows[row]) {
            return false;
        }
    }
    array.len() == rows.len() as u64
}

// Whether a tree has these rows and takes the first number of bytes, and its copy's plain tree has them and takes the second.
fn becomes_plain(
    alloc: Global,
    tree: &ArrayRef,
    (bytes, plain_bytes): (u128, u128),
    rows: &[Option<&[u8]>],
) -> VortexResult<bool> {
    let plain = tree.copy(alloc)?.canonical(alloc)?;
    let have_both = are_rows(tree, rows) && are_rows(&plain, rows);
    Ok(have_both && plain.is_plain() && tree.nbytes() == bytes && plain.nbytes() == plain_bytes)
}

#[test]
fn values_of_more_than_12_bytes_stand_beside_their_16(rt: HostRuntime) -> Result<(), Fail> {
    // What stands beneath the null isn't UTF-8.
    let rows = byte_rows(rt.alloc(), &[b"twelve bytes", b"\xff", b"thirteen byte"])?;
    let valid = Some(bits(rt.alloc(), &[true, false, true])?);
    let tree = accepted(ArrayRef::var_bin_view(rows, valid, DType::utf8(Nullable)))?;
    let rows = [
        Some(b"twelve bytes".as_slice()),
        None,
        Some(b"thirteen byte".as_slice()),
    ];
    assert!(rt; !tree.is_plain() && becomes_plain(rt.alloc(), &tree, (62, 62), &rows)?);
    Ok(())
}

#[test]
fn only_binaries_are_any_bytes(rt: HostRuntime) -> Result<(), Fail> {
    let rows = byte_rows(rt.alloc(), &[b"\xff"])?;
    let Err(refused) = ArrayRef::var_bin_view(rows, None, DType::utf8(NonNullable)) else {
        return Err(Fail::from("bytes that are no text"));
    };
    let Refused { error, inputs } = refused;
    assert!(rt; matches!(error, VortexError::MismatchedTypes));
    let (rows, valid, _dtype) = inputs;
    let tree = accepted(ArrayRef::var_bin_view(rows, valid, DType::binary(NonNullable)))?;
    assert!(rt; is_row(&tree, 0, Some(b"\xff")));
    Ok(())
}

#[test]
fn values_by_their_offsets_are_made_plain(rt: HostRuntime) -> Result<(), Fail> {
    let offsets = flat(rt.alloc(), U16, NonNullable, &[0, 2, 2, 5])?;
    let valid = Some(bits(rt.alloc(), &[true, true, false])?);
    let whole = bytes(rt.alloc(), b"abcde")?;
    let tree = accepted(ArrayRef::var_bin(
        rt.alloc(),
        offsets,
        whole,
        valid,
        DType::utf8(Nullable),
    ))?;
    let rows = [Some(b"ab".as_slice()), Some(b"".as_slice()), None];
    assert!(rt; becomes_plain(rt.alloc(), &tree, (14, 49), &rows)?);
    Ok(())
}

// The refusal of these offsets, if there is one.
fn refusal(alloc: Global, offsets: &[i128], whole: &[u8]) -> VortexResult<Option<VortexError>> {
    let offsets = flat(alloc, U8, NonNullable, offsets)?;
    let whole = bytes(alloc, whole)?;
    match ArrayRef::var_bin(alloc, offsets, whole, None, DType::utf8(NonNullable)) {
        Ok(_) => Ok(None),
        Err(refused) => Ok(Some(refused.error)),
    }
}

#[test]
fn offsets_rise_from_0_to_the_end(rt: HostRuntime) -> Result<(), Fail> {
    let alloc = rt.alloc();
    for (offsets, whole, refused) in [
        (
            [].as_slice(),
            b"".as_slice(),
            Some(VortexError::LengthMismatch),
        ),
        (
            [1, 2].as_slice(),
            b"ab".as_slice(),
            Some(VortexError::OutOfBounds),
        ),
        (
            [0, 1].as_slice(),
            b"ab".as_slice(),
            Some(VortexError::OutOfBounds),
        ),
        (
            [0, 3].as_slice(),
            b"ab".as_slice(),
            Some(VortexError::OutOfBounds),
        ),
        (
            [0, 3, 2, 5].as_slice(),
            b"abcde".as_slice(),
            Some(VortexError::OutOfBounds),
        ),
        // A letter of two bytes, cut in half.
        (
            [0, 1, 2].as_slice(),
            b"\xc3\xa9".as_slice(),
            Some(VortexError::MismatchedTypes),
        ),
        ([0, 0, 2].as_slice(), b"\xc3\xa9".as_slice(), None),
    ] {
        assert!(rt; refusal(alloc, offsets, whole)? == refused);
    }
    Ok(())
}

#[test]
fn a_dictionary_of_texts_is_made_plain(rt: HostRuntime) -> Result<(), Fail> {
    let rows = byte_rows(rt.alloc(), &[b"a", b"b", b"c"])?;
    let values = accepted(ArrayRef::var_bin_view(rows, None, DType::utf8(NonNullable)))?;
    let codes = with_nulls(rt.alloc(), U8, &[2, 0, 9], &[true, true, false])?;
    let tree = accepted(ArrayRef::dict(rt.alloc(), codes, values))?;
    let rows = [Some(b"c".as_slice()), Some(b"a".as_slice()), None];
    assert!(rt; becomes_plain(rt.alloc(), &tree, (52, 49), &rows)?);
    Ok(())
}

// "ab", null, "" and "c" in turn, as a plain tree.
fn four(alloc: Global) -> VortexResult<ArrayRef> {
    let rows = byte_rows(alloc, &[b"ab", b"", b"", b"c"])?;
    let valid = Some(bits(alloc, &[true, false, true, true])?);
    accepted(ArrayRef::var_bin_view(rows, valid, DType::utf8(Nullable)))
}

#[test]
fn ranges_of_plain_texts_are_plain(rt: HostRuntime) -> Result<(), Fail> {
    let tree = four(rt.alloc())?;
    assert!(rt; tree.is_plain() && tree.dtype().is_flat() && tree.len() == 4);
    let some = tree.gather(rt.alloc(), &[(2, 4), (0, 1)])?;
    let rows = [
        Some(b"".as_slice()),
        Some(b"c".as_slice()),
        Some(b"ab".as_slice()),
    ];
    assert!(rt; some.is_plain() && some.nbytes() == 48 && are_rows(&some, &rows));
    Ok(())
}
