//! Validity: bitmaps with offsets, bytes, none; no row, one row.

use std::alloc::Global;
use std::test::Fail;
use vx_base::IntList;
use vx_buffers::{decode_u8, given_integers, given_truths, given_validity};
use vx_values::Ints;

// Whether a bitmap at an offset has these bits.
fn has(alloc: Global, bytes: &[u8], offset: u64, want: &[bool]) -> Result<bool, Fail> {
    let (mask, _) = given_validity(alloc, 2, bytes, offset, want.len() as u64)?;
    match mask {
        Some(bits) => Ok(bits.as_slice() == want),
        None => Ok(false),
    }
}

#[test]
fn bits_across_bytes(rt: HostRuntime) -> Result<(), Fail> {
    let alloc = rt.alloc();
    let bytes = [0b1000_0000, 0b0000_0110, 0b0000_0001];
    // The bits 7, 9, 10 and 16 are set, the lowest bit of each byte first.
    assert!(rt; has(alloc, &bytes, 7, &[true, false, true, true, false])?);
    assert!(rt; has(alloc, &bytes, 15, &[false, true, false])?);
    assert!(rt; has(alloc, &bytes, 23, &[false])?);
    assert!(rt; has(alloc, &bytes, 24, &[])?);
    Ok(())
}

#[test]
fn no_row(rt: HostRuntime) -> Result<(), Fail> {
    let alloc = rt.alloc();
    let rows = Ints::U8(IntList::from_vec(Vec::new(alloc)));
    let column = given_integers(alloc, rows, 1, &[], 0)?;
    assert!(rt; column.len() == 0 && column.dtype().is_nullable());
    decode_u8(alloc, &column, &mut [], &mut [])?;
    Ok(())
}

#[test]
fn one_null_row(rt: HostRuntime) -> Result<(), Fail> {
    let alloc = rt.alloc();
    let rows = Ints::U8(IntList::from_vec(vec![in alloc; 7u8]?));
    let column = given_integers(alloc, rows, 1, &[0], 0)?;
    let mut out = [9u8; 1];
    let mut valid = [true; 1];
    decode_u8(alloc, &column, &mut out, &mut valid)?;
    assert!(rt; out[0] == 0 && !valid[0]);
    Ok(())
}

#[test]
fn validity_makes_rows_nullable(rt: HostRuntime) -> Result<(), Fail> {
    let alloc = rt.alloc();
    let without = given_truths(alloc, &[0, 1], 0, &[], 0)?;
    let with = given_truths(alloc, &[0, 1], 1, &[1, 1], 0)?;
    assert!(rt; !without.dtype().is_nullable() && with.dtype().is_nullable());
    Ok(())
}
