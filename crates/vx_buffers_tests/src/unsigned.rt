//! Columns of unsigned integers, from a caller's buffers and back into them.

use super::columns::{masked, whole};
use std::test::Fail;
use vx_base::IntList;
use vx_buffers::{decode_u8, decode_u16, decode_u32, decode_u64};
use vx_values::Ints;

#[test]
fn rows_of_u8(rt: HostRuntime) -> Result<(), Fail> {
    let alloc = rt.alloc();
    let mut out = [9u8; 3];
    let mut valid = [false; 3];
    let rows = vec![in alloc; u8::MIN, 6, u8::MAX]?;
    let column = masked(alloc, Ints::U8(IntList::from_vec(rows)))?;
    decode_u8(alloc, &column, &mut out, &mut valid)?;
    assert!(rt; out.as_slice() == [u8::MIN, 0, u8::MAX].as_slice());
    assert!(rt; valid.as_slice() == [true, false, true].as_slice());
    let rows = vec![in alloc; u8::MAX, 7, u8::MIN]?;
    let column = whole(alloc, Ints::U8(IntList::from_vec(rows)))?;
    decode_u8(alloc, &column, &mut out, &mut valid)?;
    assert!(rt; out.as_slice() == [u8::MAX, 7, u8::MIN].as_slice());
    assert!(rt; valid.as_slice() == [true, true, true].as_slice());
    Ok(())
}

#[test]
fn rows_of_u16(rt: HostRuntime) -> Result<(), Fail> {
    let alloc = rt.alloc();
    let mut out = [9u16; 3];
    let mut valid = [false; 3];
    let rows = vec![in alloc; u16::MIN, 6, u16::MAX]?;
    let column = masked(alloc, Ints::U16(IntList::from_vec(rows)))?;
    decode_u16(alloc, &column, &mut out, &mut valid)?;
    assert!(rt; out.as_slice() == [u16::MIN, 0, u16::MAX].as_slice());
    assert!(rt; valid.as_slice() == [true, false, true].as_slice());
    let rows = vec![in alloc; u16::MAX, 7, u16::MIN]?;
    let column = whole(alloc, Ints::U16(IntList::from_vec(rows)))?;
    decode_u16(alloc, &column, &mut out, &mut valid)?;
    assert!(rt; out.as_slice() == [u16::MAX, 7, u16::MIN].as_slice());
    assert!(rt; valid.as_slice() == [true, true, true].as_slice());
    Ok(())
}

#[test]
fn rows_of_u32(rt: HostRuntime) -> Result<(), Fail> {
    let alloc = rt.alloc();
    let mut out = [9u32; 3];
    let mut valid = [false; 3];
    let rows = vec![in alloc; u32::MIN, 6, u32::MAX]?;
    let column = masked(alloc, Ints::U32(IntList::from_vec(rows)))?;
    decode_u32(alloc, &column, &mut out, &mut valid)?;
    assert!(rt; out.as_slice() == [u32::MIN, 0, u32::MAX].as_slice());
    assert!(rt; valid.as_slice() == [true, false, true].as_slice());
    let rows = vec![in alloc; u32::MAX, 7, u32::MIN]?;
    let column = whole(alloc, Ints::U32(IntList::from_vec(rows)))?;
    decode_u32(alloc, &column, &mut out, &mut valid)?;
    assert!(rt; out.as_slice() == [u32::MAX, 7, u32::MIN].as_slice());
    assert!(rt; valid.as_slice() == [true, true, true].as_slice());
    Ok(())
}

#[test]
fn rows_of_u64(rt: HostRuntime) -> Result<(), Fail> {
    let alloc = rt.alloc();
    let mut out = [9u64; 3];
    let mut valid = [false; 3];
    let rows = vec![in alloc; u64::MIN, 6, u64::MAX]?;
    let column = masked(alloc, Ints::U64(IntList::from_vec(rows)))?;
    decode_u64(alloc, &column, &mut out, &mut valid)?;
    assert!(rt; out.as_slice() == [u64::MIN, 0, u64::MAX].as_slice());
    assert!(rt; valid.as_slice() == [true, false, true].as_slice());
    let rows = vec![in alloc; u64::MAX, 7, u64::MIN]?;
    let column = whole(alloc, Ints::U64(IntList::from_vec(rows)))?;
    decode_u64(alloc, &column, &mut out, &mut valid)?;
    assert!(rt; out.as_slice() == [u64::MAX, 7, u64::MIN].as_slice());
    assert!(rt; valid.as_slice() == [true, true, true].as_slice());
    Ok(())
}
