//! Columns of signed integers, from a caller's buffers and back into them.

use super::columns::{masked, whole};
use std::test::Fail;
use vx_base::IntList;
use vx_buffers::{decode_i8, decode_i16, decode_i32, decode_i64};
use vx_values::Ints;

#[test]
fn rows_of_i8(rt: HostRuntime) -> Result<(), Fail> {
    let alloc = rt.alloc();
    let mut out = [9i8; 3];
    let mut valid = [false; 3];
    let rows = vec![in alloc; i8::MIN, 6, i8::MAX]?;
    let column = masked(alloc, Ints::I8(IntList::from_vec(rows)))?;
    decode_i8(alloc, &column, &mut out, &mut valid)?;
    assert!(rt; out.as_slice() == [i8::MIN, 0, i8::MAX].as_slice());
    assert!(rt; valid.as_slice() == [true, false, true].as_slice());
    let rows = vec![in alloc; i8::MAX, 7, i8::MIN]?;
    let column = whole(alloc, Ints::I8(IntList::from_vec(rows)))?;
    decode_i8(alloc, &column, &mut out, &mut valid)?;
    assert!(rt; out.as_slice() == [i8::MAX, 7, i8::MIN].as_slice());
    assert!(rt; valid.as_slice() == [true, true, true].as_slice());
    Ok(())
}

#[test]
fn rows_of_i16(rt: HostRuntime) -> Result<(), Fail> {
    let alloc = rt.alloc();
    let mut out = [9i16; 3];
    let mut valid = [false; 3];
    let rows = vec![in alloc; i16::MIN, 6, i16::MAX]?;
    let column = masked(alloc, Ints::I16(IntList::from_vec(rows)))?;
    decode_i16(alloc, &column, &mut out, &mut valid)?;
    assert!(rt; out.as_slice() == [i16::MIN, 0, i16::MAX].as_slice());
    assert!(rt; valid.as_slice() == [true, false, true].as_slice());
    let rows = vec![in alloc; i16::MAX, 7, i16::MIN]?;
    let column = whole(alloc, Ints::I16(IntList::from_vec(rows)))?;
    decode_i16(alloc, &column, &mut out, &mut valid)?;
    assert!(rt; out.as_slice() == [i16::MAX, 7, i16::MIN].as_slice());
    assert!(rt; valid.as_slice() == [true, true, true].as_slice());
    Ok(())
}

#[test]
fn rows_of_i32(rt: HostRuntime) -> Result<(), Fail> {
    let alloc = rt.alloc();
    let mut out = [9i32; 3];
    let mut valid = [false; 3];
    let rows = vec![in alloc; i32::MIN, 6, i32::MAX]?;
    let column = masked(alloc, Ints::I32(IntList::from_vec(rows)))?;
    decode_i32(alloc, &column, &mut out, &mut valid)?;
    assert!(rt; out.as_slice() == [i32::MIN, 0, i32::MAX].as_slice());
    assert!(rt; valid.as_slice() == [true, false, true].as_slice());
    let rows = vec![in alloc; i32::MAX, 7, i32::MIN]?;
    let column = whole(alloc, Ints::I32(IntList::from_vec(rows)))?;
    decode_i32(alloc, &column, &mut out, &mut valid)?;
    assert!(rt; out.as_slice() == [i32::MAX, 7, i32::MIN].as_slice());
    assert!(rt; valid.as_slice() == [true, true, true].as_slice());
    Ok(())
}

#[test]
fn rows_of_i64(rt: HostRuntime) -> Result<(), Fail> {
    let alloc = rt.alloc();
    let mut out = [9i64; 3];
    let mut valid = [false; 3];
    let rows = vec![in alloc; i64::MIN, 6, i64::MAX]?;
    let column = masked(alloc, Ints::I64(IntList::from_vec(rows)))?;
    decode_i64(alloc, &column, &mut out, &mut valid)?;
    assert!(rt; out.as_slice() == [i64::MIN, 0, i64::MAX].as_slice());
    assert!(rt; valid.as_slice() == [true, false, true].as_slice());
    let rows = vec![in alloc; i64::MAX, 7, i64::MIN]?;
    let column = whole(alloc, Ints::I64(IntList::from_vec(rows)))?;
    decode_i64(alloc, &column, &mut out, &mut valid)?;
    assert!(rt; out.as_slice() == [i64::MAX, 7, i64::MIN].as_slice());
    assert!(rt; valid.as_slice() == [true, true, true].as_slice());
    Ok(())
}
