//! Buffers that are refused, each for its reason, and left as they were.

use super::columns::{refusal, two};
use std::test::Fail;
use vx_buffers::Refusal::{
    BadOffsets, BadUnit, BufferLength, NotUtf8, OtherType, UnknownForm, ValidityLength,
};
use vx_buffers::{
    byte_count, decode_bool, decode_bytes, decode_i64, given_bytes, given_timestamps,
};

#[test]
fn validity(rt: HostRuntime) -> Result<(), Fail> {
    let alloc = rt.alloc();
    assert!(rt; refusal(two(alloc, 0, &[], 0)) == None);
    assert!(rt; refusal(two(alloc, 3, &[], 0)) == Some(UnknownForm));
    assert!(rt; refusal(two(alloc, 1, &[1], 0)) == Some(ValidityLength));
    assert!(rt; refusal(two(alloc, 1, &[1, 0, 1], 0)) == Some(ValidityLength));
    assert!(rt; refusal(two(alloc, 2, &[1], 6)) == None);
    assert!(rt; refusal(two(alloc, 2, &[1], 7)) == Some(ValidityLength));
    assert!(rt; refusal(two(alloc, 2, &[1], u64::MAX)) == Some(ValidityLength));
    Ok(())
}

#[test]
fn texts(rt: HostRuntime) -> Result<(), Fail> {
    let alloc = rt.alloc();
    let none = given_bytes(alloc, true, &[], b"", 0, &[], 0);
    assert!(rt; refusal(none) == Some(BadOffsets));
    let late = given_bytes(alloc, true, &[1, 2], b"ab", 0, &[], 0);
    assert!(rt; refusal(late) == Some(BadOffsets));
    let falling = given_bytes(alloc, true, &[0, 2, 1, 2], b"ab", 0, &[], 0);
    assert!(rt; refusal(falling) == Some(BadOffsets));
    let beyond = given_bytes(alloc, true, &[0, 3], b"ab", 0, &[], 0);
    assert!(rt; refusal(beyond) == Some(BadOffsets));
    let garbled = given_bytes(alloc, true, &[0, 1], &[255], 0, &[], 0);
    assert!(rt; refusal(garbled) == Some(NotUtf8));
    let hidden = given_bytes(alloc, true, &[0, 1], &[255], 1, &[0], 0);
    assert!(rt; refusal(hidden) == None);
    Ok(())
}

#[test]
fn timestamps(rt: HostRuntime) -> Result<(), Fail> {
    let alloc = rt.alloc();
    let days = given_timestamps(alloc, &[1], 0, &[], 0, 4, 0, b"");
    assert!(rt; refusal(days) == Some(BadUnit));
    let garbled = given_timestamps(alloc, &[1], 0, &[], 0, 3, 1, &[255]);
    assert!(rt; refusal(garbled) == Some(NotUtf8));
    let without = given_timestamps(alloc, &[1], 0, &[], 0, 3, 0, &[255]);
    assert!(rt; refusal(without) == None);
    Ok(())
}

#[test]
fn rows(rt: HostRuntime) -> Result<(), Fail> {
    let alloc = rt.alloc();
    let column = two(alloc, 0, &[], 0)?;
    let mut out = [9i64; 2];
    let mut bools = [true; 2];
    let mut short = [false; 1];
    let refused = decode_i64(alloc, &column, &mut out, &mut short);
    assert!(rt; refused == Err(BufferLength) && out.as_slice() == [9, 9].as_slice() && !short[0]);
    let mut valid = [false; 2];
    let refused = decode_bool(alloc, &column, &mut bools, &mut valid);
    assert!(rt; refused == Err(OtherType) && bools[0] && bools[1] && !valid[0] && !valid[1]);
    assert!(rt; byte_count(alloc, &column) == Err(OtherType));
    Ok(())
}

#[test]
fn bytes(rt: HostRuntime) -> Result<(), Fail> {
    let alloc = rt.alloc();
    let column = given_bytes(alloc, true, &[0, 2], b"ab", 0, &[], 0)?;
    let mut offsets = [7u64; 2];
    let mut bytes = [7u8; 3];
    let mut valid = [false; 1];
    let refused = decode_bytes(alloc, &column, &mut offsets, &mut bytes, &mut valid);
    assert!(rt; refused == Err(BufferLength));
    assert!(rt; offsets[1] == 7 && bytes[0] == 7 && !valid[0]);
    Ok(())
}
