//! Columns of truth values, texts, binaries and timestamps, from a caller's buffers and back into them.

use std::test::Fail;
use vx_buffers::{
    byte_count, decode_bool, decode_bytes, decode_timestamps, given_bytes, given_timestamps,
    given_truths, hand_out, plain_tree,
};

#[test]
fn truth_values(rt: HostRuntime) -> Result<(), Fail> {
    let alloc = rt.alloc();
    let column = given_truths(alloc, &[0, 2, 1], 1, &[1, 255, 0], 0)?;
    let mut out = [true; 3];
    let mut valid = [false; 3];
    decode_bool(alloc, &column, &mut out, &mut valid)?;
    assert!(rt; out.as_slice() == [false, true, false].as_slice());
    assert!(rt; valid.as_slice() == [true, true, false].as_slice());
    let column = given_truths(alloc, &[1, 0, 1], 0, &[], 0)?;
    decode_bool(alloc, &column, &mut out, &mut valid)?;
    assert!(rt; out.as_slice() == [true, false, true].as_slice());
    assert!(rt; valid.as_slice() == [true, true, true].as_slice());
    Ok(())
}

#[test]
fn texts(rt: HostRuntime) -> Result<(), Fail> {
    let alloc = rt.alloc();
    let column = given_bytes(alloc, true, &[0, 2, 3, 3], b"abc", 1, &[1, 0, 1], 0)?;
    assert!(rt; byte_count(alloc, &column)? == 2);
    let mut offsets = [7u64; 4];
    let mut bytes = [7u8; 2];
    let mut valid = [false; 3];
    decode_bytes(alloc, &column, &mut offsets, &mut bytes, &mut valid)?;
    assert!(rt;
        offsets.as_slice() == [0, 2, 2, 2].as_slice() && bytes.as_slice() == b"ab".as_slice()
    );
    assert!(rt; valid.as_slice() == [true, false, true].as_slice());
    Ok(())
}

#[test]
fn binaries_of_a_plain_tree(rt: HostRuntime) -> Result<(), Fail> {
    let alloc = rt.alloc();
    let column = given_bytes(alloc, false, &[0, 1], &[255], 0, &[], 0)?;
    let plain = plain_tree(alloc, &column)?;
    let mut offsets = [7u64; 2];
    let mut bytes = [7u8; 1];
    let mut valid = [false; 1];
    decode_bytes(alloc, &plain, &mut offsets, &mut bytes, &mut valid)?;
    assert!(rt; offsets.as_slice() == [0, 1].as_slice() && bytes[0] == 255 && valid[0]);
    Ok(())
}

#[test]
fn no_text(rt: HostRuntime) -> Result<(), Fail> {
    let alloc = rt.alloc();
    let column = given_bytes(alloc, true, &[0], b"", 0, &[], 0)?;
    let mut offsets = [7u64; 1];
    decode_bytes(alloc, &column, &mut offsets, &mut [], &mut [])?;
    assert!(rt; offsets[0] == 0 && byte_count(alloc, &column)? == 0);
    Ok(())
}

#[test]
fn timestamps_with_a_zone(rt: HostRuntime) -> Result<(), Fail> {
    let alloc = rt.alloc();
    let column = given_timestamps(alloc, &[-1, 8], 1, &[1, 0], 0, 1, 1, b"UTC")?;
    let dtype = column.dtype();
    let text = format!(in alloc; "{dtype}")?;
    assert!(rt; text.as_str() == "timestamp us<UTC>?");
    let mut out = [9i64; 2];
    let mut valid = [false; 2];
    decode_timestamps(alloc, &column, &mut out, &mut valid)?;
    assert!(rt;
        out.as_slice() == [-1, 0].as_slice() && valid.as_slice() == [true, false].as_slice()
    );
    Ok(())
}

#[test]
fn timestamps_without_a_zone(rt: HostRuntime) -> Result<(), Fail> {
    let alloc = rt.alloc();
    let column = given_timestamps(alloc, &[5], 0, &[], 0, 3, 0, b"UTC")?;
    let dtype = column.dtype();
    let text = format!(in alloc; "{dtype}")?;
    assert!(rt; text.as_str() == "timestamp s");
    let mut out = [9i64; 1];
    let mut valid = [false; 1];
    decode_timestamps(alloc, &column, &mut out, &mut valid)?;
    assert!(rt; out[0] == 5 && valid[0]);
    Ok(())
}

#[test]
fn bytes_behind_their_number(rt: HostRuntime) -> Result<(), Fail> {
    let mut place = [7u8; 3];
    let mut count = 0;
    hand_out(b"ab", &mut place, &mut count)?;
    assert!(rt; count == 2 && place.as_slice() == [b'a', b'b', 7].as_slice());
    let refused = hand_out(b"abcd", &mut place, &mut count).is_err();
    assert!(rt; refused && count == 4 && place.as_slice() == [b'a', b'b', 7].as_slice());
    Ok(())
}
