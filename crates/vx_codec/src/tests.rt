//! Each call once, on bytes from outside: examples of the Protocol Buffers documentation, and numbers written by hand.

use crate::{
    ReadError, is_end, put_bits, put_byte, put_content, put_delimited, put_fixed, put_number,
    put_varint, read_bits, read_byte, read_content, read_delimited, read_end, read_fixed,
    read_number, read_raw, read_varint,
};
use std::test::Fail;

#[test]
fn varints_are_the_documented_ones(rt: HostRuntime) -> Result<(), Fail> {
    let table: [(u64, &[u8]); 6] = [
        (0, &[0]),
        (1, &[1]),
        (127, &[0x7f]),
        (150, &[0x96, 0x01]),
        (300, &[0xac, 0x02]),
        (
            u64::MAX,
            &[0xff, 0xff, 0xff, 0xff, 0xff, 0xff, 0xff, 0xff, 0xff, 0x01],
        ),
    ];
    for (number, bytes) in table {
        let mut out = Vec::new(rt.alloc());
        put_varint(&mut out, number)?;
        assert_eq!(rt; out.as_slice(), bytes);
        put_byte(&mut out, 7)?;
        let (found, rest) = read_varint(out.as_slice())?;
        assert_eq!(rt; found, number);
        assert_eq!(rt; rest, [7].as_slice());
    }
    Ok(())
}

#[test]
fn other_spellings_of_varints_are_refused(rt: HostRuntime) {
    let table: [&[u8]; 6] = [
        &[],
        &[0x80],
        &[0x80, 0x00],
        &[0x8e, 0x00],
        &[0xff, 0xff, 0xff, 0xff, 0xff, 0xff, 0xff, 0xff, 0xff, 0x02],
        &[
            0x80, 0x80, 0x80, 0x80, 0x80, 0x80, 0x80, 0x80, 0x80, 0x80, 0x01,
        ],
    ];
    for bytes in table {
        assert!(rt;
            read_varint(bytes) == Err(ReadError::Malformed),
            "{bytes:?}"
        );
    }
}

#[test]
fn numbers_bytes_and_frames(rt: HostRuntime) -> Result<(), Fail> {
    let mut out = Vec::new(rt.alloc());
    put_fixed(&mut out, 0x0403_0201, 4)?;
    put_fixed(&mut out, u128::MAX, 16)?;
    put_delimited(&mut out, b"testing")?;
    let (first, rest) = read_byte(out.as_slice())?;
    assert_eq!(rt; first, 1);
    let (three, rest) = read_fixed(rest, 3)?;
    assert_eq!(rt; three, 0x04_0302);
    let (most, rest) = read_fixed(rest, 16)?;
    assert_eq!(rt; most, u128::MAX);
    let (text, after) = read_delimited(rest)?;
    assert_eq!(rt; text, b"testing".as_slice());
    assert!(rt; is_end(after));
    let (length, rest) = read_raw(rest, 1)?;
    assert_eq!(rt; length, [7].as_slice());
    assert!(rt; read_raw(rest, 8) == Err(ReadError::Malformed));
    assert!(rt; read_raw(rest, u64::MAX) == Err(ReadError::Malformed));
    Ok(())
}

#[test]
fn bits_stand_lowest_first(rt: HostRuntime) -> Result<(), Fail> {
    let bits = [true, false, true, true, false, false, false, false, true];
    let mut out = Vec::new(rt.alloc());
    put_bits(&mut out, &bits)?;
    assert_eq!(rt; out.as_slice(), [0x0d, 0x01].as_slice());
    let (found, rest) = read_bits(rt.alloc(), out.as_slice(), 9)?;
    assert_eq!(rt; found.as_slice(), bits.as_slice());
    assert!(rt; is_end(rest));
    let padded = read_bits(rt.alloc(), &[0x0d, 0x03], 9);
    assert!(rt; matches!(padded, Err(ReadError::Malformed)));
    let short = read_bits(rt.alloc(), &[0x0d], u64::MAX);
    assert!(rt; matches!(short, Err(ReadError::Malformed)));
    Ok(())
}

#[test]
fn messages_are_the_documented_ones(rt: HostRuntime) -> Result<(), Fail> {
    let mut inner = Vec::new(rt.alloc());
    put_number(&mut inner, 8, 150)?;
    put_number(&mut inner, 16, 0)?;
    assert_eq!(rt; inner.as_slice(), [0x08, 0x96, 0x01].as_slice());
    let mut outer = Vec::new(rt.alloc());
    put_content(&mut outer, 0x1a, inner.as_slice())?;
    assert_eq!(rt; outer.as_slice(), [0x1a, 0x03, 0x08, 0x96, 0x01].as_slice());
    let (content, after) = read_content(outer.as_slice(), 0x1a)?;
    read_end(after)?;
    let (number, rest) = read_number(content, 8)?;
    assert_eq!(rt; number, 150);
    let (absent, rest) = read_number(rest, 16)?;
    assert_eq!(rt; absent, 0);
    read_end(rest)?;
    assert!(rt; read_number(&[8, 0], 8) == Err(ReadError::Malformed));
    assert!(rt; read_content(content, 0x1a) == Err(ReadError::Malformed));
    Ok(())
}
