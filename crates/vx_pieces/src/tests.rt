//! Pieces worked by hand. A list is dropped before the only exit of a test, since each exit that drops one is proved by itself.

use crate::{Piece, kept_pieces, masked_pieces, pieced_bits, pieced_bytes, pieced_ints, total};
use std::test::Fail;
use vx_base::{IntList, Mask, VortexResult};
use vx_values::{Ints, byte_rows};

#[test]
fn bits_of_pieces(rt: HostRuntime) -> Result<(), Fail> {
    let bits = Mask::from_bits(vec![in rt.alloc(); true, false]?);
    let pieces = [
        Piece::Rows {
            start: 1,
            end: 2,
            times: 3,
        },
        Piece::Filled(1),
    ];
    let made = pieced_bits(rt.alloc(), &bits, &pieces, true)?;
    assert!(rt; made.as_slice() == [false, false, false, true].as_slice());
    Ok(())
}

// Whether a call's result has these integers.
fn are_wholes(made: VortexResult<Ints>, wholes: &[i128]) -> VortexResult<bool> {
    let made = made?;
    if made.len() != wholes.len() as u64 {
        return Ok(false);
    }
    for row in 0..wholes.len() {
        if made.whole_at(row as u64) != wholes[row] {
            return Ok(false);
        }
    }
    Ok(true)
}

#[test]
fn integers_of_pieces(rt: HostRuntime) -> Result<(), Fail> {
    let ints = Ints::I16(IntList::from_vec(vec![in rt.alloc(); 300, -7]?));
    let pieces = [
        Piece::Rows {
            start: 0,
            end: 2,
            times: 2,
        },
        Piece::Filled(1),
    ];
    let made = are_wholes(
        pieced_ints(rt.alloc(), &ints, &pieces, 5),
        &[300, -7, 300, -7, 5],
    );
    drop(ints);
    assert!(rt; made?);
    Ok(())
}

// Row 1 of `ab` and `ab`, and two fillings behind it.
#[test]
fn rows_of_bytes_of_pieces(rt: HostRuntime) -> Result<(), Fail> {
    let rows = byte_rows::filled(rt.alloc(), b"ab", 2)?;
    let pieces = [
        Piece::Rows {
            start: 1,
            end: 2,
            times: 1,
        },
        Piece::Filled(2),
    ];
    let made = pieced_bytes(rt.alloc(), &rows, &pieces, b"c")?;
    let bytes = byte_rows::concatenated(rt.alloc(), &made)?;
    assert!(rt; bytes.as_slice() == b"abcc".as_slice());
    Ok(())
}

#[test]
fn pieces_of_masks(rt: HostRuntime) -> Result<(), Fail> {
    let keep = [true, true, false, true];
    let kept = kept_pieces(rt.alloc(), &keep)?;
    let masked = masked_pieces(rt.alloc(), &keep)?;
    assert!(rt; kept.len() == 2 && total(&kept) == Some(3));
    assert!(rt; masked.len() == 3 && total(&masked) == Some(4));
    Ok(())
}
