//! Texts by a compressor with joined texts, with ample memory.

use crate::comparing::{Form, by_both};
use std::alloc::Global;
use std::test::Fail;
use vx_array::ArrayRef;
use vx_base::ArrayId::{Delta, Sequence, VarBin, VarBinView};
use vx_base::Nullability::{NonNullable, Nullable};
use vx_base::{ByteRows, Bytes, DType, Mask, VortexResult};
use vx_examples::{JoinedTexts, compressor_with_texts};
use vx_fixtures::{accepted, byte_rows, rules_of};
use vx_scheme::Scheme;

// Two letters, different for each of 1,024 rows.
fn pair(alloc: Global, row: u16) -> VortexResult<Bytes> {
    let letters = [48 + (row / 32 % 32) as u8, 48 + (row % 32) as u8];
    Ok(Bytes::from_vec(Vec::from_slice(alloc, letters.as_slice())?))
}

// 1,023 texts of two letters, all unlike.
fn pairs(alloc: Global) -> VortexResult<ByteRows> {
    let mut rows = Vec::new(alloc);
    for row in 0..1023_u16 {
        rows.push(pair(alloc, row)?)?;
    }
    Ok(ByteRows::from_vec(rows))
}

// 1,023 bits, false in every fourth row.
fn three_of_four(alloc: Global) -> VortexResult<Mask> {
    let mut bits = Vec::new(alloc);
    for row in 0..1023_u16 {
        bits.push(row % 4 < 3)?;
    }
    Ok(Mask::from_bits(bits))
}

// The form of texts by the shipped schemes, and with joined texts.
fn texts_by_both(
    alloc: Global,
    rows: ByteRows,
    valid: Option<Mask>,
    dtype: DType,
) -> VortexResult<(Form, Form)> {
    let array = accepted(ArrayRef::var_bin_view(rows, valid, dtype))?;
    by_both(alloc, &compressor_with_texts(alloc)?, &array)
}

// The 1,024 offsets are a sequence of step 2 and take no byte, beside 2,046 bytes of text; plain, each text takes 16. Of 768
// valid rows: 1,536 bytes of text, 128 bytes of validity, and offsets as differences of 0 and 2: a base of 8 bytes and a block
// of 2 bits a row, 256 bytes.
#[test]
fn offsets_become_less_than_a_byte_each(rt: HostRuntime) -> Result<(), Fail> {
    let all = texts_by_both(
        rt.alloc(),
        pairs(rt.alloc())?,
        None,
        DType::utf8(NonNullable),
    )?;
    let valid = Some(three_of_four(rt.alloc())?);
    let some = texts_by_both(rt.alloc(), pairs(rt.alloc())?, valid, DType::utf8(Nullable))?;
    assert!(rt;
        all == ((VarBinView, 16368, None), (VarBin, 2046, Some(Sequence)))
            && some == ((VarBinView, 16496, None), (VarBin, 1928, Some(Delta)))
    );
    Ok(())
}

// Four offsets of 8 bytes and 36 bytes of text are more than three times 16. The scheme takes texts alone: binaries become the
// tree of the shipped scheme, their bytes over a sequence.
#[test]
fn no_tree_is_larger_than_the_plain_one(rt: HostRuntime) -> Result<(), Fail> {
    let twelves = byte_rows(
        rt.alloc(),
        &[b"twelve bytes", b"two and more", b"as many here"],
    )?;
    let texts = texts_by_both(rt.alloc(), twelves, None, DType::utf8(NonNullable))?;
    let binaries = texts_by_both(
        rt.alloc(),
        pairs(rt.alloc())?,
        None,
        DType::binary(NonNullable),
    )?;
    assert!(rt;
        texts == ((VarBinView, 48, None), (VarBinView, 48, None))
            && binaries
                == (
                    (VarBin, 2046, Some(Sequence)),
                    (VarBin, 2046, Some(Sequence))
                )
    );
    Ok(())
}

#[test]
fn joined_texts_have_no_rules(rt: HostRuntime) -> Result<(), Fail> {
    let rules = rules_of(rt.alloc(), &JoinedTexts)?;
    let takes_texts = JoinedTexts.matches(&DType::utf8(Nullable));
    assert!(rt; takes_texts && JoinedTexts.num_children() == 1 && rules == (0, 0));
    Ok(())
}
