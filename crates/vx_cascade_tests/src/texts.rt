//! Texts, binaries, truth values and timestamps by the shipped compressor, and by dictionaries alone, with ample memory.

use crate::comparing::{Form, form_by, form_of};
use std::alloc::Global;
use std::test::Fail;
use vx_array::ArrayRef;
use vx_base::ArrayId::{
    BitPacked, Constant, DateTimeParts, Dict, Masked, Primitive, Sparse, VarBin,
};
use vx_base::Nullability::{NonNullable, Nullable};
use vx_base::PType::I64;
use vx_base::{ByteRows, Bytes, DType, Mask, TimeUnit, TimestampType, VortexResult};
use vx_btrblocks::{AnyScheme, BtrBlocksCompressor};
use vx_compressor::{CascadingCompressor, Schemes};
use vx_fixtures::{accepted, byte_rows, context, flat};
use vx_scheme::NoScheme;
use vx_schemes::IntDictScheme;
use vx_schemes_text::StringDictScheme;

// Two texts in turn.
fn in_turn(alloc: Global, rows: u16, first: &[u8], second: &[u8]) -> VortexResult<ByteRows> {
    let mut texts = Vec::new(alloc);
    for row in 0..rows {
        let text = if row % 2 == 0 { first } else { second };
        texts.push(Bytes::from_vec(Vec::from_slice(alloc, text)?))?;
    }
    Ok(ByteRows::from_vec(texts))
}

// A hundred bits, false in each tenth row.
fn nine_of_ten(alloc: Global) -> VortexResult<Mask> {
    let mut bits = Vec::new(alloc);
    for row in 0..100_u16 {
        bits.push(row % 10 > 0)?;
    }
    Ok(Mask::from_bits(bits))
}

// The form by the dictionaries of integers and of texts alone.
fn form_by_dictionaries(alloc: Global, array: &ArrayRef) -> VortexResult<Form> {
    let mut schemes = Vec::new(alloc);
    schemes.push(AnyScheme::<NoScheme>::IntDict(IntDictScheme))?;
    schemes.push(AnyScheme::StringDict(StringDictScheme))?;
    let compressor = accepted(CascadingCompressor::new(alloc, Schemes::from_vec(schemes)))?;
    let tree = compressor.compress(array, &mut context(alloc)?)?;
    Ok(form_of(&tree))
}

// The form by the shipped schemes.
fn form_by_shipped(alloc: Global, array: &ArrayRef) -> VortexResult<Form> {
    let compressor = BtrBlocksCompressor::<NoScheme>::shipped(alloc)?;
    form_by(&compressor, array, &mut context(alloc)?)
}

// "abc" and null, and true and null, each tenth row null.
fn equal_with_nulls(alloc: Global) -> VortexResult<(Form, Form)> {
    let rows = in_turn(alloc, 100, b"abc", b"abc")?;
    let valid = Some(nine_of_ten(alloc)?);
    let texts = accepted(ArrayRef::var_bin_view(rows, valid, DType::utf8(Nullable)))?;
    let valid = Some(nine_of_ten(alloc)?);
    let truths = accepted(ArrayRef::bool(nine_of_ten(alloc)?, valid, Nullable))?;
    Ok((
        form_by_dictionaries(alloc, &texts)?,
        form_by_dictionaries(alloc, &truths)?,
    ))
}

// A mask of 13 bytes over a constant of 1 byte and its value: three letters, or one truth value.
#[test]
fn equal_texts_and_truths_are_masked(rt: HostRuntime) -> Result<(), Fail> {
    let forms = equal_with_nulls(rt.alloc())?;
    assert!(rt; forms == ((Masked, 17, Some(Constant)), (Masked, 15, Some(Constant))));
    Ok(())
}

fn form_of_two_words(alloc: Global) -> VortexResult<Form> {
    let rows = in_turn(alloc, 1000, b"hello", b"world")?;
    let texts = accepted(ArrayRef::var_bin_view(rows, None, DType::utf8(NonNullable)))?;
    form_by_shipped(alloc, &texts)
}

fn form_of_four_binaries(alloc: Global) -> VortexResult<Form> {
    let rows = byte_rows(alloc, &[b"\x01", b"\x02\x03", b"", b"\xff"])?;
    let binaries = accepted(ArrayRef::var_bin_view(rows, None, DType::binary(NonNullable)))?;
    form_by_shipped(alloc, &binaries)
}

// Codes of one bit, 128 bytes, and two values of 16. Four bytes and five offsets of one byte.
#[test]
fn texts_become_codes_and_binaries_offsets(rt: HostRuntime) -> Result<(), Fail> {
    let words = form_of_two_words(rt.alloc())?;
    let binaries = form_of_four_binaries(rt.alloc())?;
    assert!(rt; words == (Dict, 160, Some(BitPacked)) && binaries == (VarBin, 9, Some(Primitive)));
    Ok(())
}

// 21 rows, of which two are texts.
fn form_of_rare_texts(alloc: Global) -> VortexResult<Form> {
    let mut texts = Vec::new(alloc);
    let mut bits = Vec::new(alloc);
    for row in 0..21_u16 {
        let text: &[u8] = if row == 5 {
            b"abc"
        } else if row == 11 {
            b"de"
        } else {
            b""
        };
        texts.push(Bytes::from_vec(Vec::from_slice(alloc, text)?))?;
        bits.push(!text.is_empty())?;
    }
    let (rows, valid) = (ByteRows::from_vec(texts), Some(Mask::from_bits(bits)));
    let texts = accepted(ArrayRef::var_bin_view(rows, valid, DType::utf8(Nullable)))?;
    form_by_shipped(alloc, &texts)
}

fn form_of_whole_days(alloc: Global) -> VortexResult<Form> {
    let kind = accepted(TimestampType::new(TimeUnit::Milliseconds, None))?;
    let storage = flat(
        alloc,
        I64,
        NonNullable,
        &[0, 86_400_000, 259_200_000, 345_600_000],
    )?;
    form_by_shipped(alloc, &accepted(ArrayRef::timestamp(alloc, storage, kind))?)
}

// Two row numbers of one byte, two texts of 16, and a null of 1. Four days of one byte, and twice a constant 0 of 2.
#[test]
fn rare_texts_are_sparse_and_whole_days_are_parts(rt: HostRuntime) -> Result<(), Fail> {
    let rare = form_of_rare_texts(rt.alloc())?;
    let days = form_of_whole_days(rt.alloc())?;
    assert!(rt;
        rare == (Sparse, 35, Some(Primitive)) && days == (DateTimeParts, 8, Some(Primitive))
    );
    Ok(())
}
