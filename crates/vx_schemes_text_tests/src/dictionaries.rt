//! The dictionary schemes of texts and of binaries, over columns worked by hand.

use crate::asking::{Row, child_is, makes, told_of};
use std::test::Fail;
use vx_base::ArrayId::{Dict, Primitive, VarBinView};
use vx_base::DType;
use vx_base::Nullability::{NonNullable, Nullable};
use vx_fixtures::Told;
use vx_schemes_text::{BinaryDictScheme, StringDictScheme};

#[test]
fn more_than_half_distinct_is_skipped(rt: HostRuntime) -> Result<(), Fail> {
    for (rows, want) in [
        (
            &[Some(&b"a"[..]), Some(b"b"), Some(b"a"), Some(b"b")][..],
            Told::Sampled,
        ),
        (
            &[Some(b"a"), Some(b"b"), Some(b"a"), Some(b"c")],
            Told::Nothing,
        ),
        // A null has a key beside those of the values: three keys of four values, and of six.
        (
            &[Some(b"a"), Some(b"b"), Some(b"a"), Some(b"b"), None],
            Told::Nothing,
        ),
        (
            &[
                Some(b"a"),
                Some(b"b"),
                Some(b"a"),
                Some(b"b"),
                Some(b"a"),
                Some(b"b"),
                None,
            ],
            Told::Sampled,
        ),
    ] {
        let texts = told_of(rt.alloc(), &StringDictScheme, DType::utf8(Nullable), rows)?;
        let binaries = told_of(rt.alloc(), &BinaryDictScheme, DType::binary(Nullable), rows)?;
        assert!(rt; texts == want && binaries == want, "{rows:?}");
    }
    Ok(())
}

const WORDS: [Row<'static>; 6] = [
    Some(b"pear"),
    None,
    Some(b"apple"),
    Some(b"pear"),
    Some(b""),
    Some(b"apple"),
];

// Three values of 16 bytes; six codes and six bits. Each is the place of its text, the first text first.
#[test]
fn texts_are_numbered_as_they_appear(rt: HostRuntime) -> Result<(), Fail> {
    let children = [(Primitive, 7), (VarBinView, 48)];
    let texts = (DType::utf8(Nullable), &WORDS[..]);
    let tree = ((Dict, 55), &children[..]);
    let made = makes(rt.alloc(), &StringDictScheme, 2, texts, tree)?;
    let codes = [Some(0), None, Some(1), Some(0), Some(2), Some(1)];
    let texts = (DType::utf8(Nullable), &WORDS[..]);
    let coded = child_is(rt.alloc(), &StringDictScheme, texts, 0, &codes)?;
    assert!(rt; made && coded);
    Ok(())
}

#[test]
fn binaries_are_numbered_alike(rt: HostRuntime) -> Result<(), Fail> {
    let rows: [Row; 4] = [Some(b"\xff"), Some(b"\x00"), Some(b"\xff"), Some(b"")];
    let children = [(Primitive, 4), (VarBinView, 48)];
    let binaries = (DType::binary(NonNullable), &rows[..]);
    let tree = ((Dict, 52), &children[..]);
    let made = makes(rt.alloc(), &BinaryDictScheme, 2, binaries, tree)?;
    let binaries = (DType::binary(NonNullable), &rows[..]);
    let codes = [Some(0), Some(1), Some(0), Some(2)];
    let coded = child_is(rt.alloc(), &BinaryDictScheme, binaries, 0, &codes)?;
    assert!(rt; made && coded);
    Ok(())
}

#[test]
fn nulls_alone_stay_plain(rt: HostRuntime) -> Result<(), Fail> {
    let rows: [Row; 2] = [None, None];
    let plain = (VarBinView, 33);
    let texts = (DType::utf8(Nullable), &rows[..]);
    let binaries = (DType::binary(Nullable), &rows[..]);
    let of_texts = makes(rt.alloc(), &StringDictScheme, 0, texts, (plain, &[]))?;
    let of_binaries = makes(rt.alloc(), &BinaryDictScheme, 0, binaries, (plain, &[]))?;
    assert!(rt; of_texts && of_binaries);
    Ok(())
}
