//! The sparse scheme of texts, over columns worked by hand.

use crate::asking::{Row, child_is, makes, told_of};
use std::test::Fail;
use vx_base::ArrayId::{Primitive, Sparse, VarBinView};
use vx_base::DType;
use vx_base::Nullability::Nullable;
use vx_fixtures::Told;
use vx_schemes_text::NullDominatedSparseScheme;

// 21 rows with two texts.
const TWO_OF_21: [Row<'static>; 21] = [
    None,
    None,
    None,
    None,
    None,
    Some(b"abc"),
    None,
    None,
    None,
    None,
    None,
    Some(b"de"),
    None,
    None,
    None,
    None,
    None,
    None,
    None,
    None,
    None,
];

// Exactly nine of ten rows are null.
const ONE_OF_10: [Row<'static>; 10] = [
    None,
    None,
    Some(b"abc"),
    None,
    None,
    None,
    None,
    None,
    None,
    None,
];

#[test]
fn more_than_nine_of_ten_rows_are_null(rt: HostRuntime) -> Result<(), Fail> {
    for (rows, want) in [
        (&TWO_OF_21[..], Told::Ratio(21, 2)),
        (&ONE_OF_10, Told::Nothing),
        (&[Some(b"abc")], Told::Nothing),
    ] {
        let told = told_of(
            rt.alloc(),
            &NullDominatedSparseScheme,
            DType::utf8(Nullable),
            rows,
        )?;
        assert!(rt; told == want, "{rows:?}");
    }
    Ok(())
}

// Two indices of a byte, two texts of 16 bytes, and a byte for the null fill.
#[test]
fn texts_are_patches_of_null(rt: HostRuntime) -> Result<(), Fail> {
    let texts = (DType::utf8(Nullable), &TWO_OF_21[..]);
    let children = [(Primitive, 2), (VarBinView, 32)];
    let tree = ((Sparse, 35), &children[..]);
    let made = makes(rt.alloc(), &NullDominatedSparseScheme, 1, texts, tree)?;
    let texts = (DType::utf8(Nullable), &TWO_OF_21[..]);
    let placed = child_is(
        rt.alloc(),
        &NullDominatedSparseScheme,
        texts,
        0,
        &[Some(5), Some(11)],
    )?;
    assert!(rt; made && placed);
    Ok(())
}

// Ten rows of 16 bytes and two bytes of validity, and two rows with one.
#[test]
fn other_columns_stay_plain(rt: HostRuntime) -> Result<(), Fail> {
    let texts = (DType::utf8(Nullable), &ONE_OF_10[..]);
    let plain = ((VarBinView, 162), &[][..]);
    let too_many = makes(rt.alloc(), &NullDominatedSparseScheme, 0, texts, plain)?;
    let nulls = (DType::utf8(Nullable), &[None, None][..]);
    let plain = ((VarBinView, 33), &[][..]);
    let none = makes(rt.alloc(), &NullDominatedSparseScheme, 0, nulls, plain)?;
    assert!(rt; too_many && none);
    Ok(())
}
