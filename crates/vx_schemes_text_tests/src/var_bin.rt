//! The scheme of concatenated binaries, over columns worked by hand.

use crate::asking::{Row, child_is, makes, told_of};
use std::test::Fail;
use vx_base::ArrayId::{Primitive, VarBin};
use vx_base::DType;
use vx_base::Nullability::{NonNullable, Nullable};
use vx_fixtures::Told;
use vx_schemes_text::VarBinScheme;

const ROWS: [Row<'static>; 4] = [Some(b"\x01"), Some(b"\x02\x03"), Some(b""), Some(b"\xff")];

// Five offsets of a byte, and four bytes.
#[test]
fn binaries_are_joined(rt: HostRuntime) -> Result<(), Fail> {
    let told = told_of(rt.alloc(), &VarBinScheme, DType::binary(NonNullable), &ROWS)?;
    let children = [(Primitive, 5)];
    let binaries = (DType::binary(NonNullable), &ROWS[..]);
    let tree = ((VarBin, 9), &children[..]);
    let made = makes(rt.alloc(), &VarBinScheme, 1, binaries, tree)?;
    let binaries = (DType::binary(NonNullable), &ROWS[..]);
    let offsets = [Some(0), Some(1), Some(3), Some(3), Some(4)];
    let cut = child_is(rt.alloc(), &VarBinScheme, binaries, 0, &offsets)?;
    assert!(rt; told == Told::Sampled && made && cut);
    Ok(())
}

// A null has no byte, but a bit of validity.
#[test]
fn nulls_are_empty(rt: HostRuntime) -> Result<(), Fail> {
    let rows: [Row; 3] = [None, Some(b"ab"), None];
    let children = [(Primitive, 4)];
    let binaries = (DType::binary(Nullable), &rows[..]);
    let tree = ((VarBin, 7), &children[..]);
    let made = makes(rt.alloc(), &VarBinScheme, 1, binaries, tree)?;
    let binaries = (DType::binary(Nullable), &rows[..]);
    let offsets = [Some(0), Some(0), Some(2), Some(2)];
    let cut = child_is(rt.alloc(), &VarBinScheme, binaries, 0, &offsets)?;
    assert!(rt; made && cut);
    Ok(())
}
