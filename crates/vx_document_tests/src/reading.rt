//! A small document of each flat type.

use std::alloc::{AllocError, Global};
use std::test::Fail;
use vx_array::ArrayRef;
use vx_base::Cell;
use vx_document::{Document, listing_text, read_document};

// Reads the document that the text is.
pub(crate) fn document(alloc: Global, text: &str) -> Result<Document, Fail> {
    Ok(read_document(alloc, Vec::from_slice(alloc, text.as_bytes())?)?)
}

// The plain tree of the column of the document that the text is.
pub(crate) fn plain(alloc: Global, text: &str) -> Result<ArrayRef, Fail> {
    let Document {
        column,
        words: _,
        commands: _,
    } = document(alloc, text)?;
    Ok(column.into_plain(alloc)?)
}

// Whether the listing of the tree is this text.
pub(crate) fn lists(alloc: Global, tree: &ArrayRef, text: &str) -> Result<bool, AllocError> {
    Ok(listing_text(alloc, tree)?.as_str() == text)
}

// The value in a row; None out of bounds.
fn cell(array: &ArrayRef, row: u64) -> Option<Cell<'_>> {
    if row >= array.len() || !array.dtype().is_flat() {
        return None;
    }
    Some(array.cell_at(row))
}

// Whether a row has this value.
fn is_cell(array: &ArrayRef, row: u64, want: Cell<'_>) -> bool {
    match (cell(array, row), want) {
        (Some(Cell::Null), Cell::Null) => true,
        (Some(Cell::Bool(got)), Cell::Bool(want)) => got == want,
        (Some(Cell::Int(got)), Cell::Int(want)) => got == want,
        (Some(Cell::Bytes(got)), Cell::Bytes(want)) => got == want,
        _ => false,
    }
}

// Whether the first rows have these values.
fn begins(array: &ArrayRef, cells: &[Cell<'_>]) -> bool {
    for row in 0..cells.len() {
        if !is_cell(array, row as u64, cells[row]) {
            return false;
        }
    }
    true
}

// Whether the text is a document whose plain tree has this listing, and these values in its first rows.
pub(crate) fn reads(
    alloc: Global,
    text: &str,
    listing: &str,
    cells: &[Cell<'_>],
) -> Result<bool, Fail> {
    let tree = plain(alloc, text)?;
    let is_listed = lists(alloc, &tree, listing)?;
    Ok(is_listed && begins(&tree, cells))
}

const TRUTHS: &str =
    "{\"type\":\"bool?\",\"rows\":[true,null,false],\"words\":[5,18446744073709551615]}";

#[test]
fn truth_values(rt: HostRuntime) -> Result<(), Fail> {
    let listing = "vortex.bool bool? len=3 size=2\n";
    let cells = [Cell::Bool(true), Cell::Null, Cell::Bool(false)];
    assert!(rt; reads(rt.alloc(), TRUTHS, listing, &cells)?);
    Ok(())
}

#[test]
fn words_of_64_bits(rt: HostRuntime) -> Result<(), Fail> {
    let words = document(rt.alloc(), TRUTHS)?.words;
    assert!(rt; words.as_slice() == [5, u64::MAX].as_slice());
    Ok(())
}

#[test]
fn integers(rt: HostRuntime) -> Result<(), Fail> {
    let text = "{\"words\":[0],\"rows\":[-128,null,127],\"\\u0074ype\":\"i8?\"}";
    let listing = "vortex.primitive i8? len=3 size=4\n";
    let cells = [Cell::Int(-128), Cell::Null, Cell::Int(127)];
    assert!(rt; reads(rt.alloc(), text, listing, &cells)?);
    Ok(())
}

#[test]
fn texts(rt: HostRuntime) -> Result<(), Fail> {
    let text = "{\"type\":\"text\",\"rows\":[\"\\u00e9\",\"\",\"thirteen byte\"],\"words\":[0]}";
    let listing = "vortex.varbinview text len=3 size=61\n";
    let cells = [Cell::Bytes(b"\xc3\xa9"), Cell::Bytes(b"")];
    assert!(rt; reads(rt.alloc(), text, listing, &cells)?);
    Ok(())
}

#[test]
fn binaries_of_digits_in_either_case(rt: HostRuntime) -> Result<(), Fail> {
    let text = "{\"type\":\"binary?\",\"rows\":[\"00fF\",null],\"words\":[0]}";
    let listing = "vortex.varbinview binary? len=2 size=33\n";
    let cells = [Cell::Bytes(b"\x00\xff"), Cell::Null];
    assert!(rt; reads(rt.alloc(), text, listing, &cells)?);
    Ok(())
}

#[test]
fn timestamps_with_a_zone(rt: HostRuntime) -> Result<(), Fail> {
    let text =
        "{\"type\":{\"timestamp\":\"ms\",\"zone\":\"UTC\",\"nullable\":true},\"rows\":[-1,null],\"words\":[0]}";
    let listing =
        "vortex.timestamp timestamp ms<UTC>? len=2 size=17\n  vortex.primitive i64? len=2 size=17\n";
    assert!(rt; reads(rt.alloc(), text, listing, &[Cell::Int(-1)])?);
    Ok(())
}

#[test]
fn a_seed_stands_for_1024_words(rt: HostRuntime) -> Result<(), Fail> {
    let text = "{\"type\":\"timestamp ns\",\"rows\":[],\"seed\":7}";
    let words = document(rt.alloc(), text)?.words;
    assert!(rt;
        words.len() == 1024
            && words.get(0) == Some(&2442223337)
            && words.get(1) == Some(&414063806)
            && words.get(1023) == Some(&2921574595)
    );
    Ok(())
}
