//! Documents of nested types, and texts that are none. The expected listings are worked out by hand.

use crate::reading::{document, reads};
use std::alloc::Global;
use std::test::Fail;
use vx_document::{Unread, read_document};

#[test]
fn nulls_alone(rt: HostRuntime) -> Result<(), Fail> {
    let text = "{\"type\":\"null\",\"rows\":[null,null],\"words\":[0]}";
    let listing = "vortex.null null len=2 size=0\n";
    assert!(rt; reads(rt.alloc(), text, listing, &[])?);
    Ok(())
}

#[test]
fn lists_of_integers(rt: HostRuntime) -> Result<(), Fail> {
    let text =
        "{\"type\":{\"list\":\"i32?\",\"nullable\":true},\"rows\":[[1,2],[],null,[3]],\"words\":[0]}";
    let listing =
        "vortex.list [i32?]? len=4 size=53\n  vortex.primitive i32? len=3 size=12\n  vortex.primitive u64 len=5 size=40\n";
    assert!(rt; reads(rt.alloc(), text, listing, &[])?);
    Ok(())
}

#[test]
fn structs_of_an_integer_and_a_text(rt: HostRuntime) -> Result<(), Fail> {
    let text =
        "{\"type\":{\"struct\":[[\"a\",\"u8\"],[\"b\",\"text?\"]]},\"rows\":[[7,\"x\"],[7,null]],\"words\":[0]}";
    let listing =
        "vortex.struct {a:u8,b:text?} len=2 size=35\n  vortex.primitive u8 len=2 size=2\n  vortex.varbinview text? len=2 size=33\n";
    assert!(rt; reads(rt.alloc(), text, listing, &[])?);
    Ok(())
}

#[test]
fn lists_of_two(rt: HostRuntime) -> Result<(), Fail> {
    let text =
        "{\"rows\":[[1,2],null],\"type\":{\"nullable\":true,\"size\":2,\"fixed\":\"u8\"},\"words\":[0]}";
    let listing =
        "vortex.fixed_size_list [u8;2]? len=2 size=5 list_size=2\n  vortex.primitive u8 len=4 size=4\n";
    assert!(rt; reads(rt.alloc(), text, listing, &[])?);
    Ok(())
}

#[test]
fn structs_within_structs_of_one_name(rt: HostRuntime) -> Result<(), Fail> {
    let text =
        "{\"type\":{\"struct\":[[\"a\",{\"list\":\"u8\"}],[\"a\",{\"struct\":[]}]],\"nullable\":true},\"rows\":[[[1],[]],null],\"words\":[0]}";
    let listing =
        "vortex.struct {a:[u8],a:{}}? len=2 size=26\n  vortex.list [u8] len=2 size=25\n    vortex.primitive u8 len=1 size=1\n    vortex.primitive u64 len=3 size=24\n  vortex.struct {} len=2 size=0\n";
    assert!(rt; reads(rt.alloc(), text, listing, &[])?);
    Ok(())
}

// Whether each column of the document is within the row limit.
fn counts_fit(alloc: Global, text: &str) -> Result<bool, Fail> {
    let read = document(alloc, text)?;
    Ok(read.column.counts_fit())
}

#[test]
fn counts_pass_the_limit_before_a_tree_is_made(rt: HostRuntime) -> Result<(), Fail> {
    let many = counts_fit(
        rt.alloc(),
        "{\"type\":{\"fixed\":\"u8\",\"size\":2147483648,\"nullable\":true},\"rows\":[null,null],\"words\":[0]}",
    )?;
    let few = counts_fit(
        rt.alloc(),
        "{\"type\":{\"fixed\":\"u8\",\"size\":2147483648,\"nullable\":true},\"rows\":[null],\"words\":[0]}",
    )?;
    let none = counts_fit(
        rt.alloc(),
        "{\"type\":{\"fixed\":\"u8\",\"size\":4294967295},\"rows\":[],\"words\":[0]}",
    )?;
    assert!(rt; !many && few && none);
    Ok(())
}

// Whether this type with these rows is refused as a document.
fn is_refused(alloc: Global, dtype: &str, rows: &str) -> Result<bool, Fail> {
    let text = format!(in alloc; "{{\"type\":{dtype},\"rows\":{rows},\"words\":[0]}}")?;
    let bytes = Vec::from_slice(alloc, text.as_str().as_bytes())?;
    Ok(matches!(read_document(alloc, bytes), Err(Unread::BadDocument)))
}

#[test]
fn other_types_are_none(rt: HostRuntime) -> Result<(), Fail> {
    for dtype in [
        "\"null?\"",
        "{\"struct\":[[\"a\",\"u8\"]],\"x\":1}",
        "{\"struct\":[[\"a\"]]}",
        "{\"struct\":[[\"a\",\"u8\",\"u8\"]]}",
        "{\"struct\":{\"a\":\"u8\"}}",
        "{\"list\":\"u8\",\"struct\":[]}",
        "{\"list\":\"u8\",\"size\":1}",
        "{\"list\":\"u8\",\"nullable\":null}",
        "{\"list\":\"u8\",\"nullable\":1}",
        "{\"fixed\":\"u8\"}",
        "{\"fixed\":\"u8\",\"size\":4294967296}",
        "{\"fixed\":\"u8\",\"size\":-1}",
    ] {
        assert!(rt; is_refused(rt.alloc(), dtype, "[]")?);
    }
    Ok(())
}

#[test]
fn other_rows_make_it_none(rt: HostRuntime) -> Result<(), Fail> {
    for (dtype, rows) in [
        ("\"null\"", "[0]"),
        ("{\"struct\":[[\"a\",\"u8\"]]}", "[[1,2]]"),
        ("{\"struct\":[[\"a\",\"u8\"]]}", "[[]]"),
        ("{\"struct\":[[\"a\",\"u8\"]]}", "[null]"),
        ("{\"struct\":[[\"a\",\"u8\"]]}", "[{\"a\":1}]"),
        ("{\"list\":\"u8\"}", "[[null]]"),
        ("{\"list\":\"u8\"}", "[[256]]"),
        ("{\"fixed\":\"u8\",\"size\":2}", "[[1]]"),
        ("{\"fixed\":\"u8\",\"size\":0}", "[[1]]"),
    ] {
        assert!(rt; is_refused(rt.alloc(), dtype, rows)?);
    }
    Ok(())
}
