//! Documents of nested types, from bytes to bytes. The expected texts come from a model of the program.

use crate::whole::one_arg;
use std::alloc::Global;
use std::test::Fail;
use vx_base::Bytes;
use vx_program::run_in_memory;

// Whether the document is answered with this status and this text.
fn answers(alloc: Global, document: &str, want: u8, text: &str) -> Result<bool, Fail> {
    let args = one_arg(alloc, "compress")?;
    let bytes = Bytes::from_vec(Vec::from_slice(alloc, document.as_bytes())?);
    let (status, sink) = run_in_memory(alloc, args.as_slice(), bytes);
    Ok(status == want && sink.bytes().as_slice() == text.as_bytes())
}

#[test]
fn a_column_of_lists(rt: HostRuntime) -> Result<(), Fail> {
    let document =
        "{\"type\":{\"list\":\"i32?\",\"nullable\":true},\"rows\":[[1,2],[],null,[3]],\"words\":[0]}";
    let text =
        "vortex.list [i32?]? len=4 size=6\n  vortex.sequence i32? len=3 size=0 first=1 step=1\n  vortex.primitive u8 len=5 size=5\nplain=53 tree=6\n";
    assert!(rt; answers(rt.alloc(), document, 0, text)?);
    Ok(())
}

#[test]
fn a_column_of_structs(rt: HostRuntime) -> Result<(), Fail> {
    let document =
        "{\"type\":{\"struct\":[[\"a\",\"u8\"],[\"b\",\"text?\"]]},\"rows\":[[7,\"x\"],[7,null]],\"words\":[0]}";
    let text =
        "vortex.struct {a:u8,b:text?} len=2 size=5\n  vortex.primitive u8 len=2 size=2\n  vortex.masked text? len=2 size=3\n    vortex.constant text? len=2 size=2 value=\"x\"\nplain=35 tree=5\n";
    assert!(rt; answers(rt.alloc(), document, 0, text)?);
    Ok(())
}

#[test]
fn columns_within_columns(rt: HostRuntime) -> Result<(), Fail> {
    let document =
        "{\"type\":{\"struct\":[[\"a\",{\"list\":\"u8\"}],[\"a\",{\"fixed\":\"bool?\",\"size\":1}]],\"nullable\":true},\"rows\":[[[1],[true]],null],\"words\":[0]}";
    let text =
        "vortex.struct {a:[u8],a:[bool?;1]}? len=2 size=7\n  vortex.list [u8] len=2 size=4\n    vortex.primitive u8 len=1 size=1\n    vortex.primitive u8 len=3 size=3\n  vortex.fixed_size_list [bool?;1] len=2 size=2 list_size=1\n    vortex.bool bool? len=2 size=2\nplain=28 tree=7\n";
    assert!(rt; answers(rt.alloc(), document, 0, text)?);
    Ok(())
}

#[test]
fn too_many_rows_within_a_column(rt: HostRuntime) -> Result<(), Fail> {
    let document =
        "{\"type\":{\"fixed\":\"u8\",\"size\":2147483648,\"nullable\":true},\"rows\":[null,null],\"words\":[0]}";
    assert!(rt; answers(rt.alloc(), document, 4, "refused: TooManyRows\n")?);
    Ok(())
}

#[test]
fn a_row_of_two_for_one_field(rt: HostRuntime) -> Result<(), Fail> {
    let document = "{\"type\":{\"struct\":[[\"a\",\"u8\"]]},\"rows\":[[1,2]],\"words\":[0]}";
    assert!(rt; answers(rt.alloc(), document, 3, "refused: BadDocument\n")?);
    Ok(())
}
