//! The forms `store`, `show`, `rows` and `query`, from bytes to bytes. The bytes of files are worked out by hand.

use crate::whole::one_arg;
use std::alloc::Global;
use std::test::Fail;
use vx_base::Bytes;
use vx_program::run_in_memory;

/// The status and the output of a form to these bytes.
pub(crate) fn answer(alloc: Global, form: &str, bytes: &[u8]) -> Result<(u8, Bytes), Fail> {
    let args = one_arg(alloc, form)?;
    let input = Bytes::from_vec(Vec::from_slice(alloc, bytes)?);
    let (status, sink) = run_in_memory(alloc, args.as_slice(), input);
    Ok((status, sink.into_bytes()))
}

/// Whether a form answers these bytes with this status and this output.
pub(crate) fn answers(
    alloc: Global,
    form: &str,
    bytes: &[u8],
    want: u8,
    output: &[u8],
) -> Result<bool, Fail> {
    let (status, made) = answer(alloc, form, bytes)?;
    Ok(status == want && made.as_slice() == output)
}

// Three sevens: a constant of the type i64 and of 3 rows. Type 2 is that of integers, not nullable, and i64 is 7; then 1
// for a value, and its eight bytes.
const SEVENS: [u8; 24] = [
    0x56, 0x58, 0x54, 0x52, 0x45, 0x45, 0x53, 0x31, 1, 0x0e, 8, 3, 2, 0, 7, 1, 7, 0, 0, 0, 0, 0, 0,
    0,
];

const DOCUMENT: &str = "{\"type\":\"i64\",\"rows\":[7,7,7],\"words\":[0]}";

#[test]
fn a_compressed_column_is_stored(rt: HostRuntime) -> Result<(), Fail> {
    assert!(rt; answers(rt.alloc(), "store", DOCUMENT.as_bytes(), 0, &SEVENS)?);
    Ok(())
}

#[test]
fn the_trees_of_a_file_are_listed(rt: HostRuntime) -> Result<(), Fail> {
    let listing = "vortex.constant i64 len=3 size=9 value=7\n";
    assert!(rt; answers(rt.alloc(), "show", &SEVENS, 0, listing.as_bytes())?);
    Ok(())
}

#[test]
fn the_trees_of_a_file_are_written_as_documents(rt: HostRuntime) -> Result<(), Fail> {
    let written = "{\"type\":\"i64\",\"rows\":[7,7,7],\"words\":[0]}\n";
    assert!(rt; answers(rt.alloc(), "rows", &SEVENS, 0, written.as_bytes())?);
    Ok(())
}

// Three sevens, and commands that would leave one row and print it.
const COMMANDED: &str =
    "{\"type\":\"i64\",\"rows\":[7,7,7],\"words\":[0],\"commands\":[[\"slice\",0,1],[\"rows\"]]}";

#[test]
fn a_column_is_compressed_as_without_commands(rt: HostRuntime) -> Result<(), Fail> {
    let listing = b"vortex.constant i64 len=3 size=9 value=7\nplain=24 tree=9\n".as_slice();
    assert!(rt; answers(rt.alloc(), "compress", DOCUMENT.as_bytes(), 0, listing)?);
    assert!(rt; answers(rt.alloc(), "compress", COMMANDED.as_bytes(), 0, listing)?);
    Ok(())
}

#[test]
fn a_column_is_stored_as_without_commands(rt: HostRuntime) -> Result<(), Fail> {
    assert!(rt; answers(rt.alloc(), "store", COMMANDED.as_bytes(), 0, &SEVENS)?);
    Ok(())
}

// Three integers and commands.
const ASKED: &str =
    "{\"type\":\"u8\",\"rows\":[3,1,2],\"words\":[0],\"commands\":[[\"compare\",\">=\",2],[\"sum\"],[\"slice\",1,3],[\"rows\"]]}";

// A query, and an operation out of bounds behind it.
const REFUSED: &str =
    "{\"type\":\"u8\",\"rows\":[3,1,2],\"words\":[0],\"commands\":[[\"sum\"],[\"slice\",0,9]]}";

#[test]
fn commands_are_run(rt: HostRuntime) -> Result<(), Fail> {
    let lines = b"[true,false,true]\n6\n[1,2]\n".as_slice();
    assert!(rt; answers(rt.alloc(), "query", ASKED.as_bytes(), 0, lines)?);
    assert!(rt; answers(rt.alloc(), "query", DOCUMENT.as_bytes(), 0, b"")?);
    Ok(())
}

#[test]
fn a_refused_command_prints_no_line(rt: HostRuntime) -> Result<(), Fail> {
    let name = b"refused: OutOfBounds\n".as_slice();
    assert!(rt; answers(rt.alloc(), "query", REFUSED.as_bytes(), 4, name)?);
    let none = b"refused: BadDocument\n".as_slice();
    assert!(rt; answers(rt.alloc(), "query", b"{}", 3, none)?);
    Ok(())
}

// The file with no tree.
const EMPTY: [u8; 9] = [0x56, 0x58, 0x54, 0x52, 0x45, 0x45, 0x53, 0x31, 0];

#[test]
fn a_file_without_trees_has_no_text(rt: HostRuntime) -> Result<(), Fail> {
    assert!(rt; answers(rt.alloc(), "show", &EMPTY, 0, b"")?);
    assert!(rt; answers(rt.alloc(), "rows", &EMPTY, 0, b"")?);
    Ok(())
}

// Two trees, one after the other.
#[test]
fn each_tree_of_a_file_is_listed_and_written(rt: HostRuntime) -> Result<(), Fail> {
    let mut file = Vec::from_slice(rt.alloc(), &EMPTY)?;
    file[8] = 2;
    file.extend_from_slice(&SEVENS[9..])?;
    // Two nulls.
    file.extend_from_slice(&[2, 0, 2])?;
    let listing = "vortex.constant i64 len=3 size=9 value=7\nvortex.null null len=2 size=0\n";
    let written =
        "{\"type\":\"i64\",\"rows\":[7,7,7],\"words\":[0]}\n{\"type\":\"null\",\"rows\":[null,null],\"words\":[0]}\n";
    assert!(rt; answers(rt.alloc(), "show", file.as_slice(), 0, listing.as_bytes())?);
    assert!(rt; answers(rt.alloc(), "rows", file.as_slice(), 0, written.as_bytes())?);
    Ok(())
}

// Whether both forms that read a file refuse these bytes.
fn is_bad(alloc: Global, bytes: &[u8]) -> Result<bool, Fail> {
    let refused = b"refused: BadFile\n".as_slice();
    Ok(answers(alloc, "show", bytes, 3, refused)? && answers(alloc, "rows", bytes, 3, refused)?)
}

#[test]
fn a_byte_more_or_less_is_no_file(rt: HostRuntime) -> Result<(), Fail> {
    let mut more = Vec::from_slice(rt.alloc(), &SEVENS)?;
    more.push(0)?;
    assert!(rt; is_bad(rt.alloc(), more.as_slice())?);
    assert!(rt; is_bad(rt.alloc(), &SEVENS[..23])?);
    assert!(rt; is_bad(rt.alloc(), b"")?);
    Ok(())
}

#[test]
fn a_length_with_a_byte_more_is_no_file(rt: HostRuntime) -> Result<(), Fail> {
    let mut file = Vec::from_slice(rt.alloc(), &SEVENS[..9])?;
    file.extend_from_slice(&[0x8e, 0])?;
    file.extend_from_slice(&SEVENS[10..])?;
    assert!(rt; is_bad(rt.alloc(), file.as_slice())?);
    Ok(())
}

// A dictionary of the code 2 over two values: codes are primitive u8, values primitive u8.
#[test]
fn a_code_out_of_bounds_is_no_file(rt: HostRuntime) -> Result<(), Fail> {
    let mut file = Vec::from_slice(rt.alloc(), &EMPTY)?;
    file[8] = 1;
    file.extend_from_slice(&[14, 10, 2, 0, 0, 1, 2, 0, 2, 0, 0, 2, 7, 8, 0])?;
    assert!(rt; is_bad(rt.alloc(), file.as_slice())?);
    file[15] = 1;
    let listing =
        "vortex.dict u8 len=1 size=3\n  vortex.primitive u8 len=1 size=1\n  vortex.primitive u8 len=2 size=2\n";
    assert!(rt; answers(rt.alloc(), "show", file.as_slice(), 0, listing.as_bytes())?);
    let written = "{\"type\":\"u8\",\"rows\":[8],\"words\":[0]}\n";
    assert!(rt; answers(rt.alloc(), "rows", file.as_slice(), 0, written.as_bytes())?);
    Ok(())
}
