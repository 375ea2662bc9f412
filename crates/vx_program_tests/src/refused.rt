//! What the forms refuse, and at which bound.

use crate::forms::answers;
use crate::whole::one_arg;
use std::alloc::{AllocError, Global};
use std::test::Fail;
use vx_base::Bytes;
use vx_program::run_in_memory;

#[test]
fn a_document_that_is_none_is_not_stored(rt: HostRuntime) -> Result<(), Fail> {
    let document = b"{\"type\":\"i64\",\"rows\":[7,7,7]}".as_slice();
    assert!(rt; answers(rt.alloc(), "store", document, 3, b"refused: BadDocument\n")?);
    Ok(())
}

#[test]
fn too_many_rows_are_not_stored(rt: HostRuntime) -> Result<(), Fail> {
    let document =
        b"{\"type\":{\"fixed\":\"u8\",\"size\":2147483648,\"nullable\":true},\"rows\":[null,null],\"words\":[0]}".as_slice();
    assert!(rt; answers(rt.alloc(), "store", document, 4, b"refused: TooManyRows\n")?);
    Ok(())
}

// An empty column of lists in lists, `depth` in all, of integers.
fn nested(alloc: Global, depth: usize) -> Result<String, AllocError> {
    let mut text = String::from_str(alloc, "{\"type\":")?;
    for _ in 0..depth {
        text.push_str("{\"list\":")?;
    }
    text.push_str("\"u8\"")?;
    for _ in 0..depth {
        text.push_str("}")?;
    }
    text.push_str(",\"rows\":[],\"words\":[0]}")?;
    Ok(text)
}

// 64 types nest in a file, those of the lists and that of the integers.
#[test]
fn types_that_nest_too_deeply_are_not_stored(rt: HostRuntime) -> Result<(), Fail> {
    let shallow = nested(rt.alloc(), 63)?;
    let (status, _) = crate::forms::answer(rt.alloc(), "store", shallow.as_str().as_bytes())?;
    assert!(rt; status == 0);
    let deep = nested(rt.alloc(), 64)?;
    let refused = b"refused: NotStorable\n".as_slice();
    assert!(rt; answers(rt.alloc(), "store", deep.as_str().as_bytes(), 4, refused)?);
    Ok(())
}

// The file of a constant u8 of 2^26 rows and `more`. The number of rows is a varint: seven bits a byte.
fn constant(alloc: Global, more: u8) -> Result<Vec<u8>, AllocError> {
    let mut file = Vec::from_slice(alloc, b"VXTREES1")?;
    file.extend_from_slice(&[1, 10, 8, 0x80 | more, 0x80, 0x80, 0x20, 2, 0, 0, 1, 7])?;
    Ok(file)
}

#[test]
fn a_column_is_written_up_to_2_to_the_26_rows(rt: HostRuntime) -> Result<(), Fail> {
    let file = constant(rt.alloc(), 1)?;
    let refused = b"refused: TooManyRows\n".as_slice();
    assert!(rt; answers(rt.alloc(), "rows", file.as_slice(), 4, refused)?);
    let listing = b"vortex.constant u8 len=67108865 size=2 value=7\n".as_slice();
    assert!(rt; answers(rt.alloc(), "show", file.as_slice(), 0, listing)?);
    // Rows within the limit, whose text isn't.
    let file = constant(rt.alloc(), 0)?;
    let refused = b"refused: TooLong\n".as_slice();
    assert!(rt; answers(rt.alloc(), "rows", file.as_slice(), 4, refused)?);
    Ok(())
}

// No form takes a second argument, and none has another word.
#[test]
fn other_command_lines_are_refused(rt: HostRuntime) -> Result<(), Fail> {
    let refused = b"refused: Usage\n".as_slice();
    for word in ["", "squeeze", "stores", "sho", "Rows"] {
        assert!(rt; answers(rt.alloc(), word, b"", 2, refused)?);
    }
    for word in ["compress", "store", "show", "rows"] {
        let mut args = one_arg(rt.alloc(), word)?;
        args.push(String::from_str(rt.alloc(), word)?)?;
        let (status, sink) = run_in_memory(rt.alloc(), args.as_slice(), Bytes::new_in(rt.alloc()));
        assert!(rt; status == 2 && sink.bytes().as_slice() == refused);
    }
    Ok(())
}
