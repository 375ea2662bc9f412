//! Reads, writes and a run that succeed.

use std::alloc::{AllocError, Global};
use std::test::Fail;
use vx_base::Bytes;
use vx_program::{Input, SureSink, SureSource, deliver, read_all, run_in_memory};

// Whether the bytes of a text are read whole.
fn is_read_whole(alloc: Global, text: &str) -> Result<bool, Fail> {
    let bytes = Vec::from_slice(alloc, text.as_bytes())?;
    let mut source = SureSource::new(Bytes::from_vec(bytes));
    match read_all(alloc, &mut source)? {
        Input::Whole(got) => Ok(got.as_slice() == text.as_bytes()),
        _ => Ok(false),
    }
}

#[test]
fn bytes_are_read_whole(rt: HostRuntime) -> Result<(), Fail> {
    assert!(rt; is_read_whole(rt.alloc(), "seven\n")?);
    Ok(())
}

#[test]
fn outputs_are_delivered_whole(rt: HostRuntime) -> Result<(), Fail> {
    let mut sink = SureSink::new(rt.alloc());
    let first = deliver(&mut sink, b"seven\n".as_slice()).is_ok();
    let second = deliver(&mut sink, b"8".as_slice()).is_ok();
    let has_both = sink.bytes().as_slice() == b"seven\n8".as_slice();
    let bytes = sink.into_bytes();
    assert!(rt; first && second && has_both && bytes.as_slice() == b"seven\n8".as_slice());
    Ok(())
}

/// A command line of one argument.
pub(crate) fn one_arg(alloc: Global, text: &str) -> Result<Vec<String>, AllocError> {
    let mut args = Vec::new(alloc);
    args.push(String::from_str(alloc, text)?)?;
    Ok(args)
}

/// Three sevens.
pub(crate) fn document(alloc: Global) -> Result<Bytes, AllocError> {
    let text = b"{\"type\":\"i64\",\"rows\":[7,7,7],\"words\":[0]}".as_slice();
    Ok(Bytes::from_vec(Vec::from_slice(alloc, text)?))
}

#[test]
fn a_column_is_listed(rt: HostRuntime) -> Result<(), Fail> {
    let args = one_arg(rt.alloc(), "compress")?;
    let bytes = document(rt.alloc())?;
    let (status, sink) = run_in_memory(rt.alloc(), args.as_slice(), bytes);
    let listing = b"vortex.constant i64 len=3 size=9 value=7\nplain=24 tree=9\n".as_slice();
    assert!(rt; status == 0 && sink.bytes().as_slice() == listing);
    Ok(())
}
