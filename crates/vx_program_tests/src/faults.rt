//! Failing reads, writes and flushes, one by one and in a run.

use crate::failing::{Blocked, Torn};
use crate::whole::{document, one_arg};
use std::test::Fail;
use vx_program::{Failed, Sink, Source, StdSink, StdSource, SureSink, SureSource, run};

#[test]
fn each_failed_read_is_told(rt: HostRuntime) -> Result<(), Fail> {
    let mut source = StdSource::new(Torn { reads: 0 });
    let mut piece = [0u8; 4];
    let first = source.read(&mut piece);
    let second = source.read(&mut piece);
    let third = source.read(&mut piece);
    assert!(rt;
        first == Ok(2) && second == Err(Failed) && third == Ok(0) && piece == [97, 98, 0, 0]
    );
    Ok(())
}

#[test]
fn each_failed_write_and_flush_is_told(rt: HostRuntime) -> Result<(), Fail> {
    let mut sink = StdSink::new(Blocked {
        writes: 0,
        flushes: 0,
    });
    let reserved = sink.reserve(u64::MAX);
    let empty = sink.write(b"");
    // Taken and flushed; refused; nothing taken; taken but not flushed; taken and flushed.
    let first = sink.write(b"wxyz");
    let second = sink.write(b"wxyz");
    let third = sink.write(b"wxyz");
    let fourth = sink.write(b"wxyz");
    let fifth = sink.write(b"wxyz");
    let refused = second == Err(Failed) && third == Err(Failed) && fourth == Err(Failed);
    assert!(rt;
        reserved == Ok(()) && empty == Ok(0) && first == Ok(3) && refused && fifth == Ok(3)
    );
    Ok(())
}

#[test]
fn a_failed_read_ends_a_run(rt: HostRuntime) -> Result<(), Fail> {
    let args = one_arg(rt.alloc(), "compress")?;
    let mut source = StdSource::new(Torn { reads: 1 });
    let mut sink = SureSink::new(rt.alloc());
    let status = run(rt.alloc(), args.as_slice(), &mut source, &mut sink);
    assert!(rt; status == 5 && sink.bytes().as_slice() == b"refused: ReadFault\n".as_slice());
    Ok(())
}

#[test]
fn a_failed_write_ends_a_run(rt: HostRuntime) -> Result<(), Fail> {
    let args = one_arg(rt.alloc(), "compress")?;
    let mut source = SureSource::new(document(rt.alloc())?);
    let mut sink = StdSink::new(Blocked {
        writes: 1,
        flushes: 0,
    });
    let status = run(rt.alloc(), args.as_slice(), &mut source, &mut sink);
    assert!(rt; status == 6);
    Ok(())
}
