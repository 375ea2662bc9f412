//! Readers and writers of std as sources and sinks that count what fails.

ghost use Rattle.std.specs.Prelude.{◌≡◌, ◌-◌, ◌^◌, ◌<◌, ◌≤◌, None, Ok, OnErr, IfOk, MatchResult, length, take};
ghost use Rattle.std.specs.Io.{ReadsAtMost, WritesAtMost};
ghost use Rattle.std.specs.Io.KnownBytes.{Appends, ReadConsumes};
ghost use Rattle.vx_program.specs.Causes.{HasCause, risen, Passes, CountsOnce};

use crate::outside::{Failed, Sink, Source};
use std::io::{self, Read, Write};
use vx_base::VortexResult;

// A failure, counted once.
fn count_fault(faults: &mut u64) -> Failed
    ensures later { faults.old ≤ faults.new }
    ensures once { faults.new ≡ risen faults.old }
{
    *faults = faults.saturating_add(1);
    Failed
}

// What a source answers where its reader answered `read`: an Err is a fault.
fn after_read(faults: &mut u64, read: io::Result<usize>) -> Result<usize, Failed>
    ensures exact { MatchResult read (λ n. Passes faults.old faults.new result n) (λ _. CountsOnce faults.old faults.new result) }
    ensures cause { HasCause faults.old faults.new result }
{
    match read {
        Ok(count) => Ok(count),
        Err(_) => Err(count_fault(faults)),
    }
}

// What a sink answers where its writer answered `written` to a write of some bytes: an Err is a fault, and so is Ok(0),
// since a writer that takes nothing would be asked again for ever.
fn after_write(faults: &mut u64, written: io::Result<usize>) -> Result<usize, Failed>
    ensures taken { IfOk written (λ n. 0 < n → Passes faults.old faults.new result n) }
    ensures nothing { IfOk written (λ n. n ≡ 0 → CountsOnce faults.old faults.new result) }
    ensures failed { OnErr written (CountsOnce faults.old faults.new result) }
    ensures cause { HasCause faults.old faults.new result }
{
    match written {
        Ok(0) | Err(_) => Err(count_fault(faults)),
        Ok(count) => Ok(count),
    }
}

// What a sink answers where its writer took `count` bytes and the flush after them answered `flushed`: an Err is a fault.
fn after_flush(faults: &mut u64, count: usize, flushed: io::Result<()>) -> Result<usize, Failed>
    ensures exact { MatchResult flushed (λ _. Passes faults.old faults.new result count) (λ _. CountsOnce faults.old faults.new result) }
    ensures cause { HasCause faults.old faults.new result }
{
    if flushed.is_err() {
        return Err(count_fault(faults));
    }
    Ok(count)
}

/// A reader as a source. Each Err of the reader is one fault and is not tried again. The bytes still to come are known
/// where the reader's are.
#[derive(Drop)]
pub struct StdSource<R: Read> {
    reader: R,
    faults: u64,
}

impl<R: Read> StdSource<R> {
    ghost use Rattle.vx_program.specs.StdEdge.{reader_of, read_faults};

    /// A source over `reader`, with no fault counted.
    pub fn new(reader: R) -> Self
        ensures over { reader_of result ≡ reader }
        ensures no_fault { read_faults result ≡ 0 }
    {
        StdSource { reader, faults: 0 }
    }
}

impl<R: Read> Source for StdSource<R> {
    ghost use Rattle.vx_program.specs.StdEdge.{reader_of, read_faults};

    ghost left = { λ s. R.remaining (reader_of s) };

    ghost faults = { λ s. read_faults s };

    fn read(&mut self, buf: &mut [u8]) -> Result<usize, Failed>
        ensures bound { ReadsAtMost result buf.new }
        ensures bytes { ReadConsumes (R.remaining (reader_of self.old)) (R.remaining (reader_of self.new)) result buf.new }
        ensures cause { HasCause (read_faults self.old) (read_faults self.new) result }
        ensures once { OnErr result (read_faults self.new ≡ risen (read_faults self.old)) }
    {
        after_read(&mut self.faults, self.reader.read(buf))
    }
}

/// A writer as a sink. It flushes after each write, so that what it answers has left the program. An Err, a write that
/// takes none of some bytes and a failed flush are one fault each. As a sink it doesn't know the bytes written, since a
/// flush can fail after a write that took bytes.
#[derive(Drop)]
pub struct StdSink<W: Write> {
    writer: W,
    faults: u64,
}

impl<W: Write> StdSink<W> {
    ghost use Rattle.vx_program.specs.StdEdge.{writer_of, write_faults};

    /// A sink over `writer`, with no fault counted.
    pub fn new(writer: W) -> Self
        ensures over { writer_of result ≡ writer }
        ensures no_fault { write_faults result ≡ 0 }
    {
        StdSink { writer, faults: 0 }
    }
}

impl<W: Write> Sink for StdSink<W> {
    ghost use Rattle.vx_program.specs.StdEdge.{write_faults, writer_of};

    ghost written = { λ _. None };

    ghost faults = { λ s. write_faults s };

    ghost spare = { λ _. 2 ^ 64 - 1 };

    /// Always Ok: the writer has its own memory.
    fn reserve(&mut self, _count: u64) -> VortexResult<()> {
        Ok(())
    }

    /// Without bytes the writer isn't called. On Ok the writer holds the bytes answered, where its bytes are known.
    fn write(&mut self, bytes: &[u8]) -> Result<usize, Failed>
        ensures bound { WritesAtMost result bytes.now }
        ensures progress { 0 < length bytes.now → IfOk result (λ n. 0 < n) }
        ensures empty { length bytes.now ≡ 0 → (result ≡ Ok 0) × (self.new ≡ self.old) }
        ensures cause { HasCause (write_faults self.old) (write_faults self.new) result }
        ensures once { OnErr result (write_faults self.new ≡ risen (write_faults self.old)) }
        ensures taken { IfOk result (λ n. Appends (W.contents (writer_of self.old)) (W.contents (writer_of self.new)) (take n bytes.now)) }
    {
        if bytes.is_empty() {
            return Ok(0);
        }
        let count = after_write(&mut self.faults, self.writer.write(bytes))?;
        after_flush(&mut self.faults, count, self.writer.flush())
    }
}
