//! The top call: from arguments and bytes to a status and bytes.

ghost use Rattle.std.specs.Prelude.{◌≡◌, ◌≢◌, ◌≤◌, ◌+◌, ◌↔◌, ◌⊎◌, List, ℕ, Option, IfSome, codes, length};
ghost use Rattle.std.specs.Io.KnownBytes.{IsAtEnd};
ghost use Rattle.vx_program.specs.Answer.{texts_of, answer, refusal, read_fault, IsReply};
ghost use Rattle.vx_program.specs.Causes.{Rose};
ghost use Rattle.vx_program.specs.Reading.{limit, TakesAtMost};
ghost use Rattle.vx_program.specs.Run.{Replies, Breaks};
ghost use Rattle.vx_program.specs.Statuses.{RestsOnAll, IsWritten, IsAnswered, ComesExactly, IsUsage, IsTooLong, IsBadInput, IsRefused, IsAnswerable, IsCompress, IsBadDocument, HasTooManyRows, IsCompressible};
ghost use Rattle.vx_program.specs.Sure.{sink_bytes};

use crate::answer::{NO_MEMORY, WRITE_FAULT, reply_to};
use crate::outside::{Sink, Source};
use crate::sure::{SureSink, SureSource};
use crate::writing::{Stop, deliver};
use std::alloc::Global;
use vx_base::Bytes;

/// Reads all of the source, writes the reply to the arguments and these bytes, and answers the status: 0 for a listing,
/// a file or documents, 2 to 5 and 7 for a refusal, whose name is written, 1 where memory ran out and 6 where a write failed.
pub fn run<I: Source, O: Sink>(alloc: Global, args: &[String], source: &mut I, sink: &mut O) -> u8
    // The reply is written whole; at 6 less than the whole is, at 1 nothing.
    ensures answer { IsWritten result → Replies
        (IsReply (I.left source.old) (I.faults source.old) (I.faults source.new) (texts_of args.now))
        (O.written sink.old) (O.written sink.new) (O.faults sink.old) (O.faults sink.new) result }
    ensures write_fault { result ≡ 6 → Breaks
        (IsReply (I.left source.old) (I.faults source.old) (I.faults source.new) (texts_of args.now))
        (O.written sink.old) (O.written sink.new) (O.faults sink.old) (O.faults sink.new) }
    ensures no_memory { result ≡ 1 → O.written sink.new ≡ O.written sink.old }
    // Of known bytes at most one above the limit is read, whatever happens.
    ensures most { TakesAtMost (I.left source.old) (I.left source.new) (limit + 1) }
    // Where the reply depends on all bytes, the source is at its end; where the command line isn't supported, it is
    // untouched.
    ensures ended { RestsOnAll result → IsAtEnd (I.left source.new) }
    ensures nothing_read { IsUsage (texts_of args.now) → source.new ≡ source.old }
    // When each status comes. An unsupported command line is refused without memory, but for the sink's room.
    ensures usage_surely { IsUsage (texts_of args.now) → length (refusal 2 (codes "Usage")).1 ≤ O.spare sink.old → result ≢ 1 }
    ensures usage { IsWritten result → (result ≡ 2 ↔ IsUsage (texts_of args.now)) }
    ensures too_long { IsWritten result → IfSome (I.left source.old) (λ old.
        result ≡ 7 ↔ IsTooLong old (I.left source.new)) }
    ensures bad_input { ComesExactly 3 result (I.left source.old) (IsBadInput (texts_of args.now)) }
    ensures refused { ComesExactly 4 result (I.left source.old) (IsRefused (texts_of args.now)) }
    ensures answered { ComesExactly 0 result (I.left source.old) (IsAnswerable (texts_of args.now)) }
    // Of `compress` these causes speak of the document alone.
    ensures bad_document { IsCompress (texts_of args.now)
        → ComesExactly 3 result (I.left source.old) (IsBadDocument (texts_of args.now)) }
    ensures too_many_rows { IsCompress (texts_of args.now)
        → ComesExactly 4 result (I.left source.old) (HasTooManyRows (texts_of args.now)) }
    ensures done { IsCompress (texts_of args.now)
        → ComesExactly 0 result (I.left source.old) (IsCompressible (texts_of args.now)) }
    // What each status says of the counts of faults. At 1 the source's is as it was, provided the sink had room for the
    // refusal of a failed read: else that refusal may have been the text that found no memory.
    ensures source_rose { result ≡ 5 → Rose (I.faults source.old) (I.faults source.new) }
    ensures sink_rose { result ≡ 6 → Rose (O.faults sink.old) (O.faults sink.new) }
    ensures source_same { IsAnswered result → I.faults source.new ≡ I.faults source.old }
    ensures source_kept { result ≡ 1 → length read_fault.1 ≤ O.spare sink.old
        → I.faults source.new ≡ I.faults source.old }
    ensures sink_same { result ≢ 6 → O.faults sink.new ≡ O.faults sink.old }
    // Without a fault, what can be answered is answered, unless memory runs out.
    ensures complete { IfSome (I.left source.old) (λ all. IsAnswerable (texts_of args.now) all
        → ¬ Rose (I.faults source.old) (I.faults source.new)
        → ¬ Rose (O.faults sink.old) (O.faults sink.new) → (result ≡ 0) ⊎ (result ≡ 1)) }
{
    let Ok(reply) = reply_to(alloc, args, source) else {
        return NO_MEMORY;
    };
    match deliver(sink, reply.output.as_bytes()) {
        Ok(()) => reply.status,
        Err(Stop::NoMemory) => NO_MEMORY,
        Err(Stop::Failed) => WRITE_FAULT,
    }
}

/// A run over bytes in memory, where no read or write fails: unless memory runs out, the status and the bytes written
/// are exactly `answer`.
pub fn run_in_memory(alloc: Global, args: &[String], bytes: Bytes) -> (u8, SureSink)
    ensures { result.0 ≢ 1 → (result.0, sink_bytes result.1) ≡ answer (texts_of args.now) bytes }
{
    let mut source = SureSource::new(bytes);
    let mut sink = SureSink::new(alloc);
    let status = run(alloc, args, &mut source, &mut sink);
    (status, sink)
}
