//! From arguments and a source to a status and an output.

ghost use Rattle.std.specs.Prelude.{◌≡◌, ◌<◌, ◌+◌, ◌↔◌, true, List, ℕ, Option, IfOk, IfSome, OnErr, string_bytes, length, map};
ghost use Rattle.std.specs.Io.KnownBytes.{IsAtEnd};
ghost use Rattle.vx_program.specs.Answer.{texts_of, of_input, IsReply};
ghost use Rattle.vx_program.specs.Forms.{is_supported};
ghost use Rattle.vx_program.specs.Output.{output_bytes};
ghost use Rattle.vx_program.specs.Reading.{limit, TakesAtMost};
ghost use Rattle.vx_program.specs.Statuses.{RestsOnAll, IsUsage, IsTooLong};

mod compressed;
mod documents;
mod files;
mod queries;

use crate::forms::{Form, form_of};
use crate::output::Output;
use crate::outside::Source;
use crate::reading::{Input, read_all};
use documents::{compress, store};
use files::{rows, show};
use queries::query;
use std::alloc::{AllocError, Global};

/// The whole output is written.
pub const DONE: u8 = 0;

/// Memory ran out, and nothing is written.
pub const NO_MEMORY: u8 = 1;

/// The arguments are no supported command line: `compress`, `store`, `show`, `rows` or `query`.
pub const USAGE: u8 = 2;

/// The bytes are not a document, or for `show` and `rows` not a file.
pub const BAD_INPUT: u8 = 3;

/// What was read is refused; the output has the error's name. For `compress`, `store` and `query` a column of the document is above
/// the row limit, or the tree can't be stored, or a command is refused; for `rows` a column or the text is above the limit of what
/// can be read again.
pub const REFUSED: u8 = 4;

/// A read failed.
pub const READ_FAULT: u8 = 5;

/// A write failed, and less than the whole output is written.
pub const WRITE_FAULT: u8 = 6;

/// More than 2^26 bytes came.
pub const TOO_LONG: u8 = 7;

/// An output, and the status of a run that wrote it whole.
#[derive(Drop)]
pub struct Reply {
    /// 0, 2 to 5 or 7.
    pub status: u8,
    /// What is written.
    pub output: Output,
}

// A refusal, whose text is a constant and takes no memory.
fn refusal(status: u8, text: &'static str) -> Reply
    ensures status { result.status ≡ status }
    ensures text { output_bytes result.output ≡ text.now }
{
    Reply {
        status,
        output: Output::Refusal(text),
    }
}

// The reply of a form to these bytes.
#[tactic(auto, unfolding(crate::specs::Answer::of_input))]
fn reply_to_bytes(alloc: Global, form: Form, bytes: Vec<u8>) -> Result<Reply, AllocError>
    ensures { IfOk result (λ r. (r.status, output_bytes r.output) ≡ of_input form bytes.items) }
{
    match form {
        Form::Compress => compress(alloc, bytes),
        Form::Store => store(alloc, bytes),
        Form::Show => show(alloc, bytes),
        Form::Rows => rows(alloc, bytes),
        Form::Query => query(alloc, bytes),
    }
}

/// The reply to the arguments and to all bytes of the source. An Err means that memory ran out; no fault was counted then.
/// Where the arguments are no supported command line, it reads nothing and takes no memory.
pub fn reply_to<I: Source>(
    alloc: Global,
    args: &[String],
    source: &mut I,
) -> Result<Reply, AllocError>
    ensures answer { IfOk result (λ r. IsReply (I.left source.old) (I.faults source.old)
        (I.faults source.new) (texts_of args.now) (r.status, output_bytes r.output)) }
    ensures no_memory { OnErr result (is_supported (texts_of args.now) ≡ true) }
    ensures no_fault { OnErr result (I.faults source.new ≡ I.faults source.old) }
    ensures ended { IfOk result (λ r. RestsOnAll r.status → IsAtEnd (I.left source.new)) }
    ensures too_long { IfOk result (λ r. IfSome (I.left source.old) (λ old.
        r.status ≡ 7 ↔ IsTooLong old (I.left source.new))) }
    ensures most { TakesAtMost (I.left source.old) (I.left source.new) (limit + 1) }
    ensures nothing_read { IsUsage (texts_of args.now) → source.new ≡ source.old }
{
    let Some(form) = form_of(args) else {
        return Ok(refusal(USAGE, "refused: Usage\n"));
    };
    match read_all(alloc, source)? {
        Input::Fault => Ok(refusal(READ_FAULT, "refused: ReadFault\n")),
        Input::TooLong => Ok(refusal(TOO_LONG, "refused: TooLong\n")),
        Input::Whole(bytes) => reply_to_bytes(alloc, form, bytes),
    }
}
