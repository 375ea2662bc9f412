//! Writes an output to a sink, whole or up to a fault.

ghost use Rattle.std.specs.Prelude.{◌≡◌, ◌≢◌, ◌≤◌, Err, OnOk, OnErr, IfErr, length};
ghost use Rattle.std.specs.Io.KnownBytes.{Appends};
ghost use Rattle.vx_program.specs.Writing.{Fails, Stops};
ghost use Rattle.vx_program.specs.declared.writing.Stop.TheVariants as stop;

use crate::outside::{Failed, Sink};

/// Why an output is not written whole.
#[derive(Clone, Copy, Debug, PartialEq, Eq)]
pub enum Stop {
    /// The sink had no memory for it. Nothing is written.
    NoMemory,
    /// A write failed. A front of the output is written, less than the whole.
    Failed,
}

// Writes what is left, write after write, until the end or the first fault.
fn write_whole<O: Sink>(sink: &mut O, bytes: &[u8]) -> Result<(), Failed>
    requires { length bytes.now ≤ O.spare sink.old }
    ensures done { OnOk result (Appends (O.written sink.old) (O.written sink.new) bytes.now) }
    ensures same { OnOk result (O.faults sink.new ≡ O.faults sink.old) }
    ensures fault { OnErr result (Fails (O.written sink.old) (O.written sink.new)
        (O.faults sink.old) (O.faults sink.new) bytes.now) }
{
    let mut at = 0;
    while at < bytes.len() {
        at += sink.write(&bytes[at..])?;
    }
    Ok(())
}

/// Reserves room for the whole output, then writes it. So memory runs out before the first byte or not at all, and never
/// where the sink has the room already.
pub fn deliver<O: Sink>(sink: &mut O, text: &[u8]) -> Result<(), Stop>
    ensures done { OnOk result (Appends (O.written sink.old) (O.written sink.new) text.now) }
    ensures same { OnOk result (O.faults sink.new ≡ O.faults sink.old) }
    ensures sure { length text.now ≤ O.spare sink.old → result ≢ Err stop.NoMemory }
    ensures stop { IfErr result (Stops (O.written sink.old) (O.written sink.new)
        (O.faults sink.old) (O.faults sink.new) text.now) }
{
    if sink.reserve(text.len() as u64).is_err() {
        return Err(Stop::NoMemory);
    }
    match write_whole(sink, text) {
        Ok(()) => Ok(()),
        Err(Failed) => Err(Stop::Failed),
    }
}
