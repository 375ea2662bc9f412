//! What gives bytes and what takes them, each with a count of its faults.

ghost use Rattle.std.specs.Prelude.{◌≡◌, ◌+◌, ◌<◌, ◌≤◌, ℕ, List, Option, length, IfOk, IfErr, IsOk, OnOk};
ghost use Rattle.std.specs.Io.{ReadsAtMost, WritesAtMost};
ghost use Rattle.std.specs.Io.KnownBytes.{ReadConsumes, WriteAppends};
ghost use Rattle.vx_base.specs.declared.error.VortexError.TheVariants.{NoMemory};
ghost use Rattle.vx_program.specs.Causes.{HasCause};

use vx_base::VortexResult;

/// A read or a write failed. The count of faults rises with it; its reason isn't kept.
#[derive(Clone, Copy, Debug, PartialEq, Eq)]
pub struct Failed;

/// Gives bytes, some at each call.
pub trait Source {
    /// The bytes still to come; None where they aren't known, as of standard input.
    ghost left: { Self → Option (List ℕ) };

    /// How often a read has failed. The count may stop at 2^64 - 1.
    ghost faults: { Self → ℕ };

    /// Puts the next bytes into the front of `buf` and answers how many they are. Into a buffer that isn't empty it
    /// puts none only at the end. A failure loses no byte still to come and raises the count of faults, by any number.
    fn read(&mut self, buf: &mut [u8]) -> Result<usize, Failed>
        ensures bound { ReadsAtMost result buf.new }
        ensures bytes { ReadConsumes (left self.old) (left self.new) result buf.new }
        ensures cause { HasCause (faults self.old) (faults self.new) result };
}

/// Takes bytes. Room for all of them is reserved first, so memory runs out before the first byte is written or not at all.
pub trait Sink {
    /// The bytes written; None where they aren't known, as of standard output.
    ghost written: { Self → Option (List ℕ) };

    /// How often a write has failed. The count may stop at 2^64 - 1.
    ghost faults: { Self → ℕ };

    /// How many bytes may be written with no further memory.
    ghost spare: { Self → ℕ };

    /// Makes room for `count` bytes; always Ok where there is such room already. The only error is NoMemory. Neither
    /// outcome writes anything.
    fn reserve(&mut self, count: u64) -> VortexResult<()>
        ensures room { OnOk result (count ≤ spare self.new) }
        ensures only_memory { IfErr result (λ e. e ≡ NoMemory) }
        ensures sure { count ≤ spare self.old → IsOk result }
        ensures written { written self.new ≡ written self.old }
        ensures faults { faults self.new ≡ faults self.old };

    /// Writes the front of `bytes` and answers its length, which is 0 only where there is no byte. It takes no memory.
    /// A failure leaves the bytes written as they were and raises the count of faults, by any number.
    fn write(&mut self, bytes: &[u8]) -> Result<usize, Failed>
        requires { length bytes.now ≤ spare self.old }
        ensures bound { WritesAtMost result bytes.now }
        ensures progress { 0 < length bytes.now → IfOk result (λ n. 0 < n) }
        ensures room { IfOk result (λ n. spare self.old ≤ spare self.new + n) }
        ensures bytes { WriteAppends (written self.old) (written self.new) result bytes.now }
        ensures cause { HasCause (faults self.old) (faults self.new) result };
}
