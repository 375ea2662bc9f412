//! Why an export refuses.

ghost use Rattle.std.specs.Prelude.{◌≡◌, ◌≢◌};
ghost use Rattle.vx_buffers.specs.declared.refusal.Refusal.TheVariants.{NoMemory};
ghost use Rattle.vx_ffi.specs.declared.failure.Failure.TheVariants.{Refused};
ghost use Rattle.vx_ffi.specs.Statuses.{number_of, refusal_number};

use std::alloc::AllocError;
use vx_buffers::Refusal;

/// Why an export refuses.
#[derive(Clone, Copy, Debug, PartialEq, Eq, Drop)]
pub enum Failure {
    /// Memory ran out, or rows or buffers are refused.
    Refused(Refusal),
    /// No sample word.
    NoWords,
    /// A handle without a tree.
    NoTree,
    /// A tree that no file can hold.
    NotStorable,
    /// Bytes that are no file of trees.
    BadFile,
    /// A file of no tree, or of several.
    NotOneTree,
}

impl From<Refusal> for Failure {
    ghost from_gives = { λ why e. e ≡ Refused why };

    fn from(why: Refusal) -> Failure {
        Failure::Refused(why)
    }
}

impl From<AllocError> for Failure {
    ghost from_gives = { λ _ e. e ≡ Refused NoMemory };

    fn from(_e: AllocError) -> Failure {
        Failure::Refused(Refusal::NoMemory)
    }
}

/// The status of a call that is done.
pub(crate) const DONE: u8 = 0;
/// The status where memory ran out.
pub(crate) const NO_MEMORY: u8 = 1;
/// The status of a call on a handle without a tree.
pub(crate) const NO_TREE: u8 = 10;

/// The status of a call whose rows or buffers are refused so.
pub(crate) fn refusal_number(why: Refusal) -> u8
    ensures number { result ≡ refusal_number why }
    ensures refused { result ≢ 0 }
{
    match why {
        Refusal::NoMemory => NO_MEMORY,
        Refusal::TooManyRows => 2,
        Refusal::UnknownForm => 4,
        Refusal::ValidityLength => 5,
        Refusal::BadOffsets => 6,
        Refusal::ValueTooLong => 7,
        Refusal::NotUtf8 => 8,
        Refusal::BadUnit => 9,
        Refusal::OtherType => 11,
        Refusal::BufferLength => 12,
    }
}

/// The status of a call that is refused so.
pub(crate) fn number(why: Failure) -> u8
    ensures number { result ≡ number_of why }
    ensures refused { result ≢ 0 }
{
    match why {
        Failure::Refused(why) => refusal_number(why),
        Failure::NoWords => 3,
        Failure::NoTree => NO_TREE,
        Failure::NotStorable => 13,
        Failure::BadFile => 14,
        Failure::NotOneTree => 15,
    }
}
