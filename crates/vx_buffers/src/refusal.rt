//! Why a call refuses.

ghost use Rattle.std.specs.Prelude.{◌≡◌};
ghost use Rattle.vx_buffers.specs.Answered.{refusal_of};
ghost use Rattle.vx_buffers.specs.declared.refusal.Refusal.TheVariants.{NoMemory};

use std::alloc::AllocError;
use vx_base::VortexError;

/// Why a call refuses.
#[derive(Clone, Copy, Debug, PartialEq, Eq, Drop)]
pub enum Refusal {
    /// Memory ran out.
    NoMemory,
    /// More than 2^31 rows.
    TooManyRows,
    /// A form of validity that is none of the three.
    UnknownForm,
    /// Validity of another number of rows, or a bitmap that ends before the last row's bit.
    ValidityLength,
    /// No offset, or offsets that don't begin at 0, fall, or don't end at the bytes' length.
    BadOffsets,
    /// A text or binary value of 2^32 bytes or more.
    ValueTooLong,
    /// A text, or the name of a zone, that isn't UTF-8.
    NotUtf8,
    /// A unit of time that is none of the four.
    BadUnit,
    /// A column of another type.
    OtherType,
    /// A buffer of another length than the rows or the bytes need.
    BufferLength,
}

impl From<AllocError> for Refusal {
    ghost from_gives = { λ _ e. e ≡ NoMemory };

    fn from(_e: AllocError) -> Refusal {
        Refusal::NoMemory
    }
}

impl From<VortexError> for Refusal {
    ghost from_gives = { λ why e. e ≡ refusal_of why };

    fn from(why: VortexError) -> Refusal {
        match why {
            VortexError::NoMemory => Refusal::NoMemory,
            VortexError::TooManyRows => Refusal::TooManyRows,
            VortexError::LengthMismatch => Refusal::ValidityLength,
            VortexError::OutOfBounds => Refusal::BadOffsets,
            VortexError::ValueTooLong => Refusal::ValueTooLong,
            VortexError::MismatchedTypes => Refusal::NotUtf8,
            VortexError::DayUnit => Refusal::BadUnit,
            VortexError::IndicesNotAscending
            | VortexError::DaysOutOfRange
            | VortexError::TimestampOutOfRange
            | VortexError::PartsNotCanonical
            | VortexError::CastRefused
            | VortexError::DuplicateScheme
            | VortexError::BadMetadata => Refusal::OtherType,
        }
    }
}
