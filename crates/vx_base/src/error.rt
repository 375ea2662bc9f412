//! Errors, and refusals that hand back their inputs.

ghost use Rattle.std.specs.Prelude.{◌≡◌};
ghost use Rattle.vx_base.specs.declared.error.VortexError.TheVariants.{NoMemory};

use std::alloc::{AllocError, AllocFailed};
use thiserror::Error;

/// Why a call refused. `Display` prints the name of the variant.
#[derive(Clone, Copy, Debug, PartialEq, Eq, Drop, Error)]
pub enum VortexError {
    /// Memory ran out.
    #[error("NoMemory")]
    NoMemory,
    /// More rows than the call's row limit.
    #[error("TooManyRows")]
    TooManyRows,
    /// A type or content that the call doesn't accept.
    #[error("MismatchedTypes")]
    MismatchedTypes,
    /// A length other than the one that the call requires.
    #[error("LengthMismatch")]
    LengthMismatch,
    /// A row, end, index, code, offset, width or number that is out of bounds.
    #[error("OutOfBounds")]
    OutOfBounds,
    /// Patch indices that are not strictly ascending, or out of bounds of their array.
    #[error("IndicesNotAscending")]
    IndicesNotAscending,
    /// Days as the unit of a timestamp: a second is no whole number of days.
    #[error("DayUnit")]
    DayUnit,
    /// A day number that exceeds 32 signed bits.
    #[error("DaysOutOfRange")]
    DaysOutOfRange,
    /// A timestamp that exceeds 64 signed bits.
    #[error("TimestampOutOfRange")]
    TimestampOutOfRange,
    /// Parts into which no timestamp splits.
    #[error("PartsNotCanonical")]
    PartsNotCanonical,
    /// A value that is not one of the type that it is cast to.
    #[error("CastRefused")]
    CastRefused,
    /// A text or binary value of 2^32 bytes or more.
    #[error("ValueTooLong")]
    ValueTooLong,
    /// A scheme with the name of another one.
    #[error("DuplicateScheme")]
    DuplicateScheme,
    /// Bytes that encode no metadata.
    #[error("BadMetadata")]
    BadMetadata,
}

pub type VortexResult<T> = Result<T, VortexError>;

impl VortexError {
    ghost use Rattle.vx_base.specs.ErrorName.{error_name};

    /// The name of the variant; nothing is allocated.
    pub fn name(&self) -> &'static str
        ensures { result.now ≡ error_name self.now }
    {
        match self {
            VortexError::NoMemory => "NoMemory",
            VortexError::TooManyRows => "TooManyRows",
            VortexError::MismatchedTypes => "MismatchedTypes",
            VortexError::LengthMismatch => "LengthMismatch",
            VortexError::OutOfBounds => "OutOfBounds",
            VortexError::IndicesNotAscending => "IndicesNotAscending",
            VortexError::DayUnit => "DayUnit",
            VortexError::DaysOutOfRange => "DaysOutOfRange",
            VortexError::TimestampOutOfRange => "TimestampOutOfRange",
            VortexError::PartsNotCanonical => "PartsNotCanonical",
            VortexError::CastRefused => "CastRefused",
            VortexError::ValueTooLong => "ValueTooLong",
            VortexError::DuplicateScheme => "DuplicateScheme",
            VortexError::BadMetadata => "BadMetadata",
        }
    }
}

impl From<AllocError> for VortexError {
    ghost from_gives = { λ _ e. e ≡ NoMemory };

    fn from(_e: AllocError) -> VortexError {
        VortexError::NoMemory
    }
}

impl<T: Drop> From<AllocFailed<T>> for VortexError {
    ghost from_gives = { λ _ e. e ≡ NoMemory };

    fn from(_e: AllocFailed<T>) -> VortexError {
        VortexError::NoMemory
    }
}

/// Why a call refused, and its inputs as they were passed. `?` drops the inputs and keeps the error.
#[derive(Debug, Drop)]
pub struct Refused<T> {
    pub error: VortexError,
    pub inputs: T,
}

impl<T: Drop> From<Refused<T>> for VortexError {
    ghost from_gives = { λ refused e. e ≡ refused.error };

    fn from(refused: Refused<T>) -> VortexError {
        refused.error
    }
}
