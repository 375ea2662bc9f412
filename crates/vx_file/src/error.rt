//! Why a file is not written or not read.

ghost use Rattle.std.specs.Prelude.{◌≡◌};
ghost use Rattle.vx_file.specs.Answers.{file_error};
ghost use Rattle.vx_file.specs.declared.error.FileError.TheVariants.{NoMemory};

use std::alloc::AllocError;
use thiserror::Error;
use vx_codec::ReadError;

/// Why a file is not written or not read. `Display` prints the name of the variant.
#[derive(Clone, Copy, Debug, PartialEq, Eq, Drop, Error)]
pub enum FileError {
    /// Memory ran out.
    #[error("NoMemory")]
    NoMemory,
    /// A tree isn't storable: too many nodes on a path, too many rows in a node, or types that nest too deeply.
    #[error("NotStorable")]
    NotStorable,
    /// The bytes are no file of storable trees.
    #[error("BadFile")]
    BadFile,
}

impl From<AllocError> for FileError {
    ghost from_gives = { λ _ e. e ≡ NoMemory };

    fn from(_e: AllocError) -> FileError {
        FileError::NoMemory
    }
}

impl From<ReadError> for FileError {
    ghost from_gives = { λ why e. e ≡ file_error why };

    fn from(why: ReadError) -> FileError {
        match why {
            ReadError::NoMemory => FileError::NoMemory,
            ReadError::Malformed => FileError::BadFile,
        }
    }
}
