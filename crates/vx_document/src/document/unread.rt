//! Why bytes are not read as a document.

ghost use Rattle.std.specs.Prelude.{◌≡◌};
ghost use Rattle.vx_document.specs.declared.document.unread.Unread.TheVariants.{NoMemory};

use std::alloc::{AllocError, AllocFailed};

/// Why bytes are not read as a document.
#[derive(Clone, Copy, Debug, Drop)]
pub enum Unread {
    /// Memory ran out.
    NoMemory,
    /// The bytes are not a document.
    BadDocument,
}

impl From<AllocError> for Unread {
    ghost from_gives = { λ _ e. e ≡ NoMemory };

    fn from(_e: AllocError) -> Unread {
        Unread::NoMemory
    }
}

impl<T: Drop> From<AllocFailed<T>> for Unread {
    ghost from_gives = { λ _ e. e ≡ NoMemory };

    fn from(_e: AllocFailed<T>) -> Unread {
        Unread::NoMemory
    }
}
