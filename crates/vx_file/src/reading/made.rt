//! What a constructor of vx_array answers, as what a reader answers: the node and the bytes after it, or why there is none.

ghost use Rattle.std.specs.Prelude.{◌≡◌};
ghost use Rattle.vx_file.specs.Made.{error_of};

use vx_array::ArrayRef;
use vx_base::VortexError;
use vx_codec::ReadError;

/// A tree, and the bytes after it.
pub(super) type Found<'a> = Result<(ArrayRef, &'a [u8]), ReadError>;

/// Want of memory stays what it is; any other refusal says that the parts are no node.
pub(super) fn refusal(error: VortexError) -> ReadError
    ensures { result ≡ error_of error }
{
    match error {
        VortexError::NoMemory => ReadError::NoMemory,
        _ => ReadError::Malformed,
    }
}
