//! Blocks of rows, and the parts in which a block is written.

ghost use Rattle.std.specs.Prelude.{◌<◌, ◌≤◌};

use vx_base::Integer;

/// Rows of a block: packed integers, differences and runs in blocks restart every 1,024 rows, as in FastLanes, so that
/// a row is decoded from its own block alone.
pub const BLOCK_ROWS: usize = 1024;

const _: () = prove!(BLOCK_ROWS == 1024);

// Bytes by which a vector grows before its new rows are written over: few enough to be still in the cache. More are slower.
const PART_BYTES: usize = 1024;

// The rows of a part.
pub(crate) fn rows_at_once<T: Integer>() -> usize
    ensures some { 0 < result }
    ensures most { result ≤ 1024 }
{
    PART_BYTES / T::ptype().byte_width() as usize
}
