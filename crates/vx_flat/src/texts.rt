//! Which bytes are texts or binaries of a type.

ghost use Rattle.std.specs.Prelude.{◌≡◌, IsTrue};
ghost use Rattle.vx_base.specs.CellValue.{cell_value};
ghost use Rattle.vx_base.specs.PlainScalar.{fits};
ghost use Rattle.vx_base.specs.PlainType.{is_bytes};
ghost use Rattle.vx_base.specs.TypeOf.{type_of};

use vx_base::{Cell, DType, is_short, is_text};

/// Whether a row fits a text or binary type: null only where that is nullable, else fewer than 2^32 bytes, and UTF-8 in texts.
pub fn fits(dtype: &DType, row: Cell<'_>) -> bool
    requires { IsTrue (is_bytes (type_of dtype.now)) }
    ensures { result ≡ fits (type_of dtype.now) (cell_value row.entry) }
{
    match (dtype, row) {
        (_, Cell::Null) => dtype.is_nullable(),
        (DType::Utf8(_), Cell::Bytes(bytes)) => is_short(bytes) && is_text(bytes),
        (DType::Binary(_), Cell::Bytes(bytes)) => is_short(bytes),
        _ => false,
    }
}
