//! The rows of a plain tree of texts or binaries, as it stores them.

ghost use Rattle.std.specs.Prelude.{◌≡◌, ◌≤◌, IsTrue, length};
ghost use Rattle.vx_base.specs.PlainType.{is_bytes};
ghost use Rattle.vx_model.specs.Column.{column_of};
ghost use Rattle.vx_model.specs.Offsets.{byte_rows_of};
ghost use Rattle.vx_model.specs.Plain.{IsPlain, validity};
ghost use Rattle.vx_model.specs.Rows.{rows};
ghost use Rattle.vx_model.specs.TreeType.{tree_type};
ghost use Rattle.vx_stats.specs.Rows.{valid_count};

use vx_array::{ArrayRef, Node};
use vx_base::{ByteRows, Mask};

/// The bytes of each row, none where it is null, and the validity. Nothing is copied.
pub(crate) fn views_of(plain: &ArrayRef) -> (&ByteRows, &Option<Mask>)
    requires plain { IsPlain plain.now }
    requires bytes { IsTrue (is_bytes (tree_type plain.now)) }
    ensures rows { result.0.now ≡ byte_rows_of (column_of plain.now) }
    ensures valid { result.1.now ≡ validity (rows plain.now) }
{
    match plain.node() {
        Node::VarBinView(rows, valid, _) => (rows, valid),
        _ => unreachable!(),
    }
}

/// The number of rows with a value.
pub(crate) fn value_count(plain: &ArrayRef) -> u64
    requires plain { IsPlain plain.now }
    requires bytes { IsTrue (is_bytes (tree_type plain.now)) }
    ensures count { result ≡ valid_count (rows plain.now) }
    ensures few { result ≤ length (rows plain.now) }
{
    let (_, valid) = views_of(plain);
    match valid {
        Some(mask) => mask.true_count(),
        None => plain.len(),
    }
}
