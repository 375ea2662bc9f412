//! The order of cells.

ghost use Rattle.std.specs.Prelude.{◌≡◌};
ghost use Rattle.vx_base.specs.CellValue.{cell_value};
ghost use Rattle.vx_rules.specs.ValueOrder.{value_cmp};

use std::cmp::Ordering;
use vx_base::Cell;

/// How two values of one type are ordered: false below true, integers and timestamps as numbers, texts and binaries by their
/// bytes, a prefix first.
#[inline(always)]
pub(crate) fn value_cmp(left: Cell<'_>, right: Cell<'_>) -> Ordering
    ensures { result ≡ value_cmp (cell_value left.entry) (cell_value right.entry) }
{
    match (left, right) {
        (Cell::Bool(left), Cell::Bool(right)) => left.cmp(&right),
        (Cell::Int(left), Cell::Int(right)) => left.cmp(&right),
        (Cell::Bytes(left), Cell::Bytes(right)) => left.cmp(right),
        _ => Ordering::Equal,
    }
}
