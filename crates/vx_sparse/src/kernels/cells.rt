//! Two cells: whether they are equal, how they are ordered, and extremes.

ghost use Rattle.std.specs.Prelude.{◌≡◌, ◌↔◌, IsTrue};
ghost use Rattle.std.specs.Ordering.{ord_max, ord_min};
ghost use Rattle.vx_base.specs.CellValue.{cell_value};
ghost use Rattle.vx_base.specs.PlainValue.{same_value};
ghost use Rattle.vx_rules.specs.ValueOrder.{value_cmp};
ghost use Rattle.vx_sparse.specs.CellPairs.{cell_pair};
ghost use Rattle.vx_sparse.specs.Kernels.{widened};

use std::cmp::Ordering;
use vx_base::Cell;

/// Whether two cells are equal.
pub(crate) fn are_same(left: Cell<'_>, right: Cell<'_>) -> bool
    ensures { result ≡ same_value (cell_value left.entry) (cell_value right.entry) }
{
    match (left, right) {
        (Cell::Null, Cell::Null) => true,
        (Cell::Bool(bit), Cell::Bool(other)) => bit == other,
        (Cell::Int(whole), Cell::Int(other)) => whole == other,
        (Cell::Bytes(bytes), Cell::Bytes(other)) => are_same_bytes(bytes, other),
        _ => false,
    }
}

// Whether two texts or binaries are equal.
fn are_same_bytes(left: &[u8], right: &[u8]) -> bool
    ensures { IsTrue result ↔ (left.now ≡ right.now) }
{
    left == right
}

/// The order of two cells; Equal of two kinds.
pub(crate) fn cell_cmp(left: Cell<'_>, right: Cell<'_>) -> Ordering
    ensures { result ≡ value_cmp (cell_value left.entry) (cell_value right.entry) }
{
    match (left, right) {
        (Cell::Bool(bit), Cell::Bool(other)) => bit.cmp(&other),
        (Cell::Int(whole), Cell::Int(other)) => whole.cmp(&other),
        (Cell::Bytes(bytes), Cell::Bytes(other)) => bytes.cmp(other),
        _ => Ordering::Equal,
    }
}

/// Extremes with one cell more.
pub(crate) fn widened<'a>(
    found: Option<(Cell<'a>, Cell<'a>)>,
    cell: Cell<'a>,
) -> Option<(Cell<'a>, Cell<'a>)>
    ensures { cell_pair result ≡ widened (cell_pair found.entry) (cell_value cell.entry) }
{
    if cell.is_null() {
        return found;
    }
    match found {
        Some((least, greatest)) => Some((lesser(least, cell), greater(greatest, cell))),
        None => Some((cell, cell)),
    }
}

// The lesser of two cells, the first where neither is.
fn lesser<'a>(first: Cell<'a>, second: Cell<'a>) -> Cell<'a>
    ensures { cell_value result ≡ ord_min value_cmp (cell_value first.entry) (cell_value second.entry) }
{
    if cell_cmp(second, first) == Ordering::Less {
        second
    } else {
        first
    }
}

// The greater of two cells, the second where neither is.
fn greater<'a>(first: Cell<'a>, second: Cell<'a>) -> Cell<'a>
    ensures { cell_value result ≡ ord_max value_cmp (cell_value first.entry) (cell_value second.entry) }
{
    if cell_cmp(second, first) == Ordering::Less {
        first
    } else {
        second
    }
}
