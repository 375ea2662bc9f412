//! Random access to the rows of a delta node.

ghost use Rattle.std.specs.Prelude.{◌≡◌, ◌<◌, ◌≤ℤ◌, ◌+◌, ◌-◌, ◌*◌, ◌^◌, IsTrue, if◌then◌else◌, length, pos, negsuc};
ghost use Rattle.vx_array.specs.Sums.{sum_before};
ghost use Rattle.vx_base.specs.CellValue.{cell_value};
ghost use Rattle.vx_base.specs.PlainType.{is_integer, integer_of};
ghost use Rattle.vx_base.specs.PlainValue.{int, null};
ghost use Rattle.vx_base.specs.Wrapping.{wrap};
ghost use Rattle.vx_model.specs.Rows.{rows, is_valid_at};
ghost use Rattle.vx_model.specs.TreeType.{tree_type};

use super::offsets::whole_at;
use super::rle::BLOCK_ROWS;
use crate::array::ArrayRef;
use vx_base::{Cell, Mask};
use vx_flat::wrapped;
use vx_values::is_valid;

// A row: its base and the differences of its block up to it, wrapped; null where it isn't valid.
#[cycle(cell_at)]
pub(crate) fn summed_at(
    base: i128,
    deltas: &ArrayRef,
    valid: &Option<Mask>,
    row: u64,
) -> Cell<'static>
    requires least { negsuc (2 ^ 63 - 1) ≤ℤ base }
    requires most { base ≤ℤ pos (2 ^ 64 - 1) }
    requires deltas { IsTrue (is_integer (tree_type deltas.now)) }
    requires in_range { row < length (rows deltas.now) }
    ensures { cell_value result ≡ (if is_valid_at valid.now row then int (wrap (integer_of (tree_type deltas.now)) (sum_before base (rows deltas.now) row (row + 1))) else null) }
{
    if !is_valid(valid, row) {
        return Cell::Null;
    }
    let ptype = deltas.dtype().ptype();
    Cell::Int(wrapped(ptype, sum_at(base, deltas, row)))
}

// The base plus the differences from the first row of the row's block up to the row, not wrapped: at most 1,025 numbers of
// 64 bits.
#[cycle(cell_at)]
fn sum_at(base: i128, deltas: &ArrayRef, row: u64) -> i128
    requires least { negsuc (2 ^ 63 - 1) ≤ℤ base }
    requires most { base ≤ℤ pos (2 ^ 64 - 1) }
    requires deltas { IsTrue (is_integer (tree_type deltas.now)) }
    requires in_range { row < length (rows deltas.now) }
    ensures { result ≡ sum_before base (rows deltas.now) row (row + 1) }
{
    let _rows = deltas.len();
    let start = BLOCK_ROWS * (row / BLOCK_ROWS);
    let mut sum = base;
    for place in start..row + 1 {
        sum += whole_at(deltas, place);
    }
    sum
}
