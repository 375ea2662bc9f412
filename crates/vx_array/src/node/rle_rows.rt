//! The places of rows in runs in blocks: whether they are in bounds, and the value at one.

ghost use Rattle.std.specs.List.{list_all};
ghost use Rattle.std.specs.Prelude.{◌≡◌, ◌<◌, ◌*◌, ◌/◌, ◌+ℤ◌, ◌&&◌, IsTrue, length};
ghost use Rattle.vx_array.specs.Linear.{IsLinear, has_place, block_end};
ghost use Rattle.vx_base.specs.Answers.{OrMemory};
ghost use Rattle.vx_base.specs.CellValue.{cell_value};
ghost use Rattle.vx_base.specs.Packed.{block_count};
ghost use Rattle.vx_base.specs.PlainType.{is_integer};
ghost use Rattle.vx_base.specs.PlainValue.{int};
ghost use Rattle.vx_model.specs.Rows.{rows, below, block_rows, looked_up, rle_place};
ghost use Rattle.vx_model.specs.TreeType.{tree_type};
ghost use Rattle.vx_model.specs.WellFormed.{is_place};

use super::offsets::whole_at;
use super::rle::BLOCK_ROWS;
use crate::array::ArrayRef;
use crate::node::picked_at;
use std::alloc::Global;
use vx_base::{Cell, VortexResult};
use vx_flat::{is_place, sums_are_places};

// Whether `offset + index` is in bounds of `values` values in every row: of linear indices by few rows, else of the decoded
// columns, or row by row where their bytes don't pay for decoding them, or memory is wanting.
pub(super) fn have_places(
    alloc: Global,
    values: u64,
    indices: &ArrayRef,
    offsets: &ArrayRef,
    len: u64,
) -> bool
    requires indices { IsTrue (is_integer (tree_type indices.now)) }
    requires offsets { IsTrue (is_integer (tree_type offsets.now)) }
    requires enough { length (rows indices.now) ≡ block_rows * block_count len }
    requires begins { length (rows offsets.now) ≡ block_count len }
    ensures { result ≡ list_all (is_place values) (below (rle_place (rows offsets.now) (rows indices.now)) len) }
{
    if indices.is_linear() {
        return linear_have_places(values, indices, offsets, len);
    }
    if !indices.is_paid() || !offsets.is_paid() {
        return rows_have_places(values, indices, offsets, len);
    }
    match decoded_have_places(alloc, values, indices, offsets, len) {
        Ok(held) => held,
        Err(_) => rows_have_places(values, indices, offsets, len),
    }
}

// `have_places` of the decoded columns.
fn decoded_have_places(
    alloc: Global,
    values: u64,
    indices: &ArrayRef,
    offsets: &ArrayRef,
    len: u64,
) -> VortexResult<bool>
    requires indices { IsTrue (is_integer (tree_type indices.now)) }
    requires offsets { IsTrue (is_integer (tree_type offsets.now)) }
    requires enough { length (rows indices.now) ≡ block_rows * block_count len }
    requires begins { length (rows offsets.now) ≡ block_count len }
    ensures { OrMemory result (λ held. held ≡ list_all (is_place values) (below (rle_place (rows offsets.now) (rows indices.now)) len)) }
{
    let (numbers, _) = indices.integers(alloc)?;
    let (begins, _) = offsets.integers(alloc)?;
    sums_are_places(alloc, values, numbers.as_ints(), begins.as_ints(), len)
}

// `have_places` row by row.
#[tactic(auto, using(vx_flat::proofs::RunPlaces::sum_places))]
fn rows_have_places(values: u64, indices: &ArrayRef, offsets: &ArrayRef, len: u64) -> bool
    requires indices { IsTrue (is_integer (tree_type indices.now)) }
    requires offsets { IsTrue (is_integer (tree_type offsets.now)) }
    requires enough { length (rows indices.now) ≡ block_rows * block_count len }
    requires begins { length (rows offsets.now) ≡ block_count len }
    ensures { result ≡ list_all (is_place values) (below (rle_place (rows offsets.now) (rows indices.now)) len) }
{
    for row in 0..len {
        if !has_place(values, indices, offsets, row) {
            return false;
        }
    }
    true
}

// `have_places` of linear indices, where the rows of a block lie between its first and its last. Of linear offsets too, all
// rows lie between those of the first block, those of the last, and the row before the last.
fn linear_have_places(values: u64, indices: &ArrayRef, offsets: &ArrayRef, len: u64) -> bool
    requires indices { IsTrue (is_integer (tree_type indices.now)) }
    requires offsets { IsTrue (is_integer (tree_type offsets.now)) }
    requires enough { length (rows indices.now) ≡ block_rows * block_count len }
    requires begins { length (rows offsets.now) ≡ block_count len }
    requires linear { IsLinear (rows indices.now) }
    ensures { result ≡ list_all (is_place values) (below (rle_place (rows offsets.now) (rows indices.now)) len) }
{
    let blocks = offsets.len();
    if blocks == 0 {
        return true;
    }
    if offsets.is_linear() {
        return corners_are_places(values, indices, offsets, len);
    }
    for block in 0..blocks {
        if !block_has_places(values, indices, offsets, len, block) {
            return false;
        }
    }
    true
}

// `have_places` of linear indices and offsets.
fn corners_are_places(values: u64, indices: &ArrayRef, offsets: &ArrayRef, len: u64) -> bool
    requires indices { IsTrue (is_integer (tree_type indices.now)) }
    requires offsets { IsTrue (is_integer (tree_type offsets.now)) }
    requires enough { length (rows indices.now) ≡ block_rows * block_count len }
    requires begins { length (rows offsets.now) ≡ block_count len }
    requires some { 0 < len }
    requires linear { IsLinear (rows indices.now) }
    requires linear_offsets { IsLinear (rows offsets.now) }
    ensures { result ≡ list_all (is_place values) (below (rle_place (rows offsets.now) (rows indices.now)) len) }
{
    let last = (len - 1) / BLOCK_ROWS;
    if !block_has_places(values, indices, offsets, len, 0) {
        return false;
    }
    if last == 0 {
        return true;
    }
    has_place(values, indices, offsets, BLOCK_ROWS * last - 1)
        && block_has_places(values, indices, offsets, len, last)
}

// Whether the first and the last row of a block have places.
fn block_has_places(
    values: u64,
    indices: &ArrayRef,
    offsets: &ArrayRef,
    len: u64,
    block: u64,
) -> bool
    requires indices { IsTrue (is_integer (tree_type indices.now)) }
    requires offsets { IsTrue (is_integer (tree_type offsets.now)) }
    requires enough { length (rows indices.now) ≡ block_rows * block_count len }
    requires begins { length (rows offsets.now) ≡ block_count len }
    requires in_range { block_rows * block < len }
    ensures { result ≡ (has_place values (rows offsets.now) (rows indices.now) (block_rows * block) && has_place values (rows offsets.now) (rows indices.now) (block_end len block)) }
{
    let begin = BLOCK_ROWS * block;
    let end = begin + (len - begin).min(BLOCK_ROWS) - 1;
    has_place(values, indices, offsets, begin) && has_place(values, indices, offsets, end)
}

// Whether a row has a place among `values` values.
fn has_place(values: u64, indices: &ArrayRef, offsets: &ArrayRef, row: u64) -> bool
    requires indices { IsTrue (is_integer (tree_type indices.now)) }
    requires offsets { IsTrue (is_integer (tree_type offsets.now)) }
    requires in_range { row < length (rows indices.now) }
    requires in_block { row / block_rows < length (rows offsets.now) }
    ensures { result ≡ has_place values (rows offsets.now) (rows indices.now) row }
{
    is_place(Some(place_at(indices, offsets, row)), values)
}

// The place of a row's value: `offsets[row / 1024] + indices[row]`.
fn place_at(indices: &ArrayRef, offsets: &ArrayRef, row: u64) -> i128
    requires indices { IsTrue (is_integer (tree_type indices.now)) }
    requires offsets { IsTrue (is_integer (tree_type offsets.now)) }
    requires in_range { row < length (rows indices.now) }
    requires in_block { row / block_rows < length (rows offsets.now) }
    ensures { int result ≡ rle_place (rows offsets.now) (rows indices.now) row }
{
    whole_at(offsets, row / BLOCK_ROWS) + whole_at(indices, row)
}

// `values[begin + index]`.
#[cycle(cell_at)]
#[tactic(auto, using(crate::proofs::Flat::flats))]
pub(crate) fn rle_at(values: &ArrayRef, begin: i128, index: i128) -> Cell<'_>
    requires values { IsTrue (is_integer (tree_type values.now)) }
    requires place { IsTrue (is_place (length (rows values.now)) (int (begin +ℤ index))) }
    ensures { cell_value result ≡ looked_up (rows values.now) (int (begin +ℤ index)) }
{
    let _places = values.len();
    let place = begin + index;
    picked_at(values, Cell::Int(place))
}
