//! The least and the greatest value of a dictionary: of the values that its codes name.

ghost use Rattle.std.specs.List.{list_all};
ghost use Rattle.std.specs.Prelude.{◌≡◌, ◌<◌, IsTrue, cond, false, length, option_map, slice_index_or};
ghost use Rattle.vx_base.specs.Answers.{Answers};
ghost use Rattle.vx_base.specs.CellValue.{cell_value};
ghost use Rattle.vx_base.specs.PlainScalar.{fits};
ghost use Rattle.vx_base.specs.PlainType.{is_flat};
ghost use Rattle.vx_base.specs.PlainValue.{null};
ghost use Rattle.vx_base.specs.TypeOf.{type_of};
ghost use Rattle.vx_model.specs.Column.{column, column_of};
ghost use Rattle.vx_model.specs.Rows.{row_at, rows};
ghost use Rattle.vx_model.specs.Tree.{dict};
ghost use Rattle.vx_model.specs.TreeType.{tree_type};
ghost use Rattle.vx_rows.specs.Extremes.{valid_items};
ghost use Rattle.vx_rows.specs.Readable.{is_whole, lent_rows};
ghost use Rattle.vx_rules.specs.Aggregates.{greatest, least, min_max, valid_values};

use super::{found_scalars, read_extremes, with_value};
use crate::held::readable;
use crate::lent::{Lent, rows_of};
use crate::used::used_by;
use std::alloc::Global;
use vx_array::ArrayRef;
use vx_base::{Cell, DType, Mask, Scalar, VortexResult};

/// `min_max` of a dictionary. Each value that a code names is weighed once, whatever the number of rows; the rows are decoded only
/// where there are more values than codes.
pub(super) fn dict_extremes(
    alloc: Global,
    array: &ArrayRef,
    codes: &ArrayRef,
    values: &ArrayRef,
) -> VortexResult<Option<(Scalar, Scalar)>>
    requires flat { IsTrue (is_flat (tree_type array.now)) }
    requires dict { array.now ≡ dict codes.now values.now }
    ensures { Answers result (min_max (column_of array.now)) }
{
    array.known();
    let found = used_by(alloc, codes, values.len())?;
    match found {
        Some(used) => named_scalars(alloc, array.dtype(), values, &used.named),
        None => read_extremes(alloc, array),
    }
}

// The least and the greatest valid value whose bit is true, as scalars of a type.
fn named_scalars(
    alloc: Global,
    dtype: &DType,
    values: &ArrayRef,
    named: &Mask,
) -> VortexResult<Option<(Scalar, Scalar)>>
    requires flat { IsTrue (is_flat (tree_type values.now)) }
    requires long { length named.now ≡ length (rows values.now) }
    requires fit { IsTrue (list_all (fits (type_of dtype.now)) (valid_items named.now (rows values.now))) }
    ensures { Answers result (min_max (column (type_of dtype.now) (valid_items named.now (rows values.now)))) }
{
    let read = readable(alloc, values)?;
    let rows = rows_of(&read);
    named_row_scalars(alloc, dtype, rows, named)
}

// `named_scalars` of values that are read where they stand.
fn named_row_scalars(
    alloc: Global,
    dtype: &DType,
    rows: Lent<'_>,
    named: &Mask,
) -> VortexResult<Option<(Scalar, Scalar)>>
    requires whole { IsTrue (is_whole rows) }
    requires long { length named.now ≡ length (lent_rows rows) }
    requires fit { IsTrue (list_all (fits (type_of dtype.now)) (valid_items named.now (lent_rows rows))) }
    ensures { Answers result (min_max (column (type_of dtype.now) (valid_items named.now (lent_rows rows.entry)))) }
{
    match named_extremes(rows, named) {
        Some((least, greatest)) => found_scalars(alloc, dtype, least, greatest),
        None => Ok(None),
    }
}

// The least and the greatest valid row whose bit is true.
fn named_extremes<'a>(rows: Lent<'a>, named: &Mask) -> Option<(Cell<'a>, Cell<'a>)>
    requires whole { IsTrue (is_whole rows) }
    requires long { length named.now ≡ length (lent_rows rows) }
    ensures least { option_map (λ p. cell_value p.0) result ≡ least (valid_values (valid_items named.now (lent_rows rows.entry))) }
    ensures greatest { option_map (λ p. cell_value p.1) result ≡ greatest (valid_values (valid_items named.now (lent_rows rows.entry))) }
{
    let len = rows.len();
    let mut found = None;
    for row in 0..len {
        found = with_value(found, named_cell(rows, named, row));
    }
    found
}

// The value in a row, null where its bit is false.
fn named_cell<'a>(rows: Lent<'a>, named: &Mask, row: u64) -> Cell<'a>
    requires whole { IsTrue (is_whole rows) }
    requires in_range { row < length (lent_rows rows) }
    ensures { cell_value result ≡ cond (slice_index_or named.now row false) (row_at (lent_rows rows.entry) row) null }
{
    if named.is_set(row) {
        rows.cell(row)
    } else {
        Cell::Null
    }
}
