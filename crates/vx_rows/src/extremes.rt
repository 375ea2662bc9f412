//! The least and the greatest value of a column.

ghost use Rattle.std.specs.List.{list_all};
ghost use Rattle.std.specs.Ordering.{ord_max, ord_min};
ghost use Rattle.std.specs.Prelude.{◌≡◌, IsTrue, option_map, Some};
ghost use Rattle.vx_base.specs.Answers.{Answers, Decided};
ghost use Rattle.vx_base.specs.CellValue.{cell_value};
ghost use Rattle.vx_base.specs.PlainScalar.{fits, scalar};
ghost use Rattle.vx_base.specs.PlainType.{is_flat};
ghost use Rattle.vx_base.specs.TypeOf.{type_of};
ghost use Rattle.vx_model.specs.Column.{column, column_of};
ghost use Rattle.vx_model.specs.TreeType.{tree_type};
ghost use Rattle.vx_rows.specs.Extremes.{next_valid};
ghost use Rattle.vx_rows.specs.Readable.{is_whole, lent_rows};
ghost use Rattle.vx_rules.specs.Aggregates.{greatest, least, min_max, min_max_refusal, valid_values};
ghost use Rattle.vx_rules.specs.ValueOrder.{value_cmp};

mod integers;
mod named;

use crate::held::readable;
use crate::lent::{Lent, rows_of};
use crate::ordering::value_cmp;
use integers::integer_extremes;
use named::dict_extremes;
use std::alloc::Global;
use vx_array::{ArrayRef, Node};
use vx_base::{Cell, DType, ExecutionCtx, Scalar, VortexError, VortexResult};

/// The least and the greatest valid value, None without one: false below true, integers and timestamps as numbers, texts and binaries
/// by their bytes. Of a dictionary the values that its codes name are weighed. Refuses MismatchedTypes unless the type is flat.
pub fn min_max(array: &ArrayRef, ctx: &mut ExecutionCtx) -> VortexResult<Option<(Scalar, Scalar)>>
    ensures answer { Decided (min_max_refusal (column_of array.now)) (λ out. out ≡ min_max (column_of array.now)) result }
    ensures ctx { ctx.new ≡ ctx.old }
{
    if !array.dtype().is_flat() {
        return Err(VortexError::MismatchedTypes);
    }
    flat_extremes(ctx.alloc(), array)
}

// `min_max` of a flat type.
fn flat_extremes(alloc: Global, array: &ArrayRef) -> VortexResult<Option<(Scalar, Scalar)>>
    requires { IsTrue (is_flat (tree_type array.now)) }
    ensures { Answers result (min_max (column_of array.now)) }
{
    match array.node() {
        Node::Dict(codes, values) => dict_extremes(alloc, array, &codes.array, &values.array),
        _ => read_extremes(alloc, array),
    }
}

// `min_max` of a flat type, row by row.
fn read_extremes(alloc: Global, array: &ArrayRef) -> VortexResult<Option<(Scalar, Scalar)>>
    requires { IsTrue (is_flat (tree_type array.now)) }
    ensures { Answers result (min_max (column_of array.now)) }
{
    let dtype = array.dtype();
    let read = readable(alloc, array)?;
    let rows = rows_of(&read);
    scalars(alloc, dtype, rows)
}

// The least and the greatest valid row as scalars of a type.
fn scalars(alloc: Global, dtype: &DType, rows: Lent<'_>) -> VortexResult<Option<(Scalar, Scalar)>>
    requires whole { IsTrue (is_whole rows) }
    requires fit { IsTrue (list_all (fits (type_of dtype.now)) (lent_rows rows)) }
    ensures { Answers result (min_max (column (type_of dtype.now) (lent_rows rows.entry))) }
{
    match row_extremes(rows) {
        Some((least, greatest)) => found_scalars(alloc, dtype, least, greatest),
        None => Ok(None),
    }
}

// Two values of a type as scalars.
fn found_scalars(
    alloc: Global,
    dtype: &DType,
    least: Cell<'_>,
    greatest: Cell<'_>,
) -> VortexResult<Option<(Scalar, Scalar)>>
    requires least { IsTrue (fits (type_of dtype.now) (cell_value least)) }
    requires greatest { IsTrue (fits (type_of dtype.now) (cell_value greatest)) }
    ensures { Answers result (Some (scalar (type_of dtype.now) (cell_value least.entry), scalar (type_of dtype.now) (cell_value greatest.entry))) }
{
    let first = Scalar::of_cell(alloc, dtype, least)?;
    let second = Scalar::of_cell(alloc, dtype, greatest)?;
    Ok(Some((first, second)))
}

// The least and the greatest valid row. Of a constant it is its value.
#[tactic(auto, using(crate::proofs::ExtremeLemmas::same_extremes))]
fn row_extremes(rows: Lent<'_>) -> Option<(Cell<'_>, Cell<'_>)>
    requires { IsTrue (is_whole rows) }
    ensures least { option_map (λ p. cell_value p.0) result ≡ least (valid_values (lent_rows rows.entry)) }
    ensures greatest { option_map (λ p. cell_value p.1) result ≡ greatest (valid_values (lent_rows rows.entry)) }
{
    match rows {
        Lent::Ints(values, valid) => integer_extremes(values, valid),
        Lent::Same(value, len) if len == 0 || value.is_null() => None,
        Lent::Same(value, _) => Some((value, value)),
        _ => cell_extremes(rows),
    }
}

// The least and the greatest valid row, cell by cell.
fn cell_extremes(rows: Lent<'_>) -> Option<(Cell<'_>, Cell<'_>)>
    requires { IsTrue (is_whole rows) }
    ensures least { option_map (λ p. cell_value p.0) result ≡ least (valid_values (lent_rows rows.entry)) }
    ensures greatest { option_map (λ p. cell_value p.1) result ≡ greatest (valid_values (lent_rows rows.entry)) }
{
    let len = rows.len();
    let mut found = None;
    for row in 0..len {
        found = with_value(found, rows.cell(row));
    }
    found
}

// The least and the greatest of a value and of what was found before; null changes nothing.
fn with_value<'a>(
    found: Option<(Cell<'a>, Cell<'a>)>,
    value: Cell<'a>,
) -> Option<(Cell<'a>, Cell<'a>)>
    ensures least { option_map (λ p. cell_value p.0) result ≡ next_valid (ord_min value_cmp) (option_map (λ p. cell_value p.0) found.entry) (cell_value value.entry) }
    ensures greatest { option_map (λ p. cell_value p.1) result ≡ next_valid (ord_max value_cmp) (option_map (λ p. cell_value p.1) found.entry) (cell_value value.entry) }
{
    if value.is_null() {
        return found;
    }
    match found {
        Some((least, greatest)) => Some((lesser(least, value), greater(greatest, value))),
        None => Some((value, value)),
    }
}

// The lesser of two values.
fn lesser<'a>(left: Cell<'a>, right: Cell<'a>) -> Cell<'a>
    ensures { cell_value result ≡ ord_min value_cmp (cell_value left.entry) (cell_value right.entry) }
{
    if value_cmp(right, left).is_lt() {
        right
    } else {
        left
    }
}

// The greater of two values.
fn greater<'a>(left: Cell<'a>, right: Cell<'a>) -> Cell<'a>
    ensures { cell_value result ≡ ord_max value_cmp (cell_value left.entry) (cell_value right.entry) }
{
    if value_cmp(right, left).is_lt() {
        left
    } else {
        right
    }
}
