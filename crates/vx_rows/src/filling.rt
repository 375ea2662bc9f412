//! Columns with a value in place of nulls.

ghost use Rattle.std.specs.List.{list_all};
ghost use Rattle.std.specs.Prelude.{◌≡◌, ◌&&◌, IsTrue, None, false, map, not};
ghost use Rattle.vx_base.specs.Answers.{Decided, OrMemory};
ghost use Rattle.vx_base.specs.Defaults.{or_default};
ghost use Rattle.vx_base.specs.PlainScalar.{fits};
ghost use Rattle.vx_base.specs.PlainType.{is_flat, same_base};
ghost use Rattle.vx_base.specs.PlainValue.{is_null};
ghost use Rattle.vx_base.specs.TypeOf.{type_of};
ghost use Rattle.vx_model.specs.Column.{column, column_of};
ghost use Rattle.vx_model.specs.TreeType.{tree_type};
ghost use Rattle.vx_rows.specs.Readable.{is_whole, lent_rows};
ghost use Rattle.vx_rules.specs.Conversions.{fill_null_refusal, null_filled};
ghost use Rattle.vx_values.specs.IntsOf.{ptype_of};
ghost use Rattle.vx_values.specs.ValuesOf.{ints, kind_of};

mod integers;
mod values;

use crate::bases::are_alike;
use crate::held::readable;
use crate::lent::{Lent, rows_of};
use integers::filled_integers;
use std::alloc::Global;
use values::{cells_or, filled_same, values_or};
use vx_array::ArrayRef;
use vx_base::{DType, ExecutionCtx, PType, Scalar, VortexError, VortexResult};
use vx_values::Ints;

/// The fill in place of each null, as a column of the fill's type: a non-nullable fill makes it non-nullable, since no null is left.
/// Refuses MismatchedTypes where the fill is null or not of the column's type, up to outermost nullability.
pub fn fill_null(array: &ArrayRef, fill: &Scalar, ctx: &mut ExecutionCtx) -> VortexResult<ArrayRef>
    ensures answer { Decided (fill_null_refusal (column_of array.now) fill.now) (λ out. column_of out ≡ null_filled (column_of array.now) fill.now) result }
    ensures ctx { ctx.new ≡ ctx.old }
{
    if !is_fill(array.dtype(), fill) {
        return Err(VortexError::MismatchedTypes);
    }
    if array.dtype().is_flat() {
        filled_flat(ctx.alloc(), array, fill)
    } else {
        filled_nested(ctx.alloc(), array, fill)
    }
}

// Whether a scalar is a fill of columns of a type.
fn is_fill(dtype: &DType, fill: &Scalar) -> bool
    ensures { result ≡ (same_base (type_of dtype.now) fill.now.dtype && not (is_null fill.now.value)) }
{
    are_alike(dtype, fill.dtype()) && !fill.is_null()
}

// `fill_null` of a flat type.
fn filled_flat(alloc: Global, array: &ArrayRef, fill: &Scalar) -> VortexResult<ArrayRef>
    requires flat { IsTrue (is_flat (tree_type array.now)) }
    requires accepted { fill_null_refusal (column_of array.now) fill.now ≡ None }
    ensures { OrMemory result (λ out. column_of out ≡ null_filled (column_of array.now) fill.now) }
{
    fill.known();
    let read = readable(alloc, array)?;
    let rows = rows_of(&read);
    filled_rows(alloc, rows, fill)
}

// `fill_null` of rows that are read where they stand.
fn filled_rows(alloc: Global, rows: Lent<'_>, fill: &Scalar) -> VortexResult<ArrayRef>
    requires whole { IsTrue (is_whole rows) }
    requires fit { IsTrue (list_all (fits fill.now.dtype) (map (or_default fill.now.value) (lent_rows rows))) }
    requires value { is_null fill.now.value ≡ false }
    ensures { OrMemory result (λ out. column_of out ≡ column fill.now.dtype (map (or_default fill.now.value) (lent_rows rows.entry))) }
{
    match rows {
        Lent::Ints(values, valid) if holds_type(values, fill.dtype()) => {
            filled_integers(alloc, values, valid, fill)
        }
        Lent::Same(value, len) => filled_same(alloc, value, len, fill),
        _ => filled_cells(alloc, rows, fill),
    }
}

// Whether a flat type's values are integers of this list's type.
fn holds_type(values: &Ints, dtype: &DType) -> bool
    ensures { IsTrue result → kind_of (type_of dtype.now) ≡ ints (ptype_of values.now) }
{
    match dtype {
        DType::Primitive(ptype, _) => *ptype == values.ptype(),
        DType::Timestamp(_, _) => PType::I64 == values.ptype(),
        _ => false,
    }
}

// `fill_null` of other flat rows, cell by cell.
fn filled_cells(alloc: Global, rows: Lent<'_>, fill: &Scalar) -> VortexResult<ArrayRef>
    requires whole { IsTrue (is_whole rows) }
    requires fit { IsTrue (list_all (fits fill.now.dtype) (map (or_default fill.now.value) (lent_rows rows))) }
    ensures { OrMemory result (λ out. column_of out ≡ column fill.now.dtype (map (or_default fill.now.value) (lent_rows rows.entry))) }
{
    let values = cells_or(alloc, rows, fill)?;
    ArrayRef::of_values(alloc, fill.dtype(), values)
}

// `fill_null` of a nested type, value by value of the plain tree.
fn filled_nested(alloc: Global, array: &ArrayRef, fill: &Scalar) -> VortexResult<ArrayRef>
    requires { fill_null_refusal (column_of array.now) fill.now ≡ None }
    ensures { OrMemory result (λ out. column_of out ≡ null_filled (column_of array.now) fill.now) }
{
    array.known();
    fill.known();
    let values = values_or(alloc, array, fill)?;
    ArrayRef::of_values(alloc, fill.dtype(), values)
}
