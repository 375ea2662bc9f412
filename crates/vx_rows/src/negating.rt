//! Truth values negated.

ghost use Rattle.std.specs.Prelude.{◌≡◌, IsTrue, length, map, not, true};
ghost use Rattle.vx_base.specs.Answers.{Answers, Decided, OrMemory};
ghost use Rattle.vx_base.specs.CellValue.{cell_value};
ghost use Rattle.vx_base.specs.PlainValue.{truth};
ghost use Rattle.vx_base.specs.TypeOf.{type_of};
ghost use Rattle.vx_model.specs.Column.{column_of};
ghost use Rattle.vx_model.specs.Refusals.{validity_length};
ghost use Rattle.vx_model.specs.Rows.{valid_rows};
ghost use Rattle.vx_model.specs.TreeType.{tree_type};
ghost use Rattle.vx_rows.specs.Readable.{is_whole, lent_rows};
ghost use Rattle.vx_rows.specs.Truths.{truth_or_null};
ghost use Rattle.vx_rules.specs.Comparisons.{is_boolean, negated, negation, not_refusal};

use crate::held::readable;
use crate::lent::{Lent, rows_of};
use crate::truths::{Truths, TruthsBuilder};
use std::alloc::Global;
use vx_array::ArrayRef;
use vx_base::{Cell, DType, ExecutionCtx, Mask, VortexError, VortexResult};
use vx_values::copy_validity;

/// Each truth value negated; null stays null. Refuses MismatchedTypes unless the column is of truth values.
pub fn not(array: &ArrayRef, ctx: &mut ExecutionCtx) -> VortexResult<ArrayRef>
    ensures answer { Decided (not_refusal (column_of array.now)) (λ out. column_of out ≡ negation (column_of array.now)) result }
    ensures ctx { ctx.new ≡ ctx.old }
{
    if !is_boolean(array.dtype()) {
        return Err(VortexError::MismatchedTypes);
    }
    negated_tree(ctx.alloc(), array)
}

// Whether the values of a type are truth values.
fn is_boolean(dtype: &DType) -> bool
    ensures { result ≡ is_boolean (type_of dtype.now) }
{
    matches!(dtype, DType::Bool(_))
}

// `not` of truth values.
fn negated_tree(alloc: Global, array: &ArrayRef) -> VortexResult<ArrayRef>
    requires { IsTrue (is_boolean (tree_type array.now)) }
    ensures { OrMemory result (λ out. column_of out ≡ negation (column_of array.now)) }
{
    let read = readable(alloc, array)?;
    let rows = rows_of(&read);
    let truths = negated_rows(alloc, rows)?;
    let nullability = array.dtype().nullability();
    Ok(truths.into_tree(nullability))
}

// The rows negated: bits as they stand, and a constant value by value.
fn negated_rows(alloc: Global, rows: Lent<'_>) -> VortexResult<Truths>
    requires { IsTrue (is_whole rows) }
    ensures { Answers result (map negated (lent_rows rows.entry)) }
{
    match rows {
        Lent::Bits(values, valid) => negated_bits(alloc, values, valid),
        _ => negated_cells(alloc, rows),
    }
}

// Truth values negated, with their validity.
fn negated_bits(alloc: Global, values: &Mask, valid: &Option<Mask>) -> VortexResult<Truths>
    requires { validity_length valid.now (length values.now) ≡ true }
    ensures { Answers result (map negated (valid_rows valid.now (map truth values.now))) }
{
    let bits = flipped(alloc, values)?;
    let valid = copy_validity(alloc, valid)?;
    Ok(Truths::new(bits, valid))
}

// `negated_rows`, value by value.
fn negated_cells(alloc: Global, rows: Lent<'_>) -> VortexResult<Truths>
    requires { IsTrue (is_whole rows) }
    ensures { Answers result (map negated (lent_rows rows.entry)) }
{
    let mut truths = TruthsBuilder::nulls(alloc, rows.len())?;
    for row in 0..rows.len() {
        truths.set(row, negated(rows.cell(row)));
    }
    Ok(truths.finish())
}

// A truth value negated, None of null.
fn negated(cell: Cell<'_>) -> Option<bool>
    ensures { truth_or_null result ≡ negated (cell_value cell.entry) }
{
    if cell.is_null() {
        None
    } else {
        Some(!cell.truth())
    }
}

// Each bit negated.
fn flipped(alloc: Global, values: &Mask) -> VortexResult<Mask>
    ensures { Answers result (map not values.now) }
{
    let mut bits = vec![in alloc; false; values.len() as usize]?;
    write_flipped(values.as_slice(), bits.as_mut_slice());
    Ok(Mask::from_bits(bits))
}

// Writes each bit negated.
fn write_flipped(values: &[bool], bits: &mut [bool])
    requires { length bits.old ≡ length values.now }
    ensures { bits.new ≡ map not values.now }
{
    for row in 0..values.len() {
        bits[row] = !values[row];
    }
}
