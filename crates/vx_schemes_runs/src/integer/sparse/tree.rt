//! The patched values of a column and their rows, and the trees with one value in most rows or in all.

ghost use Rattle.std.specs.Prelude.{◌≡◌, ◌≤◌, IsTrue, length, true, ℤ, Some};
ghost use Rattle.vx_base.specs.Answers.{Answers};
ghost use Rattle.vx_base.specs.Integers.{lies_in};
ghost use Rattle.vx_base.specs.PlainScalar.{fits, scalar};
ghost use Rattle.vx_base.specs.PlainType.{is_integer, integer_of};
ghost use Rattle.vx_base.specs.PlainValue.{cell};
ghost use Rattle.vx_base.specs.TypeOf.{type_of};
ghost use Rattle.vx_sparse_array.specs.Filling.{filling_of, filled_over};
ghost use Rattle.vx_sparse_array.proofs.FillingLemmas.{ArePatches};
ghost use Rattle.vx_model.specs.Column.{column_of};
ghost use Rattle.vx_model.specs.Plain.{IsPlain, plain};
ghost use Rattle.vx_model.specs.Rows.{rows};
ghost use Rattle.vx_model.specs.Tree.{constant};
ghost use Rattle.vx_model.specs.TreeType.{tree_type};
ghost use Rattle.vx_scheme.specs.Asked.{most_rows};
ghost use Rattle.vx_schemes_runs.specs.Sparse.Tree.{sparse_fill, sparse_values, sparse_indices};

use std::alloc::Global;
use vx_array::{ArrayRef, Patches};
use vx_base::{Cell, DType, Scalar, VortexResult};
use vx_schemes_common::narrowed_rising;
use vx_sparse_array::{patched_rows, rows_at};

/// The rows of a plain column that differ from the fill: their values, and their numbers in the narrowest unsigned type.
pub(crate) fn values_and_rows(
    alloc: Global,
    array: &ArrayRef,
    fill: Option<i128>,
) -> VortexResult<(ArrayRef, ArrayRef)>
    requires plain { IsPlain array.now }
    requires integer { IsTrue (is_integer (tree_type array.now)) }
    requires few { length (rows array.now) ≤ most_rows }
    requires fill { fill ≡ sparse_fill (rows array.now) }
    requires held { (z : ℤ) → fill ≡ Some z → IsTrue (lies_in (integer_of (tree_type array.now)) z) }
    ensures { Answers result (plain (sparse_values (column_of array.now)), plain (sparse_indices (column_of array.now))) }
{
    let numbers = patched_rows(alloc, array, fill)?;
    let values = rows_at(alloc, array, numbers.as_slice())?;
    let indices = narrowed_rising(alloc, numbers)?;
    Ok((values, indices))
}

// An integer, or null, as a scalar of a type that it fits.
fn scalar_of(alloc: Global, dtype: &DType, value: Option<i128>) -> VortexResult<Scalar>
    requires { fits (type_of dtype.now) (cell value) ≡ true }
    ensures { Answers result (scalar (type_of dtype.now) (cell value)) }
{
    match value {
        Some(value) => Scalar::of_cell(alloc, dtype, Cell::Int(value)),
        None => Scalar::of_cell(alloc, dtype, Cell::Null),
    }
}

/// A Constant of an integer, or null, with the type and the rows of a column.
pub(crate) fn one_value_tree(
    alloc: Global,
    array: &ArrayRef,
    value: Option<i128>,
) -> VortexResult<ArrayRef>
    requires { fits (tree_type array.now) (cell value) ≡ true }
    ensures { Answers result (constant (scalar (tree_type array.now) (cell value)) (length (rows array.now))) }
{
    let value = scalar_of(alloc, array.dtype(), value)?;
    Ok(ArrayRef::constant(value, array.len()))
}

/// A Sparse of an integer, or null, in every row of a column but the patched ones.
pub(crate) fn sparse_tree(
    alloc: Global,
    array: &ArrayRef,
    fill: Option<i128>,
    indices: ArrayRef,
    values: ArrayRef,
) -> VortexResult<ArrayRef>
    requires fitting { fits (tree_type array.now) (cell fill) ≡ true }
    requires patches { ArePatches (filling_of fill) (column_of array.now) indices values }
    ensures { Answers result (filled_over (filling_of fill) (column_of array.now) indices values) }
{
    let fill = scalar_of(alloc, array.dtype(), fill)?;
    let patches = Patches::of_rising(array.len(), 0, indices, values);
    match ArrayRef::sparse(alloc, patches, fill) {
        Ok(tree) => Ok(tree),
        Err(refused) => Err(refused.error),
    }
}
