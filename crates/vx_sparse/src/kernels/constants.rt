//! Whether all rows are equal.

ghost use Rattle.std.specs.List.{list_all};
ghost use Rattle.std.specs.Prelude.{◌≡◌, IsTrue, Ok};
ghost use Rattle.vx_base.specs.Answers.{Answers};
ghost use Rattle.vx_base.specs.CellValue.{cell_value};
ghost use Rattle.vx_base.specs.PlainType.{is_flat};
ghost use Rattle.vx_base.specs.PlainValue.{same_value};
ghost use Rattle.vx_base.specs.TypeOf.{value_of};
ghost use Rattle.vx_model.specs.Column.{column_of};
ghost use Rattle.vx_model.specs.Rows.{rows};
ghost use Rattle.vx_model.specs.Tree.{sparse_of};
ghost use Rattle.vx_model.specs.TreeType.{tree_type};
ghost use Rattle.vx_rules.specs.Aggregates.{all_equal, is_constant};
ghost use Rattle.vx_sparse.specs.Kernels.{row_values};

use crate::kernels::cells::are_same;
use crate::kernels::nulls::unpatched;
use std::alloc::Global;
use vx_array::{ArrayRef, Patches};
use vx_base::{Cell, Scalar, Value, VortexResult};

/// Whether there are rows and all are equal: the patches to each other, and to the fill where a row has no patch. Takes memory for
/// structs and lists alone.
pub(crate) fn is_constant(alloc: Global, patches: &Patches, fill: &Scalar) -> VortexResult<bool>
    requires { tree_type patches.now.values ≡ fill.now.dtype }
    ensures answer { Answers result (is_constant (column_of (sparse_of patches.now fill.now))) }
    ensures flat { IsTrue (is_flat fill.now.dtype) → result ≡ Ok (is_constant (column_of (sparse_of patches.now fill.now))) }
{
    patches.known();
    if fill.dtype().is_flat() {
        return Ok(are_equal_cells(patches, fill));
    }
    are_equal_values(alloc, patches, fill)
}

// Whether all values in the rows of a flat type are equal.
#[tactic(auto, using(crate::proofs::ConstantRows::constants))]
fn are_equal_cells(patches: &Patches, fill: &Scalar) -> bool
    requires typed { tree_type patches.now.values ≡ fill.now.dtype }
    requires flat { IsTrue (is_flat fill.now.dtype) }
    ensures { result ≡ all_equal (row_values patches.now fill.now) }
{
    let values = patches.values();
    if unpatched(patches) > 0 {
        return repeats_cell(values, fill.cell());
    }
    let count = values.len();
    if count == 0 {
        return false;
    }
    repeats_cell(values, values.cell_at(0))
}

// Whether all values in the rows are equal, of any type.
#[tactic(auto, using(crate::proofs::ConstantRows::constants))]
fn are_equal_values(alloc: Global, patches: &Patches, fill: &Scalar) -> VortexResult<bool>
    ensures { Answers result (all_equal (row_values patches.now fill.now)) }
{
    let values = patches.values();
    if unpatched(patches) > 0 {
        return repeats_value(alloc, values, fill.value());
    }
    if values.len() == 0 {
        return Ok(false);
    }
    let first = values.value_at(alloc, 0)?;
    repeats_value(alloc, values, &first)
}

// Whether each row of a flat type equals a cell.
fn repeats_cell(tree: &ArrayRef, wanted: Cell<'_>) -> bool
    requires { IsTrue (is_flat (tree_type tree.now)) }
    ensures { result ≡ list_all (same_value (cell_value wanted.entry)) (rows tree.now) }
{
    for row in 0..tree.len() {
        if !are_same(wanted, tree.cell_at(row)) {
            return false;
        }
    }
    true
}

// Whether each row equals a value.
fn repeats_value(alloc: Global, tree: &ArrayRef, wanted: &Value) -> VortexResult<bool>
    ensures { Answers result (list_all (same_value (value_of wanted.now)) (rows tree.now)) }
{
    for row in 0..tree.len() {
        let value = tree.value_at(alloc, row)?;
        if *wanted != value {
            return Ok(false);
        }
    }
    Ok(true)
}
