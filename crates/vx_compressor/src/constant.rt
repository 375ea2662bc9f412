//! Constants: columns of nulls alone, and columns whose valid rows are all equal.

ghost use Rattle.std.specs.Prelude.{◌≡◌, ◌<◌, ◌≢◌, None, Some, length, true};
ghost use Rattle.vx_base.specs.Answers.{Answers};
ghost use Rattle.vx_base.specs.PlainScalar.{scalar};
ghost use Rattle.vx_base.specs.PlainType.{is_flat};
ghost use Rattle.vx_base.specs.PlainValue.{null};
ghost use Rattle.vx_model.specs.Column.{column_of};
ghost use Rattle.vx_model.specs.Leaf.{first_valid, one_value_tree};
ghost use Rattle.vx_model.specs.Plain.{IsPlain};
ghost use Rattle.vx_model.specs.Rows.{rows, row_at};
ghost use Rattle.vx_model.specs.Tree.{constant};
ghost use Rattle.vx_model.specs.TreeType.{tree_type};
ghost use Rattle.vx_compressor.specs.Behind.{behind, behind_refusal};
ghost use Rattle.vx_compressor.specs.Shared.{IsShared};

use std::alloc::Global;
use vx_array::ArrayRef;
use vx_base::{Mask, Scalar, VortexResult};

/// What the valid rows of a column share.
#[derive(Clone, Copy, Debug)]
pub enum Shared {
    /// There is no valid row.
    Nothing,
    /// Every valid row has the value of this row, the first valid one.
    One(u64),
    /// Two valid rows differ.
    Many,
}

/// Whether the valid rows of a plain tree share one value, and the first row that has it.
pub(crate) fn shared_of(plain: &ArrayRef) -> Shared
    requires flat { is_flat (tree_type plain.now) ≡ true }
    requires plain { IsPlain plain.now }
    ensures { IsShared (rows plain.now) result }
{
    let Some(row) = plain.first_valid() else {
        return Shared::Nothing;
    };
    if plain.repeats(row) {
        Shared::One(row)
    } else {
        Shared::Many
    }
}

/// The constant null of a column that has rows, all of them null.
pub(crate) fn null_tree(alloc: Global, plain: &ArrayRef) -> VortexResult<ArrayRef>
    requires rows { length (rows plain.now) ≢ 0 }
    requires nulls { first_valid (rows plain.now) ≡ None }
    ensures { Answers result (constant (scalar (tree_type plain.now) null) (length (rows plain.now))) }
{
    plain.known();
    let dtype = plain.dtype().copy(alloc)?;
    match Scalar::null(dtype) {
        Ok(value) => Ok(ArrayRef::constant(value, plain.len())),
        Err(_) => unreachable!(),
    }
}

/// The constant of the first valid row's value, under a mask where some row is null.
pub(crate) fn value_tree(alloc: Global, plain: &ArrayRef, row: u64) -> VortexResult<ArrayRef>
    requires flat { is_flat (tree_type plain.now) ≡ true }
    requires plain { IsPlain plain.now }
    requires in_range { row < length (rows plain.now) }
    requires first { first_valid (rows plain.now) ≡ Some (row_at (rows plain.now) row) }
    ensures { Answers result (one_value_tree (column_of plain.now) (row_at (rows plain.now) row)) }
{
    plain.known();
    let value = Scalar::of_cell(alloc, plain.dtype(), plain.cell_at(row))?;
    let every = ArrayRef::constant(value, plain.len());
    behind(alloc, every, plain.validity())
}

// The child under a mask, or alone where every row is valid.
fn behind(alloc: Global, child: ArrayRef, valid: &Option<Mask>) -> VortexResult<ArrayRef>
    requires { behind_refusal valid.now child ≡ None }
    ensures { Answers result (behind valid.now child) }
{
    let Some(bits) = valid else {
        return Ok(child);
    };
    match ArrayRef::masked(alloc, child, bits.copy(alloc)?) {
        Ok(tree) => Ok(tree),
        Err(refused) => Err(refused.error),
    }
}
