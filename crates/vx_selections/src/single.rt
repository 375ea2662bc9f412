//! A single row.

ghost use Rattle.std.specs.Prelude.{◌≡◌};
ghost use Rattle.vx_base.specs.Answers.{Decided};
ghost use Rattle.vx_model.specs.Column.{column_of};
ghost use Rattle.vx_rules.specs.Selections.{row_refusal, row_scalar};

use vx_array::ArrayRef;
use vx_base::{ExecutionCtx, Scalar, VortexResult};

/// The value in a row, as a scalar of the tree's type; the other rows aren't decoded. Refuses OutOfBounds where there is no
/// such row.
pub fn scalar_at(array: &ArrayRef, row: u64, ctx: &mut ExecutionCtx) -> VortexResult<Scalar>
    ensures answer { Decided (row_refusal (column_of array.now) row) (λ s. s ≡ row_scalar (column_of array.now) row) result }
    ensures ctx { ctx.new ≡ ctx.old }
{
    array.scalar_at(ctx.alloc(), row)
}
