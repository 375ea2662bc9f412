//! Judgements of cells, which kernels with a count share.

ghost use Rattle.std.specs.Prelude.{◌≡◌, ◌+◌, ◌&&◌, true};
ghost use Rattle.vx_base.specs.Answers.{Answers};
ghost use Rattle.vx_base.specs.CellValue.{cell_value};
ghost use Rattle.vx_base.specs.PlainScalar.{fits, scalar};
ghost use Rattle.vx_base.specs.PlainType as types;
ghost use Rattle.vx_base.specs.PlainType.{is_flat, same_base};
ghost use Rattle.vx_base.specs.TypeOf.{type_of, value_of};
ghost use Rattle.vx_rules.specs.Comparisons.{compared, truths_of};

use crate::kernels::cells::cell_cmp;
use std::sync::ledger::Ledger;
use vx_base::{Cell, DType, Nullability, Scalar, Steps, Value, VortexResult};
use vx_rules::CompareOperator;

/// Whether two types are one flat type, up to nullability.
pub(crate) fn are_comparable(left: &DType, right: &DType) -> bool
    ensures { result ≡ (is_flat (type_of left.now) && same_base (type_of left.now) (type_of right.now)) }
{
    left.is_flat() && left.same_base(right)
}

/// The nullability of a comparison of two scalars: nullable where either is.
pub(crate) fn truth_nullability(left: &Scalar, right: &Scalar) -> Nullability
    ensures { types.boolean result ≡ truths_of left.now.dtype right.now.dtype }
{
    left.dtype().nullability().or(right.dtype().nullability())
}

/// Whether the operator holds between two cells, null where either is. One step.
pub(crate) fn judged<L: Ledger>(
    left: Cell<'_>,
    right: Cell<'_>,
    operator: CompareOperator,
    steps: &mut Steps<L>,
) -> Value
    ensures value { value_of result ≡ compared operator (cell_value left.entry) (cell_value right.entry) }
    ensures step { steps.new ≡ steps.old + 1 }
{
    steps.tick();
    if left.is_null() || right.is_null() {
        return Value::Null;
    }
    Value::Bool(operator.holds(cell_cmp(left, right)))
}

/// A truth value or null as a scalar.
pub(crate) fn truth_scalar(nullability: Nullability, value: Value) -> VortexResult<Scalar>
    requires { fits (types.boolean nullability) (value_of value) ≡ true }
    ensures { Answers result (scalar (types.boolean nullability) (value_of value)) }
{
    match Scalar::new(DType::Bool(nullability), value) {
        Ok(scalar) => Ok(scalar),
        Err(refused) => Err(refused.error),
    }
}
