//! Casts of one integer in every row.

ghost use Rattle.std.specs.Prelude.{◌≡◌, [], IsTrue, None, Some, if◌then◌else◌, replicate};
ghost use Rattle.vx_base.specs.Answers.{OrMemory};
ghost use Rattle.vx_base.specs.PlainScalar.{fits, scalar};
ghost use Rattle.vx_base.specs.PlainType.{is_integer};
ghost use Rattle.vx_base.specs.PlainType as types;
ghost use Rattle.vx_base.specs.PlainValue.{cell};
ghost use Rattle.vx_model.specs.Column.{column, column_of};
ghost use Rattle.vx_rows.specs.Casting.{IsCast};

use std::alloc::Global;
use vx_array::ArrayRef;
use vx_base::{DType, Nullability, PType, Scalar, VortexError, VortexResult};

// `cast` of one integer or null in every row; of no rows it isn't looked at.
pub(super) fn cast_constant(
    alloc: Global,
    value: &Scalar,
    len: u64,
    ptype: PType,
    nullability: Nullability,
) -> VortexResult<ArrayRef>
    requires { IsTrue (is_integer value.now.dtype) }
    ensures { IsCast (types.primitive ptype nullability) (replicate len value.now.value) result }
{
    if len == 0 {
        return no_rows(alloc, ptype, nullability);
    }
    match typed_scalar(value.integer(), ptype, nullability) {
        Some(scalar) => Ok(ArrayRef::constant(scalar, len)),
        None => Err(VortexError::CastRefused),
    }
}

// An integer or null as a scalar of a type, None where it isn't one of the type.
fn typed_scalar(value: Option<i128>, ptype: PType, nullability: Nullability) -> Option<Scalar>
    ensures { result ≡ (if fits (types.primitive ptype nullability) (cell value) then Some (scalar (types.primitive ptype nullability) (cell value)) else None) }
{
    match value {
        Some(whole) => Scalar::primitive(whole, ptype, nullability).ok(),
        None => Scalar::null(DType::primitive(ptype, nullability)).ok(),
    }
}

// A column of integers without rows.
fn no_rows(alloc: Global, ptype: PType, nullability: Nullability) -> VortexResult<ArrayRef>
    ensures { OrMemory result (λ out. column_of out ≡ column (types.primitive ptype nullability) []) }
{
    let values = Vec::new(alloc);
    ArrayRef::of_values(alloc, &DType::primitive(ptype, nullability), values)
}
