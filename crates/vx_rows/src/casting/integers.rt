//! Casts of integers that are read where they stand: a pass that tests all of them, and then one that converts them.

ghost use Rattle.std.specs.List.{list_all};
ghost use Rattle.std.specs.Prelude.{◌≡◌, IsTrue, length, map, true};
ghost use Rattle.vx_base.specs.Answers.{OrMemory};
ghost use Rattle.vx_base.specs.PlainScalar.{fits};
ghost use Rattle.vx_base.specs.PlainType as types;
ghost use Rattle.vx_base.specs.PlainValue.{int};
ghost use Rattle.vx_model.specs.Column.{column, column_of};
ghost use Rattle.vx_model.specs.Refusals.{validity_length};
ghost use Rattle.vx_model.specs.Rows.{valid_rows};
ghost use Rattle.vx_rows.specs.Casting.{IsCast};
ghost use Rattle.vx_values.specs.IntsOf.{wholes_of};

use crate::kernels::{converted, lie_in};
use std::alloc::Global;
use vx_array::ArrayRef;
use vx_base::{Mask, Nullability, PType, VortexError, VortexResult};
use vx_values::{Ints, copy_validity, is_allowed};

// `cast` of integers and their validity.
pub(super) fn cast_rows(
    alloc: Global,
    values: &Ints,
    valid: &Option<Mask>,
    ptype: PType,
    nullability: Nullability,
) -> VortexResult<ArrayRef>
    requires { validity_length valid.now (length (wholes_of values.now)) ≡ true }
    ensures { IsCast (types.primitive ptype nullability) (valid_rows valid.now (map int (wholes_of values.now))) result }
{
    if !are_held(values, valid, ptype, nullability) {
        return Err(VortexError::CastRefused);
    }
    held_rows(alloc, values, valid, ptype, nullability)
}

// Whether each row is one of the new type: a valid one lies in its range, and there is a null only where it is nullable.
fn are_held(values: &Ints, valid: &Option<Mask>, ptype: PType, nullability: Nullability) -> bool
    requires { validity_length valid.now (length (wholes_of values.now)) ≡ true }
    ensures { result ≡ list_all (fits (types.primitive ptype nullability)) (valid_rows valid.now (map int (wholes_of values.now))) }
{
    is_allowed(valid, nullability) && lie_in(values, valid, ptype)
}

// The rows in a type that they are of. What stands beneath a null becomes 0 where the type doesn't hold it.
fn held_rows(
    alloc: Global,
    values: &Ints,
    valid: &Option<Mask>,
    ptype: PType,
    nullability: Nullability,
) -> VortexResult<ArrayRef>
    requires whole { validity_length valid.now (length (wholes_of values.now)) ≡ true }
    requires held { IsTrue (list_all (fits (types.primitive ptype nullability)) (valid_rows valid.now (map int (wholes_of values.now)))) }
    ensures { OrMemory result (λ out. column_of out ≡ column (types.primitive ptype nullability) (valid_rows valid.now (map int (wholes_of values.now)))) }
{
    let items = converted(alloc, values, ptype)?;
    let bits = copy_validity(alloc, valid)?;
    Ok(ArrayRef::primitive_of(items, bits, nullability))
}
