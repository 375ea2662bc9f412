//! Columns with another outermost nullability.

ghost use Rattle.std.specs.List.{list_all};
ghost use Rattle.std.specs.Prelude.{◌≡◌, IsTrue};
ghost use Rattle.vx_base.specs.Answers.{Answers};
ghost use Rattle.vx_base.specs.PlainScalar.{fits};
ghost use Rattle.vx_base.specs.PlainType.{same_base};
ghost use Rattle.vx_base.specs.TypeOf.{type_of};
ghost use Rattle.vx_model.specs.Rows.{rows};
ghost use Rattle.vx_model.specs.TreeType.{tree_type};
ghost use Rattle.vx_rows.specs.Casting.{IsCast};

use super::retyping::retyped;
use crate::counting::nulls_of;
use std::alloc::Global;
use vx_array::ArrayRef;
use vx_base::{DType, VortexError, VortexResult};

// `cast` to a type that differs in outermost nullability alone.
pub(super) fn cast_nullability(
    alloc: Global,
    array: &ArrayRef,
    dtype: &DType,
) -> VortexResult<ArrayRef>
    requires { IsTrue (same_base (tree_type array.now) (type_of dtype.now)) }
    ensures { IsCast (type_of dtype.now) (rows array.now) result }
{
    match are_of(alloc, array, dtype) {
        Ok(held) => retyped_if(alloc, array, dtype, held),
        Err(error) => Err(error),
    }
}

// Whether each row is of such a type: it is nullable, or no row is null.
fn are_of(alloc: Global, array: &ArrayRef, dtype: &DType) -> VortexResult<bool>
    requires { IsTrue (same_base (tree_type array.now) (type_of dtype.now)) }
    ensures { Answers result (list_all (fits (type_of dtype.now)) (rows array.now)) }
{
    array.known();
    if dtype.is_nullable() {
        return Ok(true);
    }
    let nulls = nulls_of(alloc, array)?;
    Ok(nulls == 0)
}

// The rows as a column of a type where they are of it.
fn retyped_if(alloc: Global, array: &ArrayRef, dtype: &DType, held: bool) -> VortexResult<ArrayRef>
    requires { held ≡ list_all (fits (type_of dtype.now)) (rows array.now) }
    ensures { IsCast (type_of dtype.now) (rows array.now) result }
{
    if held {
        retyped(alloc, array, dtype)
    } else {
        Err(VortexError::CastRefused)
    }
}
