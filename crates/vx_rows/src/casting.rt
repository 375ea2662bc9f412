//! Casts between integer types, and of outermost nullability.

ghost use Rattle.std.specs.Prelude.{◌≡◌, ◌&&◌, ◌||◌, IsTrue, length, map, true};
ghost use Rattle.vx_base.specs.Casts.{is_cast};
ghost use Rattle.vx_base.specs.PlainType.{is_integer};
ghost use Rattle.vx_base.specs.PlainType as types;
ghost use Rattle.vx_base.specs.PlainValue.{int};
ghost use Rattle.vx_base.specs.TypeOf.{type_of};
ghost use Rattle.vx_model.specs.Column.{column_of};
ghost use Rattle.vx_model.specs.Plain.{IsPlain};
ghost use Rattle.vx_model.specs.Rows.{rows};
ghost use Rattle.vx_model.specs.TreeType.{tree_type};
ghost use Rattle.vx_rows.specs.Casting.{IsCast};
ghost use Rattle.vx_rules.specs.Conversions.{cast_refusal, casted};
ghost use Rattle.vx_rules.specs.Outcomes.{Follows, outcome};

mod constants;
mod integers;
mod nullability;
mod retyping;

use crate::bases::are_alike;
use constants::cast_constant;
use integers::cast_rows;
use nullability::cast_nullability;
use std::alloc::Global;
use vx_array::{ArrayRef, Node};
use vx_base::{DType, ExecutionCtx, Nullability, PType, VortexError, VortexResult};

/// The same values in another type: of integers any integer type, of others one that differs in outermost nullability alone.
///
/// Refuses MismatchedTypes for any other pair of types, then CastRefused where a value is out of the new type's range, or null and
/// the new type isn't nullable. That is found only when the rows are decoded, so NoMemory may come in its place.
pub fn cast(array: &ArrayRef, dtype: &DType, ctx: &mut ExecutionCtx) -> VortexResult<ArrayRef>
    ensures answer { Follows (outcome (cast_refusal (column_of array.now) (type_of dtype.now)) (casted (column_of array.now) (type_of dtype.now))) (λ out column. column_of out ≡ column) result }
    ensures ctx { ctx.new ≡ ctx.old }
{
    if !is_cast(array.dtype(), dtype) {
        return Err(VortexError::MismatchedTypes);
    }
    cast_by_type(ctx.alloc(), array, dtype)
}

// Whether there is a cast between the types.
fn is_cast(from: &DType, to: &DType) -> bool
    ensures { result ≡ is_cast (type_of from.now) (type_of to.now) }
{
    are_integers(from, to) || are_alike(from, to)
}

// Whether both types are of integers.
fn are_integers(left: &DType, right: &DType) -> bool
    ensures { result ≡ (is_integer (type_of left.now) && is_integer (type_of right.now)) }
{
    left.is_integer() && right.is_integer()
}

// `cast` between types that are cast.
fn cast_by_type(alloc: Global, array: &ArrayRef, dtype: &DType) -> VortexResult<ArrayRef>
    requires { IsTrue (is_cast (tree_type array.now) (type_of dtype.now)) }
    ensures { IsCast (type_of dtype.now) (rows array.now) result }
{
    if are_integers(array.dtype(), dtype) {
        cast_integers(alloc, array, dtype.ptype(), dtype.nullability())
    } else {
        cast_nullability(alloc, array, dtype)
    }
}

// `cast` of integers to another integer type.
#[tactic(auto, using(crate::proofs::HeldLemmas::whole_roots))]
fn cast_integers(
    alloc: Global,
    array: &ArrayRef,
    ptype: PType,
    nullability: Nullability,
) -> VortexResult<ArrayRef>
    requires { IsTrue (is_integer (tree_type array.now)) }
    ensures { IsCast (types.primitive ptype nullability) (rows array.now) result }
{
    match array.node() {
        Node::Primitive(values, valid, _) => cast_rows(alloc, values, valid, ptype, nullability),
        Node::Constant(value, len) => cast_constant(alloc, value, *len, ptype, nullability),
        _ => cast_encoded(alloc, array, ptype, nullability),
    }
}

// `cast` of integers that are decoded first.
fn cast_encoded(
    alloc: Global,
    array: &ArrayRef,
    ptype: PType,
    nullability: Nullability,
) -> VortexResult<ArrayRef>
    requires { IsTrue (is_integer (tree_type array.now)) }
    ensures { IsCast (types.primitive ptype nullability) (rows array.now) result }
{
    match array.canonical(alloc) {
        Ok(plain) => cast_plain(alloc, &plain, ptype, nullability),
        Err(error) => Err(error),
    }
}

// `cast` of a plain tree of integers.
fn cast_plain(
    alloc: Global,
    plain: &ArrayRef,
    ptype: PType,
    nullability: Nullability,
) -> VortexResult<ArrayRef>
    requires integer { IsTrue (is_integer (tree_type plain.now)) }
    requires plain { IsPlain plain.now }
    ensures { IsCast (types.primitive ptype nullability) (rows plain.now) result }
{
    let (values, valid, _) = plain.as_primitive();
    cast_rows(alloc, values, valid, ptype, nullability)
}
