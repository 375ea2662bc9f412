//! Flat lists out of values.

ghost use Rattle.std.specs.List.{list_all, list_any};
ghost use Rattle.std.specs.Prelude.{◌≡◌, IsTrue, map};
ghost use Rattle.vx_base.specs.Answers.{Answers, OrMemory};
ghost use Rattle.vx_base.specs.Integers.{lies_in};
ghost use Rattle.vx_base.specs.PlainType as types;
ghost use Rattle.vx_base.specs.PlainValue.{is_null, truth_or_false, whole_or_zero, bytes_or_empty};
ghost use Rattle.vx_base.specs.TypeOf.{value_of};
ghost use Rattle.vx_model.specs.Plain.{validity};
ghost use Rattle.vx_values.specs.IntsOf.{ptype_of, wholes_of};

use std::alloc::Global;
use vx_base::{ByteRows, IntList, Integer, Mask, PType, Value, VortexResult};
use vx_values::Ints;

/// The validity of values: bits exactly where some value is null.
pub fn validity_of(alloc: Global, values: &[Value]) -> VortexResult<Option<Mask>>
    ensures { Answers result (validity (map value_of values.now)) }
{
    if !has_null(values) {
        return Ok(None);
    }
    let mut bits = Vec::with_capacity(alloc, values.len())?;
    for value in values {
        bits.push(!is_null(value))?;
    }
    Ok(Some(Mask::from_bits(bits)))
}

/// Whether some value is null.
pub fn has_null(values: &[Value]) -> bool
    ensures { result ≡ list_any is_null (map value_of values.now) }
{
    for value in values {
        if is_null(value) {
            return true;
        }
    }
    false
}

/// Whether a value is null.
pub fn is_null(value: &Value) -> bool
    ensures { result ≡ is_null (value_of value.now) }
{
    matches!(value, Value::Null)
}

/// The truth value of each value, false of null.
pub fn truths(alloc: Global, values: &[Value]) -> VortexResult<Mask>
    ensures { Answers result (map truth_or_false (map value_of values.now)) }
{
    let mut bits = Vec::with_capacity(alloc, values.len())?;
    for value in values {
        bits.push(matches!(value, Value::Bool(true)))?;
    }
    Ok(Mask::from_bits(bits))
}

/// The whole number of each value, 0 of null, in an integer type that holds them all.
pub fn wholes(alloc: Global, values: &[Value], ptype: PType) -> VortexResult<Ints>
    requires { IsTrue (list_all (lies_in ptype) (map whole_or_zero (map value_of values.now))) }
    ensures { OrMemory result (λ ints. (ptype_of ints ≡ ptype) × (wholes_of ints ≡ map whole_or_zero (map value_of values.now))) }
{
    match ptype {
        PType::U8 => Ok(Ints::U8(integers(alloc, values)?)),
        PType::U16 => Ok(Ints::U16(integers(alloc, values)?)),
        PType::U32 => Ok(Ints::U32(integers(alloc, values)?)),
        PType::U64 => Ok(Ints::U64(integers(alloc, values)?)),
        PType::I8 => Ok(Ints::I8(integers(alloc, values)?)),
        PType::I16 => Ok(Ints::I16(integers(alloc, values)?)),
        PType::I32 => Ok(Ints::I32(integers(alloc, values)?)),
        PType::I64 => Ok(Ints::I64(integers(alloc, values)?)),
    }
}

// `wholes` of one integer type.
#[tactic(auto, using(crate::proofs::ValueLemmas::held))]
fn integers<T: Integer>(alloc: Global, values: &[Value]) -> VortexResult<IntList<T>>
    requires { IsTrue (list_all (lies_in T.kind) (map whole_or_zero (map value_of values.now))) }
    ensures { OrMemory result (λ list. map T.whole list ≡ map whole_or_zero (map value_of values.now)) }
{
    let mut list = Vec::with_capacity(alloc, values.len())?;
    for value in values {
        list.push(integer::<T>(value))?;
    }
    Ok(IntList::from_vec(list))
}

fn integer<T: Integer>(value: &Value) -> T
    requires { IsTrue (lies_in T.kind (whole_or_zero (value_of value.now))) }
    ensures { T.whole result ≡ whole_or_zero (value_of value.now) }
{
    let Some(item) = T::from_whole(whole(value)) else {
        unreachable!();
    };
    item
}

fn whole(value: &Value) -> i128
    ensures { result ≡ whole_or_zero (value_of value.now) }
{
    match value {
        Value::Int(whole) => *whole,
        _ => 0,
    }
}

/// The bytes of each value, none of null. They are moved; NoMemory drops them.
pub fn byte_rows(alloc: Global, values: Vec<Value>) -> VortexResult<ByteRows>
    ensures { Answers result (map bytes_or_empty (map value_of values.items)) }
{
    let mut rows = Vec::with_capacity(alloc, values.len())?;
    for value in values {
        rows.push(value.into_bytes(alloc))?;
    }
    Ok(ByteRows::from_vec(rows))
}
