//! The bytes of a value and of the values within.

ghost use Rattle.std.specs.Prelude.{◌≡◌, ◌≤◌, ◌-◌, ◌^◌, min, if◌then◌else◌};
ghost use Rattle.vx_base.specs.Integers.{bytes_of};
ghost use Rattle.vx_base.specs.PlainType.{is_integer, integer_of, of_fields};
ghost use Rattle.vx_base.specs.PlainValue.{items, of_list};
ghost use Rattle.vx_base.specs.TypeOf.{type_of, value_of, fields_of};
ghost use Rattle.vx_model.specs.Size.{payload, fields_payload, items_payload};

use vx_base::{DType, Fields, Value, Values};

/// The payload of a value of a type, in bytes: 0 of null, 1 of a truth value, the type's bytes of an integer, 8 of a
/// timestamp, the length of a text or binary, and the sum over the values within. Saturates at 2^128 - 1.
#[cycle(payload)]
pub fn payload_bytes(dtype: &DType, value: &Value) -> u128
    ensures { result ≡ min (payload (type_of dtype.now) (value_of value.now)) (2 ^ 128 - 1) }
{
    match value {
        Value::Null => 0,
        Value::Bool(_) => 1,
        Value::Int(_) => whole_bytes(dtype),
        Value::Bytes(bytes) => u128::from(bytes.len()),
        Value::List(values) => bytes_within(dtype, values),
    }
}

// The bytes of a whole number: the type's, or 8 of a timestamp.
fn whole_bytes(dtype: &DType) -> u128
    ensures value { result ≡ (if is_integer (type_of dtype.now) then bytes_of (integer_of (type_of dtype.now)) else 8) }
    ensures small { result ≤ 8 }
{
    if dtype.is_integer() {
        u128::from(dtype.ptype().byte_width())
    } else {
        8
    }
}

// The payload of the values within a value.
#[cycle(payload)]
fn bytes_within(dtype: &DType, values: &Values) -> u128
    ensures { result ≡ min (payload (type_of dtype.now) (items (of_list values.now))) (2 ^ 128 - 1) }
{
    match dtype {
        DType::Struct(fields, _) => field_bytes(fields, values),
        DType::List(items, _) | DType::FixedSizeList(items, _, _) => item_bytes(items, values),
        _ => 0,
    }
}

// The payload of a struct's values, each of its field's type.
#[cycle(payload)]
fn field_bytes(fields: &Fields, values: &Values) -> u128
    ensures { result ≡ min (fields_payload (of_fields (fields_of fields.now)) (of_list values.now)) (2 ^ 128 - 1) }
{
    let fields = fields.as_slice();
    let values = values.as_slice();
    let mut sum: u128 = 0;
    for place in 0..fields.len().min(values.len()) {
        sum = sum.saturating_add(payload_bytes(&fields[place].1, &values[place]));
    }
    sum
}

// The payload of a list's items.
#[cycle(payload)]
fn item_bytes(items: &DType, values: &Values) -> u128
    ensures { result ≡ min (items_payload (type_of items.now) (of_list values.now)) (2 ^ 128 - 1) }
{
    let mut sum: u128 = 0;
    for value in values.as_slice() {
        sum = sum.saturating_add(payload_bytes(items, value));
    }
    sum
}
