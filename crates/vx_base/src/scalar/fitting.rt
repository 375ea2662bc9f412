//! Which values are of a type.

ghost use Rattle.std.specs.Prelude.{◌≡◌};
ghost use Rattle.vx_base.specs.PlainScalar.{fits, list_fits, field_list_fits};
ghost use Rattle.vx_base.specs.PlainValue.{has_short, list_has_short};
ghost use Rattle.vx_base.specs.TypeOf.{type_of, value_of, fields_of};

use super::{is_held, is_short, is_text};
use crate::dtype::{DType, Fields};
use crate::ptype::PType;
use crate::value::{Value, Values};

/// Whether each text and binary within, at any depth, has fewer than 2^32 bytes.
#[cycle(short)]
#[tactic(auto, using(crate::proofs::FallLemmas::falls))]
pub(crate) fn has_short(value: &Value) -> bool
    ensures { result ≡ has_short (value_of value.now) }
{
    match value {
        Value::Bytes(bytes) => is_short(bytes.as_slice()),
        Value::List(values) => have_short(values),
        Value::Null | Value::Bool(_) | Value::Int(_) => true,
    }
}

// Whether that holds of each value.
#[cycle(short)]
#[tactic(auto, using(crate::proofs::FallLemmas::falls))]
fn have_short(values: &Values) -> bool
    ensures { result ≡ list_has_short values.now }
{
    for value in values.as_slice() {
        if !has_short(value) {
            return false;
        }
    }
    true
}

/// Whether the value is of the type.
#[cycle(fitting)]
#[tactic(auto, using(crate::proofs::FallLemmas::falls))]
pub(crate) fn fits(dtype: &DType, value: &Value) -> bool
    ensures { result ≡ fits (type_of dtype.now) (value_of value.now) }
{
    match (dtype, value) {
        (_, Value::Null) => dtype.is_nullable(),
        (DType::Bool(_), Value::Bool(_)) => true,
        (DType::Primitive(ptype, _), Value::Int(whole)) => is_held(*whole, *ptype),
        (DType::Timestamp(_, _), Value::Int(whole)) => is_held(*whole, PType::I64),
        (DType::Utf8(_), Value::Bytes(bytes)) => is_short(bytes.as_slice())
            && is_text(bytes.as_slice()),
        (DType::Binary(_), Value::Bytes(bytes)) => is_short(bytes.as_slice()),
        (DType::Struct(fields, _), Value::List(values)) => fields_fit(fields, values),
        (DType::List(items, _), Value::List(values)) => items_fit(items, values),
        (DType::FixedSizeList(items, size, _), Value::List(values)) => {
            values.len() == *size as u64 && items_fit(items, values)
        }
        _ => false,
    }
}

// Whether there is one value per field, each of its field's type.
#[cycle(fitting)]
#[tactic(auto, using(crate::proofs::FallLemmas::falls))]
fn fields_fit(fields: &Fields, values: &Values) -> bool
    ensures { result ≡ field_list_fits (fields_of fields.now) values.now }
{
    let fields = fields.as_slice();
    let values = values.as_slice();
    if fields.len() != values.len() {
        return false;
    }
    for place in 0..values.len() {
        if !fits(&fields[place].1, &values[place]) {
            return false;
        }
    }
    true
}

// Whether each value is of the type.
#[cycle(fitting)]
#[tactic(auto, using(crate::proofs::FallLemmas::falls))]
fn items_fit(items: &DType, values: &Values) -> bool
    ensures { result ≡ list_fits (type_of items.now) values.now }
{
    for value in values.as_slice() {
        if !fits(items, value) {
            return false;
        }
    }
    true
}
