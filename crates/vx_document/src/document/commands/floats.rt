//! Whether a value of JSON has a float in it.

ghost use Rattle.std.specs.Prelude.{◌≡◌};
ghost use Rattle.serde_json.specs.View.{view, items_view, members_view};
ghost use Rattle.vx_document.specs.Arguments.{has_float, items_float, members_float};

use serde_json::{Map, Value};

// Whether a float stands somewhere in the value.
#[cycle(floats)]
pub(crate) fn has_float(value: &Value) -> bool
    ensures { result ≡ has_float (view value.now) }
{
    match value {
        Value::Number(number) => number.is_f64(),
        Value::Array(list) => items_float(list.as_slice()),
        Value::Object(members) => members_float(members),
        Value::Null | Value::Bool(_) | Value::String(_) => false,
    }
}

// In one of the items.
#[cycle(floats)]
fn items_float(items: &[Value]) -> bool
    ensures { result ≡ items_float (items_view items.now) }
{
    for item in items {
        if has_float(item) {
            return true;
        }
    }
    false
}

// In a member.
#[cycle(floats)]
fn members_float(members: &Map<String, Value>) -> bool
    ensures { result ≡ members_float (members_view members.now.entries) }
{
    for (_key, member) in members {
        if has_float(member) {
            return true;
        }
    }
    false
}
