//! Values of scalars as text.

ghost use Rattle.std.specs.Prelude.{◌≡◌, ◌++◌, string_bytes, IsUtf8, IsTrue};
ghost use Rattle.json.specs.Print.{quoted};
ghost use Rattle.vx_base.specs.Answers.{Answers, OrMemory};
ghost use Rattle.vx_base.specs.PlainScalar.{fits, list_fits, field_list_fits};
ghost use Rattle.vx_base.specs.TypeOf.{type_of, value_of, fields_of};
ghost use Rattle.vx_base.specs.TypeText.{value_text, list_text, field_list_text};

use super::Scalar;
use crate::dtype::{DType, Fields};
use crate::error::VortexResult;
use crate::text::Text;
use crate::value::{Value, Values};
use serde_json::Value as Json;
use std::alloc::Global;

impl Scalar {
    /// The value as compact JSON: a text as a string, a binary as the string of its lower-case hex digits, a struct as the
    /// array of its field values.
    pub fn json(&self, alloc: Global) -> VortexResult<Text>
        ensures { Answers result (value_text self.now.dtype self.now.value) }
    {
        let mut text = String::new(alloc);
        write_value(alloc, &mut text, &self.dtype, &self.value)?;
        Ok(Text::from_string(text))
    }
}

// Appends the value's JSON.
#[cycle(write)]
#[tactic(auto, using(crate::proofs::FallLemmas::falls))]
fn write_value(alloc: Global, text: &mut String, dtype: &DType, value: &Value) -> VortexResult<()>
    requires fitting { IsTrue (fits (type_of dtype.now) (value_of value.now)) }
    ensures { OrMemory result (λ _. string_bytes text.new ≡ string_bytes text.old ++ value_text (type_of dtype.now) (value_of value.now)) }
{
    match (value, dtype) {
        (Value::Null, _) => Ok(text.push_str("null")?),
        (Value::Bool(true), _) => Ok(text.push_str("true")?),
        (Value::Bool(false), _) => Ok(text.push_str("false")?),
        (Value::Int(whole), _) => {
            let digits = format!(in alloc; "{whole}")?;
            Ok(text.push_str(digits.as_str())?)
        }
        (Value::Bytes(bytes), DType::Utf8(_)) => {
            let inside = text_of(alloc, bytes.as_slice())?;
            write_quoted(alloc, text, inside)
        }
        (Value::Bytes(bytes), _) => {
            let digits = hex::encode(alloc, bytes.as_slice())?;
            write_quoted(alloc, text, digits)
        }
        (Value::List(values), DType::Struct(fields, _)) => write_fields(
            alloc, text, fields, values,
        ),
        (Value::List(values), DType::List(items, _)) => write_items(alloc, text, items, values),
        (Value::List(values), DType::FixedSizeList(items, _, _)) => {
            write_items(alloc, text, items, values)
        }
        (Value::List(_), _) => unreachable!(),
    }
}

// Appends a struct: the array of its field values, each by its field's type.
#[cycle(write)]
#[tactic(auto, using(crate::proofs::FallLemmas::falls))]
fn write_fields(
    alloc: Global,
    text: &mut String,
    fields: &Fields,
    values: &Values,
) -> VortexResult<()>
    requires fitting { IsTrue (field_list_fits (fields_of fields.now) values.now) }
    ensures { OrMemory result (λ _. string_bytes text.new ≡ string_bytes text.old ++ field_list_text (fields_of fields.now) values.now) }
{
    let fields = fields.as_slice();
    let values = values.as_slice();
    text.push_str("[")?;
    let mut before = "";
    for place in 0..values.len() {
        text.push_str(before)?;
        write_value(alloc, text, &fields[place].1, &values[place])?;
        before = ",";
    }
    text.push_str("]")?;
    Ok(())
}

// Appends an array of values of one type.
#[cycle(write)]
#[tactic(auto, using(crate::proofs::FallLemmas::falls))]
fn write_items(alloc: Global, text: &mut String, items: &DType, values: &Values) -> VortexResult<()>
    requires fitting { IsTrue (list_fits (type_of items.now) values.now) }
    ensures { OrMemory result (λ _. string_bytes text.new ≡ string_bytes text.old ++ list_text (type_of items.now) values.now) }
{
    text.push_str("[")?;
    let mut before = "";
    for value in values.as_slice() {
        text.push_str(before)?;
        write_value(alloc, text, items, value)?;
        before = ",";
    }
    text.push_str("]")?;
    Ok(())
}

// The text of bytes that are valid UTF-8.
fn text_of(alloc: Global, bytes: &[u8]) -> VortexResult<String>
    requires { IsUtf8 bytes.now }
    ensures { OrMemory result (λ text. string_bytes text ≡ bytes.now) }
{
    match std::str::from_utf8(bytes) {
        Ok(text) => Ok(String::from_str(alloc, text)?),
        Err(_) => unreachable!(),
    }
}

// Appends a JSON string, quoted and escaped.
fn write_quoted(alloc: Global, text: &mut String, inside: String) -> VortexResult<()>
    ensures { OrMemory result (λ _. string_bytes text.new ≡ string_bytes text.old ++ quoted (string_bytes inside)) }
{
    let made = Json::String(inside).to_string(alloc)?;
    Ok(text.push_str(made.as_str())?)
}
