//! Default values.

ghost use Rattle.std.specs.Prelude.{◌≡◌, map, replicate};
ghost use Rattle.vx_base.specs.Answers.{Answers, OrMemory};
ghost use Rattle.vx_base.specs.Defaults.{null_or_default, field_list_defaults};
ghost use Rattle.vx_base.specs.PlainScalar.{scalar};
ghost use Rattle.vx_base.specs.TypeOf.{type_of, value_of, fields_of};

use super::Scalar;
use crate::dtype::{DType, Fields};
use crate::error::VortexResult;
use crate::items::Bytes;
use crate::value::{Value, Values};
use std::alloc::Global;

impl Scalar {
    /// The default of a type: null where it is nullable, else false, 0 or empty. A struct has the default of each field, a
    /// fixed-size list `size` times the default of its items.
    #[tactic(auto, using(crate::proofs::FitLemmas::fitting))]
    pub fn default_value(alloc: Global, dtype: &DType) -> VortexResult<Scalar>
        ensures { Answers result (scalar (type_of dtype.now) (null_or_default (type_of dtype.now))) }
    {
        let dtype = dtype.copy(alloc)?;
        let value = null_or_default(alloc, &dtype)?;
        Ok(Scalar { dtype, value })
    }
}

// Null where the type is nullable, else its default.
#[cycle(defaults)]
#[tactic(auto, using(crate::proofs::FallLemmas::falls))]
fn null_or_default(alloc: Global, dtype: &DType) -> VortexResult<Value>
    ensures { OrMemory result (λ value. value_of value ≡ null_or_default (type_of dtype.now)) }
{
    if dtype.is_nullable() {
        return Ok(Value::Null);
    }
    match dtype {
        DType::Null => Ok(Value::Null),
        DType::Bool(_) => Ok(Value::Bool(false)),
        DType::Primitive(_, _) | DType::Timestamp(_, _) => Ok(Value::Int(0)),
        DType::Utf8(_) | DType::Binary(_) => Ok(Value::Bytes(Bytes::new_in(alloc))),
        DType::Struct(fields, _) => Ok(Value::List(field_defaults(alloc, fields)?)),
        DType::List(_, _) => Ok(Value::List(Values::new_in(alloc))),
        DType::FixedSizeList(items, size, _) => {
            let value = null_or_default(alloc, items)?;
            Ok(Value::List(repeated(alloc, &value, *size)?))
        }
    }
}

// The default of each field.
#[cycle(defaults)]
#[tactic(auto, using(crate::proofs::FallLemmas::falls))]
fn field_defaults(alloc: Global, fields: &Fields) -> VortexResult<Values>
    ensures { Answers result (field_list_defaults (fields_of fields.now)) }
{
    let mut values = Vec::new(alloc);
    for field in fields.as_slice() {
        values.push(null_or_default(alloc, &field.1)?)?;
    }
    Ok(Values::from_vec(values))
}

// `count` copies of a value.
fn repeated(alloc: Global, value: &Value, count: u32) -> VortexResult<Values>
    ensures { Answers result (replicate count (value_of value.now)) }
{
    let mut values = Vec::new(alloc);
    for _ in 0..count {
        values.push(value.copy(alloc)?)?;
    }
    Ok(Values::from_vec(values))
}
