//! The content of a value, moved out of it.

ghost use Rattle.std.specs.Prelude.{◌≡◌};
ghost use Rattle.vx_base.specs.PlainValue.{bytes_or_empty, items_or_empty};
ghost use Rattle.vx_base.specs.TypeOf.{value_of};

use super::{Value, Values};
use crate::items::Bytes;
use std::alloc::Global;

impl Value {
    /// The bytes of a text or a binary, none of any other value.
    pub fn into_bytes(self, alloc: Global) -> Bytes
        ensures { result ≡ bytes_or_empty (value_of self) }
    {
        match self {
            Value::Bytes(bytes) => bytes,
            Value::Null | Value::Bool(_) | Value::Int(_) | Value::List(_) => Bytes::new_in(alloc),
        }
    }

    /// The items of a list or the field values of a struct, none of any other value.
    #[tactic(auto, using(crate::proofs::WithinLemmas::within))]
    pub fn into_values(self, alloc: Global) -> Values
        ensures { result ≡ items_or_empty (value_of self) }
    {
        match self {
            Value::List(values) => values,
            Value::Null | Value::Bool(_) | Value::Int(_) | Value::Bytes(_) => Values::new_in(alloc),
        }
    }
}
