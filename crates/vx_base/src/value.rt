//! The values of columns.

ghost use Rattle.std.specs.Prelude.{◌≡◌, ◌↔◌, IsTrue, fold};
ghost use Rattle.vx_base.specs.Answers.{OrMemory};
ghost use Rattle.vx_base.specs.Writes.{bytes_writes};

mod parts;
mod value_list;

use crate::error::VortexResult;
use crate::items::Bytes;
use std::alloc::Global;
use std::hash::{Hash, Hasher};
use std::marker::Model;

/// One value of a column.
#[cycle(value)]
#[derive(Debug)]
pub enum Value {
    Null,
    Bool(bool),
    /// Integers and timestamps.
    Int(i128),
    /// Texts and binaries.
    Bytes(Bytes),
    /// Structs, as one value per field, and lists.
    List(Values),
}

/// A list of values.
#[cycle(value)]
#[derive(Debug, Drop)]
pub struct Values {
    items: Vec<Value>,
}

impl Drop for Value {
    #[cycle(letting_go)]
    fn drop(self) {
        match self {
            Value::Null | Value::Bool(_) | Value::Int(_) | Value::Bytes(_) | Value::List(_) => {}
        }
    }
}

impl Model for Values {
    ghost use Rattle.std.specs.Prelude.{List, map};
    ghost use Rattle.vx_base.specs.PlainValue.{PlainValue, values_code, list_count};

    ghost Value = { List PlainValue };

    ghost coded = { values_code };

    ghost use Rattle.vx_base.specs.TypeOf.{value_of};

    ghost view = { λ a. map value_of a.items.items };

    ghost size = { list_count };

    ghost use Rattle.std.proofs.Common.{arith};
    ghost use Rattle.vx_base.specs.ValueFalls.{depth_le-list_count};

    ghost size_decreases = { λ a h. omega (arith, depth_le-list_count a.items.items) };
}

impl Value {
    ghost use Rattle.vx_base.specs.TypeOf.{value_of};

    /// A deep copy.
    #[cycle(copy)]
    pub fn copy(&self, alloc: Global) -> VortexResult<Value>
        ensures { OrMemory result (λ copy. value_of copy ≡ value_of self.now) }
    {
        match self {
            Value::Null => Ok(Value::Null),
            Value::Bool(bit) => Ok(Value::Bool(*bit)),
            Value::Int(whole) => Ok(Value::Int(*whole)),
            Value::Bytes(bytes) => Ok(Value::Bytes(bytes.copy(alloc)?)),
            Value::List(values) => Ok(Value::List(values.copy(alloc)?)),
        }
    }

    // Whether the two values are equal.
    #[cycle(same)]
    fn same(&self, other: &Value) -> bool
        ensures { IsTrue result ↔ (value_of self.now ≡ value_of other.now) }
    {
        match (self, other) {
            (Value::Null, Value::Null) => true,
            (Value::Bool(bit), Value::Bool(other)) => *bit == *other,
            (Value::Int(whole), Value::Int(other)) => *whole == *other,
            (Value::Bytes(bytes), Value::Bytes(other)) => bytes.as_slice() == other.as_slice(),
            (Value::List(values), Value::List(other)) => values.same(other),
            _ => false,
        }
    }
}

/// Writes the length and then the bytes to a hasher.
pub(crate) fn write_bytes<H: Hasher>(bytes: &[u8], state: &mut H)
    ensures { state.new ≡ fold H.write state.old (bytes_writes bytes.now) }
{
    state.write_u64(bytes.len() as u64);
    state.write(bytes);
}

impl PartialEq for Value {
    ghost use Rattle.vx_base.specs.TypeOf.{value_of};
    ghost use Rattle.vx_base.specs.PlainValue.{stored_value};
    ghost use Rattle.vx_base.specs.Storable.{same, same_symm, same_trans};

    ghost eq = { λ a b. same stored_value (value_of a) (value_of b) };

    ghost laws = { record { symm = λ a b. same_symm stored_value (value_of a) (value_of b); trans = λ a b c. same_trans stored_value (value_of a) (value_of b) (value_of c) } };

    fn eq(&self, other: &Value) -> bool {
        self.same(other)
    }
}

impl Eq for Value {
    ghost use Rattle.vx_base.specs.TypeOf.{value_of};
    ghost use Rattle.vx_base.specs.PlainValue.{stored_value};
    ghost use Rattle.vx_base.specs.Storable.{same_refl, same_symm, same_congr};
    ghost use Rattle.std.specs.Prelude.{refl};

    ghost laws = { record { refl = λ a. same_refl stored_value (value_of a) (value_of a) refl; symm = λ a b. same_symm stored_value (value_of a) (value_of b); congr = λ a b c. same_congr stored_value (value_of a) (value_of b) (value_of c) } };
}

impl Hash for Value {
    ghost use Rattle.vx_base.specs.TypeOf.{value_of};
    ghost use Rattle.vx_base.specs.Writes.{value_writes, values_alike};

    ghost hash_input = { λ a. value_writes (value_of a) };

    ghost respects_eq = { λ a b e. values_alike (value_of a) (value_of b) e };

    fn hash<H: Hasher>(&self, state: &mut H) {
        self.feed(state);
    }
}

impl Value {
    ghost use Rattle.vx_base.specs.TypeOf.{value_of};
    ghost use Rattle.vx_base.specs.Writes.{value_writes};

    // Writes a number for the kind and then the content to a hasher.
    #[cycle(feed)]
    fn feed<H: Hasher>(&self, state: &mut H)
        ensures { state.new ≡ fold H.write state.old (value_writes (value_of self.now)) }
    {
        match self {
            Value::Null => state.write_u8(0),
            Value::Bool(bit) => {
                state.write_u8(1);
                bit.hash(state);
            }
            Value::Int(whole) => {
                state.write_u8(2);
                state.write_i128(*whole);
            }
            Value::Bytes(bytes) => {
                state.write_u8(3);
                write_bytes(bytes.as_slice(), state);
            }
            Value::List(values) => {
                state.write_u8(4);
                state.write_u64(values.len());
                values.feed(state);
            }
        }
    }
}
