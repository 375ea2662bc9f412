//! Scalars: a value with its type.

ghost use Rattle.std.specs.Prelude.{◌≡◌, IsTrue};
ghost use Rattle.std.specs.Str.{is_utf8};
ghost use Rattle.vx_base.specs.Answers.{Answers};
ghost use Rattle.vx_base.specs.Integers.{lies_in};
ghost use Rattle.vx_base.specs.PlainScalar.{fits};
ghost use Rattle.vx_base.specs.PlainValue.{is_short};
ghost use Rattle.vx_base.specs.TypeOf.{type_of, value_of};

mod cast;
mod defaults;
mod fitting;
mod making;
mod value_text;

use crate::cell::Cell;
use crate::dtype::DType;
use crate::error::VortexResult;
use crate::ptype::PType;
use crate::value::Value;
use std::alloc::Global;
use std::hash::{Hash, Hasher};
use std::marker::Model;

/// A value that fits its type.
#[derive(Debug)]
pub struct Scalar {
    dtype: DType,
    value: Value,
}

impl Model for Scalar {
    ghost use Rattle.std.specs.Prelude.{IsTrue};
    ghost use Rattle.vx_base.specs.PlainScalar.{PlainScalar, scalar_code, fits};

    ghost Value = { PlainScalar };

    ghost coded = { scalar_code };

    ghost use Rattle.vx_base.specs.TypeOf.{type_of, value_of};

    ghost view = { λ a. record { dtype = type_of a.dtype; value = value_of a.value } };

    ghost invariant = { λ a. IsTrue (fits (type_of a.dtype) (value_of a.value)) };
}

impl Drop for Scalar {
    fn drop(self) {
        let Scalar { dtype: _, value: _ } = self;
    }
}

// Whether the number is in the range of the type.
fn is_held(value: i128, ptype: PType) -> bool
    ensures { result ≡ lies_in ptype value }
{
    value >= ptype.least() && value <= ptype.greatest()
}

/// Whether there are fewer than 2^32 bytes, which is the limit of a text or binary value.
pub fn is_short(bytes: &[u8]) -> bool
    ensures { result ≡ is_short bytes.now }
{
    bytes.len() < 1 << 32
}

/// Whether the bytes are valid UTF-8.
pub fn is_text(bytes: &[u8]) -> bool
    ensures { result ≡ is_utf8 bytes.now }
{
    std::str::from_utf8(bytes).is_ok()
}

impl Scalar {
    ghost use Rattle.vx_base.specs.CellValue.{cell_value};
    ghost use Rattle.vx_base.specs.PlainValue.{is_null, cell};
    ghost use Rattle.vx_base.specs.PlainScalar.{fits};
    ghost use Rattle.vx_base.specs.PlainType.{is_flat, is_integer};
    ghost use Rattle.vx_base.specs.TypeOf.{type_of, value_of};

    pub fn dtype(&self) -> &DType
        ensures { type_of result.now ≡ self.now.dtype }
    {
        &self.dtype
    }

    pub fn value(&self) -> &Value
        ensures { value_of result.now ≡ self.now.value }
    {
        &self.value
    }

    /// Does nothing; its contract tells a caller's proof that the value fits the type.
    pub fn known(&self)
        ensures { IsTrue (fits self.now.dtype self.now.value) }
    {
        let _value = &self.value;
    }

    pub fn is_null(&self) -> bool
        ensures { result ≡ is_null self.now.value }
    {
        matches!(self.value, Value::Null)
    }

    /// The value of a flat type, as a cell.
    pub fn cell(&self) -> Cell<'_>
        requires { IsTrue (is_flat self.now.dtype) }
        ensures { cell_value result ≡ self.now.value }
    {
        match &self.value {
            Value::Null => Cell::Null,
            Value::Bool(bit) => Cell::Bool(*bit),
            Value::Int(whole) => Cell::Int(*whole),
            Value::Bytes(bytes) => Cell::Bytes(bytes.as_slice()),
            Value::List(_) => unreachable!(),
        }
    }

    /// The integer, None where it is null.
    pub fn integer(&self) -> Option<i128>
        requires { IsTrue (is_integer self.now.dtype) }
        ensures { cell result ≡ self.now.value }
    {
        match &self.value {
            Value::Int(whole) => Some(*whole),
            _ => None,
        }
    }

    /// A deep copy.
    pub fn copy(&self, alloc: Global) -> VortexResult<Scalar>
        ensures { Answers result self.now }
    {
        let dtype = self.dtype.copy(alloc)?;
        let value = self.value.copy(alloc)?;
        Ok(Scalar { dtype, value })
    }
}

impl PartialEq for Scalar {
    ghost use Rattle.vx_base.specs.PlainScalar.{stored_scalar};
    ghost use Rattle.vx_base.specs.Storable.{same, same_symm, same_trans};

    ghost eq = { same stored_scalar };

    ghost laws = { record { symm = same_symm stored_scalar; trans = same_trans stored_scalar } };

    fn eq(&self, other: &Scalar) -> bool {
        self.dtype == other.dtype && self.value == other.value
    }
}

impl Eq for Scalar {
    ghost use Rattle.vx_base.specs.PlainScalar.{stored_scalar};
    ghost use Rattle.vx_base.specs.Storable.{same_refl, same_symm, same_congr};
    ghost use Rattle.std.specs.Prelude.{refl};

    ghost laws = { record { refl = λ a. same_refl stored_scalar a a refl; symm = same_symm stored_scalar; congr = same_congr stored_scalar } };
}

impl Hash for Scalar {
    ghost use Rattle.vx_base.specs.Writes.{scalar_writes, scalars_alike};

    ghost hash_input = { scalar_writes };

    ghost respects_eq = { λ a b e. scalars_alike a b e };

    fn hash<H: Hasher>(&self, state: &mut H) {
        self.dtype.hash(state);
        self.value.hash(state);
    }
}
