//! Constructors of scalars.

ghost use Rattle.std.specs.Prelude.{◌≡◌, None, true};
ghost use Rattle.vx_base.specs.Answers.{Answers, SurelyDecided, MakesSurely, unless};
ghost use Rattle.vx_base.specs.CellValue.{cell_value};
ghost use Rattle.vx_base.specs.declared.error.VortexError.TheVariants.{MismatchedTypes, OutOfBounds, ValueTooLong};
ghost use Rattle.vx_base.specs.Integers.{lies_in};
ghost use Rattle.vx_base.specs.PlainScalar.{fits, scalar};
ghost use Rattle.vx_base.specs.PlainType.{boolean, primitive, utf8, binary, timestamp, is_nullable};
ghost use Rattle.vx_base.specs.PlainValue.{null, truth, int, bytes, is_short, has_short};
ghost use Rattle.vx_base.specs.TypeOf.{type_of, value_of};

use super::fitting::{fits, has_short};
use super::{Scalar, is_held, is_short};
use crate::cell::Cell;
use crate::dtype::{DType, Nullability};
use crate::error::{Refused, VortexError, VortexResult};
use crate::items::Bytes;
use crate::ptype::PType;
use crate::text::Text;
use crate::timestamp::TimestampType;
use crate::value::Value;
use std::alloc::Global;

impl Scalar {
    /// A value of a type. Refuses ValueTooLong where a text or binary within has 2^32 bytes or more, then MismatchedTypes
    /// where the value isn't of the type; both come back.
    pub fn new(dtype: DType, value: Value) -> Result<Scalar, Refused<(DType, Value)>>
        ensures { MakesSurely (unless (has_short (value_of value)) ValueTooLong (unless (fits (type_of dtype) (value_of value)) MismatchedTypes None)) (scalar (type_of dtype) (value_of value)) (dtype, value) result }
    {
        if !has_short(&value) {
            return Err(Refused {
                error: VortexError::ValueTooLong,
                inputs: (dtype, value),
            });
        }
        if !fits(&dtype, &value) {
            return Err(Refused {
                error: VortexError::MismatchedTypes,
                inputs: (dtype, value),
            });
        }
        Ok(Scalar { dtype, value })
    }

    /// Null. Refuses MismatchedTypes where the type isn't nullable.
    pub fn null(dtype: DType) -> Result<Scalar, Refused<DType>>
        ensures { MakesSurely (unless (is_nullable (type_of dtype)) MismatchedTypes None) (scalar (type_of dtype) null) dtype result }
    {
        if !dtype.is_nullable() {
            return Err(Refused {
                error: VortexError::MismatchedTypes,
                inputs: dtype,
            });
        }
        Ok(Scalar {
            dtype,
            value: Value::Null,
        })
    }

    /// A cell's value, which is of the type, with its own copy of the bytes. Refuses NoMemory alone.
    pub fn of_cell(alloc: Global, dtype: &DType, cell: Cell<'_>) -> VortexResult<Scalar>
        requires { fits (type_of dtype.now) (cell_value cell) ≡ true }
        ensures { Answers result (scalar (type_of dtype.now) (cell_value cell.entry)) }
    {
        let dtype = dtype.copy(alloc)?;
        let value = cell.to_value(alloc)?;
        Ok(Scalar { dtype, value })
    }

    /// A truth value.
    pub fn bool(value: bool, nullability: Nullability) -> Scalar
        ensures { result ≡ scalar (boolean nullability) (truth value) }
    {
        Scalar {
            dtype: DType::Bool(nullability),
            value: Value::Bool(value),
        }
    }

    /// An integer. Refuses OutOfBounds where it is out of the range of its type.
    pub fn primitive(value: i128, ptype: PType, nullability: Nullability) -> VortexResult<Scalar>
        ensures { SurelyDecided (unless (lies_in ptype value) OutOfBounds None) (λ s. s ≡ scalar (primitive ptype nullability) (int value)) result }
    {
        if !is_held(value, ptype) {
            return Err(VortexError::OutOfBounds);
        }
        Ok(Scalar {
            dtype: DType::Primitive(ptype, nullability),
            value: Value::Int(value),
        })
    }

    /// A text. Refuses ValueTooLong where it has 2^32 bytes or more.
    pub fn text(value: Text, nullability: Nullability) -> Result<Scalar, Refused<Text>>
        ensures { MakesSurely (unless (is_short value) ValueTooLong None) (scalar (utf8 nullability) (bytes value)) value result }
    {
        if !is_short(value.as_str().as_bytes()) {
            return Err(Refused {
                error: VortexError::ValueTooLong,
                inputs: value,
            });
        }
        Ok(Scalar {
            dtype: DType::Utf8(nullability),
            value: Value::Bytes(value.into_bytes()),
        })
    }

    /// A binary. Refuses ValueTooLong where it has 2^32 bytes or more.
    pub fn binary(value: Bytes, nullability: Nullability) -> Result<Scalar, Refused<Bytes>>
        ensures { MakesSurely (unless (is_short value) ValueTooLong None) (scalar (binary nullability) (bytes value)) value result }
    {
        if !is_short(value.as_slice()) {
            return Err(Refused {
                error: VortexError::ValueTooLong,
                inputs: value,
            });
        }
        Ok(Scalar {
            dtype: DType::Binary(nullability),
            value: Value::Bytes(value),
        })
    }

    /// A timestamp of a kind.
    pub fn timestamp(value: i64, kind: TimestampType, nullability: Nullability) -> Scalar
        ensures { result ≡ scalar (timestamp kind nullability) (int value) }
    {
        Scalar {
            dtype: DType::Timestamp(kind, nullability),
            value: Value::Int(value as i128),
        }
    }
}
