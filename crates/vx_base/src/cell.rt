//! One row of a flat column.

ghost use Rattle.std.specs.Prelude.{◌≡◌};
ghost use Rattle.vx_base.specs.Answers.{OrMemory};
ghost use Rattle.vx_base.specs.CellValue.{cell_value};
ghost use Rattle.vx_base.specs.IntegersIn.{integer_in};
ghost use Rattle.vx_base.specs.PlainValue.{is_null, truth_or_false, whole_or_zero, bytes_or_empty};
ghost use Rattle.vx_base.specs.TypeOf.{value_of};

use crate::error::VortexResult;
use crate::items::Bytes;
use crate::value::Value;
use std::alloc::Global;

/// A row of a leaf or timestamp column: null or a value. It borrows its bytes, so it is `Copy`.
#[derive(Clone, Copy, Debug)]
pub enum Cell<'a> {
    Null,
    Bool(bool),
    /// Integers and timestamps.
    Int(i128),
    /// Texts and binaries.
    Bytes(&'a [u8]),
}

impl<'a> Cell<'a> {
    pub fn is_null(self) -> bool
        ensures { result ≡ is_null (cell_value self.entry) }
    {
        matches!(self, Cell::Null)
    }

    /// The truth value, false of any other cell.
    pub fn truth(self) -> bool
        ensures { result ≡ truth_or_false (cell_value self.entry) }
    {
        match self {
            Cell::Bool(bit) => bit,
            Cell::Null | Cell::Int(_) | Cell::Bytes(_) => false,
        }
    }

    /// The integer, 0 of any other cell.
    pub fn whole(self) -> i128
        ensures { result ≡ whole_or_zero (cell_value self.entry) }
    {
        match self {
            Cell::Int(whole) => whole,
            Cell::Null | Cell::Bool(_) | Cell::Bytes(_) => 0,
        }
    }

    /// The bytes, empty of any other cell.
    pub fn bytes(self) -> &'a [u8]
        ensures { result.now ≡ bytes_or_empty (cell_value self.entry) }
    {
        match self {
            Cell::Bytes(bytes) => bytes,
            Cell::Null | Cell::Bool(_) | Cell::Int(_) => &[],
        }
    }

    /// The integer, None of any other cell.
    pub fn integer(self) -> Option<i128>
        ensures { result ≡ integer_in (cell_value self.entry) }
    {
        match self {
            Cell::Int(whole) => Some(whole),
            Cell::Null | Cell::Bool(_) | Cell::Bytes(_) => None,
        }
    }

    /// The cell as a value that owns a copy of the bytes.
    pub fn to_value(self, alloc: Global) -> VortexResult<Value>
        ensures { OrMemory result (λ value. value_of value ≡ cell_value self.entry) }
    {
        match self {
            Cell::Null => Ok(Value::Null),
            Cell::Bool(bit) => Ok(Value::Bool(bit)),
            Cell::Int(whole) => Ok(Value::Int(whole)),
            Cell::Bytes(bytes) => Ok(Value::Bytes(Bytes::from_vec(Vec::from_slice(alloc, bytes)?))),
        }
    }
}
