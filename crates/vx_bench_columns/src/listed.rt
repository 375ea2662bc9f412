//! Plain columns of rows of one integer type.

use vx_array::ArrayRef;
use vx_base::{IntList, Nullability};
use vx_values::Ints;

/// A type whose rows make a list of integers.
pub trait Listed: Copy {
    fn list(rows: Vec<Self>) -> Ints;
}

impl Listed for u8 {
    fn list(rows: Vec<u8>) -> Ints {
        Ints::U8(IntList::from_vec(rows))
    }
}

impl Listed for u16 {
    fn list(rows: Vec<u16>) -> Ints {
        Ints::U16(IntList::from_vec(rows))
    }
}

impl Listed for u32 {
    fn list(rows: Vec<u32>) -> Ints {
        Ints::U32(IntList::from_vec(rows))
    }
}

impl Listed for u64 {
    fn list(rows: Vec<u64>) -> Ints {
        Ints::U64(IntList::from_vec(rows))
    }
}

impl Listed for i64 {
    fn list(rows: Vec<i64>) -> Ints {
        Ints::I64(IntList::from_vec(rows))
    }
}

/// A plain column without nulls.
pub fn column_of<T: Listed>(rows: Vec<T>) -> ArrayRef {
    ArrayRef::primitive_of(T::list(rows), None, Nullability::NonNullable)
}
