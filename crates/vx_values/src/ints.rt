//! Lists of integers, of any of the eight types.

ghost use Rattle.std.specs.List.{list_all};
ghost use Rattle.std.specs.Prelude.{◌≡◌, ◌<◌, length, slice_index_or, pos, IsTrue, map};
ghost use Rattle.vx_base.specs.Answers.{Answers};
ghost use Rattle.vx_base.specs.Integers.{lies_in};
ghost use Rattle.vx_values.specs.IntsOf.{ptype_of, wholes_of};

use std::alloc::Global;
use vx_base::{IntList, Integer, PType, VortexResult};

/// A list of integers, by their type.
pub enum Ints {
    U8(IntList<u8>),
    U16(IntList<u16>),
    U32(IntList<u32>),
    U64(IntList<u64>),
    I8(IntList<i8>),
    I16(IntList<i16>),
    I32(IntList<i32>),
    I64(IntList<i64>),
}

// One expression for each of the eight lists.
macro_rules! with_ints {
    ($ints:expr, $items:ident => $answer:expr) => {
        match $ints {
            Ints::U8($items) => $answer,
            Ints::U16($items) => $answer,
            Ints::U32($items) => $answer,
            Ints::U64($items) => $answer,
            Ints::I8($items) => $answer,
            Ints::I16($items) => $answer,
            Ints::I32($items) => $answer,
            Ints::I64($items) => $answer,
        }
    };
}

// `Ok` of a list of the same type, from each of the eight lists.
macro_rules! map_ints {
    ($ints:expr, $items:ident => $answer:expr) => {
        match $ints {
            Ints::U8($items) => Ok(Ints::U8($answer)),
            Ints::U16($items) => Ok(Ints::U16($answer)),
            Ints::U32($items) => Ok(Ints::U32($answer)),
            Ints::U64($items) => Ok(Ints::U64($answer)),
            Ints::I8($items) => Ok(Ints::I8($answer)),
            Ints::I16($items) => Ok(Ints::I16($answer)),
            Ints::I32($items) => Ok(Ints::I32($answer)),
            Ints::I64($items) => Ok(Ints::I64($answer)),
        }
    };
}

// A list of the same type, from each of the eight lists.
macro_rules! map_ints_surely {
    ($ints:expr, $items:ident => $answer:expr) => {
        match $ints {
            Ints::U8($items) => Ints::U8($answer),
            Ints::U16($items) => Ints::U16($answer),
            Ints::U32($items) => Ints::U32($answer),
            Ints::U64($items) => Ints::U64($answer),
            Ints::I8($items) => Ints::I8($answer),
            Ints::I16($items) => Ints::I16($answer),
            Ints::I32($items) => Ints::I32($answer),
            Ints::I64($items) => Ints::I64($answer),
        }
    };
}

// `Ok` of a list of the type that a `PType` names.
macro_rules! ints_of {
    ($ptype:expr => $answer:expr) => {
        match $ptype {
            PType::U8 => Ok(Ints::U8($answer)),
            PType::U16 => Ok(Ints::U16($answer)),
            PType::U32 => Ok(Ints::U32($answer)),
            PType::U64 => Ok(Ints::U64($answer)),
            PType::I8 => Ok(Ints::I8($answer)),
            PType::I16 => Ok(Ints::I16($answer)),
            PType::I32 => Ok(Ints::I32($answer)),
            PType::I64 => Ok(Ints::I64($answer)),
        }
    };
}

pub(crate) use with_ints;

mod bit_packing;
mod combining;
mod converting;
mod deltas;
mod dictionary;
mod difference_blocks;
mod filling;
mod frame_of_reference;
mod gathering;
mod one_value;
mod packed_words;
mod reference_blocks;
mod runs;
mod sequences;
mod unpacking_in_blocks;
mod zeroing;
mod zig_zag;

pub use bit_packing::{known_bytes, packed_size};
pub use dictionary::valid_codes;
pub use frame_of_reference::summed_in;

// Written by hand, so that a drop is one call wherever a list goes out of scope.
impl Drop for Ints {
    fn drop(self) {
        with_ints!(self, _items => ())
    }
}

impl Ints {
    /// The type of the integers.
    pub fn ptype(&self) -> PType
        ensures { result ≡ ptype_of self.now }
    {
        match self {
            Ints::U8(_) => PType::U8,
            Ints::U16(_) => PType::U16,
            Ints::U32(_) => PType::U32,
            Ints::U64(_) => PType::U64,
            Ints::I8(_) => PType::I8,
            Ints::I16(_) => PType::I16,
            Ints::I32(_) => PType::I32,
            Ints::I64(_) => PType::I64,
        }
    }

    /// The number of rows.
    pub fn len(&self) -> u64
        ensures { result ≡ length (wholes_of self.now) }
    {
        with_ints!(self, items => items.len())
    }

    /// The integer in a row.
    pub fn whole_at(&self, row: u64) -> i128
        requires { row < length (wholes_of self.now) }
        ensures { result ≡ slice_index_or (wholes_of self.now) row (pos 0) }
    {
        with_ints!(self, items => whole_at(items.as_slice(), row))
    }

    /// A copy.
    pub fn copy(&self, alloc: Global) -> VortexResult<Ints>
        ensures { Answers result self.now }
    {
        map_ints!(self, items => items.copy(alloc)?)
    }

    /// Tells a caller's proof that each integer is in the range of its type; nothing is done.
    pub fn known(&self)
        ensures { IsTrue (list_all (lies_in (ptype_of self.now)) (wholes_of self.now)) }
    {
        with_ints!(self, items => known(items.as_slice()))
    }
}

fn whole_at<T: Integer>(items: &[T], row: u64) -> i128
    requires { row < length items.now }
    ensures { result ≡ slice_index_or (map T.whole items.now) row (pos 0) }
{
    items[row as usize].to_whole()
}

// Each integer is in the range of its type, as the contract of `to_whole` says; the loop has no effect.
fn known<T: Integer>(items: &[T])
    ensures { IsTrue (list_all (lies_in T.kind) (map T.whole items.now)) }
{
    for item in items {
        let _whole = item.to_whole();
    }
}
