//! Unsigned numbers as plain trees of the narrowest type.

ghost use Rattle.std.specs.Prelude.{◌≡◌, ◌^◌, IsTrue, Some, pos};
ghost use Rattle.vx_base.specs.Answers.{Answers};
ghost use Rattle.vx_base.specs.Narrow.{narrow_of};
ghost use Rattle.vx_model.specs.Plain.{plain};
ghost use Rattle.vx_model.specs.WellFormed.{ascend};
ghost use Rattle.vx_schemes_common.specs.Narrowed.{greatest, narrowed_numbers, number_rows};

use crate::whole::whole_tree;
use std::alloc::Global;
use vx_array::ArrayRef;
use vx_base::{Nullability, PType, VortexResult, Words};
use vx_blocks::narrow_type;
use vx_values::Ints;

/// Numbers as a plain tree, not nullable, of the narrowest unsigned type that holds the greatest; U8 for an empty list.
pub fn narrowed_numbers(alloc: Global, numbers: Words) -> VortexResult<ArrayRef>
    ensures { Answers result (plain (narrowed_numbers numbers)) }
{
    let greatest = greatest(numbers.as_slice());
    narrowed_up_to(alloc, numbers, greatest)
}

/// As `narrowed_numbers`, for strictly ascending numbers: the last is the greatest, so no pass over them looks for it.
pub fn narrowed_rising(alloc: Global, numbers: Words) -> VortexResult<ArrayRef>
    requires { IsTrue (ascend 0 (2 ^ 64) (number_rows numbers)) }
    ensures { Answers result (plain (narrowed_numbers numbers)) }
{
    let greatest = last(numbers.as_slice());
    narrowed_up_to(alloc, numbers, greatest)
}

// The numbers in the narrowest unsigned type that holds `top`, the greatest of them.
fn narrowed_up_to(alloc: Global, numbers: Words, top: u64) -> VortexResult<ArrayRef>
    requires { top ≡ greatest numbers }
    ensures { Answers result (plain (narrowed_numbers numbers)) }
{
    let ptype = type_up_to(top);
    let words = Ints::U64(numbers);
    words.known();
    whole_tree(words.in_unsigned(alloc, ptype)?, Nullability::NonNullable)
}

// The narrowest unsigned type that holds `top`.
fn type_up_to(top: u64) -> PType
    ensures { narrow_of (pos 0) (pos top) ≡ Some result }
{
    narrow_type(0, i128::from(top))
}

// The greatest number; 0 for an empty list.
fn greatest(numbers: &[u64]) -> u64
    ensures { result ≡ greatest numbers.now }
{
    numbers
        .iter()
        .fold(0, |greatest, number| greatest.max(*number))
}

// The last of ascending numbers, which is their greatest; 0 for an empty list.
fn last(numbers: &[u64]) -> u64
    requires { IsTrue (ascend 0 (2 ^ 64) (number_rows numbers.now)) }
    ensures { result ≡ greatest numbers.now }
{
    if numbers.is_empty() {
        return 0;
    }
    numbers[numbers.len() - 1]
}
