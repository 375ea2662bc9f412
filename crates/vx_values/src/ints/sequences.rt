//! Arithmetic sequences of integers.

ghost use Rattle.std.specs.List.{range_with_len};
ghost use Rattle.std.specs.Prelude.{◌≡◌, ◌-◌, ◌&&◌, ◌||◌, ◌==◌, ◌+ℤ◌, ◌*ℤ◌, IsTrue, length, map, pos};
ghost use Rattle.vx_base.specs.Answers.{OrMemory};
ghost use Rattle.vx_base.specs.Integers.{lies_in};
ghost use Rattle.vx_base.specs.Wrapping.{low_bits};
ghost use Rattle.vx_base.specs.declared.ptype.PType.TheVariants.{U64};
ghost use Rattle.vx_blocks.specs.Sequence.{sequence_of, sequence_row};
ghost use Rattle.vx_values.specs.IntsOf.{ptype_of, wholes_of};

use super::Ints;
use std::alloc::Global;
use vx_base::{IntList, Integer, PType, VortexResult};
use vx_blocks::sequence_of;

impl Ints {
    /// First and step of an arithmetic sequence: row i is first + i * step. None of fewer than two rows, of rows that are no
    /// sequence, and of a step out of the range of the type.
    pub fn sequence(&self) -> Option<(i128, i128)>
        ensures { result ≡ sequence_of (ptype_of self.now) (wholes_of self.now) }
    {
        with_ints!(self, items => sequence_of(items.as_slice()))
    }

    /// The arithmetic sequence of `len` rows, row i of which is first + i * step. The first and the last row are in range of the
    /// type, if there are rows; the step need not be.
    pub fn stepped(
        alloc: Global,
        ptype: PType,
        first: i128,
        step: i128,
        len: u64,
    ) -> VortexResult<Ints>
        requires { IsTrue (len == 0 || lies_in ptype first && lies_in ptype (first +ℤ pos (len - 1) *ℤ step)) }
        ensures { OrMemory result (λ ints. (ptype_of ints ≡ ptype) × (wholes_of ints ≡ map (sequence_row first step) (range_with_len 0 len))) }
    {
        ints_of!(ptype => stepped(alloc, first, step, len)?)
    }
}

// The sequence as a list of one type.
fn stepped<T: Integer>(alloc: Global, first: i128, step: i128, len: u64) -> VortexResult<IntList<T>>
    requires { IsTrue (len == 0 || lies_in T.kind first && lies_in T.kind (first +ℤ pos (len - 1) *ℤ step)) }
    ensures { OrMemory result (λ list. map T.whole list ≡ map (sequence_row first step) (range_with_len 0 len)) }
{
    let mut items = vec![in alloc; T::zero(); len as usize]?;
    write_steps(first, step, items.as_mut_slice());
    Ok(IntList::from_vec(items))
}

// The sequence written to a slice: each row by adding the step to the row before, wrapping in 64 bits, of which the low ones
// are the value.
fn write_steps<T: Integer>(first: i128, step: i128, items: &mut [T])
    requires { IsTrue (length items.old == 0 || lies_in T.kind first && lies_in T.kind (first +ℤ pos (length items.old - 1) *ℤ step)) }
    ensures { map T.whole items.new ≡ map (sequence_row first step) (range_with_len 0 (length items.old)) }
{
    let add = low_word(step);
    let mut bits = low_word(first);
    for row in 0..items.len() {
        items[row] = T::from_low_bits(bits);
        bits = bits.wrapping_add(add);
    }
}

// The low 64 bits of a whole number, in two's complement.
#[inline(always)]
pub(super) fn low_word(whole: i128) -> u64
    ensures { result ≡ low_bits U64 whole }
{
    whole.rem_euclid(1 << 64) as u64
}
