//! The items whose bit is true, without a branch per row: a branch that goes by random bits costs more than all else.

ghost use Rattle.std.specs.Prelude.{◌≡◌, ◌<◌, ◌+◌, ◌^◌, if◌then◌else◌, length, take};
ghost use Rattle.vx_base.specs.Answers.{OrMemory};
ghost use Rattle.vx_base.specs.Masks.{true_count};
ghost use Rattle.vx_rules.specs.Selections.{kept_items};

use std::alloc::Global;
use vx_base::{VortexError, VortexResult};

/// The items whose bit is true.
#[tactic(auto, using(crate::proofs::KeptItems::keeping))]
pub(super) fn kept_copies<T: Copy>(
    alloc: Global,
    items: &[T],
    bits: &[bool],
) -> VortexResult<Vec<T>>
    requires { length bits.now ≡ length items.now }
    ensures { OrMemory result (λ out. out.items ≡ kept_items bits.now items.now) }
{
    let mut out = Vec::new(alloc);
    if items.len() == 0 {
        return Ok(out);
    }
    let count = true_bits(bits);
    // One place more than items are kept: the items behind the last of them are written there.
    let room = count.checked_add(1).ok_or(VortexError::NoMemory)?;
    out.resize(room, items[0])?;
    write_kept(out.as_mut_slice(), items, bits);
    out.truncate(count);
    Ok(out)
}

/// The number of true bits, as a sum: no branch per row.
pub(super) fn true_bits(bits: &[bool]) -> usize
    ensures { result ≡ true_count bits.now }
{
    let mut count = 0;
    for bit in bits {
        count += usize::from(*bit);
    }
    count
}

// Writes the items whose bit is true to the front. Each item is written behind those, and the next one over it unless its bit
// is true.
fn write_kept<T: Copy>(out: &mut [T], items: &[T], bits: &[bool])
    requires same { length bits.now ≡ length items.now }
    requires room { true_count bits.now < length out.old }
    ensures { take (true_count bits.now) out.new ≡ kept_items bits.now items.now }
{
    let mut place = 0;
    for row in 0..bits.len() {
        out[place] = items[row];
        place = next_place(place, bits[row]);
    }
}

// The place behind an item that is kept where the bit is true, as a sum.
#[inline(always)]
fn next_place(place: usize, bit: bool) -> usize
    requires { place + 1 < 2 ^ 64 }
    ensures { result ≡ (if bit then place + 1 else place) }
{
    place + usize::from(bit)
}
