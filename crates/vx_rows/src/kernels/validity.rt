//! Two lists of bits, and the validity of rows of two columns.

ghost use Rattle.std.specs.Prelude.{◌≡◌, ◌&&◌, length, true};
ghost use Rattle.vx_base.specs.Answers.{Answers};
ghost use Rattle.vx_model.specs.Refusals.{validity_length};
ghost use Rattle.vx_rows.specs.Pairs.{both_valid, each_pair};

use std::alloc::Global;
use vx_base::{Mask, VortexResult};
use vx_values::copy_validity;

/// The rows that are valid in both of two columns.
pub(crate) fn both_valid(
    alloc: Global,
    left: &Option<Mask>,
    right: &Option<Mask>,
    len: u64,
) -> VortexResult<Option<Mask>>
    requires left { validity_length left.now len ≡ true }
    requires right { validity_length right.now len ≡ true }
    ensures { Answers result (both_valid left.now right.now) }
{
    match (left, right) {
        (Some(bits), Some(others)) => Ok(Some(and_bits(alloc, bits, others)?)),
        (Some(_), None) => copy_validity(alloc, left),
        (None, _) => copy_validity(alloc, right),
    }
}

/// Whether both bits are true, place by place.
pub(crate) fn and_bits(alloc: Global, bits: &Mask, others: &Mask) -> VortexResult<Mask>
    requires { length bits.now ≡ length others.now }
    ensures { Answers result (each_pair (λ a b. a && b) bits.now others.now) }
{
    let mut both = vec![in alloc; false; bits.len() as usize]?;
    write_both(bits.as_slice(), others.as_slice(), both.as_mut_slice());
    Ok(Mask::from_bits(both))
}

// Writes whether both bits are true.
fn write_both(bits: &[bool], others: &[bool], both: &mut [bool])
    requires others { length others.now ≡ length bits.now }
    requires room { length both.old ≡ length bits.now }
    ensures { both.new ≡ each_pair (λ a b. a && b) bits.now others.now }
{
    for row in 0..bits.len() {
        both[row] = bits[row] & others[row];
    }
}
