//! Validity where two conditions hold at once.

ghost use Rattle.std.specs.Prelude.{◌≡◌, length, true};
ghost use Rattle.vx_base.specs.Answers.{Answers, OrMemory};
ghost use Rattle.vx_model.specs.Refusals.{validity_length};
ghost use Rattle.vx_selections.specs.Narrowed.{also, both, narrowed};

use std::alloc::Global;
use vx_base::{Mask, VortexResult};
use vx_values::copy_validity;

/// The bits, false also where the validity is.
pub(super) fn also(alloc: Global, own: &Option<Mask>, bits: &Mask) -> VortexResult<Mask>
    requires { validity_length own.now (length bits.now) ≡ true }
    ensures { Answers result (also own.now bits.now) }
{
    match own {
        Some(own) => Ok(Mask::from_bits(both(alloc, own.as_slice(), bits.as_slice())?)),
        None => bits.copy(alloc),
    }
}

/// Valid where both validities are.
pub(super) fn narrowed(
    alloc: Global,
    own: &Option<Mask>,
    valid: &Option<Mask>,
    len: u64,
) -> VortexResult<Option<Mask>>
    requires own { validity_length own.now len ≡ true }
    requires valid { validity_length valid.now len ≡ true }
    ensures { Answers result (narrowed own.now valid.now) }
{
    match valid {
        Some(bits) => Ok(Some(also(alloc, own, bits)?)),
        None => copy_validity(alloc, own),
    }
}

// True where both bits are.
fn both(alloc: Global, bits: &[bool], others: &[bool]) -> VortexResult<Vec<bool>>
    requires { length bits.now ≡ length others.now }
    ensures { OrMemory result (λ out. out.items ≡ both bits.now others.now) }
{
    let mut out = vec![in alloc; false; bits.len()]?;
    write_both(bits, others, out.as_mut_slice());
    Ok(out)
}

// Writes whether both bits are true, by `&`: no branch per row.
fn write_both(bits: &[bool], others: &[bool], out: &mut [bool])
    requires others { length bits.now ≡ length others.now }
    requires room { length out.old ≡ length bits.now }
    ensures { out.new ≡ both bits.now others.now }
{
    for row in 0..bits.len() {
        out[row] = bits[row] & others[row];
    }
}
