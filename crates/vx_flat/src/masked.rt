//! A column behind a validity mask: bytes, decoding.

ghost use Rattle.std.specs.Prelude.{◌≡◌, ◌<◌, ◌+◌, ◌-◌, ◌^◌, length, Some, min};
ghost use Rattle.vx_base.specs.Answers.{OrMemory};
ghost use Rattle.vx_model.specs.Decoded.{zeroed};
ghost use Rattle.vx_model.specs.Refusals.{kept};
ghost use Rattle.vx_model.specs.Size.{bit_bytes};
ghost use Rattle.vx_values.specs.ValuesOf.{kind_in, values_of, default_in, AreRows};

use crate::sizes::bit_bytes;
use std::alloc::Global;
use vx_base::{Mask, VortexResult};
use vx_values::{Decoded, keep};

/// The bytes of a masked tree: the child's, and `ceil(rows / 8)` for the mask. Saturates at 2^128 - 1.
pub fn masked_bytes(child: u128, valid: &Mask) -> u128
    ensures { result ≡ min (child + bit_bytes (length valid.now)) (2 ^ 128 - 1) }
{
    child.saturating_add(bit_bytes(valid.len()))
}

/// The rows of a child without nulls behind the mask, with the default beneath nulls. Without a false the mask is dropped.
pub fn decoded_masked(alloc: Global, child: Decoded, mask: &Mask) -> VortexResult<Decoded>
    requires { length mask.now ≡ length (values_of child.values) }
    ensures { OrMemory result (AreRows (kind_in child.values) (zeroed (default_in (kind_in child.values)) mask.now (values_of child.values)) (kept (Some mask.now))) }
{
    let values = child.values.zeroed(mask);
    let valid = keep(Some(mask.copy(alloc)?));
    Ok(Decoded { values, valid })
}
