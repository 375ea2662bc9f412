//! The validity of a column as one bit a row.

ghost use Rattle.std.specs.Prelude.{replicate, true, unwrap_or};
ghost use Rattle.vx_base.specs.Answers.{Answers};

use std::alloc::Global;
use vx_base::{Mask, VortexResult};

/// A validity bitmap with a bit for each of `len` rows: a copy of `valid`, or all true where every row is valid.
pub fn mask_of(alloc: Global, valid: &Option<Mask>, len: u64) -> VortexResult<Mask>
    ensures { Answers result (unwrap_or valid.now (replicate len true)) }
{
    match valid {
        Some(valid) => valid.copy(alloc),
        None => Ok(Mask::from_bits(vec![in alloc; true; len as usize]?)),
    }
}
