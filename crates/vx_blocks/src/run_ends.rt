//! Ends of runs.

ghost use Rattle.std.specs.Prelude.{◌≡◌, not, length, map};
ghost use Rattle.vx_base.specs.Answers.{OrMemory};
ghost use Rattle.vx_blocks.specs.Optional.{optional_row, optional_rows, same_row};
ghost use Rattle.vx_blocks.specs.Runs.{run_ends};

use std::alloc::Global;
use vx_base::{Integer, Mask, VortexResult};

// Whether two rows differ, without a branch. Two nulls are equal, whatever the values beneath.
#[inline(always)]
pub(crate) fn is_other<T: Integer>(a: T, a_valid: bool, b: T, b_valid: bool) -> bool
    ensures { result ≡ not (same_row (optional_row (T.whole a) a_valid) (optional_row (T.whole b) b_valid)) }
{
    (a_valid != b_valid) | (a_valid & (a != b))
}

fn run_ends<T: Integer>(alloc: Global, values: &[T], valid: &[bool]) -> VortexResult<Vec<u64>>
    requires { length valid.now ≡ length values.now }
    ensures { OrMemory result (λ ends. ends.items ≡ run_ends (optional_rows (map T.whole values.now) valid.now)) }
{
    let mut ends = Vec::new(alloc);
    if values.is_empty() {
        return Ok(ends);
    }
    for i in 1..values.len() {
        if is_other(values[i - 1], valid[i - 1], values[i], valid[i]) {
            ends.push(i as u64)?;
        }
    }
    ends.push(values.len() as u64)?;
    Ok(ends)
}

/// The exclusive end of each run of equal rows, ascending. A null equals a null, whatever the values beneath. `valid` has a
/// truth value per row.
pub fn runs<T: Integer>(alloc: Global, values: &[T], valid: &Mask) -> VortexResult<Vec<u64>>
    requires { length valid.now ≡ length values.now }
    ensures { OrMemory result (λ ends. ends.items ≡ run_ends (optional_rows (map T.whole values.now) valid.now)) }
{
    run_ends(alloc, values, valid.as_slice())
}
