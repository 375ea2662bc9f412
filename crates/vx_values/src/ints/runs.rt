//! Runs of equal integers.

ghost use Rattle.std.specs.Prelude.{◌≡◌, length, map};
ghost use Rattle.vx_base.specs.Answers.{OrMemory};
ghost use Rattle.vx_blocks.specs.Optional.{optional_rows};
ghost use Rattle.vx_blocks.specs.Runs.{heads, offsets, run_ends, run_numbers};
ghost use Rattle.vx_values.specs.IntsOf.{wholes_of};

use super::Ints;
use std::alloc::Global;
use vx_base::{Integer, Mask, VortexResult, Words};
use vx_blocks::{BlockRuns, block_runs, runs};

impl Ints {
    /// The exclusive end of each run of equal rows, ascending. A null equals a null. `valid` has a truth value per row.
    pub fn runs(&self, alloc: Global, valid: &Mask) -> VortexResult<Words>
        requires { length valid.now ≡ length (wholes_of self.now) }
        ensures { OrMemory result (λ ends. ends ≡ run_ends (optional_rows (wholes_of self.now) valid.now)) }
    {
        with_ints!(self, items => ends_of(alloc, items.as_slice(), valid))
    }

    /// The runs of equal rows within blocks of 1,024 rows. A null equals a null. `valid` has a truth value per row.
    pub fn block_runs(&self, alloc: Global, valid: &Mask) -> VortexResult<BlockRuns>
        requires { length valid.now ≡ length (wholes_of self.now) }
        ensures heads { OrMemory result (λ made. made.heads ≡ heads (optional_rows (wholes_of self.now) valid.now)) }
        ensures numbers { OrMemory result (λ made. made.numbers ≡ run_numbers (optional_rows (wholes_of self.now) valid.now)) }
        ensures offsets { OrMemory result (λ made. made.offsets ≡ offsets (optional_rows (wholes_of self.now) valid.now)) }
    {
        with_ints!(self, items => block_runs(alloc, items.as_slice(), valid))
    }
}

// The ends as words.
fn ends_of<T: Integer>(alloc: Global, items: &[T], valid: &Mask) -> VortexResult<Words>
    requires { length valid.now ≡ length items.now }
    ensures { OrMemory result (λ ends. ends ≡ run_ends (optional_rows (map T.whole items.now) valid.now)) }
{
    Ok(Words::from_vec(runs(alloc, items, valid)?))
}
