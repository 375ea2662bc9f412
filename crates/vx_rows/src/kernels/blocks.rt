//! A test of each integer of a list, block by block: the answer grows by a block of zeros, which the test writes over at once.

ghost use Rattle.std.specs.Prelude.{◌≡◌, ℤ, Bool, length, map};
ghost use Rattle.vx_base.specs.Answers.{Answers};

use std::alloc::Global;
use vx_base::{Integer, Mask, VortexResult};

/// The rows of a block: the answer takes 1 kB a block, so that it is still in the first cache when the test writes over its zeros.
pub(super) const BLOCK_ROWS: usize = 1024;

/// A test of an integer.
pub(super) trait WholeTest {
    // Whether it passes.
    ghost passes: { Self → ℤ → Bool };

    /// Writes whether each item passes.
    fn write<T: Integer>(&self, items: &[T], bits: &mut [bool])
        requires { length bits.old ≡ length items.now }
        ensures { bits.new ≡ map (passes self.now) (map T.whole items.now) };
}

/// Whether each item passes the test.
pub(super) fn test_each<T: Integer, W: WholeTest>(
    alloc: Global,
    test: &W,
    items: &[T],
) -> VortexResult<Mask>
    ensures { Answers result (map (W.passes test.now) (map T.whole items.now)) }
{
    let mut bits = Vec::with_capacity(alloc, items.len())?;
    for block in 0..items.len().div_ceil(BLOCK_ROWS) {
        let start = BLOCK_ROWS * block;
        let end = start + (items.len() - start).min(BLOCK_ROWS);
        bits.resize(end, false)?;
        test.write(&items[start..end], bits.slice_mut(start..));
    }
    Ok(Mask::from_bits(bits))
}
