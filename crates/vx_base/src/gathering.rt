//! Rows gathered by ranges.

ghost use Rattle.std.specs.Prelude.{◌≡◌, length, IsTrue};
ghost use Rattle.vx_base.specs.Answers.{Answers, OrMemory};
ghost use Rattle.vx_base.specs.Gathered.{gathered, are_parts};
ghost use Rattle.vx_base.specs.Masks.{rows_between, is_part};

use crate::error::VortexResult;
use crate::items::Items;
use crate::mask::Mask;
use std::alloc::Global;

impl<T: Copy> Items<T> {
    /// The items of each range, in the order of the ranges.
    pub fn gather(&self, alloc: Global, ranges: &[(u64, u64)]) -> VortexResult<Items<T>>
        requires { IsTrue (are_parts (length self.now) ranges.now) }
        ensures { Answers result (gathered ranges.now self.now) }
    {
        Ok(Items::from_vec(gathered(alloc, self.as_slice(), ranges)?))
    }
}

impl Mask {
    /// The rows of each range, in the order of the ranges.
    pub fn gather(&self, alloc: Global, ranges: &[(u64, u64)]) -> VortexResult<Mask>
        requires { IsTrue (are_parts (length self.now) ranges.now) }
        ensures { Answers result (gathered ranges.now self.now) }
    {
        Ok(Mask::from_bits(gathered(alloc, self.as_slice(), ranges)?))
    }
}

fn gathered<T: Copy>(alloc: Global, items: &[T], ranges: &[(u64, u64)]) -> VortexResult<Vec<T>>
    requires { IsTrue (are_parts (length items.now) ranges.now) }
    ensures { OrMemory result (λ all. all.items ≡ gathered ranges.now items.now) }
{
    let mut all = Vec::new(alloc);
    for range in ranges {
        all.extend_from_slice(part(items, *range))?;
    }
    Ok(all)
}

// The items of a half-open range.
fn part<T>(items: &[T], range: (u64, u64)) -> &[T]
    requires { IsTrue (is_part (length items.now) range.0 range.1) }
    ensures { result.now ≡ rows_between items.now range.0 range.1 }
{
    &items[range.0 as usize..range.1 as usize]
}
