//! Closed ranges of integers.

ghost use Rattle.std.specs.Prelude.{◌≡◌, ◌<◌, ◌≤◌, ◌+ℤ◌, ◌≤ℤ◌, ◌<ℤ◌, ◌⊎◌, pos, IfSome, IfNone};
ghost use Rattle.vx_stats.specs.Tables.{LiesBetween};

use vx_base::Integer;

/// The integers `least..=greatest`; empty where `least` is above `greatest`.
#[derive(Clone, Copy)]
pub(crate) struct Range<T: Integer> {
    pub(crate) least: T,
    pub(crate) greatest: T,
}

impl<T: Integer> Range<T> {
    /// The number of integers; None exactly where it is 0 or above `most`.
    pub(crate) fn len_within(self, most: usize) -> Option<usize>
        ensures len { IfSome result (λ len. T.whole self.greatest +ℤ pos 1 ≡ T.whole self.least +ℤ pos len) }
        ensures bounds { IfSome result (λ len. (0 < len) × (len ≤ most)) }
        ensures none { IfNone result ((T.whole self.greatest <ℤ T.whole self.least) ⊎ ((T.whole self.least +ℤ pos most) ≤ℤ T.whole self.greatest)) }
    {
        let span = self.greatest.to_whole() - self.least.to_whole();
        if span < 0 || most as i128 <= span {
            return None;
        }
        Some(span as usize + 1)
    }

    /// The offset of an integer: `item - least`.
    #[inline(always)]
    pub(crate) fn place_of(self, item: T) -> usize
        requires { LiesBetween (T.whole self.least) (T.whole self.greatest) (T.whole item) }
        ensures { T.whole item ≡ T.whole self.least +ℤ pos result }
    {
        (item.to_whole() - self.least.to_whole()) as usize
    }

    /// The integer at an offset: `least + place`.
    #[inline(always)]
    pub(crate) fn value_at(self, place: usize) -> T
        requires { (T.whole self.least +ℤ pos place) ≤ℤ T.whole self.greatest }
        ensures { T.whole result ≡ T.whole self.least +ℤ pos place }
    {
        // Known of `greatest`: the type holds it, and so all of the range.
        let _greatest = self.greatest.to_whole();
        match T::from_whole(self.least.to_whole() + place as i128) {
            Some(value) => value,
            None => unreachable!(),
        }
    }
}
