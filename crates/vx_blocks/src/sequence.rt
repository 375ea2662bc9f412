//! Arithmetic sequences.

ghost use Rattle.std.specs.Prelude.{◌≡◌, ◌≤◌, ◌<◌, ◌-◌, ◌↔◌, ◌&&◌, ◌+ℤ◌, ◌-ℤ◌, ◌*ℤ◌, ℕ, IsTrue, length, map, pos};
ghost use Rattle.vx_base.specs.Integers.{lies_in};
ghost use Rattle.vx_base.specs.Wrapping.{wrap};
ghost use Rattle.vx_blocks.specs.Sequence.{IsWrappedStep, sequence_of};

use crate::arithmetic::sum;
use crate::groups::GROUP_ROWS;
use vx_base::Integer;

// `b - a` as a whole number, which 128 bits hold.
#[inline(always)]
fn step_between<T: Integer>(a: T, b: T) -> i128
    ensures { result ≡ T.whole b -ℤ T.whole a }
{
    b.to_whole() - a.to_whole()
}

// Whether `b - a = count * step`.
fn are_apart<T: Integer>(a: T, b: T, step: i128, count: usize) -> bool
    ensures apart { IsTrue result ↔ (T.whole b -ℤ T.whole a ≡ pos count *ℤ step) }
    ensures held { IsTrue (lies_in T.kind (T.whole a) && lies_in T.kind (T.whole b)) }
{
    let (_a, _b) = (a.to_whole(), b.to_whole());
    let between = step_between(a, b);
    match (count as i128).checked_mul(step) {
        Some(steps) => between == steps,
        None => false,
    }
}

// Whether `b = a + step`, wrapping.
#[inline(always)]
fn is_step<T: Integer>(a: T, b: T, step: T) -> bool
    ensures { IsTrue result ↔ (T.whole b ≡ wrap T.kind (T.whole a +ℤ T.whole step)) }
{
    b == sum(a, step)
}

// Whether each of the rows `start` to `end - 1` is the row before it plus the step, wrapping; by `&` over all of them: no
// branch per row.
#[inline(always)]
fn few_step<T: Integer>(values: &[T], step: T, start: usize, end: usize) -> bool
    requires begins { 0 < start }
    requires rising { start ≤ end }
    requires ends { end ≤ length values.now }
    ensures { IsTrue result ↔ ((k : ℕ) → start ≤ k → k < end → IsWrappedStep T.kind (map T.whole values.now) (T.whole step) k) }
{
    let mut all = true;
    for i in start..end {
        all &= is_step(values[i - 1], values[i], step);
    }
    all
}

// Whether that holds of each row after the first. There is one branch for each group of rows.
fn each_steps<T: Integer>(values: &[T], step: T) -> bool
    ensures { IsTrue result ↔ ((k : ℕ) → 0 < k → k < length values.now → IsWrappedStep T.kind (map T.whole values.now) (T.whole step) k) }
{
    let mut start = 1;
    while start < values.len() {
        let end = start + (values.len() - start).min(GROUP_ROWS);
        if !few_step(values, step, start, end) {
            return false;
        }
        start = end;
    }
    true
}

/// First and step of an arithmetic sequence, as whole numbers: row i is first + i * step. None of fewer than two rows, of rows
/// that are no sequence, and of a step out of the range of the type.
pub fn sequence_of<T: Integer>(values: &[T]) -> Option<(i128, i128)>
    ensures { result ≡ sequence_of T.kind (map T.whole values.now) }
{
    if values.len() < 2 {
        return None;
    }
    let step = step_between(values[0], values[1]);
    let Some(wrapped) = T::from_whole(step) else {
        return None;
    };
    let _step = wrapped.to_whole();
    let last = values.len() - 1;
    if !are_apart(values[0], values[last], step, last) {
        return None;
    }
    // All rows of the sequence lie between the first and the last, so they are in range, and wrapping steps are exact.
    if !each_steps(values, wrapped) {
        return None;
    }
    Some((values[0].to_whole(), step))
}
