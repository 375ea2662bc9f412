//! The number of runs of integers that never fall: their distinct count, which one pass finds without memory.

ghost use Rattle.std.specs.Prelude.{◌≡◌, ◌<◌, ◌^◌, length, map, IfSome, int_lt};
ghost use Rattle.vx_base.specs.PlainValue.{int};
ghost use Rattle.vx_model.specs.Rows.{valid_rows};
ghost use Rattle.vx_stats.specs.Distinct.{distinct};
ghost use Rattle.vx_stats.specs.Stats.{distinct_count};

use crate::integer::tally::change;
use vx_base::{Integer, Mask};

#[inline(always)]
fn is_less<T: Integer>(a: T, b: T) -> bool
    ensures { result ≡ int_lt (T.whole a) (T.whole b) }
{
    a < b
}

// The number of runs of integers that never fall: equal ones stand side by side, so it is the distinct count. None at the
// first integer below the one before it, which ends the pass.
fn runs_of_all<T: Integer>(items: &[T]) -> Option<u32>
    requires { length items.now < 2 ^ 32 }
    ensures { IfSome result (λ runs. runs ≡ length (distinct (map T.whole items.now))) }
{
    if items.is_empty() {
        return Some(0);
    }
    let (mut last, mut runs) = (items[0], 1);
    for row in 1..items.len() {
        let item = items[row];
        if is_less(item, last) {
            return None;
        }
        runs += change(last, item);
        last = item;
    }
    Some(runs)
}

/// The distinct count of integers without nulls that never fall; None of any others.
pub(crate) fn rising_runs<T: Integer>(items: &[T], valid: &Option<Mask>) -> Option<u32>
    requires { length items.now < 2 ^ 32 }
    ensures { IfSome result (λ runs. runs ≡ distinct_count (valid_rows valid.now (map int (map T.whole items.now)))) }
{
    match valid {
        Some(_) => None,
        None => runs_of_all(items),
    }
}
