//! The least and the greatest of integers of one type.

ghost use Rattle.std.specs.List.{reduce};
ghost use Rattle.std.specs.Ordering.{int_cmp, ord_max, ord_min};
ghost use Rattle.std.specs.Prelude.{◌≡◌, cond, fold, length, map, option_map};
ghost use Rattle.vx_rows.specs.Extremes.{first_item, valid_items};

use vx_base::Integer;

/// The least and the greatest item, None of no items.
pub(crate) fn extremes<T: Integer>(items: &[T]) -> Option<(T, T)>
    ensures least { option_map (λ p. T.whole p.0) result ≡ reduce (ord_min int_cmp) (map T.whole items.now) }
    ensures greatest { option_map (λ p. T.whole p.1) result ≡ reduce (ord_max int_cmp) (map T.whole items.now) }
{
    match items.split_first() {
        Some((first, rest)) => Some(extremes_from(*first, rest)),
        None => None,
    }
}

// The least and the greatest of an item and further ones, in one pass over them.
fn extremes_from<T: Integer>(first: T, items: &[T]) -> (T, T)
    ensures least { T.whole result.0 ≡ fold (ord_min int_cmp) (T.whole first) (map T.whole items.now) }
    ensures greatest { T.whole result.1 ≡ fold (ord_max int_cmp) (T.whole first) (map T.whole items.now) }
{
    let mut least = first;
    let mut greatest = first;
    for row in 0..items.len() {
        let item = items[row];
        least = lesser(least, item);
        greatest = greater(greatest, item);
    }
    (least, greatest)
}

// The lesser of two items.
#[inline(always)]
fn lesser<T: Integer>(left: T, right: T) -> T
    ensures { T.whole result ≡ ord_min int_cmp (T.whole left) (T.whole right) }
{
    if right.cmp(&left).is_lt() {
        right
    } else {
        left
    }
}

// The greater of two items.
#[inline(always)]
fn greater<T: Integer>(left: T, right: T) -> T
    ensures { T.whole result ≡ ord_max int_cmp (T.whole left) (T.whole right) }
{
    if right.cmp(&left).is_lt() {
        left
    } else {
        right
    }
}

/// The least and the greatest valid item, None of no valid items.
pub(crate) fn extremes_of_valid<T: Integer>(items: &[T], mask: &[bool]) -> Option<(T, T)>
    requires { length mask.now ≡ length items.now }
    ensures least { option_map (λ p. T.whole p.0) result ≡ reduce (ord_min int_cmp) (valid_items mask.now (map T.whole items.now)) }
    ensures greatest { option_map (λ p. T.whole p.1) result ≡ reduce (ord_max int_cmp) (valid_items mask.now (map T.whole items.now)) }
{
    match first_valid(items, mask) {
        Some(first) => Some(valid_extremes(first, items, mask)),
        None => None,
    }
}

// The first valid item.
fn first_valid<T: Integer>(items: &[T], mask: &[bool]) -> Option<T>
    requires { length mask.now ≡ length items.now }
    ensures { option_map T.whole result ≡ first_item (valid_items mask.now (map T.whole items.now)) }
{
    for row in 0..items.len() {
        if mask[row] {
            return Some(items[row]);
        }
    }
    None
}

// The least and the greatest of an item and of the valid ones. Where a bit is false the first item is weighed once more, which changes
// nothing: so no branch depends on a row.
fn valid_extremes<T: Integer>(first: T, items: &[T], mask: &[bool]) -> (T, T)
    requires { length mask.now ≡ length items.now }
    ensures least { T.whole result.0 ≡ fold (ord_min int_cmp) (T.whole first) (valid_items mask.now (map T.whole items.now)) }
    ensures greatest { T.whole result.1 ≡ fold (ord_max int_cmp) (T.whole first) (valid_items mask.now (map T.whole items.now)) }
{
    let mut least = first;
    let mut greatest = first;
    for row in 0..items.len() {
        let item = weighed(mask[row], items[row], first);
        least = lesser(least, item);
        greatest = greater(greatest, item);
    }
    (least, greatest)
}

// An item, or the first one unless its bit is true.
#[inline(always)]
fn weighed<T: Integer>(bit: bool, item: T, first: T) -> T
    ensures { T.whole result ≡ cond bit (T.whole item) (T.whole first) }
{
    if bit { item } else { first }
}
