//! Counting of distinct integers in a narrow range: a table has a count for each number of the range.

ghost use Rattle.std.specs.Prelude.{◌≡◌, ◌<◌, ◌≤◌, ◌^◌, ◌+ℤ◌, pos, length, map, true, vec_len};
ghost use Rattle.std.specs.List.{All};
ghost use Rattle.vx_base.specs.Answers.{OrMemory, Answers};
ghost use Rattle.vx_base.specs.PlainValue.{int};
ghost use Rattle.vx_model.specs.Refusals.{validity_length};
ghost use Rattle.vx_model.specs.Rows.{masked_rows, valid_rows};
ghost use Rattle.vx_stats.specs.Runs.{whole_counts};
ghost use Rattle.vx_stats.specs.Stats.{valid_wholes, distinct_counts};
ghost use Rattle.vx_stats.specs.Tables.{LiesBetween, entries, table_of};

use crate::integer::distinct::{Counts, DistinctInfo};
use crate::integer::range::Range;
use crate::integer::tally::item_or;
use std::alloc::Global;
use vx_base::{Integer, Mask, VortexResult};

// The count of each of the `len` numbers of a range.
fn table_of_all<T: Integer>(
    alloc: Global,
    items: &[T],
    range: Range<T>,
    len: usize,
) -> VortexResult<Vec<u32>>
    requires few { length items.now < 2 ^ 32 }
    requires len { T.whole range.greatest +ℤ pos 1 ≡ T.whole range.least +ℤ pos len }
    requires within { All (LiesBetween (T.whole range.least) (T.whole range.greatest)) (map T.whole items.now) }
    ensures table { OrMemory result (λ table. table.items ≡ table_of (T.whole range.least) len (map T.whole items.now)) }
    ensures len { OrMemory result (λ table. vec_len table ≡ len) }
{
    let mut table = vec![in alloc; 0u32; len]?;
    for row in 0..items.len() {
        table[range.place_of(items[row])] += 1;
    }
    Ok(table)
}

// The count of each of the `len` numbers of a range, of the integers whose bit is true. Where a bit is false, 0 is added
// to the count of the least number: that takes no branch, which scattered nulls would make unpredictable.
fn table_of_valid<T: Integer>(
    alloc: Global,
    items: &[T],
    bits: &[bool],
    range: Range<T>,
    len: usize,
) -> VortexResult<Vec<u32>>
    requires few { length items.now < 2 ^ 32 }
    requires bits { length bits.now ≡ length items.now }
    requires some { 0 < len }
    requires len { T.whole range.greatest +ℤ pos 1 ≡ T.whole range.least +ℤ pos len }
    requires within { All (LiesBetween (T.whole range.least) (T.whole range.greatest)) (valid_wholes (masked_rows bits.now (map int (map T.whole items.now)))) }
    ensures table { OrMemory result (λ table. table.items ≡ table_of (T.whole range.least) len (valid_wholes (masked_rows bits.now (map int (map T.whole items.now))))) }
    ensures len { OrMemory result (λ table. vec_len table ≡ len) }
{
    let mut table = vec![in alloc; 0u32; len]?;
    for row in 0..items.len() {
        let item = item_or(bits[row], items[row], range.least);
        table[range.place_of(item)] += u32::from(bits[row]);
    }
    Ok(table)
}

// The count of each of the `len` numbers of a range, of the valid rows.
fn table_of<T: Integer>(
    alloc: Global,
    items: &[T],
    valid: &Option<Mask>,
    range: Range<T>,
    len: usize,
) -> VortexResult<Vec<u32>>
    requires mask { validity_length valid.now (length items.now) ≡ true }
    requires few { length items.now < 2 ^ 32 }
    requires some { 0 < len }
    requires len { T.whole range.greatest +ℤ pos 1 ≡ T.whole range.least +ℤ pos len }
    requires within { All (LiesBetween (T.whole range.least) (T.whole range.greatest)) (valid_wholes (valid_rows valid.now (map int (map T.whole items.now)))) }
    ensures table { OrMemory result (λ table. table.items ≡ table_of (T.whole range.least) len (valid_wholes (valid_rows valid.now (map int (map T.whole items.now))))) }
    ensures len { OrMemory result (λ table. vec_len table ≡ len) }
{
    match valid {
        Some(mask) => table_of_valid(alloc, items, mask.as_slice(), range, len),
        None => table_of_all(alloc, items, range, len),
    }
}

// The numbers of a range whose count in the table is above 0, with that count.
fn entries<T: Integer>(alloc: Global, table: &[u32], range: Range<T>) -> VortexResult<Counts<T>>
    requires { T.whole range.greatest +ℤ pos 1 ≡ T.whole range.least +ℤ pos (length table.now) }
    ensures entries { OrMemory result (λ counts. whole_counts T.whole counts ≡ entries (T.whole range.least) table.now) }
    ensures few { OrMemory result (λ counts. length counts ≤ length table.now) }
{
    let mut counts = Vec::with_capacity(alloc, table.len())?;
    for place in 0..table.len() {
        let count = table[place];
        if count > 0 {
            counts.push((range.value_at(place), count))?;
        }
    }
    Ok(Counts::from_vec(counts))
}

/// The distinct integers of the valid rows, ascending, with their counts. All of them lie in `range`, which has `len`
/// numbers.
pub(crate) fn dense_info<T: Integer>(
    alloc: Global,
    items: &[T],
    valid: &Option<Mask>,
    range: Range<T>,
    len: usize,
) -> VortexResult<DistinctInfo<T>>
    requires mask { validity_length valid.now (length items.now) ≡ true }
    requires few { length items.now < 2 ^ 32 }
    requires bounds { (0 < len) × (len < 2 ^ 32) }
    requires len { T.whole range.greatest +ℤ pos 1 ≡ T.whole range.least +ℤ pos len }
    requires within { All (LiesBetween (T.whole range.least) (T.whole range.greatest)) (valid_wholes (valid_rows valid.now (map int (map T.whole items.now)))) }
    ensures { Answers result (distinct_counts (valid_rows valid.now (map int (map T.whole items.now)))) }
{
    let table = table_of(alloc, items, valid, range, len)?;
    Ok(DistinctInfo::new(entries(alloc, table.as_slice(), range)?))
}
