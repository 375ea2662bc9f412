//! Which rows of a plain column of integers are patches of a fill: loops over slices.

ghost use Rattle.std.specs.List.{range_with_len};
ghost use Rattle.std.specs.Ordering.{int_eq};
ghost use Rattle.std.specs.Prelude.{◌≡◌, ◌<◌, IsTrue, length, map, not, ◌||◌, filter, slice_index_or, pos, true, false, ℤ, Some, ◌++◌, ◌∷◌, [], if◌then◌else◌};
ghost use Rattle.vx_base.specs.Answers.{Answers, OrMemory};
ghost use Rattle.vx_base.specs.Integers.{lies_in};
ghost use Rattle.vx_base.specs.PlainType.{is_integer, integer_of};
ghost use Rattle.vx_base.specs.PlainValue.{int};
ghost use Rattle.vx_model.specs.Plain.{IsPlain};
ghost use Rattle.vx_model.specs.Refusals.{validity_length};
ghost use Rattle.vx_model.specs.Rows.{rows, valid_rows};
ghost use Rattle.vx_model.specs.TreeType.{tree_type};
ghost use Rattle.vx_values.specs.IntsOf.{ptype_of, wholes_of};
ghost use Rattle.vx_sparse_array.specs.Filling.{filling_of, value_filling, null_filling, patched_rows};

use std::alloc::Global;
use vx_array::ArrayRef;
use vx_base::{IntList, Integer, Mask, VortexResult};
use vx_values::Ints;

// Appends the number of a row where it passes a test.
#[inline(always)]
pub(crate) fn push_where(numbers: &mut Vec<u64>, row: u64, passes: bool) -> VortexResult<()>
    ensures { OrMemory result (λ _. numbers.new.items ≡ numbers.old.items ++ (if passes then row ∷ [] else [])) }
{
    if passes {
        numbers.push(row)?;
    }
    Ok(())
}

// The numbers of the true bits.
#[tactic(auto, using(crate::proofs::LoopLemmas::row_loops))]
fn true_rows(alloc: Global, bits: &[bool]) -> VortexResult<IntList<u64>>
    ensures { Answers result (filter (λ i. slice_index_or bits.now i false) (range_with_len 0 (length bits.now))) }
{
    let mut numbers = Vec::new(alloc);
    for row in 0..bits.len() {
        push_where(&mut numbers, row as u64, bits[row])?;
    }
    Ok(IntList::from_vec(numbers))
}

// The numbers of all rows.
#[tactic(auto, using(crate::proofs::LoopLemmas::row_loops))]
fn all_rows(alloc: Global, len: u64) -> VortexResult<IntList<u64>>
    ensures { Answers result (range_with_len 0 len) }
{
    let mut numbers = Vec::with_capacity(alloc, len as usize)?;
    for row in 0..len {
        numbers.push(row)?;
    }
    Ok(IntList::from_vec(numbers))
}

// Whether an item differs from the fill.
#[inline(always)]
fn differs_at<T: Integer>(items: &[T], row: usize, fill: T) -> bool
    requires { row < length items.now }
    ensures { result ≡ not (int_eq (slice_index_or (map T.whole items.now) row (pos 0)) (T.whole fill)) }
{
    items[row] != fill
}

// Whether an item differs from the fill, or its bit is false.
#[inline(always)]
fn is_left_at<T: Integer>(items: &[T], bits: &[bool], row: usize, fill: T) -> bool
    requires in_items { row < length items.now }
    requires in_bits { row < length bits.now }
    ensures { result ≡ (not (slice_index_or bits.now row false) || not (int_eq (slice_index_or (map T.whole items.now) row (pos 0)) (T.whole fill))) }
{
    !bits[row] || differs_at(items, row, fill)
}

// The numbers of the items that differ from the fill.
#[tactic(auto, using(crate::proofs::LoopLemmas::row_loops))]
fn other_rows<T: Integer>(alloc: Global, items: &[T], fill: T) -> VortexResult<IntList<u64>>
    ensures { Answers result (filter (λ i. not (int_eq (slice_index_or (map T.whole items.now) i (pos 0)) (T.whole fill))) (range_with_len 0 (length items.now))) }
{
    let mut numbers = Vec::new(alloc);
    for row in 0..items.len() {
        push_where(&mut numbers, row as u64, differs_at(items, row, fill))?;
    }
    Ok(IntList::from_vec(numbers))
}

// The numbers of the items that differ from the fill, or whose bit is false.
#[tactic(auto, using(crate::proofs::LoopLemmas::row_loops))]
fn null_or_other_rows<T: Integer>(
    alloc: Global,
    items: &[T],
    bits: &[bool],
    fill: T,
) -> VortexResult<IntList<u64>>
    requires { length bits.now ≡ length items.now }
    ensures { Answers result (filter (λ i. not (slice_index_or bits.now i false) || not (int_eq (slice_index_or (map T.whole items.now) i (pos 0)) (T.whole fill))) (range_with_len 0 (length items.now))) }
{
    let mut numbers = Vec::new(alloc);
    for row in 0..items.len() {
        push_where(&mut numbers, row as u64, is_left_at(items, bits, row, fill))?;
    }
    Ok(IntList::from_vec(numbers))
}

// The numbers of the rows that are null or differ from a fill of their type.
#[tactic(auto, using(crate::proofs::IntegerRows::integer_rows))]
fn rows_but<T: Integer>(
    alloc: Global,
    items: &[T],
    valid: &Option<Mask>,
    fill: i128,
) -> VortexResult<IntList<u64>>
    requires mask { validity_length valid.now (length items.now) ≡ true }
    requires held { IsTrue (lies_in T.kind fill) }
    ensures { Answers result (patched_rows (value_filling (int fill)) (valid_rows valid.now (map int (map T.whole items.now)))) }
{
    let Some(fill) = T::from_whole(fill) else {
        unreachable!();
    };
    match valid {
        Some(mask) => null_or_other_rows(alloc, items, mask.as_slice(), fill),
        None => other_rows(alloc, items, fill),
    }
}

macro_rules! rows_but_by_type {
    ($alloc:expr, $items:expr, $valid:expr, $fill:expr; $($kind:ident),*) => {
        match $items {
            $(Ints::$kind(items) => rows_but($alloc, items.as_slice(), $valid, $fill),)*
        }
    };
}

// The numbers of the rows that are null or differ from a fill of their type, over integers of any type.
fn rows_of_ints_but(
    alloc: Global,
    items: &Ints,
    valid: &Option<Mask>,
    fill: i128,
) -> VortexResult<IntList<u64>>
    requires mask { validity_length valid.now (length (wholes_of items.now)) ≡ true }
    requires held { IsTrue (lies_in (ptype_of items.now) fill) }
    ensures { Answers result (patched_rows (value_filling (int fill)) (valid_rows valid.now (map int (wholes_of items.now)))) }
{
    rows_but_by_type!(alloc, items, valid, fill; U8, U16, U32, U64, I8, I16, I32, I64)
}

// The numbers of the valid rows.
#[tactic(auto, using(crate::proofs::IntegerRows::integer_rows))]
fn valid_numbers(alloc: Global, items: &Ints, valid: &Option<Mask>) -> VortexResult<IntList<u64>>
    requires mask { validity_length valid.now (length (wholes_of items.now)) ≡ true }
    ensures { Answers result (patched_rows null_filling (valid_rows valid.now (map int (wholes_of items.now)))) }
{
    match valid {
        Some(mask) => true_rows(alloc, mask.as_slice()),
        None => all_rows(alloc, items.len()),
    }
}

/// The numbers of the rows of a plain column of integers that are patches of a fill: over an integer those that are null
/// or differ from it; over null, where `fill` is None, those that have a value.
#[tactic(auto, using(vx_model::proofs::PrimitiveLemmas::plain_roots))]
pub fn patched_rows(
    alloc: Global,
    plain: &ArrayRef,
    fill: Option<i128>,
) -> VortexResult<IntList<u64>>
    requires plain { IsPlain plain.now }
    requires integer { IsTrue (is_integer (tree_type plain.now)) }
    requires held { (z : ℤ) → fill ≡ Some z → IsTrue (lies_in (integer_of (tree_type plain.now)) z) }
    ensures { Answers result (patched_rows (filling_of fill) (rows plain.now)) }
{
    let (items, valid, _) = plain.as_primitive();
    match fill {
        Some(fill) => rows_of_ints_but(alloc, items, valid, fill),
        None => valid_numbers(alloc, items, valid),
    }
}
