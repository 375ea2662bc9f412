//! The rows of the texts of a column that is mostly null, and the Sparse over their tree.

ghost use Rattle.std.specs.List.{range_with_len};
ghost use Rattle.std.specs.Prelude.{◌≡◌, ◌≤◌, ◌*◌, ◌-◌, ◌&&◌, ◌++◌, ◌∷◌, [], nat_lt, filter, IsTrue, length, true, if◌then◌else◌};
ghost use Rattle.vx_base.specs.Answers.{Answers, OrMemory};
ghost use Rattle.vx_base.specs.PlainType.{is_bytes};
ghost use Rattle.vx_model.specs.Column.{column_of};
ghost use Rattle.vx_model.specs.Plain.{IsPlain};
ghost use Rattle.vx_model.specs.Rows.{rows, is_valid_at};
ghost use Rattle.vx_model.specs.TreeType.{tree_type};
ghost use Rattle.vx_scheme.specs.Asked.{most_rows, FitParts};
ghost use Rattle.vx_scheme.specs.Meaning.{split_of};
ghost use Rattle.vx_sparse_array.specs.Filling.{null_filling, patched_rows};
ghost use Rattle.vx_schemes_common.specs.OnePart.{part_where, over_part};
ghost use Rattle.vx_schemes_text.specs.NullSparse.Meaning.{null_dominated_estimate};
ghost use Rattle.vx_schemes_text.specs.NullSparse.Tree.{is_null_dominated, sparse_texts, value_indices};

use crate::views::{value_count, views_of};
use std::alloc::Global;
use vx_array::{ArrayRef, Arrays, Patches};
use vx_base::{Cell, Fraction, IntList, Mask, Scalar, VortexResult, Words};
use vx_scheme::{EstimateVerdict, Split};
use vx_schemes_common::{narrowed_rising, one_part, only};
use vx_sparse_array::rows_at;
use vx_values::is_valid;

// Whether more than 9 of 10 rows are null, but not all of them. With few rows no product overflows.
fn is_null_dominated(rows: u64, values: u64) -> bool
    requires rows { rows ≤ most_rows }
    requires values { values ≤ rows }
    ensures { result ≡ (nat_lt 0 values && nat_lt (9 * rows) (10 * (rows - values))) }
{
    values > 0 && 9 * rows < 10 * (rows - values)
}

/// rows / values where more than 9 of 10 rows are null, but not all; else Skip.
pub(crate) fn judged(array: &ArrayRef) -> EstimateVerdict
    requires plain { IsPlain array.now }
    requires bytes { IsTrue (is_bytes (tree_type array.now)) }
    requires few { length (rows array.now) ≤ most_rows }
    ensures { result ≡ null_dominated_estimate (column_of array.now) }
{
    let (rows, values) = (array.len(), value_count(array));
    if is_null_dominated(rows, values) {
        EstimateVerdict::Ratio(Fraction::new(rows, values))
    } else {
        EstimateVerdict::Skip
    }
}

// Appends the number of a row where it is valid.
#[inline(always)]
fn push_valid(numbers: &mut Vec<u64>, valid: &Option<Mask>, row: u64) -> VortexResult<()>
    ensures { OrMemory result (λ _. numbers.new.items ≡ numbers.old.items ++ (if is_valid_at valid.now row then row ∷ [] else [])) }
{
    if is_valid(valid, row) {
        numbers.push(row)?;
    }
    Ok(())
}

// The numbers of the valid rows.
#[tactic(auto, using(vx_sparse_array::proofs::LoopLemmas::row_loops))]
fn valid_numbers(alloc: Global, valid: &Option<Mask>, len: u64) -> VortexResult<Words>
    ensures { Answers result (filter (is_valid_at valid.now) (range_with_len 0 len)) }
{
    let mut numbers = Vec::new(alloc);
    for row in 0..len {
        push_valid(&mut numbers, valid, row)?;
    }
    Ok(IntList::from_vec(numbers))
}

// The numbers of the rows with texts.
fn text_rows(alloc: Global, array: &ArrayRef) -> VortexResult<Words>
    requires plain { IsPlain array.now }
    requires bytes { IsTrue (is_bytes (tree_type array.now)) }
    ensures { Answers result (patched_rows null_filling (rows array.now)) }
{
    let (_, valid) = views_of(array);
    valid_numbers(alloc, valid, array.len())
}

/// The rows of the texts as the only part; a column that isn't mostly null, or has no text, stays as it is.
pub(crate) fn split_by(alloc: Global, array: &ArrayRef) -> VortexResult<Split>
    requires plain { IsPlain array.now }
    requires bytes { IsTrue (is_bytes (tree_type array.now)) }
    requires few { length (rows array.now) ≤ most_rows }
    ensures { Answers result (split_of (part_where (is_null_dominated (rows array.now)) (value_indices (column_of array.now)))) }
{
    if !is_null_dominated(array.len(), value_count(array)) {
        return Ok(Split::Kept);
    }
    one_part(alloc, narrowed_rising(alloc, text_rows(alloc, array)?)?)
}

// The Sparse of null in every row but those of the texts, over a tree of their numbers.
fn sparse_tree(alloc: Global, array: &ArrayRef, indices: ArrayRef) -> VortexResult<ArrayRef>
    requires plain { IsPlain array.now }
    requires bytes { IsTrue (is_bytes (tree_type array.now)) }
    requires dominated { is_null_dominated (rows array.now) ≡ true }
    requires indices { column_of indices ≡ value_indices (column_of array.now) }
    ensures { Answers result (sparse_texts (column_of array.now) indices) }
{
    array.known();
    let numbers = text_rows(alloc, array)?;
    let values = rows_at(alloc, array, numbers.as_slice())?;
    let fill = Scalar::of_cell(alloc, array.dtype(), Cell::Null)?;
    let patches = Patches::of_rising(array.len(), 0, indices, values);
    match ArrayRef::sparse(alloc, patches, fill) {
        Ok(tree) => Ok(tree),
        Err(refused) => Err(refused.error),
    }
}

/// The Sparse over the tree of the part; the column stays plain without one.
pub(crate) fn joined_by(alloc: Global, array: &ArrayRef, trees: Arrays) -> VortexResult<ArrayRef>
    requires plain { IsPlain array.now }
    requires bytes { IsTrue (is_bytes (tree_type array.now)) }
    requires few { length (rows array.now) ≤ most_rows }
    requires trees { FitParts (part_where (is_null_dominated (rows array.now)) (value_indices (column_of array.now))) trees }
    ensures { Answers result (over_part sparse_texts (column_of array.now) trees) }
{
    match only(trees) {
        Some(indices) => sparse_tree(alloc, array, indices),
        None => array.copy(alloc),
    }
}
