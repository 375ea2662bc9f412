//! Slices, on the patches within.

ghost use Rattle.std.specs.Prelude.{◌≡◌, ◌<◌, ◌≤◌, ◌+◌, ◌-◌, IsTrue, length};
ghost use Rattle.vx_base.specs.Answers.{Answers, Decided};
ghost use Rattle.vx_base.specs.Masks.{is_part};
ghost use Rattle.vx_base.specs.PlainType.{is_integer};
ghost use Rattle.vx_model.specs.Column.{column_of};
ghost use Rattle.vx_model.specs.Rows.{offset_at, rows};
ghost use Rattle.vx_model.specs.Tree.{constant, sparse_of};
ghost use Rattle.vx_model.specs.TreeType.{tree_type};
ghost use Rattle.vx_model.specs.WellFormed.{indices_below};
ghost use Rattle.vx_rules.specs.Selections.{slice_refusal};
ghost use Rattle.vx_sparse.specs.Slices.{cut_tree, patches_before, plain_part, sliced_tree};

use crate::kernels::over_patches::sparse_tree;
use crate::kernels::stored_parts::{is_stored, stored_part};
use std::alloc::Global;
use vx_array::{ArrayRef, Patches};
use vx_base::{Scalar, VortexError, VortexResult};

/// The rows `start` to `end - 1`. Refuses OutOfBounds unless start <= end <= length. Reads the patches within alone, and finds them
/// by binary search.
pub(crate) fn slice(
    alloc: Global,
    patches: &Patches,
    fill: &Scalar,
    start: u64,
    end: u64,
) -> VortexResult<ArrayRef>
    requires { tree_type patches.now.values ≡ fill.now.dtype }
    ensures { Decided (slice_refusal (column_of (sparse_of patches.now fill.now)) start end) (λ out. out ≡ sliced_tree patches.now fill.now start end) result }
{
    if !has_rows(patches, start, end) {
        return Err(VortexError::OutOfBounds);
    }
    slice_within(alloc, patches, fill, start, end)
}

// Whether there are such rows.
fn has_rows(patches: &Patches, start: u64, end: u64) -> bool
    ensures { result ≡ is_part patches.now.array_len start end }
{
    start <= end && end <= patches.array_len()
}

// A slice in bounds.
fn slice_within(
    alloc: Global,
    patches: &Patches,
    fill: &Scalar,
    start: u64,
    end: u64,
) -> VortexResult<ArrayRef>
    requires typed { tree_type patches.now.values ≡ fill.now.dtype }
    requires part { IsTrue (is_part patches.now.array_len start end) }
    ensures { Answers result (sliced_tree patches.now fill.now start end) }
{
    patches.known();
    let len = end - start;
    let low = patches_before(patches, start);
    let high = patches_before(patches, end);
    if high <= low {
        return constant(alloc, fill, len);
    }
    let many = high - low;
    if many == len {
        return plain_part(alloc, patches.values(), low, high);
    }
    cut(alloc, patches, fill, start, end, low, high)
}

/// A fill in each of `len` rows.
pub(crate) fn constant(alloc: Global, fill: &Scalar, len: u64) -> VortexResult<ArrayRef>
    ensures { Answers result (constant fill.now len) }
{
    Ok(ArrayRef::constant(fill.copy(alloc)?, len))
}

// A Sparse over the patches from `low` to `high - 1`, which are those of the rows `start` to `end - 1`. The first one's index is at
// least `offset + start`, so that this sum fits.
fn cut(
    alloc: Global,
    patches: &Patches,
    fill: &Scalar,
    start: u64,
    end: u64,
    low: u64,
    high: u64,
) -> VortexResult<ArrayRef>
    requires typed { tree_type patches.now.values ≡ fill.now.dtype }
    requires part { IsTrue (is_part patches.now.array_len start end) }
    requires low { low ≡ patches_before patches.now start }
    requires high { high ≡ patches_before patches.now end }
    requires some { low < high }
    ensures { Answers result (cut_tree patches.now fill.now start end low high) }
{
    patches.known();
    let indices = plain_part(alloc, patches.indices(), low, high)?;
    let values = plain_part(alloc, patches.values(), low, high)?;
    let own = fill.copy(alloc)?;
    let len = end - start;
    let raised = patches.offset() + start;
    let within = Patches::of_rising(len, raised, indices, values);
    sparse_tree(alloc, within, own)
}

// The number of patches of the rows before a row, by binary search.
fn patches_before(patches: &Patches, row: u64) -> u64
    ensures count { result ≡ patches_before patches.now row }
    ensures most { result ≤ length (rows patches.now.values) }
{
    patches.known();
    let bound = row_index(patches, row);
    let mut low = 0;
    let mut high = patches.num_patches();
    while low < high {
        let (from, to) = narrowed(patches, bound, low, high);
        low = from;
        high = to;
    }
    low
}

// The index of a row, which may need 65 bits.
fn row_index(patches: &Patches, row: u64) -> u128
    ensures { result ≡ patches.now.offset + row }
{
    u128::from(patches.offset()) + u128::from(row)
}

// One step of the search for the number of indices below a bound, which lies between `low` and `high`.
fn narrowed(patches: &Patches, bound: u128, low: u64, high: u64) -> (u64, u64)
    requires some { low < high }
    requires within { high ≤ length (rows patches.now.indices) }
    ensures behind { low ≤ indices_below bound (rows patches.now.indices) → result.0 ≤ indices_below bound (rows patches.now.indices) }
    ensures before { indices_below bound (rows patches.now.indices) ≤ high → indices_below bound (rows patches.now.indices) ≤ result.1 }
    ensures within { result.1 ≤ high }
    ensures smaller { result.1 - result.0 < high - low }
{
    patches.known();
    let middle = low + (high - low) / 2;
    let index = index_at(patches.indices(), middle);
    if index < bound {
        return (middle + 1, high);
    }
    (low, middle)
}

/// The index at a place.
pub(crate) fn index_at(indices: &ArrayRef, place: u64) -> u128
    requires integers { IsTrue (is_integer (tree_type indices.now)) }
    requires in_range { place < length (rows indices.now) }
    ensures { result ≡ offset_at (rows indices.now) place }
{
    match indices.integer_at(place) {
        Some(index) if index >= 0 => index as u128,
        _ => 0,
    }
}

// The rows `start` to `end - 1` of a tree of any type as a plain tree: of a stored plain column as a run, else from their values.
#[tactic(auto, using(crate::proofs::SlicedRows::part_steps))]
fn plain_part(alloc: Global, tree: &ArrayRef, start: u64, end: u64) -> VortexResult<ArrayRef>
    requires order { start ≤ end }
    requires within { end ≤ length (rows tree.now) }
    ensures { Answers result (plain_part tree.now start end) }
{
    if is_stored(tree) {
        return stored_part(alloc, tree, start, end);
    }
    tree.known();
    let mut values = Vec::new(alloc);
    for row in start..end {
        values.push(tree.value_at(alloc, row)?)?;
    }
    ArrayRef::of_values(alloc, tree.dtype(), values)
}
