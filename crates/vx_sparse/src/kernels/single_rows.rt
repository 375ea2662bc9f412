//! Single rows, by a search for the row's patch.

ghost use Rattle.std.specs.Prelude.{◌≡◌, ◌<◌, ◌≤◌, ◌+◌, ◌-◌, ◌*◌, ◌^◌, IfSome, IsTrue, Ok, length, nat_lt, option_map, unwrap_or};
ghost use Rattle.vx_base.specs.Answers.{Answers, Decided, SurelyDecided};
ghost use Rattle.vx_base.specs.PlainScalar.{scalar};
ghost use Rattle.vx_model.specs.Column.{column_of};
ghost use Rattle.vx_model.specs.Rows.{row_at, rows};
ghost use Rattle.vx_model.specs.Tree.{sparse_of};
ghost use Rattle.vx_model.specs.TreeType.{tree_type};
ghost use Rattle.vx_rules.specs.Selections.{row_refusal, row_scalar};
ghost use Rattle.vx_sparse.specs.Kernels.{is_summable};

use crate::kernels::scalars::{copied_fill, scalar_of};
use std::alloc::Global;
use std::marker::Brand;
use std::sync::ledger::{Blank, Ledger};
use vx_array::Patches;
use vx_base::{Scalar, Steps, VortexError, VortexResult};

/// A row, by binary search for its patch, with a step for each probe. Refuses OutOfBounds where there is no such row. Takes no
/// memory for truth values and integers.
pub(crate) fn counted_row<L: Ledger>(
    alloc: Global,
    patches: &Patches,
    fill: &Scalar,
    row: u64,
    steps: &mut Steps<L>,
) -> VortexResult<Scalar>
    requires { tree_type patches.now.values ≡ fill.now.dtype }
    ensures answer { Decided (row_refusal (column_of (sparse_of patches.now fill.now)) row) (λ s. s ≡ row_scalar (column_of (sparse_of patches.now fill.now)) row) result }
    ensures no_memory { IsTrue (is_summable fill.now.dtype) → SurelyDecided (row_refusal (column_of (sparse_of patches.now fill.now)) row) (λ s. s ≡ row_scalar (column_of (sparse_of patches.now fill.now)) row) result }
    ensures rose { steps.old ≤ steps.new }
    ensures probes { 2 ^ (steps.new - steps.old) ≤ 2 * length (rows patches.now.indices) + 1 }
{
    patches.known();
    if !has_row(patches, row) {
        return Err(VortexError::OutOfBounds);
    }
    let place = patches.search(row, steps);
    placed_row(alloc, patches, fill, place)
}

// Whether there is such a row.
fn has_row(patches: &Patches, row: u64) -> bool
    ensures { result ≡ nat_lt row patches.now.array_len }
{
    row < patches.array_len()
}

/// A row, with a count of the probes that nothing reads.
pub(crate) fn single_row<L: Ledger>(
    alloc: Global,
    patches: &Patches,
    fill: &Scalar,
    row: u64,
    blank: Blank,
) -> VortexResult<Scalar>
    requires typed { tree_type patches.now.values ≡ fill.now.dtype }
    requires name { blank.name ≡ L.name }
    requires parts { blank.parts ≡ L.parts }
    requires some { 0 < L.parts }
    ensures answer { Decided (row_refusal (column_of (sparse_of patches.now fill.now)) row) (λ s. s ≡ row_scalar (column_of (sparse_of patches.now fill.now)) row) result }
    ensures no_memory { IsTrue (is_summable fill.now.dtype) → SurelyDecided (row_refusal (column_of (sparse_of patches.now fill.now)) row) (λ s. s ≡ row_scalar (column_of (sparse_of patches.now fill.now)) row) result }
{
    let mut steps = Steps::<L>::new(blank);
    counted_row(alloc, patches, fill, row, &mut steps)
}

/// A row.
pub(crate) fn row(alloc: Global, patches: &Patches, fill: &Scalar, row: u64) -> VortexResult<Scalar>
    requires { tree_type patches.now.values ≡ fill.now.dtype }
    ensures answer { Decided (row_refusal (column_of (sparse_of patches.now fill.now)) row) (λ s. s ≡ row_scalar (column_of (sparse_of patches.now fill.now)) row) result }
    ensures no_memory { IsTrue (is_summable fill.now.dtype) → SurelyDecided (row_refusal (column_of (sparse_of patches.now fill.now)) row) (λ s. s ≡ row_scalar (column_of (sparse_of patches.now fill.now)) row) result }
{
    single_row::<Brand>(alloc, patches, fill, row, Blank::new(1))
}

// The patch at a place, the fill without one.
fn placed_row(
    alloc: Global,
    patches: &Patches,
    fill: &Scalar,
    place: Option<u64>,
) -> VortexResult<Scalar>
    requires typed { tree_type patches.now.values ≡ fill.now.dtype }
    requires within { IfSome place (λ p. p < length (rows patches.now.values)) }
    ensures answer { Answers result (scalar fill.now.dtype (unwrap_or (option_map (row_at (rows patches.now.values)) place) fill.now.value)) }
    ensures no_memory { IsTrue (is_summable fill.now.dtype) → result ≡ Ok (scalar fill.now.dtype (unwrap_or (option_map (row_at (rows patches.now.values)) place) fill.now.value)) }
{
    let Some(place) = place else {
        return copied_fill(alloc, fill);
    };
    let kind = fill.dtype();
    let patched = patches.values();
    if !kind.is_flat() {
        return patched.scalar_at(alloc, place);
    }
    patched.known();
    scalar_of(alloc, kind, patched.cell_at(place))
}
