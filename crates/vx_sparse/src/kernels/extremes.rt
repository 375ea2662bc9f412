//! The least and the greatest value.

ghost use Rattle.std.specs.Prelude.{◌≡◌, IsTrue};
ghost use Rattle.vx_base.specs.Answers.{Decided, SurelyDecided};
ghost use Rattle.vx_base.specs.PlainType.{is_flat};
ghost use Rattle.vx_model.specs.Column.{column_of};
ghost use Rattle.vx_model.specs.Rows.{rows};
ghost use Rattle.vx_model.specs.Tree.{sparse_of};
ghost use Rattle.vx_model.specs.TreeType.{tree_type};
ghost use Rattle.vx_rules.specs.Aggregates.{min_max, min_max_refusal};
ghost use Rattle.vx_sparse.specs.CellPairs.{cell_pair};
ghost use Rattle.vx_sparse.specs.Kernels.{extremes, is_summable, row_values};

use crate::kernels::cells::widened;
use crate::kernels::nulls::unpatched;
use crate::kernels::scalars::scalar_pair;
use std::alloc::Global;
use vx_array::{ArrayRef, Patches};
use vx_base::{Cell, Scalar, VortexError, VortexResult};

/// The least and the greatest valid value of the patches, and of the fill where a row has no patch; None without one. Refuses
/// MismatchedTypes for structs, lists and the null type. Takes no memory for truth values and integers.
pub(crate) fn min_max(
    alloc: Global,
    patches: &Patches,
    fill: &Scalar,
) -> VortexResult<Option<(Scalar, Scalar)>>
    requires { tree_type patches.now.values ≡ fill.now.dtype }
    ensures answer { Decided (min_max_refusal (column_of (sparse_of patches.now fill.now))) (λ pair. pair ≡ min_max (column_of (sparse_of patches.now fill.now))) result }
    ensures no_memory { IsTrue (is_summable fill.now.dtype) → SurelyDecided (min_max_refusal (column_of (sparse_of patches.now fill.now))) (λ pair. pair ≡ min_max (column_of (sparse_of patches.now fill.now))) result }
{
    patches.known();
    fill.known();
    let kind = fill.dtype();
    if !kind.is_flat() {
        return Err(VortexError::MismatchedTypes);
    }
    scalar_pair(alloc, kind, row_extremes(patches, fill))
}

// The extremes of the values in the rows.
#[tactic(auto, using(crate::proofs::ExtremeSteps::extreme_steps))]
fn row_extremes<'a>(patches: &'a Patches, fill: &'a Scalar) -> Option<(Cell<'a>, Cell<'a>)>
    requires typed { tree_type patches.now.values ≡ fill.now.dtype }
    requires flat { IsTrue (is_flat fill.now.dtype) }
    ensures { cell_pair result ≡ extremes (row_values patches.now fill.now) }
{
    let patched = tree_extremes(patches.values());
    if unpatched(patches) > 0 {
        widened(patched, fill.cell())
    } else {
        patched
    }
}

// The extremes of a tree of a flat type.
#[tactic(auto, using(crate::proofs::ExtremeSteps::extreme_steps))]
fn tree_extremes(tree: &ArrayRef) -> Option<(Cell<'_>, Cell<'_>)>
    requires { IsTrue (is_flat (tree_type tree.now)) }
    ensures { cell_pair result ≡ extremes (rows tree.now) }
{
    let mut found = None;
    for row in 0..tree.len() {
        found = widened(found, tree.cell_at(row));
    }
    found
}
