//! The sum of truth values and integers.

ghost use Rattle.std.specs.Prelude.{◌≡◌, ◌<◌, ◌^◌, ◌-ℤ◌, IsTrue, length, map, pos, sum_by};
ghost use Rattle.vx_base.specs.Answers.{SurelyDecided};
ghost use Rattle.vx_base.specs.Undelta.{total};
ghost use Rattle.vx_model.specs.Column.{column_of};
ghost use Rattle.vx_model.specs.Rows.{rows};
ghost use Rattle.vx_model.specs.Tree.{sparse_of};
ghost use Rattle.vx_model.specs.TreeType.{tree_type};
ghost use Rattle.vx_rules.specs.Aggregates.{sum, sum_refusal, summand};
ghost use Rattle.vx_sparse.specs.Kernels.{is_summable};
ghost use Rattle.vx_sparse.specs.SumParts.{downs, ups};

use crate::kernels::nulls::unpatched;
use crate::kernels::sum_parts::{is_summable, parts, sum_ptype, whole_scalar};
use vx_array::{ArrayRef, Patches};
use vx_base::{Scalar, VortexError, VortexResult};

/// The exact sum, as `u64` of truth values and unsigned integers and as `i64` of signed ones; null where it is out of range. Refuses
/// MismatchedTypes for any other type. Takes no memory.
pub(crate) fn sum(patches: &Patches, fill: &Scalar) -> VortexResult<Scalar>
    requires { tree_type patches.now.values ≡ fill.now.dtype }
    ensures { SurelyDecided (sum_refusal (column_of (sparse_of patches.now fill.now))) (λ s. s ≡ sum (column_of (sparse_of patches.now fill.now))) result }
{
    let kind = fill.dtype();
    if !is_summable(kind) {
        return Err(VortexError::MismatchedTypes);
    }
    let (up, down) = row_parts(patches, fill);
    whole_scalar(sum_ptype(kind), up, down)
}

// The sum of all rows as the difference of two sums that never fall: neither depends on the order of the rows. Below 2^64 rows of
// parts below 2^64 neither overflows 128 bits.
#[tactic(auto, using(crate::proofs::KernelTypes::flat_types))]
fn row_parts(patches: &Patches, fill: &Scalar) -> (u128, u128)
    requires typed { tree_type patches.now.values ≡ fill.now.dtype }
    requires summable { IsTrue (is_summable fill.now.dtype) }
    ensures { total (map summand (rows (sparse_of patches.now fill.now))) ≡ pos result.0 -ℤ pos result.1 }
{
    patches.known();
    fill.known();
    let (patched_up, patched_down) = tree_parts(patches.values());
    let (up, down) = parts(fill.cell());
    let others = u128::from(unpatched(patches));
    let fill_up = others * up;
    let fill_down = others * down;
    let whole_up = patched_up + fill_up;
    let whole_down = patched_down + fill_down;
    (whole_up, whole_down)
}

// Tells a proof that there are fewer than 2^64 rows.
fn counted(tree: &ArrayRef)
    ensures { length (rows tree.now) < 2 ^ 64 }
{
    let _len = tree.len();
}

// The positive and the negative part of the sum of a tree.
#[tactic(auto, using(crate::proofs::KernelTypes::flat_types))]
fn tree_parts(tree: &ArrayRef) -> (u128, u128)
    requires { IsTrue (is_summable (tree_type tree.now)) }
    ensures up { result.0 ≡ sum_by ups (rows tree.now) }
    ensures down { result.1 ≡ sum_by downs (rows tree.now) }
{
    tree.known();
    counted(tree);
    let mut up = 0;
    let mut down = 0;
    for row in 0..tree.len() {
        let (more_up, more_down) = parts(tree.cell_at(row));
        up += more_up;
        down += more_down;
    }
    (up, down)
}
