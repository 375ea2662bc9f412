//! The number of nulls.

ghost use Rattle.std.specs.Prelude.{◌≡◌, ◌<◌, ◌≤◌, ◌+◌, ◌^◌, count_by, if◌then◌else◌, length};
ghost use Rattle.vx_base.specs.PlainValue.{is_null};
ghost use Rattle.vx_model.specs.Column.{column_of};
ghost use Rattle.vx_model.specs.Rows.{rows};
ghost use Rattle.vx_model.specs.Tree.{sparse_of};
ghost use Rattle.vx_rules.specs.Aggregates.{null_count};
ghost use Rattle.vx_sparse.specs.Kernels.{unpatched};

use vx_array::{ArrayRef, Patches};
use vx_base::Scalar;

/// The number of null rows: the null patches, and each row without a patch where the fill is null.
#[tactic(auto, using(crate::proofs::SparseSums::null_counts))]
pub(crate) fn null_count(patches: &Patches, fill: &Scalar) -> u64
    ensures { result ≡ null_count (column_of (sparse_of patches.now fill.now)) }
{
    patches.known();
    null_rows(patches.values()) + null_fills(patches, fill)
}

// The number of rows without a patch where the fill is null, else 0.
fn null_fills(patches: &Patches, fill: &Scalar) -> u64
    ensures rows { result ≡ (if is_null fill.now.value then unpatched patches.now else 0) }
    ensures most { length (rows patches.now.values) + result ≤ patches.now.array_len }
    ensures few { patches.now.array_len < 2 ^ 64 }
{
    let others = unpatched(patches);
    if fill.is_null() {
        return others;
    }
    0
}

/// The number of rows without a patch.
#[tactic(auto, using(crate::proofs::SparseSums::null_counts))]
pub(crate) fn unpatched(patches: &Patches) -> u64
    ensures rows { result ≡ unpatched patches.now }
    ensures all { length (rows patches.now.values) + result ≡ patches.now.array_len }
    ensures few { patches.now.array_len < 2 ^ 64 }
{
    patches.known();
    patches.array_len() - patches.num_patches()
}

// The number of null rows of a tree.
fn null_rows(tree: &ArrayRef) -> u64
    ensures count { result ≡ count_by is_null (rows tree.now) }
    ensures few { result ≤ length (rows tree.now) }
{
    let mut count = 0;
    for row in 0..tree.len() {
        if tree.is_null_at(row) {
            count += 1;
        }
    }
    count
}
