//! Whether a tree is storable.

ghost use Rattle.std.specs.Prelude.{◌≡◌, ◌&&◌, nat_le};
ghost use Rattle.vx_file.specs.Answers.{are_storable, is_storable};
ghost use Rattle.vx_model.specs.Nodes.{children};
ghost use Rattle.vx_spelling.specs.Fields.{are_few};
ghost use Rattle.vx_spelling.specs.Storable.{all_within, depth, is_within};
ghost use Rattle.std.specs.List.{list_all};
ghost use Rattle.vx_model.specs.Tree.{Tree};

use crate::nesting::{MOST_TYPES, nests};
use vx_array::{ArrayRef, Arrays};

// The most rows of a node in a file: 2^31 + 5,121. No compression makes more, and checking a node's rows is bounded
// whatever row count a file names.
const MOST_ROWS: u64 = 2_147_488_769;

/// The most nodes on a path of a tree in a file.
pub(crate) const MOST_NODES: u8 = 64;

/// Whether a row count is within the row limit.
pub(crate) fn are_few(rows: u64) -> bool
    ensures { result ≡ are_few rows }
{
    rows <= MOST_ROWS
}

/// Whether a node is within the limits of rows and types: at most 2^31 + 5,121 rows, and at most 64 types that nest.
pub(crate) fn is_within(tree: &ArrayRef) -> bool
    ensures { result ≡ is_within tree.now }
{
    are_few(tree.len()) && nests(tree.dtype(), MOST_TYPES)
}

// Whether at most `limit` nodes stand on a path, each within the limits.
#[cycle(is_stored)]
#[tactic(auto, using(crate::proofs::Children::storing))]
fn is_stored(tree: &ArrayRef, limit: u8) -> bool
    ensures { result ≡ (nat_le (depth tree.now) limit && all_within tree.now) }
{
    limit > 0 && is_within(tree) && are_stored(tree, limit - 1)
}

// `is_stored` of each child.
#[cycle(is_stored)]
fn are_stored(tree: &ArrayRef, limit: u8) -> bool
    ensures { result ≡ list_all (λ (child : Tree). nat_le (depth child) limit && all_within child) (children tree.now) }
{
    for place in 0..tree.num_children() {
        let Some(child) = tree.child(place) else {
            unreachable!();
        };
        if !is_stored(child, limit) {
            return false;
        }
    }
    true
}

/// Whether a tree is storable: at most 64 nodes on a path, each within the limits.
pub(crate) fn is_storable(tree: &ArrayRef) -> bool
    ensures { result ≡ is_storable tree.now }
{
    is_stored(tree, MOST_NODES)
}

/// Whether each tree is storable.
pub(crate) fn are_storable(trees: &Arrays) -> bool
    ensures { result ≡ are_storable trees.now }
{
    for tree in trees.as_slice() {
        if !is_storable(tree) {
            return false;
        }
    }
    true
}
