//! Parts of columns that are stored plain, each copied as one run.

ghost use Rattle.std.specs.Prelude.{◌≡◌, IsTrue, length};
ghost use Rattle.vx_base.specs.Answers.{Answers};
ghost use Rattle.vx_base.specs.Masks.{is_part};
ghost use Rattle.vx_base.specs.PlainType.{is_flat};
ghost use Rattle.vx_model.specs.Plain.{IsPlain};
ghost use Rattle.vx_model.specs.Rows.{rows};
ghost use Rattle.vx_model.specs.TreeType.{tree_type};
ghost use Rattle.vx_sparse.specs.Slices.{plain_part};

use std::alloc::Global;
use vx_array::{ArrayRef, Node};
use vx_base::VortexResult;

/// Whether a tree is a plain column of a flat type, as its root tells without reading a row.
pub(crate) fn is_stored(tree: &ArrayRef) -> bool
    ensures plain { IsTrue result → IsPlain tree.now }
    ensures flat { IsTrue result → IsTrue (is_flat (tree_type tree.now)) }
{
    has_no_validity(tree) && tree.dtype().is_flat() && tree.is_plain()
}

// Whether the root stores rows of a leaf type without validity bits: `is_plain` reads rows beneath such bits alone.
fn has_no_validity(tree: &ArrayRef) -> bool {
    match tree.node() {
        Node::Bool(_, valid, _) | Node::Primitive(_, valid, _) => valid.is_none(),
        Node::VarBinView(_, valid, _) => valid.is_none(),
        _ => false,
    }
}

/// The rows `start` to `end - 1` of such a tree.
pub(crate) fn stored_part(
    alloc: Global,
    tree: &ArrayRef,
    start: u64,
    end: u64,
) -> VortexResult<ArrayRef>
    requires plain { IsPlain tree.now }
    requires flat { IsTrue (is_flat (tree_type tree.now)) }
    requires part { IsTrue (is_part (length (rows tree.now)) start end) }
    ensures { Answers result (plain_part tree.now start end) }
{
    tree.gather(alloc, &[(start, end)])
}
