//! Rows chosen by pieces, over every type.

ghost use Rattle.std.specs.Prelude.{◌≡◌, IsTrue, length};
ghost use Rattle.vx_base.specs.Answers.{OrMemory};
ghost use Rattle.vx_base.specs.Defaults.{null_or_default};
ghost use Rattle.vx_model.specs.Column.{column, column_of};
ghost use Rattle.vx_model.specs.Plain.{IsPlain};
ghost use Rattle.vx_model.specs.Rows.{rows};
ghost use Rattle.vx_model.specs.TreeType.{tree_type};
ghost use Rattle.vx_pieces.specs.Pieces.{are_pieces, pieced};

use std::alloc::Global;
use vx_array::ArrayRef;
use vx_base::VortexResult;
use vx_pieces::Piece;

/// The rows that pieces give, as a plain tree; a filled row is null, or the default where the type isn't nullable. `pieces`
/// are in bounds of the tree's rows.
pub(crate) fn pieced(alloc: Global, tree: &ArrayRef, pieces: &[Piece]) -> VortexResult<ArrayRef>
    requires { IsTrue (are_pieces (length (rows tree.now)) pieces.now) }
    ensures rows { OrMemory result (λ out. column_of out ≡ column (tree_type tree.now) (pieced (null_or_default (tree_type tree.now)) pieces.now (rows tree.now))) }
    ensures plain { OrMemory result (λ out. IsPlain out) }
{
    tree.known();
    tree.plain_pieces(alloc, pieces)
}
