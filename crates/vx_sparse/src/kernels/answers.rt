//! What a row function answers of a sparse tree, from its answers for the patch values and for the fill in one row. Each of them
//! is a call of vx_rows, by its kernels of plain rows.

ghost use Rattle.std.specs.Prelude.{◌≡◌, MatchOption};
ghost use Rattle.vx_base.specs.Answers.{Answers};
ghost use Rattle.vx_base.specs.PlainScalar.{PlainScalar};
ghost use Rattle.vx_model.specs.Tree.{constant};
ghost use Rattle.vx_sparse.specs.RowAnswers.{AreAnswers, over_answers};

use crate::kernels::over_patches::over_patches;
use std::alloc::Global;
use vx_array::{ArrayRef, Node, Patches};
use vx_base::{ArrayId, Scalar, VortexResult};

/// The value of a Constant of this length; None of any other tree.
#[tactic(auto, using(crate::proofs::Places::constants))]
pub(crate) fn repeated_value(array: &ArrayRef, len: u64) -> Option<&Scalar>
    ensures { MatchOption result ((value : PlainScalar) → array.now ≡ constant value len → ⊥) (λ value. array.now ≡ constant value.now len) }
{
    if array.encoding_id() != ArrayId::Constant || array.len() != len {
        return None;
    }
    match array.node() {
        Node::Constant(value, _) => Some(value),
        _ => unreachable!(),
    }
}

/// The fill as a column of one row.
pub(crate) fn fill_row(alloc: Global, fill: &Scalar) -> VortexResult<ArrayRef>
    ensures { Answers result (constant fill.now 1) }
{
    let value = fill.copy(alloc)?;
    Ok(ArrayRef::constant(value, 1))
}

/// The patches with the answers for their values, over the one answer for the fill.
pub(crate) fn over_answers(
    alloc: Global,
    patches: &Patches,
    values: ArrayRef,
    fills: &ArrayRef,
) -> VortexResult<ArrayRef>
    requires { AreAnswers patches.now values fills.now }
    ensures { Answers result (over_answers patches.now values fills.now) }
{
    let fill = fills.scalar_at(alloc, 0)?;
    over_patches(alloc, patches, values, fill)
}
