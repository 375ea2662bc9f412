//! The zigzags of a plain column of integers.

ghost use Rattle.std.specs.Prelude.{◌≡◌, true};
ghost use Rattle.vx_base.specs.Answers.{Answers};
ghost use Rattle.vx_base.specs.Integers.{is_signed};
ghost use Rattle.vx_base.specs.PlainType.{integer_of};
ghost use Rattle.vx_model.specs.Column.{column_of};
ghost use Rattle.vx_model.specs.Plain.{IsPlain, plain};
ghost use Rattle.vx_model.specs.TreeType.{tree_type};
ghost use Rattle.vx_schemes.specs.ZigZag.Tree.{zigzags};

use std::alloc::Global;
use vx_array::ArrayRef;
use vx_base::VortexResult;

/// The zigzags of a plain column of signed integers, 0 beneath nulls, as a plain tree of the unsigned type of their width.
#[tactic(auto, using(vx_model::proofs::PrimitiveLemmas::plain_roots))]
pub(crate) fn zigzags(alloc: Global, array: &ArrayRef) -> VortexResult<ArrayRef>
    requires plain { IsPlain array.now }
    requires signed { is_signed (integer_of (tree_type array.now)) ≡ true }
    ensures { Answers result (plain (zigzags (column_of array.now))) }
{
    let (values, _, _) = array.as_primitive();
    array.with_integers(alloc, values.zigzagged(alloc)?)
}
