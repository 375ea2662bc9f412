//! The arithmetic sequence in a plain column of integers.

ghost use Rattle.std.specs.Prelude.{◌≡◌, IsTrue};
ghost use Rattle.std.specs.List.{list_any};
ghost use Rattle.vx_base.specs.Answers.{Answers};
ghost use Rattle.vx_base.specs.PlainType.{is_integer};
ghost use Rattle.vx_base.specs.PlainValue.{is_null};
ghost use Rattle.vx_model.specs.Column.{column_of};
ghost use Rattle.vx_model.specs.Plain.{IsPlain};
ghost use Rattle.vx_model.specs.Rows.{rows};
ghost use Rattle.vx_model.specs.TreeType.{tree_type};
ghost use Rattle.vx_schemes_runs.specs.Sequence.Tree.{sequence_in, sequence_made};

use vx_array::ArrayRef;
use vx_base::VortexResult;

/// Whether some row of a plain column of integers is null.
#[tactic(auto, using(vx_model::proofs::PrimitiveLemmas::plain_roots))]
pub(crate) fn has_null(array: &ArrayRef) -> bool
    requires plain { IsPlain array.now }
    requires integer { IsTrue (is_integer (tree_type array.now)) }
    ensures { result ≡ list_any is_null (rows array.now) }
{
    let (_, valid, _) = array.as_primitive();
    valid.is_some()
}

/// The first value and the step of a plain column of integers that is an arithmetic sequence; None of one with a null, and
/// of any other.
#[tactic(auto, using(vx_model::proofs::PrimitiveLemmas::plain_roots))]
pub(crate) fn sequence_in(array: &ArrayRef) -> Option<(i128, i128)>
    requires plain { IsPlain array.now }
    requires integer { IsTrue (is_integer (tree_type array.now)) }
    ensures { result ≡ sequence_in (column_of array.now) }
{
    if has_null(array) {
        return None;
    }
    let (values, _, _) = array.as_primitive();
    values.sequence()
}

/// The Sequence of a plain column of integers; None where it is no arithmetic sequence.
pub(crate) fn sequence_made(array: &ArrayRef) -> VortexResult<Option<ArrayRef>>
    requires plain { IsPlain array.now }
    requires integer { IsTrue (is_integer (tree_type array.now)) }
    ensures { Answers result (sequence_made (column_of array.now)) }
{
    array.known();
    match sequence_in(array) {
        Some((first, step)) => {
            let dtype = array.dtype();
            let tree = ArrayRef::sequence(
                dtype.ptype(),
                dtype.nullability(),
                first,
                step,
                array.len(),
            )?;
            Ok(Some(tree))
        }
        None => Ok(None),
    }
}
