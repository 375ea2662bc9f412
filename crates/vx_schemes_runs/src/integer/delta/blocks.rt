//! The bases and the differences of a plain column of integers, and the Delta over the trees of both.

ghost use Rattle.std.specs.Prelude.{◌≡◌, [], ◌∷◌, length, IsTrue, None};
ghost use Rattle.vx_base.specs.Answers.{Answers, OrMemory};
ghost use Rattle.vx_base.specs.PlainType.{is_integer, integer_of, nullability_of};
ghost use Rattle.vx_blocks.specs.Deltas.{bases};
ghost use Rattle.vx_model.specs.Column.{column_of};
ghost use Rattle.vx_model.specs.Plain.{IsPlain, validity};
ghost use Rattle.vx_model.specs.Refusals.{delta_refusal};
ghost use Rattle.vx_model.specs.Rows.{rows};
ghost use Rattle.vx_model.specs.Tree.{delta};
ghost use Rattle.vx_model.specs.TreeType.{tree_type};
ghost use Rattle.vx_scheme.specs.Asked.{FitParts};
ghost use Rattle.vx_scheme.specs.Meaning.{parts, split_of};
ghost use Rattle.vx_values.specs.IntsOf.{ptype_of, wholes_of};
ghost use Rattle.vx_schemes_common.specs.Pairs.{pair_of};
ghost use Rattle.vx_schemes_runs.specs.Delta.Tree.{filled_rows, differences_of, delta_bases, delta_differences, delta_or_plain};

use std::alloc::Global;
use vx_array::{ArrayRef, Arrays};
use vx_base::{Nullability, VortexResult};
use vx_scheme::Split;
use vx_schemes_common::{mask_of, pair_of, two_parts, whole_tree};
use vx_values::{Ints, copy_validity};

// The bases and the differences of a plain column of integers, where a null has the value before it.
#[tactic(auto, using(vx_model::proofs::PrimitiveLemmas::plain_roots))]
fn delta_blocks(alloc: Global, array: &ArrayRef) -> VortexResult<(Ints, Ints)>
    requires plain { IsPlain array.now }
    requires integer { IsTrue (is_integer (tree_type array.now)) }
    ensures bases { OrMemory result (λ made. (ptype_of made.0 ≡ integer_of (tree_type array.now)) × (wholes_of made.0 ≡ bases (filled_rows (column_of array.now)))) }
    ensures differences { OrMemory result (λ made. (ptype_of made.1 ≡ integer_of (tree_type array.now)) × (wholes_of made.1 ≡ differences_of (column_of array.now))) }
{
    let (values, valid, _) = array.as_primitive();
    let valid = mask_of(alloc, valid, values.len())?;
    values.delta_blocks(alloc, &valid)
}

/// The bases as part 0 and the differences as part 1, both plain, of the column's type without nulls.
pub(crate) fn delta_parts(alloc: Global, array: &ArrayRef) -> VortexResult<Split>
    requires plain { IsPlain array.now }
    requires integer { IsTrue (is_integer (tree_type array.now)) }
    ensures { Answers result (split_of (parts (delta_bases (column_of array.now) ∷ delta_differences (column_of array.now) ∷ []))) }
{
    let (firsts, steps) = delta_blocks(alloc, array)?;
    let bases = whole_tree(firsts, Nullability::NonNullable)?;
    let differences = whole_tree(steps, Nullability::NonNullable)?;
    two_parts(alloc, bases, differences)
}

/// The Delta over the trees of the two parts, null where the column is; the column stays plain unless there are two.
pub(crate) fn delta_joined(alloc: Global, array: &ArrayRef, trees: Arrays) -> VortexResult<ArrayRef>
    requires plain { IsPlain array.now }
    requires integer { IsTrue (is_integer (tree_type array.now)) }
    requires trees { FitParts (parts (delta_bases (column_of array.now) ∷ delta_differences (column_of array.now) ∷ [])) trees }
    ensures { Answers result (delta_or_plain (column_of array.now) (pair_of trees)) }
{
    array.known();
    match pair_of(trees) {
        Some((bases, differences)) => summed(alloc, array, bases, differences),
        None => array.copy(alloc),
    }
}

// The Delta over bases and differences, null where the column is.
#[tactic(auto, using(vx_model::proofs::PrimitiveLemmas::plain_roots))]
fn summed(
    alloc: Global,
    array: &ArrayRef,
    bases: ArrayRef,
    differences: ArrayRef,
) -> VortexResult<ArrayRef>
    requires plain { IsPlain array.now }
    requires integer { IsTrue (is_integer (tree_type array.now)) }
    requires admitted { delta_refusal bases differences (length (rows array.now)) (validity (rows array.now)) (nullability_of (tree_type array.now)) ≡ None }
    ensures { Answers result (delta bases differences (length (rows array.now)) (validity (rows array.now)) (nullability_of (tree_type array.now))) }
{
    let (_, valid, nullability) = array.as_primitive();
    let valid = copy_validity(alloc, valid)?;
    match ArrayRef::delta(alloc, bases, differences, array.len(), valid, nullability) {
        Ok(tree) => Ok(tree),
        Err(refused) => Err(refused.error),
    }
}
