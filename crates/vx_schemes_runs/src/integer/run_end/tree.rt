//! The parts of a column by the ends of its runs, and the RunEnd over their trees.

ghost use Rattle.std.specs.Prelude.{◌≡◌, ◌≤◌, ◌-◌, IsTrue, None, length, map};
ghost use Rattle.vx_base.specs.Answers.{Answers, OrMemory};
ghost use Rattle.vx_base.specs.PlainType.{is_integer};
ghost use Rattle.vx_model.specs.Column.{column_of};
ghost use Rattle.vx_model.specs.Plain.{IsPlain, plain, valid_bits};
ghost use Rattle.vx_model.specs.Refusals.{run_end_refusal};
ghost use Rattle.vx_model.specs.Rows.{rows};
ghost use Rattle.vx_model.specs.Tree.{run_end};
ghost use Rattle.vx_model.specs.TreeType.{tree_type};
ghost use Rattle.vx_scheme.specs.Asked.{most_rows};
ghost use Rattle.vx_schemes_runs.specs.RunEnd.Tree.{ends_in, run_values, narrowed_ends};

use crate::integer::runs::{bits_of, rows_at};
use std::alloc::Global;
use vx_array::ArrayRef;
use vx_base::{Mask, VortexResult, Words};
use vx_schemes_common::narrowed_rising;

/// The values of the runs of a plain column of integers, and their ends.
pub(crate) fn values_and_ends(alloc: Global, array: &ArrayRef) -> VortexResult<(ArrayRef, ArrayRef)>
    requires plain { IsPlain array.now }
    requires integer { IsTrue (is_integer (tree_type array.now)) }
    requires few { length (rows array.now) ≤ most_rows }
    ensures values { OrMemory result (λ both. both.0 ≡ plain (run_values (column_of array.now))) }
    ensures ends { OrMemory result (λ both. both.1 ≡ plain (narrowed_ends (column_of array.now))) }
{
    let valid = bits_of(alloc, array)?;
    let ends = ends_of(alloc, array, &valid)?;
    let lasts = lasts(alloc, ends.as_slice())?;
    let values = rows_at(alloc, array, &valid, lasts.as_slice())?;
    Ok((values, narrowed_rising(alloc, ends)?))
}

// The end of each run, exclusive.
#[tactic(auto, using(vx_model::proofs::PrimitiveLemmas::plain_roots))]
fn ends_of(alloc: Global, array: &ArrayRef, valid: &Mask) -> VortexResult<Words>
    requires plain { IsPlain array.now }
    requires integer { IsTrue (is_integer (tree_type array.now)) }
    requires valid { valid.now ≡ valid_bits (rows array.now) }
    ensures { OrMemory result (λ ends. ends ≡ ends_in (column_of array.now)) }
{
    let (values, _, _) = array.as_primitive();
    values.runs(alloc, valid)
}

// The last row of each run.
fn lasts(alloc: Global, ends: &[u64]) -> VortexResult<Words>
    ensures { OrMemory result (λ lasts. lasts ≡ map (λ end. end - 1) ends.now) }
{
    let mut lasts = Vec::with_capacity(alloc, ends.len())?;
    for place in 0..ends.len() {
        lasts.push(ends[place].saturating_sub(1))?;
    }
    Ok(Words::from_vec(lasts))
}

/// The RunEnd of values over ends.
pub(crate) fn runs_tree(alloc: Global, ends: ArrayRef, values: ArrayRef) -> VortexResult<ArrayRef>
    requires { run_end_refusal ends values ≡ None }
    ensures { Answers result (run_end ends values) }
{
    match ArrayRef::run_end_of_ends(alloc, ends, values) {
        Ok(tree) => Ok(tree),
        Err(refused) => Err(refused.error),
    }
}
