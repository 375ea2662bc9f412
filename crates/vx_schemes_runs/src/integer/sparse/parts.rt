//! The parts of a column as a fill with patches, and the Sparse over their trees.

ghost use Rattle.std.specs.Prelude.{◌≡◌, ◌<◌, ◌≤◌, [], ◌∷◌, IsTrue, length, true};
ghost use Rattle.vx_base.specs.Answers.{Answers};
ghost use Rattle.vx_base.specs.PlainScalar.{fits, scalar};
ghost use Rattle.vx_base.specs.PlainType.{is_integer};
ghost use Rattle.vx_base.specs.PlainValue.{cell};
ghost use Rattle.vx_model.specs.Column.{column_of};
ghost use Rattle.vx_model.specs.Plain.{IsPlain, plain};
ghost use Rattle.vx_model.specs.Rows.{rows};
ghost use Rattle.vx_model.specs.Tree.{constant};
ghost use Rattle.vx_model.specs.TreeType.{tree_type};
ghost use Rattle.vx_scheme.specs.Asked.{most_rows, FitParts};
ghost use Rattle.vx_scheme.specs.Meaning.{split_of};
ghost use Rattle.vx_scheme.specs.declared.split.Split.TheVariants.{Finished, Parts};
ghost use Rattle.vx_stats.specs.Stats.{null_count, value_count, most_frequent};
ghost use Rattle.vx_schemes_common.specs.Pairs.{pair_of};
ghost use Rattle.vx_schemes_runs.specs.Sparse.Meaning.{sparse_split};
ghost use Rattle.vx_schemes_runs.specs.Sparse.Tree.{sparse_fill, sparse_indices, sparse_or_plain, sparse_values};

use super::counts::Frequent;
use super::tree::{one_value_tree, sparse_tree, values_and_rows};
use std::alloc::Global;
use vx_array::{ArrayRef, Arrays};
use vx_base::VortexResult;
use vx_scheme::Split;
use vx_schemes_common::{pair_of, two_parts};

/// A Constant where all rows share a value; else the patched values as part 0 and their rows as part 1.
pub(crate) fn split_by(alloc: Global, array: &ArrayRef, frequent: Frequent) -> VortexResult<Split>
    requires plain { IsPlain array.now }
    requires integer { IsTrue (is_integer (tree_type array.now)) }
    requires some { 0 < length (rows array.now) }
    requires few { length (rows array.now) ≤ most_rows }
    requires frequent { frequent ≡ record { nulls = null_count (rows array.now); values = value_count (rows array.now); value = (most_frequent (rows array.now)).0; often = (most_frequent (rows array.now)).1 } }
    ensures { Answers result (split_of (sparse_split (column_of array.now))) }
{
    array.known();
    let rows = array.len();
    match frequent.shared(rows) {
        Some(value) => finished_by(alloc, array, value),
        None => parts_by(alloc, array, frequent.fill(rows)),
    }
}

// One value in every row, as the whole answer.
fn finished_by(alloc: Global, array: &ArrayRef, value: Option<i128>) -> VortexResult<Split>
    requires { fits (tree_type array.now) (cell value) ≡ true }
    ensures { Answers result (Finished (constant (scalar (tree_type array.now) (cell value)) (length (rows array.now)))) }
{
    Ok(Split::Finished(one_value_tree(alloc, array, value)?))
}

// The patched values and their rows.
fn parts_by(alloc: Global, array: &ArrayRef, fill: Option<i128>) -> VortexResult<Split>
    requires plain { IsPlain array.now }
    requires integer { IsTrue (is_integer (tree_type array.now)) }
    requires few { length (rows array.now) ≤ most_rows }
    requires fill { fill ≡ sparse_fill (rows array.now) }
    ensures { Answers result (Parts (plain (sparse_values (column_of array.now)) ∷ plain (sparse_indices (column_of array.now)) ∷ [])) }
{
    array.known();
    let (values, rows) = values_and_rows(alloc, array, fill)?;
    two_parts(alloc, values, rows)
}

/// The Sparse over the trees of the parts, with the column's fill; the column stays plain unless there are two.
pub(crate) fn joined_by(
    alloc: Global,
    array: &ArrayRef,
    frequent: Frequent,
    trees: Arrays,
) -> VortexResult<ArrayRef>
    requires integer { IsTrue (is_integer (tree_type array.now)) }
    requires few { length (rows array.now) ≤ most_rows }
    requires plain { IsPlain array.now }
    requires frequent { frequent ≡ record { nulls = null_count (rows array.now); values = value_count (rows array.now); value = (most_frequent (rows array.now)).0; often = (most_frequent (rows array.now)).1 } }
    requires trees { FitParts (sparse_split (column_of array.now)) trees }
    ensures { Answers result (sparse_or_plain (column_of array.now) (pair_of trees)) }
{
    array.known();
    let rows = array.len();
    match pair_of(trees) {
        Some((values, indices)) => {
            sparse_tree(alloc, array, frequent.fill(rows), indices, values)
        }
        None => array.copy(alloc),
    }
}
