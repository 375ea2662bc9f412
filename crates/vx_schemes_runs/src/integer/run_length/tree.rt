//! The parts of a column by its runs in blocks, and the Rle over their trees.

ghost use Rattle.std.specs.Prelude.{◌≡◌, IsTrue, None};
ghost use Rattle.vx_base.specs.Answers.{Answers, OrMemory};
ghost use Rattle.vx_base.specs.PlainType.{is_integer};
ghost use Rattle.vx_blocks.specs.Runs.{heads, offsets, run_numbers};
ghost use Rattle.vx_model.specs.Column.{column_of};
ghost use Rattle.vx_model.specs.Plain.{IsPlain, plain, valid_bits};
ghost use Rattle.vx_model.specs.Refusals.{rle_refusal};
ghost use Rattle.vx_model.specs.Rows.{rows};
ghost use Rattle.vx_model.specs.Tree.{rle};
ghost use Rattle.vx_model.specs.TreeType.{tree_type};
ghost use Rattle.vx_schemes_runs.specs.RowsAt.{optional_wholes};
ghost use Rattle.vx_schemes_runs.specs.RunLength.Tree.{head_values, narrowed_run_numbers, narrowed_offsets};

use crate::integer::runs::{bits_of, rows_at};
use std::alloc::Global;
use vx_array::ArrayRef;
use vx_base::{Mask, VortexResult};
use vx_blocks::BlockRuns;
use vx_schemes_common::narrowed_numbers;

/// The value of each run of a plain column of integers, the run number of each row and the offset of each block.
pub(crate) fn values_numbers_offsets(
    alloc: Global,
    array: &ArrayRef,
) -> VortexResult<(ArrayRef, ArrayRef, ArrayRef)>
    requires plain { IsPlain array.now }
    requires integer { IsTrue (is_integer (tree_type array.now)) }
    ensures values { OrMemory result (λ all. all.0 ≡ plain (head_values (column_of array.now))) }
    ensures numbers { OrMemory result (λ all. all.1 ≡ plain (narrowed_run_numbers (column_of array.now))) }
    ensures offsets { OrMemory result (λ all. all.2 ≡ plain (narrowed_offsets (column_of array.now))) }
{
    let valid = bits_of(alloc, array)?;
    let BlockRuns {
        heads,
        numbers,
        offsets,
    } = runs_of(alloc, array, &valid)?;
    let values = rows_at(alloc, array, &valid, heads.as_slice())?;
    let numbers = narrowed_numbers(alloc, numbers)?;
    let offsets = narrowed_numbers(alloc, offsets)?;
    Ok((values, numbers, offsets))
}

// The runs of the column by blocks.
#[tactic(auto, using(vx_model::proofs::PrimitiveLemmas::plain_roots))]
fn runs_of(alloc: Global, array: &ArrayRef, valid: &Mask) -> VortexResult<BlockRuns>
    requires plain { IsPlain array.now }
    requires integer { IsTrue (is_integer (tree_type array.now)) }
    requires valid { valid.now ≡ valid_bits (rows array.now) }
    ensures heads { OrMemory result (λ runs. runs.heads ≡ heads (optional_wholes (column_of array.now))) }
    ensures numbers { OrMemory result (λ runs. runs.numbers ≡ run_numbers (optional_wholes (column_of array.now))) }
    ensures offsets { OrMemory result (λ runs. runs.offsets ≡ offsets (optional_wholes (column_of array.now))) }
{
    let (values, _, _) = array.as_primitive();
    values.block_runs(alloc, valid)
}

/// The Rle of `len` rows: row i is the value at offsets[i / 1024] + numbers[i].
pub(crate) fn rle_tree(
    alloc: Global,
    values: ArrayRef,
    numbers: ArrayRef,
    offsets: ArrayRef,
    len: u64,
) -> VortexResult<ArrayRef>
    requires { rle_refusal values numbers offsets len ≡ None }
    ensures { Answers result (rle values numbers offsets len) }
{
    match ArrayRef::rle_of_places(alloc, values, numbers, offsets, len) {
        Ok(tree) => Ok(tree),
        Err(refused) => Err(refused.error),
    }
}
