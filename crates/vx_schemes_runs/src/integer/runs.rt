//! What the two schemes of runs share: the average run length, and rows by their numbers.

ghost use Rattle.std.specs.List.{list_all};
ghost use Rattle.std.specs.Prelude.{◌≡◌, ◌≤◌, IsTrue, false, length, map, nat_lt, slice_index_or};
ghost use Rattle.vx_base.specs.Answers.{Answers, OrMemory};
ghost use Rattle.vx_base.specs.PlainType.{is_integer};
ghost use Rattle.vx_model.specs.Column.{column_of};
ghost use Rattle.vx_model.specs.Plain.{IsPlain, plain, valid_bits};
ghost use Rattle.vx_model.specs.Rows.{rows};
ghost use Rattle.vx_model.specs.TreeType.{tree_type};
ghost use Rattle.vx_scheme.specs.Asked.{most_rows};
ghost use Rattle.vx_scheme.specs.Bundle.{SameArray};
ghost use Rattle.vx_stats.specs.Stats.{average_run_length};
ghost use Rattle.vx_schemes_runs.specs.RowsAt.{rows_at};

use std::alloc::Global;
use vx_array::ArrayRef;
use vx_base::{Mask, VortexResult};
use vx_scheme::ArrayAndStats;
use vx_schemes_common::mask_of;

// The least average run length that is tried. Shorter runs cost about as much in values and ends as in plain rows.
const LEAST_RUN_LENGTH: u32 = 4;

/// Whether the average run length of a column is below 4.
pub(crate) fn has_short_runs(column: &mut ArrayAndStats) -> VortexResult<bool>
    requires integer { IsTrue (is_integer (tree_type column.old.array)) }
    requires few { length (rows column.old.array) ≤ most_rows }
    ensures answer { Answers result (nat_lt (average_run_length (rows column.old.array)) 4) }
    ensures column { SameArray column.old column.new }
{
    Ok(column.integer_summary()?.average_run_length() < LEAST_RUN_LENGTH)
}

/// The validity of a plain column of integers, a bit for each row.
#[tactic(auto, using(vx_model::proofs::PrimitiveLemmas::plain_roots))]
pub(crate) fn bits_of(alloc: Global, array: &ArrayRef) -> VortexResult<Mask>
    requires plain { IsPlain array.now }
    requires integer { IsTrue (is_integer (tree_type array.now)) }
    ensures { Answers result (valid_bits (rows array.now)) }
{
    let (values, valid, _) = array.as_primitive();
    mask_of(alloc, valid, values.len())
}

/// The rows `numbers` of a plain column of integers, as a plain tree. `valid` has a bit for each row of the column.
#[tactic(auto, using(vx_model::proofs::PrimitiveLemmas::plain_roots))]
pub(crate) fn rows_at(
    alloc: Global,
    array: &ArrayRef,
    valid: &Mask,
    numbers: &[u64],
) -> VortexResult<ArrayRef>
    requires plain { IsPlain array.now }
    requires integer { IsTrue (is_integer (tree_type array.now)) }
    requires valid { valid.now ≡ valid_bits (rows array.now) }
    requires within { IsTrue (list_all (λ k. nat_lt k (length (rows array.now))) numbers.now) }
    ensures { Answers result (plain (rows_at (column_of array.now) numbers.now)) }
{
    let (values, _, nullability) = array.as_primitive();
    let values = values.gathered(alloc, numbers)?;
    let valid = bits_at(alloc, valid, numbers)?;
    match ArrayRef::primitive(values, Some(valid), nullability) {
        Ok(tree) => Ok(tree),
        Err(refused) => Err(refused.error),
    }
}

// The bits of the rows `numbers`.
fn bits_at(alloc: Global, bits: &Mask, numbers: &[u64]) -> VortexResult<Mask>
    requires { IsTrue (list_all (λ k. nat_lt k (length bits.now)) numbers.now) }
    ensures { OrMemory result (λ some. some ≡ map (λ k. slice_index_or bits.now k false) numbers.now) }
{
    let bits = bits.as_slice();
    let mut some = Vec::with_capacity(alloc, numbers.len())?;
    for place in 0..numbers.len() {
        some.push(bits[numbers[place] as usize])?;
    }
    Ok(Mask::from_bits(some))
}
