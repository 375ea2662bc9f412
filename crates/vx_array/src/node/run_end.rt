//! Runs of integers by their ends.

ghost use Rattle.std.specs.Prelude.{◌≡◌, ◌<◌, ◌≤◌, ◌-◌, ◌^◌, IsTrue, None, length};
ghost use Rattle.vx_array.specs.TreeOf.{tree_of};
ghost use Rattle.vx_base.specs.Answers.{Makes, OrMemory};
ghost use Rattle.vx_base.specs.PlainType.{is_integer};
ghost use Rattle.vx_model.specs.Refusals.{run_end_refusal};
ghost use Rattle.vx_model.specs.Rows.{rows, offset_at};
ghost use Rattle.vx_model.specs.Tree.{run_end};
ghost use Rattle.vx_model.specs.TreeType.{tree_type};
ghost use Rattle.vx_model.specs.WellFormed.{ascend};
ghost use Rattle.vx_model.proofs.RunEndLemmas.{EndsBefore, EndsAbove};

use super::offsets::are_integers;
use crate::array::{ArrayRef, Child, Node};
use crate::node::{Made, boxed, offset_at};
use std::alloc::Global;
use vx_base::{Refused, VortexError, VortexResult};

impl ArrayRef {
    /// Runs: `values[k]` in the rows `ends[k - 1] .. ends[k]`, the first from row 0. The last end is the number of rows.
    /// Child 0: `ends`; child 1: `values`, as many.
    ///
    /// Refuses MismatchedTypes where the ends aren't non-nullable integers or the values aren't integers; then
    /// LengthMismatch where there aren't as many ends as values; then OutOfBounds where the ends don't rise strictly from
    /// 1 or more.
    pub fn run_end(alloc: Global, ends: ArrayRef, values: ArrayRef) -> Made<(ArrayRef, ArrayRef)>
        ensures { Makes (run_end_refusal ends values) (run_end ends values) (ends, values) result }
    {
        match refusal(&ends, &values) {
            Some(error) => Err(Refused {
                error,
                inputs: (ends, values),
            }),
            None => ArrayRef::run_end_of_ends(alloc, ends, values),
        }
    }

    /// `run_end` without its checks, for inputs that the caller knows to pass them. Reads the last end alone, which is the
    /// number of rows. Refuses NoMemory alone, and hands both back.
    #[tactic(auto, using(crate::proofs::Runs::run_ends))]
    pub fn run_end_of_ends(
        alloc: Global,
        ends: ArrayRef,
        values: ArrayRef,
    ) -> Made<(ArrayRef, ArrayRef)>
        requires { run_end_refusal ends values ≡ None }
        ensures { Makes None (run_end ends values) (ends, values) result }
    {
        let own_type = match values.dtype().copy(alloc) {
            Ok(own_type) => own_type,
            Err(error) => {
                return Err(Refused {
                    error,
                    inputs: (ends, values),
                });
            }
        };
        let len = last_end(&ends);
        ends.known();
        values.known();
        match boxed(alloc, ends, values) {
            Ok((ends, values)) => Ok(ArrayRef {
                node: Node::RunEnd(Child { array: ends }, Child { array: values }),
                own_type: Some(own_type),
                len,
            }),
            Err(inputs) => Err(Refused {
                error: VortexError::NoMemory,
                inputs,
            }),
        }
    }
}

// The refusal of these inputs, if there is one.
fn refusal(ends: &ArrayRef, values: &ArrayRef) -> Option<VortexError>
    ensures { result ≡ run_end_refusal ends.now values.now }
{
    if !are_integers(ends.dtype()) || !values.dtype().is_integer() {
        return Some(VortexError::MismatchedTypes);
    }
    if ends.len() != values.len() {
        return Some(VortexError::LengthMismatch);
    }
    if !ends.ascends(1, u64::MAX) {
        return Some(VortexError::OutOfBounds);
    }
    None
}

// The end of the last run, 0 where there is none.
#[tactic(auto, using(crate::proofs::Runs::few_ends))]
fn last_end(ends: &ArrayRef) -> u64
    requires integers { IsTrue (is_integer (tree_type ends.now)) }
    requires rising { IsTrue (ascend 1 (2 ^ 64) (rows ends.now)) }
    ensures { result ≡ offset_at (rows ends.now) (length (rows ends.now) - 1) }
{
    if ends.len() == 0 {
        return 0;
    }
    offset_at(ends, ends.len() - 1) as u64
}

// The run that a row lies in, by binary search: the first whose end is above the row.
#[cycle(cell_at)]
#[tactic(auto, using(crate::proofs::Runs::searches))]
pub(crate) fn run_at(ends: &ArrayRef, row: u64) -> u64
    requires integers { IsTrue (is_integer (tree_type ends.now)) }
    requires rising { IsTrue (ascend 1 (2 ^ 64) (rows ends.now)) }
    ensures most { result ≤ length (rows ends.now) }
    ensures before { EndsBefore (rows ends.now) row result }
    ensures above { EndsAbove (rows ends.now) row result }
{
    let mut low = 0;
    let mut high = ends.len();
    while low < high {
        let middle = low + (high - low) / 2;
        if offset_at(ends, middle) <= u128::from(row) {
            low = middle + 1;
        } else {
            high = middle;
        }
    }
    low
}

// A deep copy of the node, over the caller's copy of the values.
#[cycle(copy)]
pub(crate) fn copied_runs(alloc: Global, ends: &ArrayRef, values: ArrayRef) -> VortexResult<Node>
    ensures { OrMemory result (λ copy. tree_of copy ≡ run_end ends.now values) }
{
    let ends = Box::new(alloc, ends.copy(alloc)?)?;
    let values = Box::new(alloc, values)?;
    Ok(Node::RunEnd(Child { array: ends }, Child { array: values }))
}
