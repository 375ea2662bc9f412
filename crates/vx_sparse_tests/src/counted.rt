//! Calls that count their steps, each with a count of its own, which only contracts see.

ghost use Rattle.std.specs.Prelude.{◌≡◌, ◌<◌};

use std::alloc::Global;
use std::marker::Brand;
use std::sync::ledger::{Blank, Ledger};
use vx_array::ArrayRef;
use vx_base::{Scalar, Steps, VortexResult};
use vx_fixtures::context;
use vx_rules::CompareOperator;
use vx_sparse::{SparseArray, SparseKernels};

fn row_by<L: Ledger>(
    alloc: Global,
    array: &SparseArray,
    row: u64,
    blank: Blank,
) -> VortexResult<Scalar>
    requires name { blank.name ≡ L.name }
    requires parts { blank.parts ≡ L.parts }
    requires some { 0 < L.parts }
{
    let mut steps = Steps::<L>::new(blank);
    array.scalar_at_counted(row, &mut context(alloc)?, &mut steps)
}

/// A row, by `scalar_at_counted`.
pub(crate) fn row_counted(alloc: Global, array: &SparseArray, row: u64) -> VortexResult<Scalar> {
    row_by::<Brand>(alloc, array, row, Blank::new(1))
}

fn comparison_by<L: Ledger>(
    alloc: Global,
    array: &SparseArray,
    value: &Scalar,
    operator: CompareOperator,
    blank: Blank,
) -> VortexResult<ArrayRef>
    requires name { blank.name ≡ L.name }
    requires parts { blank.parts ≡ L.parts }
    requires some { 0 < L.parts }
{
    let mut steps = Steps::<L>::new(blank);
    array.compare_counted(value, operator, &mut context(alloc)?, &mut steps)
}

/// A comparison with a value, by `compare_counted`.
pub(crate) fn compared(
    alloc: Global,
    array: &SparseArray,
    value: &Scalar,
    operator: CompareOperator,
) -> VortexResult<ArrayRef> {
    comparison_by::<Brand>(alloc, array, value, operator, Blank::new(1))
}
