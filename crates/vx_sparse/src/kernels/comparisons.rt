//! Comparison with one value, on the patches and the fill.

ghost use Rattle.std.specs.List.{list_all};
ghost use Rattle.std.specs.Prelude.{◌≡◌, ◌≤◌, ◌+◌, IfOk, IsTrue, length, map, true};
ghost use Rattle.vx_base.specs.Answers.{Answers, Decided, OrMemory};
ghost use Rattle.vx_base.specs.CellValue.{cell_value};
ghost use Rattle.vx_base.specs.PlainScalar.{fits, scalar};
ghost use Rattle.vx_base.specs.PlainType as types;
ghost use Rattle.vx_base.specs.PlainType.{is_flat, same_base};
ghost use Rattle.vx_base.specs.TypeOf.{value_of};
ghost use Rattle.vx_model.specs.Column.{column_of};
ghost use Rattle.vx_model.specs.Plain.{plain_of};
ghost use Rattle.vx_model.specs.Rows.{rows};
ghost use Rattle.vx_model.specs.Tree.{sparse, sparse_of};
ghost use Rattle.vx_model.specs.TreeType.{tree_type};
ghost use Rattle.vx_rules.specs.Comparisons.{compare_refusal, compared, comparison};
ghost use Rattle.vx_rules.specs.Operations.{repeated};

use crate::kernels::judging::{are_comparable, judged, truth_nullability, truth_scalar};
use crate::kernels::over_patches::over_patches;
use std::alloc::Global;
use std::sync::ledger::Ledger;
use vx_array::{ArrayRef, Patches};
use vx_base::{Cell, DType, Nullability, Scalar, Steps, Value, VortexError, VortexResult};
use vx_rules::CompareOperator;

/// Whether the operator holds between each row and a value, null where either is: a Sparse of truth values. Judges each patch and
/// the fill once, with a step for each. Refuses MismatchedTypes unless both are of one flat type, up to nullability.
pub(crate) fn counted_comparison<L: Ledger>(
    alloc: Global,
    patches: &Patches,
    fill: &Scalar,
    value: &Scalar,
    operator: CompareOperator,
    steps: &mut Steps<L>,
) -> VortexResult<ArrayRef>
    requires { tree_type patches.now.values ≡ fill.now.dtype }
    ensures answer { Decided (compare_refusal (column_of (sparse_of patches.now fill.now)) (repeated value.now (column_of (sparse_of patches.now fill.now)))) (λ out. column_of out ≡ comparison operator (column_of (sparse_of patches.now fill.now)) (repeated value.now (column_of (sparse_of patches.now fill.now)))) result }
    ensures rose { steps.old ≤ steps.new }
    ensures most { steps.new ≤ steps.old + (length (rows patches.now.indices) + 1) }
    ensures judged { IfOk result (λ _. steps.new ≡ steps.old + (length (rows patches.now.indices) + 1)) }
{
    let own = fill.dtype();
    let other = value.dtype();
    if !are_comparable(own, other) {
        return Err(VortexError::MismatchedTypes);
    }
    compared_patches(alloc, patches, fill, value, operator, steps)
}

// `counted_comparison` of types that are comparable.
#[tactic(auto, using(crate::proofs::KernelTypes::flat_types))]
fn compared_patches<L: Ledger>(
    alloc: Global,
    patches: &Patches,
    fill: &Scalar,
    value: &Scalar,
    operator: CompareOperator,
    steps: &mut Steps<L>,
) -> VortexResult<ArrayRef>
    requires typed { tree_type patches.now.values ≡ fill.now.dtype }
    requires flat { IsTrue (is_flat fill.now.dtype) }
    requires base { same_base fill.now.dtype value.now.dtype ≡ true }
    ensures answer { OrMemory result (λ out. column_of out ≡ comparison operator (column_of (sparse_of patches.now fill.now)) (repeated value.now (column_of (sparse_of patches.now fill.now)))) }
    ensures rose { steps.old ≤ steps.new }
    ensures most { steps.new ≤ steps.old + (length (rows patches.now.indices) + 1) }
    ensures judged { IfOk result (λ _. steps.new ≡ steps.old + (length (rows patches.now.indices) + 1)) }
{
    patches.known();
    fill.known();
    value.known();
    let right = value.cell();
    let nullability = truth_nullability(fill, value);
    let values = judged_rows(alloc, patches.values(), right, operator, steps)?;
    let other = judged(fill.cell(), right, operator, steps);
    truths(alloc, patches, nullability, values, other)
}

// Each row of a tree, judged against a cell.
fn judged_rows<L: Ledger>(
    alloc: Global,
    tree: &ArrayRef,
    right: Cell<'_>,
    operator: CompareOperator,
    steps: &mut Steps<L>,
) -> VortexResult<Vec<Value>>
    requires { IsTrue (is_flat (tree_type tree.now)) }
    ensures rows { OrMemory result (λ out. map value_of out.items ≡ map (λ v. compared operator v (cell_value right.entry)) (rows tree.now)) }
    ensures rose { steps.old ≤ steps.new }
    ensures most { steps.new ≤ steps.old + length (rows tree.now) }
    ensures judged { IfOk result (λ _. steps.new ≡ steps.old + length (rows tree.now)) }
{
    let mut out = Vec::new(alloc);
    for row in 0..tree.len() {
        out.push(judged(tree.cell_at(row), right, operator, steps))?;
    }
    Ok(out)
}

// Truth values as patches over another as the fill.
fn truths(
    alloc: Global,
    patches: &Patches,
    nullability: Nullability,
    values: Vec<Value>,
    other: Value,
) -> VortexResult<ArrayRef>
    requires lengths { length values.items ≡ length (rows patches.now.values) }
    requires values { IsTrue (list_all (fits (types.boolean nullability)) (map value_of values.items)) }
    requires other { fits (types.boolean nullability) (value_of other) ≡ true }
    ensures { Answers result (sparse patches.now.array_len patches.now.offset patches.now.indices (plain_of (types.boolean nullability) (map value_of values.items)) (scalar (types.boolean nullability) (value_of other))) }
{
    let values = truth_tree(alloc, nullability, values)?;
    let fill = truth_scalar(nullability, other)?;
    over_patches(alloc, patches, values, fill)
}

// The plain tree of truth values and nulls.
fn truth_tree(alloc: Global, nullability: Nullability, values: Vec<Value>) -> VortexResult<ArrayRef>
    requires { IsTrue (list_all (fits (types.boolean nullability)) (map value_of values.items)) }
    ensures { Answers result (plain_of (types.boolean nullability) (map value_of values.items)) }
{
    let dtype = DType::bool(nullability);
    ArrayRef::of_values(alloc, &dtype, values)
}
