//! Take: for each index its row.

ghost use Rattle.std.specs.List.{list_all};
ghost use Rattle.std.specs.Prelude.{◌≡◌, if◌then◌else◌, IsTrue, length};
ghost use Rattle.vx_base.specs.Answers.{Decided};
ghost use Rattle.vx_base.specs.PlainType.{is_integer};
ghost use Rattle.vx_base.specs.declared.error.VortexError.TheVariants.{OutOfBounds};
ghost use Rattle.vx_model.specs.Column.{column_of};
ghost use Rattle.vx_model.specs.Plain.{IsPlain};
ghost use Rattle.vx_model.specs.Rows.{rows};
ghost use Rattle.vx_model.specs.Tree.{primitive};
ghost use Rattle.vx_model.specs.TreeType.{tree_type};
ghost use Rattle.vx_model.specs.WellFormed.{WellFormed, is_place};
ghost use Rattle.vx_rules.specs.Selections.{take_refusal, taken};
ghost use Rattle.vx_selections.specs.Chosen.{place_refusal};
ghost use Rattle.vx_values.specs.IntsOf.{ptype_of, wholes_of};

mod encoded;
mod in_bounds;
mod pieces;
mod places;
mod stored;

use in_bounds::taken_rows;
use places::{are_places, have_places};
use std::alloc::Global;
use vx_array::{ArrayRef, Node};
use vx_base::{ExecutionCtx, Mask, Nullability, VortexError, VortexResult};
use vx_values::Ints;

/// For each index the row with that number, null where the index is null; nullable where the tree's or the indices' type is.
/// Refuses MismatchedTypes where the indices aren't integers, then OutOfBounds where one of them is neither null nor the
/// number of a row.
pub fn take(array: &ArrayRef, indices: &ArrayRef, ctx: &mut ExecutionCtx) -> VortexResult<ArrayRef>
    ensures answer { Decided (take_refusal (column_of array.now) (column_of indices.now)) (λ out. column_of out ≡ taken (column_of array.now) (column_of indices.now)) result }
    ensures ctx { ctx.new ≡ ctx.old }
{
    if !indices.dtype().is_integer() {
        return Err(VortexError::MismatchedTypes);
    }
    taken_by(ctx.alloc(), array, indices)
}

// `take` by integers.
fn taken_by(alloc: Global, tree: &ArrayRef, indices: &ArrayRef) -> VortexResult<ArrayRef>
    requires { IsTrue (is_integer (tree_type indices.now)) }
    ensures { Decided (place_refusal (length (rows tree.now)) (rows indices.now)) (λ out. column_of out ≡ taken (column_of tree.now) (column_of indices.now)) result }
{
    match indices.node() {
        Node::Primitive(codes, valid, nulls) => taken(alloc, tree, codes, valid, *nulls),
        _ => taken_by_encoded(alloc, tree, indices),
    }
}

// `take` by integers that aren't stored as they are: decoded, or, so that want of memory hides no refusal, read one by one.
fn taken_by_encoded(alloc: Global, tree: &ArrayRef, indices: &ArrayRef) -> VortexResult<ArrayRef>
    requires { IsTrue (is_integer (tree_type indices.now)) }
    ensures { Decided (place_refusal (length (rows tree.now)) (rows indices.now)) (λ out. column_of out ≡ taken (column_of tree.now) (column_of indices.now)) result }
{
    match indices.canonical(alloc) {
        Ok(plain) => taken_by_plain(alloc, tree, &plain),
        Err(error) => Err(refusal_without(error, indices, tree.len())),
    }
}

// `take` by plain integers.
#[tactic(auto, using(vx_array::proofs::PlainRows::repeating))]
fn taken_by_plain(alloc: Global, tree: &ArrayRef, plain: &ArrayRef) -> VortexResult<ArrayRef>
    requires integers { IsTrue (is_integer (tree_type plain.now)) }
    requires plain { IsPlain plain.now }
    ensures { Decided (place_refusal (length (rows tree.now)) (rows plain.now)) (λ out. column_of out ≡ taken (column_of tree.now) (column_of plain.now)) result }
{
    match plain.node() {
        Node::Primitive(codes, valid, nulls) => taken(alloc, tree, codes, valid, *nulls),
        _ => unreachable!(),
    }
}

// OutOfBounds where an index is out of bounds of `len` rows, else this error.
fn refusal_without(error: VortexError, indices: &ArrayRef, len: u64) -> VortexError
    requires { IsTrue (is_integer (tree_type indices.now)) }
    ensures { result ≡ if list_all (is_place len) (rows indices.now) then error else OutOfBounds }
{
    if have_places(indices, len) {
        error
    } else {
        VortexError::OutOfBounds
    }
}

// `take` by stored integers.
fn taken(
    alloc: Global,
    tree: &ArrayRef,
    codes: &Ints,
    valid: &Option<Mask>,
    nulls: Nullability,
) -> VortexResult<ArrayRef>
    requires { WellFormed (primitive (ptype_of codes.now) (wholes_of codes.now) valid.now nulls) }
    ensures { Decided (place_refusal (length (rows tree.now)) (rows (primitive (ptype_of codes.now) (wholes_of codes.now) valid.now nulls))) (λ out. column_of out ≡ taken (column_of tree.now) (column_of (primitive (ptype_of codes.now) (wholes_of codes.now) valid.now nulls))) result }
{
    if !are_places(codes, valid, tree.len()) {
        return Err(VortexError::OutOfBounds);
    }
    taken_rows(alloc, tree, codes, valid, nulls)
}
