//! Filter: the rows whose bit is true.

ghost use Rattle.std.specs.Prelude.{◌≡◌, length};
ghost use Rattle.vx_base.specs.Answers.{Decided, OrMemory};
ghost use Rattle.vx_model.specs.Column.{column_of};
ghost use Rattle.vx_model.specs.Rows.{rows};
ghost use Rattle.vx_model.specs.Tree.{timestamp};
ghost use Rattle.vx_model.specs.WellFormed.{WellFormed};
ghost use Rattle.vx_rules.specs.Selections.{filtered, mask_refusal};

mod compacting;
mod encoded;
mod kernels;
mod stored;

use crate::by_pieces::pieced;
use crate::stamps::stamped;
use encoded::{kept_constant, kept_dict};
use std::alloc::Global;
use stored::{kept_bool, kept_primitive, kept_view};
use vx_array::{ArrayRef, Node};
use vx_base::{ExecutionCtx, Mask, TimestampType, VortexError, VortexResult};
use vx_pieces::kept_pieces;

/// The rows whose bit is true, in their order; the type stays. Refuses LengthMismatch where the mask doesn't have one bit per
/// row.
pub fn filter(array: &ArrayRef, keep: &Mask, ctx: &mut ExecutionCtx) -> VortexResult<ArrayRef>
    ensures answer { Decided (mask_refusal (column_of array.now) keep.now) (λ out. column_of out ≡ filtered (column_of array.now) keep.now) result }
    ensures ctx { ctx.new ≡ ctx.old }
{
    if keep.len() != array.len() {
        return Err(VortexError::LengthMismatch);
    }
    kept_rows(ctx.alloc(), array, keep.as_slice())
}

// `filter` by a mask of the right length. A flat column that isn't stored as it is is decoded first.
fn kept_rows(alloc: Global, tree: &ArrayRef, keep: &[bool]) -> VortexResult<ArrayRef>
    requires { length keep.now ≡ length (rows tree.now) }
    ensures { OrMemory result (λ out. column_of out ≡ filtered (column_of tree.now) keep.now) }
{
    match tree.node() {
        Node::Bool(_, _, _) | Node::Primitive(_, _, _) => kept_stored(alloc, tree, keep),
        Node::VarBinView(_, _, _) | Node::Timestamp(_, _) => kept_stored(alloc, tree, keep),
        _ => kept_encoded(alloc, tree, keep),
    }
}

// `filter` of columns that aren't stored as they are. A constant or a dictionary isn't decoded.
#[tactic(auto, using(crate::proofs::EncodedRows::lengths))]
fn kept_encoded(alloc: Global, tree: &ArrayRef, keep: &[bool]) -> VortexResult<ArrayRef>
    requires { length keep.now ≡ length (rows tree.now) }
    ensures { OrMemory result (λ out. column_of out ≡ filtered (column_of tree.now) keep.now) }
{
    match tree.node() {
        Node::Constant(value, len) => kept_constant(alloc, value, *len, keep),
        Node::Dict(codes, values) => kept_dict(alloc, &codes.array, &values.array, keep),
        _ if tree.dtype().is_flat() => kept_decoded(alloc, tree, keep),
        _ => kept_by_pieces(alloc, tree, keep),
    }
}

// `filter` of a flat column, decoded.
fn kept_decoded(alloc: Global, tree: &ArrayRef, keep: &[bool]) -> VortexResult<ArrayRef>
    requires { length keep.now ≡ length (rows tree.now) }
    ensures { OrMemory result (λ out. column_of out ≡ filtered (column_of tree.now) keep.now) }
{
    let plain = tree.canonical(alloc)?;
    kept_stored(alloc, &plain, keep)
}

// `filter` of columns that the root or, of timestamps, its child stores; of others by pieces.
#[tactic(auto, using(crate::proofs::ChosenLeaves::lengths))]
fn kept_stored(alloc: Global, tree: &ArrayRef, keep: &[bool]) -> VortexResult<ArrayRef>
    requires { length keep.now ≡ length (rows tree.now) }
    ensures { OrMemory result (λ out. column_of out ≡ filtered (column_of tree.now) keep.now) }
{
    match tree.node() {
        Node::Bool(values, valid, nullability) => {
            kept_bool(alloc, values, valid, *nullability, keep)
        }
        Node::Primitive(values, valid, nullability) => {
            kept_primitive(alloc, values, valid, *nullability, keep)
        }
        Node::VarBinView(values, valid, dtype) => { kept_view(alloc, values, valid, dtype, keep) }
        Node::Timestamp(storage, kind) => kept_stamps(alloc, &storage.array, kind, keep),
        _ => kept_by_pieces(alloc, tree, keep),
    }
}

// `filter` of timestamps.
fn kept_stamps(
    alloc: Global,
    storage: &ArrayRef,
    kind: &TimestampType,
    keep: &[bool],
) -> VortexResult<ArrayRef>
    requires well { WellFormed (timestamp storage.now kind.now) }
    requires bits { length keep.now ≡ length (rows storage.now) }
    ensures { OrMemory result (λ out. column_of out ≡ filtered (column_of (timestamp storage.now kind.now)) keep.now) }
{
    let chosen = kept_integers(alloc, storage, keep)?;
    stamped(alloc, chosen, kind)
}

// `filter` of integers: the storage of timestamps, or the codes of a dictionary.
#[tactic(auto, using(crate::proofs::ChosenLeaves::lengths))]
fn kept_integers(alloc: Global, tree: &ArrayRef, keep: &[bool]) -> VortexResult<ArrayRef>
    requires { length keep.now ≡ length (rows tree.now) }
    ensures { OrMemory result (λ out. column_of out ≡ filtered (column_of tree.now) keep.now) }
{
    match tree.node() {
        Node::Primitive(values, valid, nullability) => {
            kept_primitive(alloc, values, valid, *nullability, keep)
        }
        _ => kept_by_pieces(alloc, tree, keep),
    }
}

// `filter` by the runs of true bits, over every type.
fn kept_by_pieces(alloc: Global, tree: &ArrayRef, keep: &[bool]) -> VortexResult<ArrayRef>
    requires { length keep.now ≡ length (rows tree.now) }
    ensures { OrMemory result (λ out. column_of out ≡ filtered (column_of tree.now) keep.now) }
{
    let pieces = kept_pieces(alloc, keep)?;
    pieced(alloc, tree, pieces.as_slice())
}
