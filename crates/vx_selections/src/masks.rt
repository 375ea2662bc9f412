//! Mask: all rows, null where the bit is false.

ghost use Rattle.std.specs.Prelude.{◌≡◌, length};
ghost use Rattle.vx_base.specs.Answers.{Decided, OrMemory};
ghost use Rattle.vx_model.specs.Column.{column_of};
ghost use Rattle.vx_model.specs.Rows.{rows};
ghost use Rattle.vx_model.specs.Tree.{timestamp};
ghost use Rattle.vx_model.specs.WellFormed.{WellFormed};
ghost use Rattle.vx_rules.specs.Selections.{mask_refusal, masked};

mod plain;
mod roots;
mod stored;
mod validity;

use crate::stamps::stamped;
pub(crate) use plain::restricted;
use std::alloc::Global;
use stored::{masked_bool, masked_primitive, masked_view};
use vx_array::{ArrayRef, Node};
use vx_base::{ExecutionCtx, Mask, Nullability, TimestampType, VortexError, VortexResult};

/// All rows, null where the bit is false; the type is nullable, even if every bit is true. Refuses LengthMismatch where the
/// mask doesn't have one bit per row.
pub fn mask(array: &ArrayRef, keep: &Mask, ctx: &mut ExecutionCtx) -> VortexResult<ArrayRef>
    ensures answer { Decided (mask_refusal (column_of array.now) keep.now) (λ out. column_of out ≡ masked (column_of array.now) keep.now) result }
    ensures ctx { ctx.new ≡ ctx.old }
{
    if keep.len() != array.len() {
        return Err(VortexError::LengthMismatch);
    }
    masked_rows(ctx.alloc(), array, keep)
}

// `mask` by a mask of the right length. A column that isn't stored as it is is decoded first.
#[tactic(auto, using(crate::proofs::ChosenLeaves::lengths))]
fn masked_rows(alloc: Global, tree: &ArrayRef, keep: &Mask) -> VortexResult<ArrayRef>
    requires { length keep.now ≡ length (rows tree.now) }
    ensures { OrMemory result (λ out. column_of out ≡ masked (column_of tree.now) keep.now) }
{
    match tree.node() {
        Node::Bool(values, valid, nulls) => masked_bool(alloc, values, valid, *nulls, keep),
        Node::Primitive(values, valid, nulls) => {
            masked_primitive(alloc, values, valid, *nulls, keep)
        }
        Node::VarBinView(values, valid, dtype) => masked_view(alloc, values, valid, dtype, keep),
        Node::Timestamp(storage, kind) => masked_stamps(alloc, &storage.array, kind, keep),
        _ => masked_plain(alloc, tree, keep),
    }
}

// `mask` of timestamps.
fn masked_stamps(
    alloc: Global,
    storage: &ArrayRef,
    kind: &TimestampType,
    keep: &Mask,
) -> VortexResult<ArrayRef>
    requires well { WellFormed (timestamp storage.now kind.now) }
    requires bits { length keep.now ≡ length (rows storage.now) }
    ensures { OrMemory result (λ out. column_of out ≡ masked (column_of (timestamp storage.now kind.now)) keep.now) }
{
    let chosen = masked_storage(alloc, storage, keep)?;
    stamped(alloc, chosen, kind)
}

// `mask` of the storage of timestamps.
#[tactic(auto, using(crate::proofs::ChosenLeaves::lengths))]
fn masked_storage(alloc: Global, tree: &ArrayRef, keep: &Mask) -> VortexResult<ArrayRef>
    requires { length keep.now ≡ length (rows tree.now) }
    ensures { OrMemory result (λ out. column_of out ≡ masked (column_of tree.now) keep.now) }
{
    match tree.node() {
        Node::Primitive(values, valid, nulls) => {
            masked_primitive(alloc, values, valid, *nulls, keep)
        }
        _ => masked_plain(alloc, tree, keep),
    }
}

// `mask` over every type, by the validity of the plain tree.
fn masked_plain(alloc: Global, tree: &ArrayRef, keep: &Mask) -> VortexResult<ArrayRef>
    requires { length keep.now ≡ length (rows tree.now) }
    ensures { OrMemory result (λ out. column_of out ≡ masked (column_of tree.now) keep.now) }
{
    let plain = tree.canonical(alloc)?;
    let bits = keep.copy(alloc)?;
    let valid = Some(bits);
    restricted(alloc, plain, &valid, Nullability::Nullable)
}
