//! Slice: the rows of a half-open range.

ghost use Rattle.std.specs.Prelude.{◌≡◌, IsTrue, length};
ghost use Rattle.vx_base.specs.Answers.{Decided, OrMemory};
ghost use Rattle.vx_base.specs.Masks.{is_part};
ghost use Rattle.vx_model.specs.Column.{column_of};
ghost use Rattle.vx_model.specs.Rows.{rows};
ghost use Rattle.vx_model.specs.Tree.{timestamp};
ghost use Rattle.vx_model.specs.WellFormed.{WellFormed};
ghost use Rattle.vx_rules.specs.Selections.{slice_refusal, sliced};

mod encoded;
mod stored;

use crate::by_pieces::pieced;
use crate::few_rows::{are_few, part_by_rows};
use crate::stamps::stamped;
use encoded::{part_constant, part_dict, part_sequence};
use std::alloc::Global;
use stored::{part_bool, part_primitive, part_view};
use vx_array::{ArrayRef, Node};
use vx_base::{ExecutionCtx, TimestampType, VortexError, VortexResult};
use vx_pieces::Piece;

/// The rows `start` to `end - 1`; the type stays. Refuses OutOfBounds unless `start <= end <= len`.
pub fn slice(
    array: &ArrayRef,
    start: u64,
    end: u64,
    ctx: &mut ExecutionCtx,
) -> VortexResult<ArrayRef>
    ensures answer { Decided (slice_refusal (column_of array.now) start end) (λ out. column_of out ≡ sliced (column_of array.now) start end) result }
    ensures ctx { ctx.new ≡ ctx.old }
{
    if start > end || end > array.len() {
        return Err(VortexError::OutOfBounds);
    }
    part(ctx.alloc(), array, start, end)
}

// `slice` of a range in bounds.
#[tactic(auto, using(crate::proofs::ChosenLeaves::lengths))]
fn part(alloc: Global, tree: &ArrayRef, start: u64, end: u64) -> VortexResult<ArrayRef>
    requires { IsTrue (is_part (length (rows tree.now)) start end) }
    ensures { OrMemory result (λ out. column_of out ≡ sliced (column_of tree.now) start end) }
{
    match tree.node() {
        Node::Bool(values, valid, nullability) => {
            part_bool(alloc, values, valid, *nullability, start, end)
        }
        Node::Primitive(values, valid, nullability) => {
            part_primitive(alloc, values, valid, *nullability, start, end)
        }
        Node::VarBinView(values, valid, dtype) => {
            part_view(alloc, values, valid, dtype, start, end)
        }
        Node::Timestamp(storage, kind) => part_stamps(alloc, &storage.array, kind, start, end),
        _ => part_encoded(alloc, tree, start, end),
    }
}

// `slice` of columns that aren't stored as they are.
#[tactic(auto, using(crate::proofs::EncodedRows::lengths))]
fn part_encoded(alloc: Global, tree: &ArrayRef, start: u64, end: u64) -> VortexResult<ArrayRef>
    requires { IsTrue (is_part (length (rows tree.now)) start end) }
    ensures { OrMemory result (λ out. column_of out ≡ sliced (column_of tree.now) start end) }
{
    match tree.node() {
        Node::Constant(value, len) => part_constant(alloc, value, *len, start, end),
        Node::Dict(codes, values) => part_dict(alloc, &codes.array, &values.array, start, end),
        Node::Sequence(ptype, nullability, first, step, len) => {
            part_sequence(*ptype, *nullability, *first, *step, *len, start, end)
        }
        _ => part_read(alloc, tree, start, end),
    }
}

// `slice` of timestamps.
fn part_stamps(
    alloc: Global,
    storage: &ArrayRef,
    kind: &TimestampType,
    start: u64,
    end: u64,
) -> VortexResult<ArrayRef>
    requires well { WellFormed (timestamp storage.now kind.now) }
    requires part { IsTrue (is_part (length (rows storage.now)) start end) }
    ensures { OrMemory result (λ out. column_of out ≡ sliced (column_of (timestamp storage.now kind.now)) start end) }
{
    let chosen = part_integers(alloc, storage, start, end)?;
    stamped(alloc, chosen, kind)
}

// `slice` of integers: the storage of timestamps, or the codes of a dictionary.
#[tactic(auto, using(crate::proofs::ChosenLeaves::lengths))]
fn part_integers(alloc: Global, tree: &ArrayRef, start: u64, end: u64) -> VortexResult<ArrayRef>
    requires { IsTrue (is_part (length (rows tree.now)) start end) }
    ensures { OrMemory result (λ out. column_of out ≡ sliced (column_of tree.now) start end) }
{
    match tree.node() {
        Node::Primitive(values, valid, nullability) => {
            part_primitive(alloc, values, valid, *nullability, start, end)
        }
        _ => part_read(alloc, tree, start, end),
    }
}

// `slice` of a column that isn't stored: few rows of a flat type are found one by one, and else it is decoded.
fn part_read(alloc: Global, tree: &ArrayRef, start: u64, end: u64) -> VortexResult<ArrayRef>
    requires { IsTrue (is_part (length (rows tree.now)) start end) }
    ensures { OrMemory result (λ out. column_of out ≡ sliced (column_of tree.now) start end) }
{
    if tree.dtype().is_flat() && are_few(end - start, tree.len()) {
        part_by_rows(alloc, tree, start, end)
    } else {
        part_by_pieces(alloc, tree, start, end)
    }
}

// `slice` as one piece, over every type.
fn part_by_pieces(alloc: Global, tree: &ArrayRef, start: u64, end: u64) -> VortexResult<ArrayRef>
    requires { IsTrue (is_part (length (rows tree.now)) start end) }
    ensures { OrMemory result (λ out. column_of out ≡ sliced (column_of tree.now) start end) }
{
    let piece = Piece::Rows {
        start,
        end,
        times: 1,
    };
    pieced(alloc, tree, &[piece])
}
