//! Take by indices in bounds: stored columns where they stand, encoded flat ones decoded, others by pieces.

ghost use Rattle.std.specs.List.{list_all};
ghost use Rattle.std.specs.Prelude.{◌≡◌, IsTrue, length};
ghost use Rattle.vx_base.specs.Answers.{OrMemory};
ghost use Rattle.vx_model.specs.Column.{column_of};
ghost use Rattle.vx_model.specs.Rows.{rows};
ghost use Rattle.vx_model.specs.Tree.{dict, primitive, timestamp};
ghost use Rattle.vx_model.specs.WellFormed.{WellFormed, is_place};
ghost use Rattle.vx_rules.specs.Selections.{taken};
ghost use Rattle.vx_values.specs.IntsOf.{ptype_of, wholes_of};

use super::encoded::taken_constant;
use super::pieces::taken_by_pieces;
use super::stored::{taken_bool, taken_primitive, taken_view};
use crate::few_rows::{are_few, taken_by_rows};
use crate::over_values::over_values;
use crate::stamps::stamped;
use std::alloc::Global;
use vx_array::{ArrayRef, Node};
use vx_base::{Mask, Nullability, TimestampType, VortexResult};
use vx_values::Ints;

/// `take` by indices in bounds. A flat column that isn't stored as it is is decoded first, unless it is a dictionary or, by indices
/// of a type without null, a constant.
#[tactic(auto, using(crate::proofs::EncodedRows::lengths))]
pub(super) fn taken_rows(
    alloc: Global,
    tree: &ArrayRef,
    codes: &Ints,
    valid: &Option<Mask>,
    nulls: Nullability,
) -> VortexResult<ArrayRef>
    requires well { WellFormed (primitive (ptype_of codes.now) (wholes_of codes.now) valid.now nulls) }
    requires places { IsTrue (list_all (is_place (length (rows tree.now))) (rows (primitive (ptype_of codes.now) (wholes_of codes.now) valid.now nulls))) }
    ensures { OrMemory result (λ out. column_of out ≡ taken (column_of tree.now) (column_of (primitive (ptype_of codes.now) (wholes_of codes.now) valid.now nulls))) }
{
    match tree.node() {
        Node::Bool(_, _, _) | Node::Primitive(_, _, _) => {
            taken_stored(alloc, tree, codes, valid, nulls)
        }
        Node::VarBinView(_, _, _) | Node::Timestamp(_, _) => {
            taken_stored(alloc, tree, codes, valid, nulls)
        }
        Node::Dict(own, values) => {
            taken_dict(alloc, &own.array, &values.array, codes, valid, nulls)
        }
        Node::Constant(value, len) if !nulls.allows_null() => {
            taken_constant(alloc, value, *len, codes, valid, nulls)
        }
        _ if tree.dtype().is_flat() => taken_encoded(alloc, tree, codes, valid, nulls),
        _ => taken_by_pieces(alloc, tree, codes, valid, nulls),
    }
}

// `take` by indices in bounds, of a dictionary: the codes that are taken, over a copy of the values.
fn taken_dict(
    alloc: Global,
    own: &ArrayRef,
    values: &ArrayRef,
    codes: &Ints,
    valid: &Option<Mask>,
    nulls: Nullability,
) -> VortexResult<ArrayRef>
    requires dictionary { WellFormed (dict own.now values.now) }
    requires well { WellFormed (primitive (ptype_of codes.now) (wholes_of codes.now) valid.now nulls) }
    requires places { IsTrue (list_all (is_place (length (rows own.now))) (rows (primitive (ptype_of codes.now) (wholes_of codes.now) valid.now nulls))) }
    ensures { OrMemory result (λ out. column_of out ≡ taken (column_of (dict own.now values.now)) (column_of (primitive (ptype_of codes.now) (wholes_of codes.now) valid.now nulls))) }
{
    let chosen = taken_integers(alloc, own, codes, valid, nulls)?;
    over_values(alloc, chosen, values)
}

// `take` by indices in bounds, of a flat column: few rows are found one by one, and for more it is decoded.
fn taken_encoded(
    alloc: Global,
    tree: &ArrayRef,
    codes: &Ints,
    valid: &Option<Mask>,
    nulls: Nullability,
) -> VortexResult<ArrayRef>
    requires well { WellFormed (primitive (ptype_of codes.now) (wholes_of codes.now) valid.now nulls) }
    requires places { IsTrue (list_all (is_place (length (rows tree.now))) (rows (primitive (ptype_of codes.now) (wholes_of codes.now) valid.now nulls))) }
    ensures { OrMemory result (λ out. column_of out ≡ taken (column_of tree.now) (column_of (primitive (ptype_of codes.now) (wholes_of codes.now) valid.now nulls))) }
{
    if are_few(codes.len(), tree.len()) {
        return taken_by_rows(alloc, tree, codes, valid, nulls);
    }
    let plain = tree.canonical(alloc)?;
    taken_stored(alloc, &plain, codes, valid, nulls)
}

// `take` by indices in bounds, of columns that the root or, of timestamps, its child stores; of others by pieces.
#[tactic(auto, using(crate::proofs::ChosenLeaves::lengths))]
fn taken_stored(
    alloc: Global,
    tree: &ArrayRef,
    codes: &Ints,
    valid: &Option<Mask>,
    nulls: Nullability,
) -> VortexResult<ArrayRef>
    requires well { WellFormed (primitive (ptype_of codes.now) (wholes_of codes.now) valid.now nulls) }
    requires places { IsTrue (list_all (is_place (length (rows tree.now))) (rows (primitive (ptype_of codes.now) (wholes_of codes.now) valid.now nulls))) }
    ensures { OrMemory result (λ out. column_of out ≡ taken (column_of tree.now) (column_of (primitive (ptype_of codes.now) (wholes_of codes.now) valid.now nulls))) }
{
    match tree.node() {
        Node::Bool(values, own, nullability) => {
            taken_bool(alloc, values, own, *nullability, codes, valid, nulls)
        }
        Node::Primitive(values, own, nullability) => {
            taken_primitive(alloc, values, own, *nullability, codes, valid, nulls)
        }
        Node::VarBinView(values, own, dtype) => {
            taken_view(alloc, values, own, dtype, codes, valid, nulls)
        }
        Node::Timestamp(storage, kind) => {
            taken_stamps(alloc, &storage.array, kind, codes, valid, nulls)
        }
        _ => taken_by_pieces(alloc, tree, codes, valid, nulls),
    }
}

// `take` by indices in bounds, of timestamps.
fn taken_stamps(
    alloc: Global,
    storage: &ArrayRef,
    kind: &TimestampType,
    codes: &Ints,
    valid: &Option<Mask>,
    nulls: Nullability,
) -> VortexResult<ArrayRef>
    requires stamps { WellFormed (timestamp storage.now kind.now) }
    requires well { WellFormed (primitive (ptype_of codes.now) (wholes_of codes.now) valid.now nulls) }
    requires places { IsTrue (list_all (is_place (length (rows storage.now))) (rows (primitive (ptype_of codes.now) (wholes_of codes.now) valid.now nulls))) }
    ensures { OrMemory result (λ out. column_of out ≡ taken (column_of (timestamp storage.now kind.now)) (column_of (primitive (ptype_of codes.now) (wholes_of codes.now) valid.now nulls))) }
{
    let chosen = taken_integers(alloc, storage, codes, valid, nulls)?;
    stamped(alloc, chosen, kind)
}

// `take` by indices in bounds, of integers: the storage of timestamps, or the codes of a dictionary.
#[tactic(auto, using(crate::proofs::ChosenLeaves::lengths))]
fn taken_integers(
    alloc: Global,
    tree: &ArrayRef,
    codes: &Ints,
    valid: &Option<Mask>,
    nulls: Nullability,
) -> VortexResult<ArrayRef>
    requires well { WellFormed (primitive (ptype_of codes.now) (wholes_of codes.now) valid.now nulls) }
    requires places { IsTrue (list_all (is_place (length (rows tree.now))) (rows (primitive (ptype_of codes.now) (wholes_of codes.now) valid.now nulls))) }
    ensures { OrMemory result (λ out. column_of out ≡ taken (column_of tree.now) (column_of (primitive (ptype_of codes.now) (wholes_of codes.now) valid.now nulls))) }
{
    match tree.node() {
        Node::Primitive(values, own, nullability) => {
            taken_primitive(alloc, values, own, *nullability, codes, valid, nulls)
        }
        _ => taken_by_pieces(alloc, tree, codes, valid, nulls),
    }
}
