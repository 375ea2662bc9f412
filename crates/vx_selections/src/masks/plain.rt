//! Plain trees with more nulls, and of a wider type: the root's validity alone changes, and all else is moved.

ghost use Rattle.std.specs.Prelude.{◌≡◌, IsTrue};
ghost use Rattle.vx_base.specs.Answers.{OrMemory};
ghost use Rattle.vx_base.specs.PlainType.{is_integer};
ghost use Rattle.vx_model.specs.Column.{column_of};
ghost use Rattle.vx_model.specs.Plain.{IsPlain};
ghost use Rattle.vx_model.specs.Tree.{timestamp};
ghost use Rattle.vx_model.specs.TreeType.{tree_type};
ghost use Rattle.vx_model.specs.WellFormed.{WellFormed};
ghost use Rattle.vx_selections.specs.Narrowed.{Restricts, restricted};

use super::roots::{
    restricted_bool, restricted_fixed, restricted_list, restricted_primitive, restricted_struct,
    restricted_view,
};
use crate::stamps::stamped;
use std::alloc::Global;
use vx_array::{ArrayRef, Node};
use vx_base::{Mask, Nullability, TimestampType, VortexResult};

/// The rows of a plain tree, null also where `valid` is false, in the type with this nullability.
#[tactic(auto, using(vx_array::proofs::PlainRows::repeating, crate::proofs::Restricting::nulls_restricted))]
pub(crate) fn restricted(
    alloc: Global,
    tree: ArrayRef,
    valid: &Option<Mask>,
    nullability: Nullability,
) -> VortexResult<ArrayRef>
    requires plain { IsPlain tree }
    requires bits { Restricts valid.now nullability (column_of tree) }
    ensures { OrMemory result (λ out. column_of out ≡ restricted valid.now nullability (column_of tree)) }
{
    match tree.into_node() {
        Node::Null(len) => Ok(ArrayRef::null(len)),
        Node::Bool(values, own, nulls) => {
            restricted_bool(alloc, values, own, nulls, valid, nullability)
        }
        Node::Primitive(values, own, nulls) => {
            restricted_primitive(alloc, values, own, nulls, valid, nullability)
        }
        Node::VarBinView(values, own, dtype) => {
            restricted_view(alloc, values, own, dtype, valid, nullability)
        }
        Node::Timestamp(storage, kind) => {
            let storage = Box::into_inner(storage.array);
            restricted_stamps(alloc, storage, &kind, valid, nullability)
        }
        Node::Struct(names, fields, len, own, nulls) => {
            restricted_struct(alloc, names, fields, len, own, nulls, valid, nullability)
        }
        Node::List(elements, offsets, own, nulls) => {
            let elements = Box::into_inner(elements.array);
            let offsets = Box::into_inner(offsets.array);
            restricted_list(alloc, elements, offsets, own, nulls, valid, nullability)
        }
        Node::FixedSizeList(elements, size, len, own, nulls) => {
            let elements = Box::into_inner(elements.array);
            restricted_fixed(alloc, elements, size, len, own, nulls, valid, nullability)
        }
        _ => unreachable!(),
    }
}

// `restricted` of timestamps.
fn restricted_stamps(
    alloc: Global,
    storage: ArrayRef,
    kind: &TimestampType,
    valid: &Option<Mask>,
    nullability: Nullability,
) -> VortexResult<ArrayRef>
    requires well { WellFormed (timestamp storage kind.now) }
    requires plain { IsPlain storage }
    requires bits { Restricts valid.now nullability (column_of (timestamp storage kind.now)) }
    ensures { OrMemory result (λ out. column_of out ≡ restricted valid.now nullability (column_of (timestamp storage kind.now))) }
{
    let chosen = restricted_storage(alloc, storage, valid, nullability)?;
    stamped(alloc, chosen, kind)
}

// `restricted` of the storage of timestamps, which is a Primitive where it is plain.
#[tactic(auto, using(vx_array::proofs::PlainRows::repeating))]
fn restricted_storage(
    alloc: Global,
    storage: ArrayRef,
    valid: &Option<Mask>,
    nullability: Nullability,
) -> VortexResult<ArrayRef>
    requires integers { IsTrue (is_integer (tree_type storage)) }
    requires plain { IsPlain storage }
    requires bits { Restricts valid.now nullability (column_of storage) }
    ensures { OrMemory result (λ out. column_of out ≡ restricted valid.now nullability (column_of storage)) }
{
    match storage.into_node() {
        Node::Primitive(values, own, nulls) => {
            restricted_primitive(alloc, values, own, nulls, valid, nullability)
        }
        _ => unreachable!(),
    }
}
