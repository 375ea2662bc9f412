//! Timestamps over `i64` storage.

ghost use Rattle.std.specs.Prelude.{◌≡◌, None, true};
ghost use Rattle.vx_array.specs.AsType.{as_type};
ghost use Rattle.vx_array.specs.TreeOf.{tree_of};
ghost use Rattle.vx_base.specs.Answers.{Makes, Answers, OrMemory};
ghost use Rattle.vx_base.specs.PlainType as types;
ghost use Rattle.vx_base.specs.PlainType.{is_timestamp};
ghost use Rattle.vx_base.specs.TypeOf.{type_of};
ghost use Rattle.vx_model.specs.Refusals.{timestamp_refusal};
ghost use Rattle.vx_model.specs.Tree.{timestamp};

use crate::array::{ArrayRef, Child, Node};
use crate::node::Made;
use std::alloc::Global;
use vx_base::{DType, Refused, TimestampType, VortexError, VortexResult};
use vx_flat::is_storage;

impl ArrayRef {
    /// The integers of `storage` as timestamps of a kind, its unit and zone; null where `storage` is. Child 0: `storage`, as
    /// many rows. Refuses MismatchedTypes where `storage` isn't of the type `i64`, nullable or not.
    #[tactic(auto, using(crate::proofs::Making::timestamp_array))]
    pub fn timestamp(
        alloc: Global,
        storage: ArrayRef,
        kind: TimestampType,
    ) -> Made<(ArrayRef, TimestampType)>
        ensures { Makes (timestamp_refusal storage) (timestamp storage kind) (storage, kind) result }
    {
        if !is_storage(storage.dtype()) {
            return Err(Refused {
                error: VortexError::MismatchedTypes,
                inputs: (storage, kind),
            });
        }
        let own_kind = match kind.copy(alloc) {
            Ok(own_kind) => own_kind,
            Err(error) => {
                return Err(Refused {
                    error,
                    inputs: (storage, kind),
                });
            }
        };
        let own_type = DType::timestamp(own_kind, storage.dtype().nullability());
        let len = storage.len();
        storage.known();
        match Box::new(alloc, storage) {
            Ok(storage) => Ok(ArrayRef {
                node: Node::Timestamp(Child { array: storage }, kind),
                own_type: Some(own_type),
                len,
            }),
            Err(failed) => Err(Refused {
                error: VortexError::NoMemory,
                inputs: (failed.value, kind),
            }),
        }
    }
}

// Integers as a column of this type: under a Timestamp node of the type's kind, or as they are.
pub(crate) fn as_type(alloc: Global, integers: ArrayRef, dtype: &DType) -> VortexResult<ArrayRef>
    requires { is_timestamp (type_of dtype.now) ≡ true → timestamp_refusal integers ≡ None }
    ensures { Answers result (as_type (type_of dtype.now) integers) }
{
    match dtype {
        DType::Timestamp(kind, _) => stamped(alloc, integers, kind),
        _ => Ok(integers),
    }
}

// A copy of the node, over the caller's copy of the storage.
pub(crate) fn copied_timestamp(
    alloc: Global,
    storage: ArrayRef,
    kind: &TimestampType,
) -> VortexResult<Node>
    ensures { OrMemory result (λ copy. tree_of copy ≡ timestamp storage kind.now) }
{
    let storage = Box::new(alloc, storage)?;
    Ok(Node::Timestamp(Child { array: storage }, kind.copy(alloc)?))
}

// `timestamp` without its check, for storage that passes it, with a copy of the kind.
pub(crate) fn stamped(
    alloc: Global,
    storage: ArrayRef,
    kind: &TimestampType,
) -> VortexResult<ArrayRef>
    requires { timestamp_refusal storage ≡ None }
    ensures { Answers result (timestamp storage kind.now) }
{
    match ArrayRef::timestamp(alloc, storage, kind.copy(alloc)?) {
        Ok(tree) => Ok(tree),
        Err(refused) => Err(refused.error),
    }
}
