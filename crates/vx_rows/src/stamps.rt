//! Timestamps over integers.

ghost use Rattle.std.specs.Prelude.{◌≡◌, None};
ghost use Rattle.vx_base.specs.Answers.{Answers};
ghost use Rattle.vx_model.specs.Refusals.{timestamp_refusal};
ghost use Rattle.vx_model.specs.Tree.{timestamp};

use std::alloc::Global;
use vx_array::ArrayRef;
use vx_base::{TimestampType, VortexResult};

/// A Timestamp node over storage that its constructor accepts, with a copy of the kind.
pub(crate) fn stamped(
    alloc: Global,
    storage: ArrayRef,
    kind: &TimestampType,
) -> VortexResult<ArrayRef>
    requires { timestamp_refusal storage ≡ None }
    ensures { Answers result (timestamp storage kind.now) }
{
    match ArrayRef::timestamp(alloc, storage, kind.copy(alloc)?) {
        Ok(tree) => Ok(tree),
        Err(refused) => Err(refused.error),
    }
}
