//! Plain trees of leaf types and of timestamps, from values.

ghost use Rattle.std.specs.List.{list_all};
ghost use Rattle.std.specs.Prelude.{IsTrue, map};
ghost use Rattle.vx_base.specs.Answers.{Answers};
ghost use Rattle.vx_base.specs.PlainScalar.{fits};
ghost use Rattle.vx_base.specs.PlainType.{is_bytes};
ghost use Rattle.vx_base.specs.PlainType as types;
ghost use Rattle.vx_base.specs.TypeOf.{type_of, value_of};
ghost use Rattle.vx_model.specs.Plain.{plain_of};

use crate::array::ArrayRef;
use crate::node::stamped;
use std::alloc::Global;
use vx_base::{DType, Nullability, PType, TimestampType, Value, VortexResult};
use vx_flat::{byte_rows, truths, validity_of, wholes};

// A Bool node.
pub(super) fn of_truths(
    alloc: Global,
    values: &[Value],
    nullability: Nullability,
) -> VortexResult<ArrayRef>
    requires { IsTrue (list_all (fits (types.boolean nullability)) (map value_of values.now)) }
    ensures { Answers result (plain_of (types.boolean nullability) (map value_of values.now)) }
{
    let valid = validity_of(alloc, values)?;
    Ok(ArrayRef::bool_of(truths(alloc, values)?, valid, nullability))
}

// A Primitive node.
pub(super) fn of_wholes(
    alloc: Global,
    values: &[Value],
    ptype: PType,
    nullability: Nullability,
) -> VortexResult<ArrayRef>
    requires { IsTrue (list_all (fits (types.primitive ptype nullability)) (map value_of values.now)) }
    ensures { Answers result (plain_of (types.primitive ptype nullability) (map value_of values.now)) }
{
    let valid = validity_of(alloc, values)?;
    let wholes = wholes(alloc, values, ptype)?;
    Ok(ArrayRef::primitive_of(wholes, valid, nullability))
}

// A Timestamp node over `i64` storage.
pub(super) fn of_stamps(
    alloc: Global,
    values: &[Value],
    kind: &TimestampType,
    nullability: Nullability,
) -> VortexResult<ArrayRef>
    requires { IsTrue (list_all (fits (types.timestamp kind.now nullability)) (map value_of values.now)) }
    ensures { Answers result (plain_of (types.timestamp kind.now nullability) (map value_of values.now)) }
{
    let storage = of_wholes(alloc, values, PType::I64, nullability)?;
    stamped(alloc, storage, kind)
}

// A VarBinView node. The bytes are moved into it.
pub(super) fn of_bytes(alloc: Global, values: Vec<Value>, dtype: &DType) -> VortexResult<ArrayRef>
    requires bytes { IsTrue (is_bytes (type_of dtype.now)) }
    requires fitting { IsTrue (list_all (fits (type_of dtype.now)) (map value_of values.items)) }
    ensures { Answers result (plain_of (type_of dtype.now) (map value_of values.items)) }
{
    let valid = validity_of(alloc, values.as_slice())?;
    let rows = byte_rows(alloc, values)?;
    Ok(ArrayRef::var_bin_view_of(rows, valid, dtype.copy(alloc)?))
}
