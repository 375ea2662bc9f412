//! Mask of stored columns: both conditions as the validity, and defaults beneath nulls.

ghost use Rattle.std.specs.Prelude.{◌≡◌, length};
ghost use Rattle.vx_base.specs.Answers.{OrMemory};
ghost use Rattle.vx_base.specs.TypeOf.{type_of};
ghost use Rattle.vx_model.specs.Column.{column_of};
ghost use Rattle.vx_model.specs.Tree.{bool, primitive, var_bin_view};
ghost use Rattle.vx_model.specs.WellFormed.{WellFormed};
ghost use Rattle.vx_rules.specs.Selections.{masked};
ghost use Rattle.vx_values.specs.IntsOf.{ptype_of, wholes_of};

use super::validity::also;
use std::alloc::Global;
use vx_array::ArrayRef;
use vx_base::{ByteRows, DType, Mask, Nullability, VortexResult};
use vx_values::{Ints, bits, byte_rows};

/// `mask` of stored truth values.
pub(super) fn masked_bool(
    alloc: Global,
    values: &Mask,
    own: &Option<Mask>,
    nullability: Nullability,
    keep: &Mask,
) -> VortexResult<ArrayRef>
    requires well { WellFormed (bool values.now own.now nullability) }
    requires bits { length keep.now ≡ length values.now }
    ensures { OrMemory result (λ out. column_of out ≡ masked (column_of (bool values.now own.now nullability)) keep.now) }
{
    let bits = also(alloc, own, keep)?;
    let valid = Some(bits);
    let values = bits::decoded(alloc, values, &valid)?;
    Ok(ArrayRef::bool_of(values, valid, Nullability::Nullable))
}

/// `mask` of stored integers.
pub(super) fn masked_primitive(
    alloc: Global,
    values: &Ints,
    own: &Option<Mask>,
    nullability: Nullability,
    keep: &Mask,
) -> VortexResult<ArrayRef>
    requires well { WellFormed (primitive (ptype_of values.now) (wholes_of values.now) own.now nullability) }
    requires bits { length keep.now ≡ length (wholes_of values.now) }
    ensures { OrMemory result (λ out. column_of out ≡ masked (column_of (primitive (ptype_of values.now) (wholes_of values.now) own.now nullability)) keep.now) }
{
    let bits = also(alloc, own, keep)?;
    let valid = Some(bits);
    let values = values.decoded(alloc, &valid)?;
    Ok(ArrayRef::primitive_of(values, valid, Nullability::Nullable))
}

/// `mask` of stored texts or binaries. Bytes beneath nulls aren't copied.
pub(super) fn masked_view(
    alloc: Global,
    values: &ByteRows,
    own: &Option<Mask>,
    dtype: &DType,
    keep: &Mask,
) -> VortexResult<ArrayRef>
    requires well { WellFormed (var_bin_view values.now own.now (type_of dtype.now)) }
    requires bits { length keep.now ≡ length values.now }
    ensures { OrMemory result (λ out. column_of out ≡ masked (column_of (var_bin_view values.now own.now (type_of dtype.now))) keep.now) }
{
    let dtype = dtype.with_nullability(alloc, Nullability::Nullable)?;
    let bits = also(alloc, own, keep)?;
    let valid = Some(bits);
    let values = byte_rows::decoded(alloc, values, &valid)?;
    Ok(ArrayRef::var_bin_view_of(values, valid, dtype))
}
