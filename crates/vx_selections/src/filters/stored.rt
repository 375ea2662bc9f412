//! Filter of stored columns: the items and the validity bits whose row is kept. Whatever stands beneath nulls is kept with
//! them.

ghost use Rattle.std.specs.Prelude.{◌≡◌, length};
ghost use Rattle.vx_base.specs.Answers.{OrMemory};
ghost use Rattle.vx_base.specs.TypeOf.{type_of};
ghost use Rattle.vx_model.specs.Column.{column_of};
ghost use Rattle.vx_model.specs.Tree.{bool, primitive, var_bin_view};
ghost use Rattle.vx_model.specs.WellFormed.{WellFormed};
ghost use Rattle.vx_rules.specs.Selections.{filtered};
ghost use Rattle.vx_values.specs.IntsOf.{ptype_of, wholes_of};

use super::kernels::{kept_bits, kept_bytes, kept_ints, kept_validity};
use std::alloc::Global;
use vx_array::ArrayRef;
use vx_base::{ByteRows, DType, Mask, Nullability, VortexResult};
use vx_values::Ints;

/// `filter` of stored truth values.
pub(super) fn kept_bool(
    alloc: Global,
    values: &Mask,
    valid: &Option<Mask>,
    nullability: Nullability,
    bits: &[bool],
) -> VortexResult<ArrayRef>
    requires well { WellFormed (bool values.now valid.now nullability) }
    requires bits { length bits.now ≡ length values.now }
    ensures { OrMemory result (λ out. column_of out ≡ filtered (column_of (bool values.now valid.now nullability)) bits.now) }
{
    let kept = kept_bits(alloc, values, bits)?;
    let valid = kept_validity(alloc, valid, bits)?;
    Ok(ArrayRef::bool_of(kept, valid, nullability))
}

/// `filter` of stored integers.
pub(super) fn kept_primitive(
    alloc: Global,
    values: &Ints,
    valid: &Option<Mask>,
    nullability: Nullability,
    bits: &[bool],
) -> VortexResult<ArrayRef>
    requires well { WellFormed (primitive (ptype_of values.now) (wholes_of values.now) valid.now nullability) }
    requires bits { length bits.now ≡ length (wholes_of values.now) }
    ensures { OrMemory result (λ out. column_of out ≡ filtered (column_of (primitive (ptype_of values.now) (wholes_of values.now) valid.now nullability)) bits.now) }
{
    let kept = kept_ints(alloc, values, bits)?;
    let valid = kept_validity(alloc, valid, bits)?;
    Ok(ArrayRef::primitive_of(kept, valid, nullability))
}

/// `filter` of stored texts or binaries.
pub(super) fn kept_view(
    alloc: Global,
    values: &ByteRows,
    valid: &Option<Mask>,
    dtype: &DType,
    bits: &[bool],
) -> VortexResult<ArrayRef>
    requires well { WellFormed (var_bin_view values.now valid.now (type_of dtype.now)) }
    requires bits { length bits.now ≡ length values.now }
    ensures { OrMemory result (λ out. column_of out ≡ filtered (column_of (var_bin_view values.now valid.now (type_of dtype.now))) bits.now) }
{
    let dtype = dtype.copy(alloc)?;
    let kept = kept_bytes(alloc, values, bits)?;
    let valid = kept_validity(alloc, valid, bits)?;
    Ok(ArrayRef::var_bin_view_of(kept, valid, dtype))
}
