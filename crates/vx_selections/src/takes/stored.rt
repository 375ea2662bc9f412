//! Take from stored columns: the item at each index, and the validity of both.

ghost use Rattle.std.specs.List.{list_all};
ghost use Rattle.std.specs.Prelude.{◌≡◌, IsTrue, length};
ghost use Rattle.vx_base.specs.Answers.{OrMemory};
ghost use Rattle.vx_base.specs.TypeOf.{type_of};
ghost use Rattle.vx_model.specs.Column.{column_of};
ghost use Rattle.vx_model.specs.Rows.{rows};
ghost use Rattle.vx_model.specs.Tree.{bool, primitive, var_bin_view};
ghost use Rattle.vx_model.specs.WellFormed.{WellFormed, is_place};
ghost use Rattle.vx_rules.specs.Selections.{taken};
ghost use Rattle.vx_values.specs.IntsOf.{ptype_of, wholes_of};

use std::alloc::Global;
use vx_array::ArrayRef;
use vx_base::{ByteRows, DType, Mask, Nullability, VortexResult};
use vx_values::{Ints, bits, byte_rows, copy_validity, valid_codes};

/// `take` from stored truth values.
pub(super) fn taken_bool(
    alloc: Global,
    values: &Mask,
    own: &Option<Mask>,
    nullability: Nullability,
    codes: &Ints,
    valid: &Option<Mask>,
    nulls: Nullability,
) -> VortexResult<ArrayRef>
    requires well { WellFormed (bool values.now own.now nullability) }
    requires codes { WellFormed (primitive (ptype_of codes.now) (wholes_of codes.now) valid.now nulls) }
    requires places { IsTrue (list_all (is_place (length values.now)) (rows (primitive (ptype_of codes.now) (wholes_of codes.now) valid.now nulls))) }
    ensures { OrMemory result (λ out. column_of out ≡ taken (column_of (bool values.now own.now nullability)) (column_of (primitive (ptype_of codes.now) (wholes_of codes.now) valid.now nulls))) }
{
    let picked = bits::picked(alloc, values, codes)?;
    let valid = copy_validity(alloc, valid)?;
    let bits = valid_codes(alloc, codes, valid, own)?;
    Ok(ArrayRef::bool_of(picked, bits, nullability.or(nulls)))
}

/// `take` from stored integers.
pub(super) fn taken_primitive(
    alloc: Global,
    values: &Ints,
    own: &Option<Mask>,
    nullability: Nullability,
    codes: &Ints,
    valid: &Option<Mask>,
    nulls: Nullability,
) -> VortexResult<ArrayRef>
    requires well { WellFormed (primitive (ptype_of values.now) (wholes_of values.now) own.now nullability) }
    requires codes { WellFormed (primitive (ptype_of codes.now) (wholes_of codes.now) valid.now nulls) }
    requires places { IsTrue (list_all (is_place (length (wholes_of values.now))) (rows (primitive (ptype_of codes.now) (wholes_of codes.now) valid.now nulls))) }
    ensures { OrMemory result (λ out. column_of out ≡ taken (column_of (primitive (ptype_of values.now) (wholes_of values.now) own.now nullability)) (column_of (primitive (ptype_of codes.now) (wholes_of codes.now) valid.now nulls))) }
{
    let picked = values.picked(alloc, codes)?;
    let valid = copy_validity(alloc, valid)?;
    let bits = valid_codes(alloc, codes, valid, own)?;
    Ok(ArrayRef::primitive_of(picked, bits, nullability.or(nulls)))
}

/// `take` from stored texts or binaries.
pub(super) fn taken_view(
    alloc: Global,
    values: &ByteRows,
    own: &Option<Mask>,
    dtype: &DType,
    codes: &Ints,
    valid: &Option<Mask>,
    nulls: Nullability,
) -> VortexResult<ArrayRef>
    requires well { WellFormed (var_bin_view values.now own.now (type_of dtype.now)) }
    requires codes { WellFormed (primitive (ptype_of codes.now) (wholes_of codes.now) valid.now nulls) }
    requires places { IsTrue (list_all (is_place (length values.now)) (rows (primitive (ptype_of codes.now) (wholes_of codes.now) valid.now nulls))) }
    ensures { OrMemory result (λ out. column_of out ≡ taken (column_of (var_bin_view values.now own.now (type_of dtype.now))) (column_of (primitive (ptype_of codes.now) (wholes_of codes.now) valid.now nulls))) }
{
    let wide = dtype.with_nullability(alloc, dtype.nullability().or(nulls))?;
    let picked = byte_rows::picked(alloc, values, codes)?;
    let valid = copy_validity(alloc, valid)?;
    let bits = valid_codes(alloc, codes, valid, own)?;
    Ok(ArrayRef::var_bin_view_of(picked, bits, wide))
}
