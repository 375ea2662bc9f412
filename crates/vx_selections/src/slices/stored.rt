//! Slice of stored columns: one copy of the items and of the validity bits of the range. Whatever stands beneath nulls is kept
//! with them.

ghost use Rattle.std.specs.Prelude.{◌≡◌, IsTrue, length, option_map, true};
ghost use Rattle.vx_base.specs.Answers.{Answers, OrMemory};
ghost use Rattle.vx_base.specs.Masks.{is_part, rows_between};
ghost use Rattle.vx_base.specs.TypeOf.{type_of};
ghost use Rattle.vx_model.specs.Column.{column_of};
ghost use Rattle.vx_model.specs.Refusals.{kept, validity_length};
ghost use Rattle.vx_model.specs.Tree.{bool, primitive, var_bin_view};
ghost use Rattle.vx_model.specs.WellFormed.{WellFormed};
ghost use Rattle.vx_rules.specs.Selections.{sliced};
ghost use Rattle.vx_values.specs.IntsOf.{ptype_of, wholes_of};

use std::alloc::Global;
use vx_array::ArrayRef;
use vx_base::{ByteRows, DType, Mask, Nullability, VortexResult};
use vx_values::{Ints, byte_rows, keep};

/// `slice` of stored truth values.
pub(super) fn part_bool(
    alloc: Global,
    values: &Mask,
    valid: &Option<Mask>,
    nullability: Nullability,
    start: u64,
    end: u64,
) -> VortexResult<ArrayRef>
    requires well { WellFormed (bool values.now valid.now nullability) }
    requires part { IsTrue (is_part (length values.now) start end) }
    ensures { OrMemory result (λ out. column_of out ≡ sliced (column_of (bool values.now valid.now nullability)) start end) }
{
    let part = part_bits(alloc, values, start, end)?;
    let valid = part_validity(alloc, valid, values.len(), start, end)?;
    Ok(ArrayRef::bool_of(part, valid, nullability))
}

/// `slice` of stored integers.
pub(super) fn part_primitive(
    alloc: Global,
    values: &Ints,
    valid: &Option<Mask>,
    nullability: Nullability,
    start: u64,
    end: u64,
) -> VortexResult<ArrayRef>
    requires well { WellFormed (primitive (ptype_of values.now) (wholes_of values.now) valid.now nullability) }
    requires part { IsTrue (is_part (length (wholes_of values.now)) start end) }
    ensures { OrMemory result (λ out. column_of out ≡ sliced (column_of (primitive (ptype_of values.now) (wholes_of values.now) valid.now nullability)) start end) }
{
    let part = part_ints(alloc, values, start, end)?;
    let valid = part_validity(alloc, valid, values.len(), start, end)?;
    Ok(ArrayRef::primitive_of(part, valid, nullability))
}

/// `slice` of stored texts or binaries.
pub(super) fn part_view(
    alloc: Global,
    values: &ByteRows,
    valid: &Option<Mask>,
    dtype: &DType,
    start: u64,
    end: u64,
) -> VortexResult<ArrayRef>
    requires well { WellFormed (var_bin_view values.now valid.now (type_of dtype.now)) }
    requires part { IsTrue (is_part (length values.now) start end) }
    ensures { OrMemory result (λ out. column_of out ≡ sliced (column_of (var_bin_view values.now valid.now (type_of dtype.now))) start end) }
{
    let dtype = dtype.copy(alloc)?;
    let part = part_bytes(alloc, values, start, end)?;
    let valid = part_validity(alloc, valid, values.len(), start, end)?;
    Ok(ArrayRef::var_bin_view_of(part, valid, dtype))
}

// The integers of the range.
fn part_ints(alloc: Global, values: &Ints, start: u64, end: u64) -> VortexResult<Ints>
    requires { IsTrue (is_part (length (wholes_of values.now)) start end) }
    ensures { OrMemory result (λ out. (ptype_of out ≡ ptype_of values.now) × (wholes_of out ≡ rows_between (wholes_of values.now) start end)) }
{
    values.gather(alloc, &[(start, end)])
}

// The truth values of the range.
fn part_bits(alloc: Global, values: &Mask, start: u64, end: u64) -> VortexResult<Mask>
    requires { IsTrue (is_part (length values.now) start end) }
    ensures { Answers result (rows_between values.now start end) }
{
    values.slice(alloc, start, end)
}

// Copies of the rows of bytes of the range.
fn part_bytes(alloc: Global, values: &ByteRows, start: u64, end: u64) -> VortexResult<ByteRows>
    requires { IsTrue (is_part (length values.now) start end) }
    ensures { Answers result (rows_between values.now start end) }
{
    byte_rows::gather(alloc, values, &[(start, end)])
}

// The validity of the range, of a column of `len` rows; None where all of its rows are valid.
fn part_validity(
    alloc: Global,
    valid: &Option<Mask>,
    len: u64,
    start: u64,
    end: u64,
) -> VortexResult<Option<Mask>>
    requires bits { validity_length valid.now len ≡ true }
    requires part { IsTrue (is_part len start end) }
    ensures { Answers result (kept (option_map (λ bits. rows_between bits start end) valid.now)) }
{
    match valid {
        Some(mask) => Ok(keep(Some(part_bits(alloc, mask, start, end)?))),
        None => Ok(None),
    }
}
