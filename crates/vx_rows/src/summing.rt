//! Sums of columns of integers or truth values.

ghost use Rattle.std.specs.Prelude.{◌≡◌, IsTrue, count_by, false, length, map, pos, true};
ghost use Rattle.vx_base.specs.Answers.{Answers, Decided, OrMemory};
ghost use Rattle.vx_base.specs.Integers.{is_signed};
ghost use Rattle.vx_base.specs.PlainScalar.{scalar};
ghost use Rattle.vx_base.specs.PlainType.{is_nullable};
ghost use Rattle.vx_base.specs.PlainType as types;
ghost use Rattle.vx_base.specs.PlainValue.{cell, int, null, truth_or_false};
ghost use Rattle.vx_base.specs.TypeOf.{type_of};
ghost use Rattle.vx_base.specs.Undelta.{total};
ghost use Rattle.vx_base.specs.declared.dtype.Nullability.TheVariants.{Nullable};
ghost use Rattle.vx_model.specs.Column.{column_of};
ghost use Rattle.vx_model.specs.Refusals.{validity_length};
ghost use Rattle.vx_model.specs.Rows.{rows, valid_rows};
ghost use Rattle.vx_model.specs.TreeType.{tree_type};
ghost use Rattle.vx_rows.specs.Readable.{is_whole, lent_rows};
ghost use Rattle.vx_rows.specs.Totals.{has_total, is_summed, total_of};
ghost use Rattle.vx_rules.specs.Aggregates.{or_null, sum, sum_ptype, sum_refusal, summand};
ghost use Rattle.vx_values.specs.IntsOf.{wholes_of};

mod repeated;

use crate::held::readable;
use crate::kernels::{
    signed_total, signed_total_of_valid, unsigned_total, unsigned_total_of_valid,
};
use crate::lent::{Lent, rows_of};
use repeated::same_total;
use std::alloc::Global;
use vx_array::ArrayRef;
use vx_base::{
    DType, ExecutionCtx, Integer, Mask, Nullability, PType, Scalar, VortexError, VortexResult,
};
use vx_values::Ints;

/// A sum: signed where it may be negative.
#[derive(Clone, Copy)]
pub(crate) enum Total {
    Signed(i128),
    Unsigned(u128),
}

/// The sum of the valid rows, 0 of none: of signed integers an i64, of unsigned integers and of truth values, which count as 1 and 0,
/// a u64; null where the exact sum is out of that range. Refuses MismatchedTypes unless the column is of integers or truth values.
pub fn sum(array: &ArrayRef, ctx: &mut ExecutionCtx) -> VortexResult<Scalar>
    ensures answer { Decided (sum_refusal (column_of array.now)) (λ out. out ≡ sum (column_of array.now)) result }
    ensures ctx { ctx.new ≡ ctx.old }
{
    if !is_summed(array.dtype()) {
        return Err(VortexError::MismatchedTypes);
    }
    let ptype = sum_ptype(array.dtype());
    let total = column_total(ctx.alloc(), array)?;
    total_scalar(total, ptype)
}

// Whether the values of a type are summed.
fn is_summed(dtype: &DType) -> bool
    ensures { result ≡ is_summed (type_of dtype.now) }
{
    matches!(dtype, DType::Bool(_) | DType::Primitive(_, _))
}

// The type of a sum.
fn sum_ptype(dtype: &DType) -> PType
    requires { IsTrue (is_summed (type_of dtype.now)) }
    ensures { result ≡ sum_ptype (type_of dtype.now) }
{
    match dtype {
        DType::Primitive(ptype, _) if !ptype.is_unsigned() => PType::I64,
        _ => PType::U64,
    }
}

// The sum of a column's rows.
fn column_total(alloc: Global, array: &ArrayRef) -> VortexResult<Total>
    requires { IsTrue (is_summed (tree_type array.now)) }
    ensures { OrMemory result (λ out. total_of out ≡ total (map summand (rows array.now))) }
{
    let read = readable(alloc, array)?;
    let rows = rows_of(&read);
    Ok(lent_total(rows))
}

// The sum of rows that are read where they stand.
#[tactic(auto, using(crate::proofs::TotalLemmas::rows_summed))]
fn lent_total(rows: Lent<'_>) -> Total
    requires whole { IsTrue (is_whole rows) }
    requires sized { IsTrue (has_total rows) }
    ensures { total_of result ≡ total (map summand (lent_rows rows.entry)) }
{
    match rows {
        Lent::Ints(values, valid) => integer_total(values, valid),
        Lent::Same(value, len) => same_total(value, len),
        Lent::Bits(_, _) | Lent::Bytes(_, _) => Total::Unsigned(true_rows(rows) as u128),
    }
}

// The rows that are true.
fn true_rows(rows: Lent<'_>) -> u64
    requires { IsTrue (is_whole rows) }
    ensures { result ≡ count_by truth_or_false (lent_rows rows.entry) }
{
    let mut count = 0;
    for row in 0..rows.len() {
        if rows.cell(row).truth() {
            count += 1;
        }
    }
    count
}

// The sum of the valid integers.
fn integer_total(values: &Ints, valid: &Option<Mask>) -> Total
    requires { validity_length valid.now (length (wholes_of values.now)) ≡ true }
    ensures { total_of result ≡ total (map summand (valid_rows valid.now (map int (wholes_of values.now)))) }
{
    match values {
        Ints::U8(items) => unsigned(items.as_slice(), valid),
        Ints::U16(items) => unsigned(items.as_slice(), valid),
        Ints::U32(items) => unsigned(items.as_slice(), valid),
        Ints::U64(items) => unsigned(items.as_slice(), valid),
        Ints::I8(items) => signed(items.as_slice(), valid),
        Ints::I16(items) => signed(items.as_slice(), valid),
        Ints::I32(items) => signed(items.as_slice(), valid),
        Ints::I64(items) => signed(items.as_slice(), valid),
    }
}

// The sum of the valid items of a signed type.
#[tactic(auto, using(crate::proofs::TotalLemmas::summing))]
fn signed<T: Integer>(items: &[T], valid: &Option<Mask>) -> Total
    requires signed { is_signed T.kind ≡ true }
    requires whole { validity_length valid.now (length items.now) ≡ true }
    ensures { total_of result ≡ total (map summand (valid_rows valid.now (map int (map T.whole items.now)))) }
{
    match valid {
        Some(mask) => Total::Signed(signed_total_of_valid(items, mask.as_slice())),
        None => Total::Signed(signed_total(items)),
    }
}

// The sum of the valid items of an unsigned type.
#[tactic(auto, using(crate::proofs::TotalLemmas::summing))]
fn unsigned<T: Integer>(items: &[T], valid: &Option<Mask>) -> Total
    requires unsigned { is_signed T.kind ≡ false }
    requires whole { validity_length valid.now (length items.now) ≡ true }
    ensures { total_of result ≡ total (map summand (valid_rows valid.now (map int (map T.whole items.now)))) }
{
    match valid {
        Some(mask) => Total::Unsigned(unsigned_total_of_valid(items, mask.as_slice())),
        None => Total::Unsigned(unsigned_total(items)),
    }
}

// A sum as a scalar, null where it is out of the type's range.
fn total_scalar(total: Total, ptype: PType) -> VortexResult<Scalar>
    ensures { Answers result (scalar (types.primitive ptype Nullable) (or_null ptype (total_of total))) }
{
    match held_in(total, ptype) {
        Some(whole) => Scalar::primitive(whole, ptype, Nullability::Nullable),
        None => null_of(DType::primitive(ptype, Nullability::Nullable)),
    }
}

// The null of a nullable type.
fn null_of(dtype: DType) -> VortexResult<Scalar>
    requires { IsTrue (is_nullable (type_of dtype)) }
    ensures { Answers result (scalar (type_of dtype) null) }
{
    match Scalar::null(dtype) {
        Ok(scalar) => Ok(scalar),
        Err(refused) => Err(refused.error),
    }
}

// A sum as a number of a type, None where it is out of range.
fn held_in(total: Total, ptype: PType) -> Option<i128>
    ensures { cell result ≡ or_null ptype (total_of total) }
{
    let whole = match total {
        Total::Signed(whole) => whole,
        Total::Unsigned(number) => i128::try_from(number).ok()?,
    };
    if whole >= ptype.least() && whole <= ptype.greatest() {
        Some(whole)
    } else {
        None
    }
}
