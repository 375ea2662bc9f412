//! A column of timestamps into its parts.

ghost use Rattle.std.specs.List.{list_all};
ghost use Rattle.std.specs.Prelude.{◌≡◌, if◌then◌else◌, int_lt, map, pos, IfOk, IfSome, IsTrue, None, Some};
ghost use Rattle.vx_base.specs.Answers.{OrMemory};
ghost use Rattle.vx_base.specs.declared.dtype.Nullability.TheVariants.{NonNullable};
ghost use Rattle.vx_base.specs.declared.ptype.PType.TheVariants.{I32, I64};
ghost use Rattle.vx_base.specs.Integers.{lies_in};
ghost use Rattle.vx_base.specs.PlainScalar.{scalar};
ghost use Rattle.vx_base.specs.PlainType.{nullability_of};
ghost use Rattle.vx_base.specs.PlainType as types;
ghost use Rattle.vx_base.specs.PlainValue.{int, whole_or_zero};
ghost use Rattle.vx_base.specs.Timestamps.{divides};
ghost use Rattle.vx_base.specs.TypeOf.{type_of};
ghost use Rattle.vx_model.specs.Column.{column_of};
ghost use Rattle.vx_model.specs.Plain.{IsPlain};
ghost use Rattle.vx_model.specs.Rows.{rows};
ghost use Rattle.vx_model.specs.Tree.{constant, primitive};
ghost use Rattle.vx_model.specs.TreeType.{tree_type};
ghost use Rattle.vx_temporal.specs.Joined.{joined, parts_refusal};
ghost use Rattle.vx_temporal.specs.Settled.{Settled};
ghost use Rattle.vx_temporal.specs.Split.{divisor_in, split_refusal, type_refusal, unit_in};
ghost use Rattle.vx_temporal.specs.SplitOf.{AreSplit, IsSplitOf, Splits};
ghost use Rattle.vx_temporal.specs.SplitRows.{AreParts};
ghost use Rattle.vx_time.specs.PartsOf.{units_per_second};

use crate::parts::TemporalParts;
use crate::row_parts::{RowParts, split_rows};
use std::alloc::Global;
use vx_array::ArrayRef;
use vx_base::{
    DType, ExecutionCtx, IntList, Nullability, PType, Scalar, TimeUnit, VortexError, VortexResult,
};
use vx_values::Ints;

/// The parts of each row of a column of timestamps, as `i32`: days with the column's nullability and validity, non-nullable
/// seconds and subseconds, and 0 beneath nulls. Where a unit is a second, the subseconds are a Constant. Refuses
/// MismatchedTypes of any other type, DaysOutOfRange where the day of a row that isn't null doesn't fit 32 signed bits, and
/// NoMemory. The parts are accepted as such (`accepted`), and they join to the rows (`kept`).
pub fn split_temporal(array: &ArrayRef, ctx: &mut ExecutionCtx) -> VortexResult<TemporalParts>
    ensures answer { Settled (type_refusal (tree_type array.now)) (split_refusal (column_of array.now)) (IsSplitOf (column_of array.now)) result }
    ensures accepted { IfOk result (λ parts. parts_refusal (tree_type array.now) parts.days parts.seconds parts.subseconds ≡ None) }
    ensures kept { IfOk result (λ parts. joined (divisor_in (tree_type array.now)) parts.days parts.seconds parts.subseconds ≡ rows array.now) }
    ensures ctx { ctx.new ≡ ctx.old }
{
    array.known();
    match unit_of(array.dtype()) {
        Some(unit) => split_stamps(ctx.alloc(), array, unit),
        None => Err(VortexError::MismatchedTypes),
    }
}

// The unit of a timestamp type, None of any other type.
fn unit_of(dtype: &DType) -> Option<TimeUnit>
    ensures unit { result ≡ unit_in (type_of dtype.now) }
    ensures divides { IfSome result (λ unit. IsTrue (divides unit)) }
{
    match dtype {
        DType::Timestamp(kind, _) => Some(kind.unit()),
        _ => None,
    }
}

// The parts of timestamps, which are lent where they are plain, and decoded where not.
fn split_stamps(alloc: Global, array: &ArrayRef, unit: TimeUnit) -> VortexResult<TemporalParts>
    requires unit { unit_in (tree_type array.now) ≡ Some unit }
    requires divides { IsTrue (divides unit) }
    ensures { Splits unit (nullability_of (tree_type array.now)) (rows array.now) result }
{
    if array.is_plain() {
        split_plain(alloc, array, unit)
    } else {
        split_encoded(alloc, array, unit)
    }
}

// The parts of timestamps that are decoded first.
fn split_encoded(alloc: Global, array: &ArrayRef, unit: TimeUnit) -> VortexResult<TemporalParts>
    requires unit { unit_in (tree_type array.now) ≡ Some unit }
    requires divides { IsTrue (divides unit) }
    ensures { Splits unit (nullability_of (tree_type array.now)) (rows array.now) result }
{
    let plain = array.canonical(alloc)?;
    split_plain(alloc, &plain, unit)
}

// The parts of plain timestamps, by their storage.
fn split_plain(alloc: Global, array: &ArrayRef, unit: TimeUnit) -> VortexResult<TemporalParts>
    requires plain { IsPlain array.now }
    requires unit { unit_in (tree_type array.now) ≡ Some unit }
    requires divides { IsTrue (divides unit) }
    ensures { Splits unit (nullability_of (tree_type array.now)) (rows array.now) result }
{
    match array.child(0) {
        Some(storage) => split_storage(alloc, storage, unit),
        None => unreachable!(),
    }
}

// The parts of a plain `i64` column.
fn split_storage(alloc: Global, storage: &ArrayRef, unit: TimeUnit) -> VortexResult<TemporalParts>
    requires plain { IsPlain storage.now }
    requires integers { tree_type storage.now ≡ types.primitive I64 (nullability_of (tree_type storage.now)) }
    requires divides { IsTrue (divides unit) }
    ensures { Splits unit (nullability_of (tree_type storage.now)) (rows storage.now) result }
{
    match split_rows(alloc, unit, stored_rows(storage)) {
        Ok(split) => columns_of(alloc, storage, unit, split),
        Err(error) => Err(error),
    }
}

// The rows that a plain `i64` column stores, with 0 beneath nulls.
fn stored_rows(storage: &ArrayRef) -> &[i64]
    requires plain { IsPlain storage.now }
    requires integers { tree_type storage.now ≡ types.primitive I64 (nullability_of (tree_type storage.now)) }
    ensures rows { result.now ≡ map whole_or_zero (rows storage.now) }
    ensures held { IsTrue (list_all (lies_in I64) result.now) }
{
    let (values, _, _) = storage.as_primitive();
    match values {
        Ints::I64(items) => items.as_slice(),
        _ => unreachable!(),
    }
}

// The parts of a plain column as columns of their own.
fn columns_of(
    alloc: Global,
    storage: &ArrayRef,
    unit: TimeUnit,
    split: RowParts,
) -> VortexResult<TemporalParts>
    requires plain { IsPlain storage.now }
    requires integers { tree_type storage.now ≡ types.primitive I64 (nullability_of (tree_type storage.now)) }
    requires divides { IsTrue (divides unit) }
    requires parts { AreParts (units_per_second unit) (map whole_or_zero (rows storage.now)) split.days.items split.seconds.items split.subseconds.items }
    ensures { OrMemory result (AreSplit (units_per_second unit) (nullability_of (tree_type storage.now)) (rows storage.now)) }
{
    let RowParts {
        days,
        seconds,
        subseconds,
    } = split;
    let day_column = storage.with_integers(alloc, Ints::I32(IntList::from_vec(days)))?;
    Ok(TemporalParts {
        days: day_column,
        seconds: non_null(seconds),
        subseconds: subseconds_tree(unit, subseconds, storage.len()),
    })
}

// A part as a column without nulls.
fn non_null(part: Vec<i32>) -> ArrayRef
    ensures { result ≡ primitive I32 part.items None NonNullable }
{
    let values = Ints::I32(IntList::from_vec(part));
    ArrayRef::primitive_of(values, None, Nullability::NonNullable)
}

// The subseconds as a column: a Constant 0 where a unit is a second.
fn subseconds_tree(unit: TimeUnit, subseconds: Vec<i32>, len: u64) -> ArrayRef
    ensures { result ≡ (if int_lt (pos 1) (units_per_second unit) then primitive I32 subseconds.items None NonNullable else constant (scalar (types.primitive I32 NonNullable) (int (pos 0))) len) }
{
    match unit {
        TimeUnit::Nanoseconds | TimeUnit::Microseconds | TimeUnit::Milliseconds => {
            non_null(subseconds)
        }
        TimeUnit::Seconds | TimeUnit::Days => zeros(len),
    }
}

// 0 in each of `len` rows.
fn zeros(len: u64) -> ArrayRef
    ensures { result ≡ constant (scalar (types.primitive I32 NonNullable) (int (pos 0))) len }
{
    match Scalar::primitive(0, PType::I32, Nullability::NonNullable) {
        Ok(zero) => ArrayRef::constant(zero, len),
        Err(_) => unreachable!(),
    }
}
