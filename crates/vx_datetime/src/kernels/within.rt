//! Ranges between two timestamps, each in every row: of each row the days, then the seconds, then the subseconds. No timestamp
//! is combined.

ghost use Rattle.std.specs.Prelude.{◌≡◌, ◌&&◌, IfSome, IsTrue, Some, length, map, replicate, true};
ghost use Rattle.vx_base.specs.Answers.{Answers, OrMemory};
ghost use Rattle.vx_base.specs.Integers.{lies_in};
ghost use Rattle.vx_base.specs.PlainType.{is_flat, or_nullable, same_base};
ghost use Rattle.vx_base.specs.PlainType as types;
ghost use Rattle.vx_base.specs.PlainValue.{int};
ghost use Rattle.vx_base.specs.Timestamps.{divisor_of};
ghost use Rattle.vx_base.specs.declared.ptype.PType.TheVariants.{I64};
ghost use Rattle.vx_datetime.specs.Moments.{floor_operator, moment_parts, row_parts};
ghost use Rattle.vx_model.specs.Column.{column, column_of};
ghost use Rattle.vx_model.specs.Rows.{below, rows};
ghost use Rattle.vx_model.specs.Tree.{datetime_parts};
ghost use Rattle.vx_model.specs.TreeType.{tree_type};
ghost use Rattle.vx_model.specs.WellFormed.{WellFormed};
ghost use Rattle.vx_rules.specs.Comparisons.{between, bound_operator, holds, within_bounds};
ghost use Rattle.vx_time.specs.CanonicalParts.{parts_cmp};
ghost use Rattle.vx_values.specs.IntsOf.{wholes_of};

use super::bounded::within_other_columns;
use super::moments::{Moment, moment_of, same_timestamp};
use super::orders::orders_with;
use super::part_rows::{PartRows, decoded_parts};
use super::parts::Parts;
use super::verdicts::both_hold_of_each;
use std::alloc::Global;
use vx_array::ArrayRef;
use vx_base::{ExecutionCtx, Mask, Nullability, VortexResult};
use vx_rules::{BetweenOptions, CompareOperator};
use vx_values::copy_validity;

/// `between` with bounds of the same timestamps, up to nullability, and as many rows: two Constants by the parts of their
/// timestamps, two columns in parts by their parts, any others by the timestamps.
pub(super) fn within_columns(
    options: BetweenOptions,
    array: &ArrayRef,
    parts: &Parts<'_>,
    lower: &ArrayRef,
    upper: &ArrayRef,
    ctx: &mut ExecutionCtx,
) -> VortexResult<ArrayRef>
    requires tree { array.now ≡ datetime_parts parts.now.kind.now parts.now.nullability parts.now.days.now parts.now.seconds.now parts.now.subseconds.now }
    requires low_base { IsTrue (same_base (tree_type array.now) (tree_type lower.now)) }
    requires high_base { IsTrue (same_base (tree_type array.now) (tree_type upper.now)) }
    requires low_length { length (rows array.now) ≡ length (rows lower.now) }
    requires high_length { length (rows array.now) ≡ length (rows upper.now) }
    ensures answer { OrMemory result (λ out. column_of out ≡ between options (column_of array.now) (column_of lower.now) (column_of upper.now)) }
    ensures ctx { ctx.new ≡ ctx.old }
{
    array.known();
    let Some((low, high)) = same_bounds(lower, upper) else {
        return within_other_columns(options, array, parts, lower, upper, ctx);
    };
    let Some(divisor) = parts.kind.unit().divisor() else {
        return vx_rows::between(array, lower, upper, options, ctx);
    };
    let nullability = lower.dtype().nullability().or(upper.dtype().nullability());
    within_timestamps(
        ctx.alloc(),
        options,
        parts,
        (low, high),
        divisor,
        nullability,
    )
}

// The timestamps that stand in every row of two Constants, None of null and of any other column.
fn same_bounds(lower: &ArrayRef, upper: &ArrayRef) -> Option<(i64, i64)>
    requires lower { IsTrue (is_flat (tree_type lower.now)) }
    requires upper { IsTrue (is_flat (tree_type upper.now)) }
    ensures { IfSome result (λ b. (rows lower.now ≡ replicate (length (rows lower.now)) (int b.0)) × (rows upper.now ≡ replicate (length (rows upper.now)) (int b.1)) × (lies_in I64 b.0 ≡ true) × (lies_in I64 b.1 ≡ true)) }
{
    match (same_timestamp(lower), same_timestamp(upper)) {
        (Some(low), Some(high)) => Some((low, high)),
        _ => None,
    }
}

// Whether each row lies between two timestamps of columns of this nullability, by their parts; null where the day is.
fn within_timestamps(
    alloc: Global,
    options: BetweenOptions,
    parts: &Parts<'_>,
    bounds: (i64, i64),
    divisor: i64,
    nullability: Nullability,
) -> VortexResult<ArrayRef>
    requires well { WellFormed (datetime_parts parts.now.kind.now parts.now.nullability parts.now.days.now parts.now.seconds.now parts.now.subseconds.now) }
    requires low { lies_in I64 bounds.0 ≡ true }
    requires high { lies_in I64 bounds.1 ≡ true }
    requires divisor { Some divisor ≡ divisor_of parts.now.kind.now.unit }
    ensures { OrMemory result (λ out. column_of out ≡ column (types.boolean (or_nullable parts.now.nullability nullability)) (map (λ v. within_bounds options v (int bounds.0) (int bounds.1)) (rows (datetime_parts parts.now.kind.now parts.now.nullability parts.now.days.now parts.now.seconds.now parts.now.subseconds.now)))) }
{
    let low = moment_of(bounds.0, divisor);
    let high = moment_of(bounds.1, divisor);
    let read = decoded_parts(alloc, parts)?;
    let rows = read.rows();
    let bits = lies_at_each(alloc, options, &rows, &low, &high)?;
    let valid = copy_validity(alloc, rows.valid)?;
    Ok(ArrayRef::bool_of(bits, valid, parts.nullability.or(nullability)))
}

// Whether the parts of each row lie between two moments.
fn lies_at_each(
    alloc: Global,
    options: BetweenOptions,
    rows: &PartRows<'_>,
    low: &Moment,
    high: &Moment,
) -> VortexResult<Mask>
    requires seconds { length (wholes_of rows.now.seconds.now) ≡ length (wholes_of rows.now.days.now) }
    requires subseconds { length (wholes_of rows.now.subseconds.now) ≡ length (wholes_of rows.now.days.now) }
    ensures { Answers result (below (λ i. holds (floor_operator options.lower_strict) (parts_cmp (row_parts rows.now i) (moment_parts low.now)) && holds (bound_operator options.upper_strict) (parts_cmp (row_parts rows.now i) (moment_parts high.now))) (length (wholes_of rows.now.days.now))) }
{
    let floor = floor_operator(options.lower_strict);
    let ceiling = options.upper_operator();
    let lows = orders_with(alloc, rows, low)?;
    let highs = orders_with(alloc, rows, high)?;
    both_hold_of_each(alloc, floor, lows.as_slice(), ceiling, highs.as_slice())
}

// The operator between what is within a bound and the lower bound.
fn floor_operator(strict: bool) -> CompareOperator
    ensures { result ≡ floor_operator strict }
{
    if strict {
        CompareOperator::Gt
    } else {
        CompareOperator::Gte
    }
}
