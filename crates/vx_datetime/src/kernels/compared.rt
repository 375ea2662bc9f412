//! Comparisons with one timestamp in every row: of each row the days, then the seconds, then the subseconds. No timestamp is
//! combined.

ghost use Rattle.std.specs.Prelude.{◌≡◌, IsTrue, Some, length, map, true};
ghost use Rattle.vx_base.specs.Answers.{Answers, OrMemory};
ghost use Rattle.vx_base.specs.Integers.{lies_in};
ghost use Rattle.vx_base.specs.PlainType.{or_nullable, same_base};
ghost use Rattle.vx_base.specs.PlainType as types;
ghost use Rattle.vx_base.specs.PlainValue.{int};
ghost use Rattle.vx_base.specs.Timestamps.{divisor_of};
ghost use Rattle.vx_base.specs.declared.ptype.PType.TheVariants.{I64};
ghost use Rattle.vx_datetime.specs.Moments.{moment_parts, row_parts};
ghost use Rattle.vx_model.specs.Column.{column, column_of};
ghost use Rattle.vx_model.specs.Rows.{below, rows};
ghost use Rattle.vx_model.specs.Tree.{datetime_parts};
ghost use Rattle.vx_model.specs.TreeType.{tree_type};
ghost use Rattle.vx_model.specs.WellFormed.{WellFormed};
ghost use Rattle.vx_rules.specs.Comparisons.{compared, comparison, holds};
ghost use Rattle.vx_time.specs.CanonicalParts.{parts_cmp};
ghost use Rattle.vx_values.specs.IntsOf.{wholes_of};

use super::moments::{Moment, moment_of, same_timestamp};
use super::orders::orders_with;
use super::pairs::compared_columns;
use super::part_rows::{PartRows, decoded_parts};
use super::parts::Parts;
use super::verdicts::holds_of_each;
use std::alloc::Global;
use vx_array::ArrayRef;
use vx_base::{ExecutionCtx, Mask, Nullability, VortexResult};
use vx_rules::CompareOperator;
use vx_values::copy_validity;

/// `compare` with a column of the same timestamps, up to nullability, and as many rows: a Constant by the parts of its timestamp,
/// a column in parts by its parts, any other by the timestamps.
pub(super) fn compared_with(
    operator: CompareOperator,
    array: &ArrayRef,
    parts: &Parts<'_>,
    other: &ArrayRef,
    ctx: &mut ExecutionCtx,
) -> VortexResult<ArrayRef>
    requires tree { array.now ≡ datetime_parts parts.now.kind.now parts.now.nullability parts.now.days.now parts.now.seconds.now parts.now.subseconds.now }
    requires base { IsTrue (same_base (tree_type array.now) (tree_type other.now)) }
    requires lengths { length (rows array.now) ≡ length (rows other.now) }
    ensures answer { OrMemory result (λ out. column_of out ≡ comparison operator (column_of array.now) (column_of other.now)) }
    ensures ctx { ctx.new ≡ ctx.old }
{
    array.known();
    let Some(timestamp) = same_timestamp(other) else {
        return compared_columns(operator, array, parts, other, ctx);
    };
    let Some(divisor) = parts.kind.unit().divisor() else {
        return vx_rows::compare(array, other, operator, ctx);
    };
    let nullability = other.dtype().nullability();
    compared_with_timestamp(
        ctx.alloc(),
        operator,
        parts,
        timestamp,
        divisor,
        nullability,
    )
}

// Whether the operator holds between each row and a timestamp of a column of this nullability, by their parts; null where the
// day is.
fn compared_with_timestamp(
    alloc: Global,
    operator: CompareOperator,
    parts: &Parts<'_>,
    timestamp: i64,
    divisor: i64,
    nullability: Nullability,
) -> VortexResult<ArrayRef>
    requires well { WellFormed (datetime_parts parts.now.kind.now parts.now.nullability parts.now.days.now parts.now.seconds.now parts.now.subseconds.now) }
    requires held { lies_in I64 timestamp ≡ true }
    requires divisor { Some divisor ≡ divisor_of parts.now.kind.now.unit }
    ensures { OrMemory result (λ out. column_of out ≡ column (types.boolean (or_nullable parts.now.nullability nullability)) (map (λ v. compared operator v (int timestamp)) (rows (datetime_parts parts.now.kind.now parts.now.nullability parts.now.days.now parts.now.seconds.now parts.now.subseconds.now)))) }
{
    let moment = moment_of(timestamp, divisor);
    let read = decoded_parts(alloc, parts)?;
    let rows = read.rows();
    let bits = holds_at_each(alloc, operator, &rows, &moment)?;
    let valid = copy_validity(alloc, rows.valid)?;
    Ok(ArrayRef::bool_of(bits, valid, parts.nullability.or(nullability)))
}

// Whether the operator holds between the parts of each row and a moment.
fn holds_at_each(
    alloc: Global,
    operator: CompareOperator,
    rows: &PartRows<'_>,
    moment: &Moment,
) -> VortexResult<Mask>
    requires seconds { length (wholes_of rows.now.seconds.now) ≡ length (wholes_of rows.now.days.now) }
    requires subseconds { length (wholes_of rows.now.subseconds.now) ≡ length (wholes_of rows.now.days.now) }
    ensures { Answers result (below (λ i. holds operator (parts_cmp (row_parts rows.now i) (moment_parts moment.now))) (length (wholes_of rows.now.days.now))) }
{
    let orders = orders_with(alloc, rows, moment)?;
    holds_of_each(alloc, operator, orders.as_slice())
}
