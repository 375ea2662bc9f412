//! Ranges between two columns of bounds, row by row. Where both are in parts: the days, then the seconds, then the subseconds. No
//! timestamp is combined to be compared.

ghost use Rattle.std.specs.Prelude.{◌≡◌, IfSome, IsTrue, length};
ghost use Rattle.vx_base.specs.Answers.{Answers, OrMemory};
ghost use Rattle.vx_base.specs.PlainType.{or_nullable, same_base};
ghost use Rattle.vx_base.specs.PlainType as types;
ghost use Rattle.vx_base.specs.declared.dtype.Nullability.TheVariants.{Nullable};
ghost use Rattle.vx_datetime.specs.Moments.{lie_within, row_parts};
ghost use Rattle.vx_model.specs.Column.{column, column_of};
ghost use Rattle.vx_model.specs.Rows.{below, rows, valid_rows};
ghost use Rattle.vx_model.specs.Tree.{datetime_parts};
ghost use Rattle.vx_model.specs.TreeType.{tree_type};
ghost use Rattle.vx_model.specs.WellFormed.{WellFormed};
ghost use Rattle.vx_rows.specs.Pairs.{rows_within};
ghost use Rattle.vx_rules.specs.Comparisons.{between};
ghost use Rattle.vx_values.specs.IntsOf.{wholes_of};

use super::orders::orders_in_pairs;
use super::pairs::beneath;
use super::part_rows::{PartRows, decoded_parts};
use super::parts::{Parts, lent_parts};
use super::verdicts::both_hold_of_each;
use std::alloc::Global;
use vx_array::ArrayRef;
use vx_base::{ExecutionCtx, Mask, VortexResult};
use vx_rules::BetweenOptions;
use vx_values::copy_validity;

/// `between` with bounds of the same timestamps, up to nullability, and as many rows: two columns in parts by their parts, any
/// others by the timestamps.
pub(super) fn within_other_columns(
    options: BetweenOptions,
    array: &ArrayRef,
    parts: &Parts<'_>,
    lower: &ArrayRef,
    upper: &ArrayRef,
    ctx: &mut ExecutionCtx,
) -> VortexResult<ArrayRef>
    requires tree { array.now ≡ datetime_parts parts.now.kind.now parts.now.nullability parts.now.days.now parts.now.seconds.now parts.now.subseconds.now }
    requires low_base { IsTrue (same_base (tree_type array.now) (tree_type lower.now)) }
    requires high_base { IsTrue (same_base (tree_type array.now) (tree_type upper.now)) }
    requires low_length { length (rows array.now) ≡ length (rows lower.now) }
    requires high_length { length (rows array.now) ≡ length (rows upper.now) }
    ensures answer { OrMemory result (λ out. column_of out ≡ between options (column_of array.now) (column_of lower.now) (column_of upper.now)) }
    ensures ctx { ctx.new ≡ ctx.old }
{
    array.known();
    let Some(lows) = lent_parts(lower) else {
        return vx_rows::between(array, lower, upper, options, ctx);
    };
    let Some(highs) = lent_parts(upper) else {
        return vx_rows::between(array, lower, upper, options, ctx);
    };
    within_parts(options, parts, &lows, &highs, ctx)
}

// Whether each row of an array lies between those of two others of its unit; null where a day of any is.
fn within_parts(
    options: BetweenOptions,
    parts: &Parts<'_>,
    lows: &Parts<'_>,
    highs: &Parts<'_>,
    ctx: &mut ExecutionCtx,
) -> VortexResult<ArrayRef>
    requires well { WellFormed (datetime_parts parts.now.kind.now parts.now.nullability parts.now.days.now parts.now.seconds.now parts.now.subseconds.now) }
    requires low_well { WellFormed (datetime_parts lows.now.kind.now lows.now.nullability lows.now.days.now lows.now.seconds.now lows.now.subseconds.now) }
    requires high_well { WellFormed (datetime_parts highs.now.kind.now highs.now.nullability highs.now.days.now highs.now.seconds.now highs.now.subseconds.now) }
    requires low_unit { lows.now.kind.now.unit ≡ parts.now.kind.now.unit }
    requires high_unit { highs.now.kind.now.unit ≡ parts.now.kind.now.unit }
    requires low_length { length (rows lows.now.days.now) ≡ length (rows parts.now.days.now) }
    requires high_length { length (rows highs.now.days.now) ≡ length (rows parts.now.days.now) }
    ensures answer { OrMemory result (λ out. column_of out ≡ column (types.boolean (or_nullable parts.now.nullability (or_nullable lows.now.nullability highs.now.nullability))) (rows_within options (rows (datetime_parts parts.now.kind.now parts.now.nullability parts.now.days.now parts.now.seconds.now parts.now.subseconds.now)) (rows (datetime_parts lows.now.kind.now lows.now.nullability lows.now.days.now lows.now.seconds.now lows.now.subseconds.now)) (rows (datetime_parts highs.now.kind.now highs.now.nullability highs.now.days.now highs.now.seconds.now highs.now.subseconds.now)))) }
    ensures ctx { ctx.new ≡ ctx.old }
{
    let alloc = ctx.alloc();
    let read = decoded_parts(alloc, parts)?;
    let low_read = decoded_parts(alloc, lows)?;
    let high_read = decoded_parts(alloc, highs)?;
    let rows = read.rows();
    let low_rows = low_read.rows();
    let high_rows = high_read.rows();
    let bits = lies_in_each(alloc, options, &rows, &low_rows, &high_rows)?;
    let valid = copy_validity(alloc, rows.valid)?;
    let bounds = lows.nullability.or(highs.nullability);
    let nullability = parts.nullability.or(bounds);
    let tree = ArrayRef::bool_of(bits, valid, nullability);
    beneath_both(tree, low_rows.valid, high_rows.valid, ctx)
}

// Truth values of a nullable type, null where either validity is false too.
fn beneath_both(
    tree: ArrayRef,
    low: &Option<Mask>,
    high: &Option<Mask>,
    ctx: &mut ExecutionCtx,
) -> VortexResult<ArrayRef>
    requires low { IfSome low.now (λ bits. length bits ≡ length (rows tree)) }
    requires low_nullable { IfSome low.now (λ bits. tree_type tree ≡ types.boolean Nullable) }
    requires high { IfSome high.now (λ bits. length bits ≡ length (rows tree)) }
    requires high_nullable { IfSome high.now (λ bits. tree_type tree ≡ types.boolean Nullable) }
    ensures answer { OrMemory result (λ out. column_of out ≡ column (tree_type tree) (valid_rows high.now (valid_rows low.now (rows tree)))) }
    ensures ctx { ctx.new ≡ ctx.old }
{
    let lower = beneath(tree, low, ctx)?;
    beneath(lower, high, ctx)
}

// Whether the parts of each row lie between those of rows of the same number.
fn lies_in_each(
    alloc: Global,
    options: BetweenOptions,
    rows: &PartRows<'_>,
    lows: &PartRows<'_>,
    highs: &PartRows<'_>,
) -> VortexResult<Mask>
    requires seconds { length (wholes_of rows.now.seconds.now) ≡ length (wholes_of rows.now.days.now) }
    requires subseconds { length (wholes_of rows.now.subseconds.now) ≡ length (wholes_of rows.now.days.now) }
    requires low_days { length (wholes_of lows.now.days.now) ≡ length (wholes_of rows.now.days.now) }
    requires low_seconds { length (wholes_of lows.now.seconds.now) ≡ length (wholes_of rows.now.days.now) }
    requires low_subseconds { length (wholes_of lows.now.subseconds.now) ≡ length (wholes_of rows.now.days.now) }
    requires high_days { length (wholes_of highs.now.days.now) ≡ length (wholes_of rows.now.days.now) }
    requires high_seconds { length (wholes_of highs.now.seconds.now) ≡ length (wholes_of rows.now.days.now) }
    requires high_subseconds { length (wholes_of highs.now.subseconds.now) ≡ length (wholes_of rows.now.days.now) }
    ensures { Answers result (below (λ i. lie_within options (row_parts rows.now i) (row_parts lows.now i) (row_parts highs.now i)) (length (wholes_of rows.now.days.now))) }
{
    let floor = options.lower_operator();
    let ceiling = options.upper_operator();
    let low = orders_in_pairs(alloc, lows, rows)?;
    let high = orders_in_pairs(alloc, rows, highs)?;
    both_hold_of_each(alloc, floor, low.as_slice(), ceiling, high.as_slice())
}
