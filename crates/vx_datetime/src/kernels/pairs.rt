//! Comparisons with other columns, row by row. Where these are in parts too: the days, then the seconds, then the subseconds, which
//! is the order of the timestamps since the parts are canonical. No timestamp is combined to be compared.

ghost use Rattle.std.specs.Prelude.{◌≡◌, IfSome, IsTrue, length};
ghost use Rattle.vx_base.specs.Answers.{Answers, OrMemory};
ghost use Rattle.vx_base.specs.PlainType.{or_nullable, same_base};
ghost use Rattle.vx_base.specs.PlainType as types;
ghost use Rattle.vx_base.specs.declared.dtype.Nullability.TheVariants.{Nullable};
ghost use Rattle.vx_datetime.specs.Moments.{row_parts};
ghost use Rattle.vx_model.specs.Column.{column, column_of};
ghost use Rattle.vx_model.specs.Rows.{below, rows, valid_rows};
ghost use Rattle.vx_model.specs.Tree.{datetime_parts};
ghost use Rattle.vx_model.specs.TreeType.{tree_type};
ghost use Rattle.vx_model.specs.WellFormed.{WellFormed};
ghost use Rattle.vx_rows.specs.Pairs.{each_pair};
ghost use Rattle.vx_rules.specs.Comparisons.{compared, comparison, holds};
ghost use Rattle.vx_time.specs.CanonicalParts.{parts_cmp};
ghost use Rattle.vx_values.specs.IntsOf.{wholes_of};

use super::orders::orders_in_pairs;
use super::part_rows::{PartRows, decoded_parts};
use super::parts::{Parts, lent_parts};
use super::verdicts::holds_of_each;
use std::alloc::Global;
use vx_array::ArrayRef;
use vx_base::{ExecutionCtx, Mask, VortexResult};
use vx_rules::CompareOperator;
use vx_selections::mask;
use vx_values::copy_validity;

/// `compare` with a column of the same timestamps, up to nullability, and as many rows: one in parts by its parts, any other by
/// the timestamps.
pub(super) fn compared_columns(
    operator: CompareOperator,
    array: &ArrayRef,
    parts: &Parts<'_>,
    other: &ArrayRef,
    ctx: &mut ExecutionCtx,
) -> VortexResult<ArrayRef>
    requires tree { array.now ≡ datetime_parts parts.now.kind.now parts.now.nullability parts.now.days.now parts.now.seconds.now parts.now.subseconds.now }
    requires base { IsTrue (same_base (tree_type array.now) (tree_type other.now)) }
    requires lengths { length (rows array.now) ≡ length (rows other.now) }
    ensures answer { OrMemory result (λ out. column_of out ≡ comparison operator (column_of array.now) (column_of other.now)) }
    ensures ctx { ctx.new ≡ ctx.old }
{
    array.known();
    match lent_parts(other) {
        Some(others) => compared_with_parts(operator, parts, &others, ctx),
        None => vx_rows::compare(array, other, operator, ctx),
    }
}

// Whether the operator holds between the rows of two arrays of one unit; null where either day is.
fn compared_with_parts(
    operator: CompareOperator,
    parts: &Parts<'_>,
    others: &Parts<'_>,
    ctx: &mut ExecutionCtx,
) -> VortexResult<ArrayRef>
    requires well { WellFormed (datetime_parts parts.now.kind.now parts.now.nullability parts.now.days.now parts.now.seconds.now parts.now.subseconds.now) }
    requires other_well { WellFormed (datetime_parts others.now.kind.now others.now.nullability others.now.days.now others.now.seconds.now others.now.subseconds.now) }
    requires units { others.now.kind.now.unit ≡ parts.now.kind.now.unit }
    requires lengths { length (rows others.now.days.now) ≡ length (rows parts.now.days.now) }
    ensures answer { OrMemory result (λ out. column_of out ≡ column (types.boolean (or_nullable parts.now.nullability others.now.nullability)) (each_pair (compared operator) (rows (datetime_parts parts.now.kind.now parts.now.nullability parts.now.days.now parts.now.seconds.now parts.now.subseconds.now)) (rows (datetime_parts others.now.kind.now others.now.nullability others.now.days.now others.now.seconds.now others.now.subseconds.now)))) }
    ensures ctx { ctx.new ≡ ctx.old }
{
    let alloc = ctx.alloc();
    let read = decoded_parts(alloc, parts)?;
    let other_read = decoded_parts(alloc, others)?;
    let rows = read.rows();
    let other_rows = other_read.rows();
    let bits = holds_in_pairs(alloc, operator, &rows, &other_rows)?;
    let valid = copy_validity(alloc, rows.valid)?;
    let nullability = parts.nullability.or(others.nullability);
    let tree = ArrayRef::bool_of(bits, valid, nullability);
    beneath(tree, other_rows.valid, ctx)
}

/// Truth values of a nullable type, null where the validity is false too.
pub(super) fn beneath(
    tree: ArrayRef,
    valid: &Option<Mask>,
    ctx: &mut ExecutionCtx,
) -> VortexResult<ArrayRef>
    requires lengths { IfSome valid.now (λ bits. length bits ≡ length (rows tree)) }
    requires nullable { IfSome valid.now (λ bits. tree_type tree ≡ types.boolean Nullable) }
    ensures answer { OrMemory result (λ out. column_of out ≡ column (tree_type tree) (valid_rows valid.now (rows tree))) }
    ensures ctx { ctx.new ≡ ctx.old }
{
    match valid {
        Some(keep) => mask(&tree, keep, ctx),
        None => Ok(tree),
    }
}

// Whether the operator holds between the parts of rows of one number.
fn holds_in_pairs(
    alloc: Global,
    operator: CompareOperator,
    rows: &PartRows<'_>,
    others: &PartRows<'_>,
) -> VortexResult<Mask>
    requires seconds { length (wholes_of rows.now.seconds.now) ≡ length (wholes_of rows.now.days.now) }
    requires subseconds { length (wholes_of rows.now.subseconds.now) ≡ length (wholes_of rows.now.days.now) }
    requires other_days { length (wholes_of others.now.days.now) ≡ length (wholes_of rows.now.days.now) }
    requires other_seconds { length (wholes_of others.now.seconds.now) ≡ length (wholes_of rows.now.days.now) }
    requires other_subseconds { length (wholes_of others.now.subseconds.now) ≡ length (wholes_of rows.now.days.now) }
    ensures { Answers result (below (λ i. holds operator (parts_cmp (row_parts rows.now i) (row_parts others.now i))) (length (wholes_of rows.now.days.now))) }
{
    let orders = orders_in_pairs(alloc, rows, others)?;
    holds_of_each(alloc, operator, orders.as_slice())
}
