//! Take: each part by the same indices. A null index leaves a null day, and 0 in the other parts, which have no nulls.

ghost use Rattle.std.specs.Prelude.{◌≡◌, IsTrue, None, map, pos};
ghost use Rattle.vx_base.specs.Answers.{Decided, OrMemory};
ghost use Rattle.vx_base.specs.Defaults.{or_default};
ghost use Rattle.vx_base.specs.PlainType.{integer_of, is_integer, nullability_of};
ghost use Rattle.vx_base.specs.PlainType as types;
ghost use Rattle.vx_base.specs.PlainValue.{int};
ghost use Rattle.vx_base.specs.declared.array_id.ArrayId.TheVariants as ids;
ghost use Rattle.vx_base.specs.declared.dtype.Nullability.TheVariants.{NonNullable};
ghost use Rattle.vx_model.specs.Column.{column, column_of};
ghost use Rattle.vx_model.specs.Nodes.{encoding};
ghost use Rattle.vx_model.specs.Rows.{looked_up, rows};
ghost use Rattle.vx_model.specs.Tree.{datetime_parts};
ghost use Rattle.vx_model.specs.TreeType.{tree_type};
ghost use Rattle.vx_model.specs.WellFormed.{WellFormed};
ghost use Rattle.vx_rules.specs.Selections.{take_refusal, taken};

use super::chosen::over_parts;
use super::part_rows::decoded_part;
use super::parts::Parts;
use vx_array::ArrayRef;
use vx_base::{ExecutionCtx, Nullability, PType, Scalar, VortexResult};
use vx_rows::fill_null;
use vx_selections::take;

/// `take` by any column, which it may refuse.
pub(super) fn taken_parts(
    parts: &Parts<'_>,
    indices: &ArrayRef,
    ctx: &mut ExecutionCtx,
) -> VortexResult<ArrayRef>
    requires well { WellFormed (datetime_parts parts.now.kind.now parts.now.nullability parts.now.days.now parts.now.seconds.now parts.now.subseconds.now) }
    ensures answer { let c = column_of (datetime_parts parts.now.kind.now parts.now.nullability parts.now.days.now parts.now.seconds.now parts.now.subseconds.now) in Decided (take_refusal c (column_of indices.now)) (λ out. (column_of out ≡ taken c (column_of indices.now)) × (encoding out ≡ ids.DateTimeParts)) result }
    ensures ctx { ctx.new ≡ ctx.old }
{
    match take(parts.days, indices, ctx) {
        Ok(days) => taken_over(parts, days, indices, ctx),
        Err(error) => Err(error),
    }
}

// The days that were taken, over the other parts by the same indices, which are decoded once for both.
fn taken_over(
    parts: &Parts<'_>,
    days: ArrayRef,
    indices: &ArrayRef,
    ctx: &mut ExecutionCtx,
) -> VortexResult<ArrayRef>
    requires well { WellFormed (datetime_parts parts.now.kind.now parts.now.nullability parts.now.days.now parts.now.seconds.now parts.now.subseconds.now) }
    requires accepted { take_refusal (column_of parts.now.days.now) (column_of indices.now) ≡ None }
    requires days { column_of days ≡ taken (column_of parts.now.days.now) (column_of indices.now) }
    ensures answer { OrMemory result (λ out. (column_of out ≡ taken (column_of (datetime_parts parts.now.kind.now parts.now.nullability parts.now.days.now parts.now.seconds.now parts.now.subseconds.now)) (column_of indices.now)) × (encoding out ≡ ids.DateTimeParts)) }
    ensures ctx { ctx.new ≡ ctx.old }
{
    let places = decoded_part(ctx.alloc(), indices)?;
    let plain = places.tree();
    let seconds = taken_or_zero(parts.seconds, plain, ctx)?;
    let subseconds = taken_or_zero(parts.subseconds, plain, ctx)?;
    let nullability = parts.nullability.or(indices.dtype().nullability());
    over_parts(
        ctx.alloc(),
        parts.kind,
        nullability,
        days,
        seconds,
        subseconds,
    )
}

// `take` of a part without nulls, 0 where the index is null.
fn taken_or_zero(
    part: &ArrayRef,
    indices: &ArrayRef,
    ctx: &mut ExecutionCtx,
) -> VortexResult<ArrayRef>
    requires integers { IsTrue (is_integer (tree_type part.now)) }
    requires accepted { take_refusal (column_of part.now) (column_of indices.now) ≡ None }
    ensures answer { OrMemory result (λ out. column_of out ≡ column (types.primitive (integer_of (tree_type part.now)) NonNullable) (map (or_default (int (pos 0))) (map (looked_up (rows part.now)) (rows indices.now)))) }
    ensures ctx { ctx.new ≡ ctx.old }
{
    let taken = take(part, indices, ctx)?;
    or_zero(taken, part.dtype().ptype(), ctx)
}

// Integers with 0 in place of null; those of a type without nulls as they are.
fn or_zero(values: ArrayRef, ptype: PType, ctx: &mut ExecutionCtx) -> VortexResult<ArrayRef>
    requires { tree_type values ≡ types.primitive ptype (nullability_of (tree_type values)) }
    ensures answer { OrMemory result (λ out. column_of out ≡ column (types.primitive ptype NonNullable) (map (or_default (int (pos 0))) (rows values))) }
    ensures ctx { ctx.new ≡ ctx.old }
{
    values.known();
    if !values.dtype().is_nullable() {
        return Ok(values);
    }
    match Scalar::primitive(0, ptype, Nullability::NonNullable) {
        Ok(zero) => fill_null(&values, &zero, ctx),
        Err(_) => unreachable!(),
    }
}
