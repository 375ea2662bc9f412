//! Rows chosen by position: the same rows of each part.

ghost use Rattle.std.specs.Prelude.{◌≡◌, IsTrue, None, length};
ghost use Rattle.vx_base.specs.Answers.{Answers, OrMemory};
ghost use Rattle.vx_base.specs.declared.array_id.ArrayId.TheVariants as ids;
ghost use Rattle.vx_base.specs.Masks.{is_part};
ghost use Rattle.vx_model.specs.Column.{column_of};
ghost use Rattle.vx_model.specs.Nodes.{encoding};
ghost use Rattle.vx_model.specs.Refusals.{datetime_parts_refusal};
ghost use Rattle.vx_model.specs.Rows.{rows};
ghost use Rattle.vx_model.specs.Tree.{datetime_parts};
ghost use Rattle.vx_model.specs.WellFormed.{WellFormed};
ghost use Rattle.vx_rules.specs.Selections.{filtered, sliced};

use super::parts::Parts;
use std::alloc::Global;
use vx_array::ArrayRef;
use vx_base::{ExecutionCtx, Mask, Nullability, TimestampType, VortexResult};
use vx_selections::{filter, slice};

/// `slice` of a range in bounds.
pub(super) fn sliced_parts(
    parts: &Parts<'_>,
    start: u64,
    end: u64,
    ctx: &mut ExecutionCtx,
) -> VortexResult<ArrayRef>
    requires well { WellFormed (datetime_parts parts.now.kind.now parts.now.nullability parts.now.days.now parts.now.seconds.now parts.now.subseconds.now) }
    requires part { IsTrue (is_part (length (rows parts.now.days.now)) start end) }
    ensures answer { OrMemory result (λ out. (column_of out ≡ sliced (column_of (datetime_parts parts.now.kind.now parts.now.nullability parts.now.days.now parts.now.seconds.now parts.now.subseconds.now)) start end) × (encoding out ≡ ids.DateTimeParts)) }
    ensures ctx { ctx.new ≡ ctx.old }
{
    let days = sliced_part(parts.days, start, end, ctx)?;
    let seconds = sliced_part(parts.seconds, start, end, ctx)?;
    let subseconds = sliced_part(parts.subseconds, start, end, ctx)?;
    over_parts(
        ctx.alloc(),
        parts.kind,
        parts.nullability,
        days,
        seconds,
        subseconds,
    )
}

// `slice` of one part.
fn sliced_part(
    part: &ArrayRef,
    start: u64,
    end: u64,
    ctx: &mut ExecutionCtx,
) -> VortexResult<ArrayRef>
    requires { IsTrue (is_part (length (rows part.now)) start end) }
    ensures answer { OrMemory result (λ out. column_of out ≡ sliced (column_of part.now) start end) }
    ensures ctx { ctx.new ≡ ctx.old }
{
    slice(part, start, end, ctx)
}

/// `filter` by a mask of the right length.
pub(super) fn filtered_parts(
    parts: &Parts<'_>,
    keep: &Mask,
    ctx: &mut ExecutionCtx,
) -> VortexResult<ArrayRef>
    requires well { WellFormed (datetime_parts parts.now.kind.now parts.now.nullability parts.now.days.now parts.now.seconds.now parts.now.subseconds.now) }
    requires bits { length keep.now ≡ length (rows parts.now.days.now) }
    ensures answer { OrMemory result (λ out. (column_of out ≡ filtered (column_of (datetime_parts parts.now.kind.now parts.now.nullability parts.now.days.now parts.now.seconds.now parts.now.subseconds.now)) keep.now) × (encoding out ≡ ids.DateTimeParts)) }
    ensures ctx { ctx.new ≡ ctx.old }
{
    let days = filtered_part(parts.days, keep, ctx)?;
    let seconds = filtered_part(parts.seconds, keep, ctx)?;
    let subseconds = filtered_part(parts.subseconds, keep, ctx)?;
    over_parts(
        ctx.alloc(),
        parts.kind,
        parts.nullability,
        days,
        seconds,
        subseconds,
    )
}

// `filter` of one part.
fn filtered_part(part: &ArrayRef, keep: &Mask, ctx: &mut ExecutionCtx) -> VortexResult<ArrayRef>
    requires { length keep.now ≡ length (rows part.now) }
    ensures answer { OrMemory result (λ out. column_of out ≡ filtered (column_of part.now) keep.now) }
    ensures ctx { ctx.new ≡ ctx.old }
{
    filter(part, keep, ctx)
}

/// The node over parts that its constructor accepts. Reads no row.
pub(super) fn over_parts(
    alloc: Global,
    kind: &TimestampType,
    nullability: Nullability,
    days: ArrayRef,
    seconds: ArrayRef,
    subseconds: ArrayRef,
) -> VortexResult<ArrayRef>
    requires { datetime_parts_refusal kind.now nullability days seconds subseconds ≡ None }
    ensures { Answers result (datetime_parts kind.now nullability days seconds subseconds) }
{
    let kind = kind.copy(alloc)?;
    match ArrayRef::datetime_parts_of(alloc, kind, nullability, days, seconds, subseconds) {
        Ok(array) => Ok(array),
        Err(refused) => Err(refused.error),
    }
}
