//! Mask: the days are masked, and the other parts stay, since nothing is read beneath null.

ghost use Rattle.std.specs.Prelude.{◌≡◌, length};
ghost use Rattle.vx_base.specs.Answers.{OrMemory};
ghost use Rattle.vx_base.specs.declared.array_id.ArrayId.TheVariants as ids;
ghost use Rattle.vx_model.specs.Column.{column_of};
ghost use Rattle.vx_model.specs.Nodes.{encoding};
ghost use Rattle.vx_model.specs.Rows.{rows};
ghost use Rattle.vx_model.specs.Tree.{datetime_parts};
ghost use Rattle.vx_model.specs.WellFormed.{WellFormed};
ghost use Rattle.vx_rules.specs.Selections.{masked};

use super::chosen::over_parts;
use super::parts::Parts;
use vx_array::ArrayRef;
use vx_base::{ExecutionCtx, Mask, Nullability, VortexResult};
use vx_selections::mask;

/// `mask` by a mask of the right length.
pub(super) fn masked_parts(
    parts: &Parts<'_>,
    keep: &Mask,
    ctx: &mut ExecutionCtx,
) -> VortexResult<ArrayRef>
    requires well { WellFormed (datetime_parts parts.now.kind.now parts.now.nullability parts.now.days.now parts.now.seconds.now parts.now.subseconds.now) }
    requires bits { length keep.now ≡ length (rows parts.now.days.now) }
    ensures answer { OrMemory result (λ out. (column_of out ≡ masked (column_of (datetime_parts parts.now.kind.now parts.now.nullability parts.now.days.now parts.now.seconds.now parts.now.subseconds.now)) keep.now) × (encoding out ≡ ids.DateTimeParts)) }
    ensures ctx { ctx.new ≡ ctx.old }
{
    let days = masked_days(parts.days, keep, ctx)?;
    let alloc = ctx.alloc();
    let seconds = parts.seconds.copy(alloc)?;
    let subseconds = parts.subseconds.copy(alloc)?;
    over_parts(
        alloc,
        parts.kind,
        Nullability::Nullable,
        days,
        seconds,
        subseconds,
    )
}

// `mask` of the days.
fn masked_days(days: &ArrayRef, keep: &Mask, ctx: &mut ExecutionCtx) -> VortexResult<ArrayRef>
    requires { length keep.now ≡ length (rows days.now) }
    ensures answer { OrMemory result (λ out. column_of out ≡ masked (column_of days.now) keep.now) }
    ensures ctx { ctx.new ≡ ctx.old }
{
    mask(days, keep, ctx)
}
