//! Whether all timestamps are equal: their days are, and, unless these are null, so are the other parts. What stands beneath null
//! days isn't looked at.

ghost use Rattle.std.specs.Prelude.{◌≡◌};
ghost use Rattle.vx_base.specs.Answers.{Answers};
ghost use Rattle.vx_model.specs.Column.{column_of};
ghost use Rattle.vx_model.specs.Tree.{datetime_parts};
ghost use Rattle.vx_model.specs.WellFormed.{WellFormed};
ghost use Rattle.vx_rules.specs.Aggregates.{is_constant};

use super::parts::Parts;
use vx_array::ArrayRef;
use vx_base::{ExecutionCtx, VortexResult};

/// `is_constant`.
pub(super) fn are_constant(parts: &Parts<'_>, ctx: &mut ExecutionCtx) -> VortexResult<bool>
    requires well { WellFormed (datetime_parts parts.now.kind.now parts.now.nullability parts.now.days.now parts.now.seconds.now parts.now.subseconds.now) }
    ensures answer { Answers result (is_constant (column_of (datetime_parts parts.now.kind.now parts.now.nullability parts.now.days.now parts.now.seconds.now parts.now.subseconds.now))) }
    ensures ctx { ctx.new ≡ ctx.old }
{
    let same_day = is_constant(parts.days, ctx)?;
    if !same_day {
        return Ok(false);
    }
    if parts.days.is_null_at(0) {
        return Ok(true);
    }
    let same_second = is_constant(parts.seconds, ctx)?;
    if !same_second {
        return Ok(false);
    }
    is_constant(parts.subseconds, ctx)
}

// `is_constant` of one part.
fn is_constant(part: &ArrayRef, ctx: &mut ExecutionCtx) -> VortexResult<bool>
    ensures answer { Answers result (is_constant (column_of part.now)) }
    ensures ctx { ctx.new ≡ ctx.old }
{
    vx_rows::is_constant(part, ctx)
}
