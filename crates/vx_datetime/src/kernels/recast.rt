//! Cast to another nullability: of the days, and the other parts stay.

ghost use Rattle.std.specs.List.{list_all};
ghost use Rattle.std.specs.Prelude.{◌≡◌, None};
ghost use Rattle.vx_base.specs.Answers.{OrMemory, unless};
ghost use Rattle.vx_base.specs.PlainScalar.{fits};
ghost use Rattle.vx_base.specs.PlainType.{integer_of};
ghost use Rattle.vx_base.specs.PlainType as types;
ghost use Rattle.vx_base.specs.declared.error.VortexError.TheVariants.{CastRefused};
ghost use Rattle.vx_model.specs.Column.{column, column_of};
ghost use Rattle.vx_model.specs.Rows.{rows};
ghost use Rattle.vx_model.specs.Tree.{datetime_parts};
ghost use Rattle.vx_model.specs.TreeType.{tree_type};
ghost use Rattle.vx_model.specs.WellFormed.{WellFormed};
ghost use Rattle.vx_rules.specs.Outcomes.{Follows, outcome};

use super::chosen::over_parts;
use super::parts::Parts;
use std::alloc::Global;
use vx_array::ArrayRef;
use vx_base::{DType, ExecutionCtx, Nullability, VortexResult};
use vx_rows::cast;

/// `cast` to the same timestamps of a nullability: CastRefused where it isn't nullable and a day is null.
pub(super) fn recast_parts(
    parts: &Parts<'_>,
    nullability: Nullability,
    ctx: &mut ExecutionCtx,
) -> VortexResult<ArrayRef>
    requires well { WellFormed (datetime_parts parts.now.kind.now parts.now.nullability parts.now.days.now parts.now.seconds.now parts.now.subseconds.now) }
    ensures answer { let t = types.timestamp parts.now.kind.now nullability in let vs = rows (datetime_parts parts.now.kind.now parts.now.nullability parts.now.days.now parts.now.seconds.now parts.now.subseconds.now) in Follows (outcome (unless (list_all (fits t) vs) CastRefused None) (column t vs)) (λ out c. column_of out ≡ c) result }
    ensures ctx { ctx.new ≡ ctx.old }
{
    let dtype = DType::primitive(parts.days.dtype().ptype(), nullability);
    match cast(parts.days, &dtype, ctx) {
        Ok(days) => recast_over(ctx.alloc(), parts, nullability, days),
        Err(error) => Err(error),
    }
}

// The days that were cast, over the other parts.
fn recast_over(
    alloc: Global,
    parts: &Parts<'_>,
    nullability: Nullability,
    days: ArrayRef,
) -> VortexResult<ArrayRef>
    requires well { WellFormed (datetime_parts parts.now.kind.now parts.now.nullability parts.now.days.now parts.now.seconds.now parts.now.subseconds.now) }
    requires days { column_of days ≡ column (types.primitive (integer_of (tree_type parts.now.days.now)) nullability) (rows parts.now.days.now) }
    ensures { OrMemory result (λ out. column_of out ≡ column (types.timestamp parts.now.kind.now nullability) (rows (datetime_parts parts.now.kind.now parts.now.nullability parts.now.days.now parts.now.seconds.now parts.now.subseconds.now))) }
{
    let seconds = parts.seconds.copy(alloc)?;
    let subseconds = parts.subseconds.copy(alloc)?;
    over_parts(alloc, parts.kind, nullability, days, seconds, subseconds)
}
