//! The parts of a column of timestamps, and the tree over theirs.

ghost use Rattle.std.specs.Prelude.{◌≡◌, [], ◌∷◌, IsTrue, None};
ghost use Rattle.vx_base.specs.Answers.{Answers};
ghost use Rattle.vx_model.specs.Column.{column_of};
ghost use Rattle.vx_model.specs.Plain.{IsPlain, plain};
ghost use Rattle.vx_model.specs.Refusals.{datetime_parts_refusal};
ghost use Rattle.vx_model.specs.Tree.{datetime_parts};
ghost use Rattle.vx_model.specs.TreeType.{tree_type};
ghost use Rattle.vx_scheme.specs.Asked.{FitParts};
ghost use Rattle.vx_scheme.specs.Meaning.{split_of};
ghost use Rattle.vx_scheme.specs.declared.split.Split.TheVariants.{Parts};
ghost use Rattle.vx_schemes_common.specs.Triples.{triple_of};
ghost use Rattle.vx_schemes_time.specs.Narrowest.{narrowed};
ghost use Rattle.vx_schemes_time.specs.Stored.{IsStored};
ghost use Rattle.vx_schemes_time.specs.Temporal.Tree.{is_splittable, parts_or_kept, joined_or_plain};

use super::narrowing::narrowed;
use std::alloc::Global;
use vx_array::{ArrayRef, Arrays};
use vx_base::{DType, ExecutionCtx, Nullability, TimestampType, VortexError, VortexResult};
use vx_scheme::Split;
use vx_schemes_common::{three_parts, triple_of};
use vx_temporal::{TemporalParts, split_temporal};

/// The days as part 0, the seconds as part 1 and the subseconds as part 2; a column with a day that doesn't fit is kept.
pub(crate) fn parts_or_kept(array: &ArrayRef, ctx: &mut ExecutionCtx) -> VortexResult<Split>
    requires { IsTrue (is_splittable (tree_type array.now)) }
    ensures answer { Answers result (split_of (parts_or_kept (column_of array.now))) }
    ensures ctx { ctx.new ≡ ctx.old }
{
    array.known();
    match split_temporal(array, ctx) {
        Ok(parts) => narrowed_parts(ctx.alloc(), parts),
        Err(error) if error == VortexError::DaysOutOfRange => Ok(Split::Kept),
        Err(error) => Err(error),
    }
}

// The parts, each in the narrowest type for its values.
fn narrowed_parts(alloc: Global, parts: TemporalParts) -> VortexResult<Split>
    requires days { IsStored parts.days }
    requires seconds { IsStored parts.seconds }
    requires subseconds { IsStored parts.subseconds }
    ensures { Answers result (Parts (plain (narrowed (column_of parts.days)) ∷ plain (narrowed (column_of parts.seconds)) ∷ plain (narrowed (column_of parts.subseconds)) ∷ [])) }
{
    let TemporalParts {
        days,
        seconds,
        subseconds,
    } = parts;
    let days = narrowed(alloc, days)?;
    let seconds = narrowed(alloc, seconds)?;
    let subseconds = narrowed(alloc, subseconds)?;
    three_parts(alloc, days, seconds, subseconds)
}

/// The tree over the trees of the three parts; without parts the column stays plain.
pub(crate) fn joined(alloc: Global, array: &ArrayRef, trees: Arrays) -> VortexResult<ArrayRef>
    requires plain { IsPlain array.now }
    requires timestamps { IsTrue (is_splittable (tree_type array.now)) }
    requires trees { FitParts (parts_or_kept (column_of array.now)) trees }
    ensures { Answers result (joined_or_plain (column_of array.now) (triple_of trees)) }
{
    array.known();
    let DType::Timestamp(kind, nullability) = array.dtype() else {
        unreachable!();
    };
    match triple_of(trees) {
        Some((days, seconds, subseconds)) => {
            over_parts(alloc, kind, *nullability, days, seconds, subseconds)
        }
        None => array.copy(alloc),
    }
}

// Timestamps in parts, of trees that are known to be admitted. Reads no row.
fn over_parts(
    alloc: Global,
    kind: &TimestampType,
    nullability: Nullability,
    days: ArrayRef,
    seconds: ArrayRef,
    subseconds: ArrayRef,
) -> VortexResult<ArrayRef>
    requires { datetime_parts_refusal kind.now nullability days seconds subseconds ≡ None }
    ensures { Answers result (datetime_parts kind.now nullability days seconds subseconds) }
{
    let kind = kind.copy(alloc)?;
    match ArrayRef::datetime_parts_of(alloc, kind, nullability, days, seconds, subseconds) {
        Ok(tree) => Ok(tree),
        Err(refused) => Err(refused.error),
    }
}
