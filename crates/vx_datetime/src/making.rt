//! How arrays of timestamps in parts are made.

ghost use Rattle.std.specs.Prelude.{◌≡◌, IfOk, MatchResult, None};
ghost use Rattle.vx_base.specs.Answers.{Answers, Makes};
ghost use Rattle.vx_base.specs.declared.dtype.DType.TheVariants as variants;
ghost use Rattle.vx_base.specs.TypeOf.{type_of};
ghost use Rattle.vx_datetime.specs.Parts.{parts_tree, split_tree};
ghost use Rattle.vx_model.specs.Column.{column_of};
ghost use Rattle.vx_model.specs.TreeType.{tree_type};
ghost use Rattle.vx_temporal.specs.Joined.{parts_refusal};
ghost use Rattle.vx_temporal.specs.Settled.{Settled};
ghost use Rattle.vx_temporal.specs.Split.{split_refusal, type_refusal, unit_in};

use crate::array::DateTimePartsArray;
use std::alloc::Global;
use std::mem;
use vx_array::ArrayRef;
use vx_base::{
    DType, ExecutionCtx, Nullability, Refused, TimeUnit, TimestampType, VortexError, VortexResult,
};
use vx_temporal::{TemporalParts, split_temporal};

/// The encoding of timestamps in parts: how its arrays are made.
#[derive(Clone, Copy, Debug)]
pub struct DateTimeParts;

impl DateTimeParts {
    /// The timestamps of a type that parts join to: in each row days * 86,400 * d + seconds * d + subseconds, where d units
    /// make a second, and null where the day is. Refuses MismatchedTypes where the type isn't one of timestamps, the parts
    /// aren't integers, the days are of another nullability, or seconds or subseconds are nullable; then LengthMismatch where
    /// they aren't equally long; then PartsNotCanonical where the parts of a row that isn't null aren't the split of a
    /// timestamp of 64 signed bits; and NoMemory. All inputs come back.
    pub fn try_new(
        alloc: Global,
        dtype: DType,
        days: ArrayRef,
        seconds: ArrayRef,
        subseconds: ArrayRef,
    ) -> Result<DateTimePartsArray, Refused<(DType, ArrayRef, ArrayRef, ArrayRef)>>
        ensures { Makes (parts_refusal (type_of dtype) days seconds subseconds) (parts_tree (type_of dtype) days seconds subseconds) (dtype, days, seconds, subseconds) result }
    {
        match into_timestamp(dtype) {
            Ok((kind, nullability)) => {
                match ArrayRef::datetime_parts(
                    alloc,
                    kind,
                    nullability,
                    days,
                    seconds,
                    subseconds,
                ) {
                    Ok(array) => Ok(DateTimePartsArray { array }),
                    Err(refused) => {
                        let Refused { error, inputs } = refused;
                        let (kind, days, seconds, subseconds) = inputs;
                        let dtype = DType::Timestamp(kind, nullability);
                        Err(Refused {
                            error,
                            inputs: (dtype, days, seconds, subseconds),
                        })
                    }
                }
            }
            Err(dtype) => Err(Refused {
                error: VortexError::MismatchedTypes,
                inputs: (dtype, days, seconds, subseconds),
            }),
        }
    }

    /// A column of timestamps in the parts of `split_temporal`, of the same type and rows (`kept`). Refuses MismatchedTypes of
    /// any other column, DaysOutOfRange where the day of a row that isn't null doesn't fit 32 signed bits, and NoMemory.
    pub fn try_from_temporal(
        temporal: &ArrayRef,
        ctx: &mut ExecutionCtx,
    ) -> VortexResult<DateTimePartsArray>
        ensures answer { Settled (type_refusal (tree_type temporal.now)) (split_refusal (column_of temporal.now)) (λ array. array ≡ split_tree (column_of temporal.now)) result }
        ensures kept { IfOk result (λ array. column_of array ≡ column_of temporal.now) }
        ensures ctx { ctx.new ≡ ctx.old }
    {
        match split_temporal(temporal, ctx) {
            Ok(parts) => over_parts(ctx.alloc(), temporal.dtype(), parts),
            Err(error) => Err(error),
        }
    }
}

// The kind and nullability of a timestamp type, moved out. The Err hands any other type back. A pattern cannot move them out
// of a DType, which implements Drop; a kind without a zone, which takes no memory, is left in their place.
fn into_timestamp(dtype: DType) -> Result<(TimestampType, Nullability), DType>
    ensures { MatchResult result (λ parts. dtype ≡ variants.Timestamp parts.0 parts.1) (λ back. (back ≡ dtype) × (unit_in (type_of dtype) ≡ None)) }
{
    let mut dtype = dtype;
    if let DType::Timestamp(kind, nullability) = &mut dtype {
        let Ok(without_zone) = TimestampType::new(TimeUnit::Seconds, None) else {
            unreachable!();
        };
        return Ok((mem::replace(kind, without_zone), *nullability));
    }
    Err(dtype)
}

// The array over parts that are accepted as such. Reads no row.
fn over_parts(
    alloc: Global,
    dtype: &DType,
    parts: TemporalParts,
) -> VortexResult<DateTimePartsArray>
    requires { parts_refusal (type_of dtype.now) parts.days parts.seconds parts.subseconds ≡ None }
    ensures { Answers result (parts_tree (type_of dtype.now) parts.days parts.seconds parts.subseconds) }
{
    let TemporalParts {
        days,
        seconds,
        subseconds,
    } = parts;
    let DType::Timestamp(kind, nullability) = dtype else {
        unreachable!();
    };
    let kind = kind.copy(alloc)?;
    match ArrayRef::datetime_parts_of(alloc, kind, *nullability, days, seconds, subseconds) {
        Ok(array) => Ok(DateTimePartsArray { array }),
        Err(refused) => Err(refused.error),
    }
}
