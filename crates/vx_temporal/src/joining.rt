//! Parts into their column of timestamps.

ghost use Rattle.std.specs.Prelude.{◌≡◌, None};
ghost use Rattle.vx_base.specs.PlainType.{integer_of, same_type};
ghost use Rattle.vx_base.specs.PlainType as types;
ghost use Rattle.vx_base.specs.TypeOf.{type_of};
ghost use Rattle.vx_model.specs.Column.{column, column_of};
ghost use Rattle.vx_model.specs.Plain.{plain};
ghost use Rattle.vx_model.specs.WellFormed.{is_whole_type};
ghost use Rattle.vx_temporal.specs.Joined.{are_parts_types, joined, parts_refusal, shape_refusal};
ghost use Rattle.vx_temporal.specs.Settled.{Settled};
ghost use Rattle.vx_temporal.specs.Split.{divisor_in};

use crate::parts::DateTimePartsParts;
use std::alloc::Global;
use vx_array::ArrayRef;
use vx_base::{DType, ExecutionCtx, Nullability, VortexError, VortexResult};

/// The plain column of timestamps of a type that parts join to: in each row days * 86,400 * d + seconds * d + subseconds, where
/// d units make a second, and null where the day is. Refuses MismatchedTypes where the type isn't one of timestamps, the parts
/// aren't integers, the days are of another nullability, or seconds or subseconds are nullable; then LengthMismatch where they
/// aren't equally long; then PartsNotCanonical where the parts of a row that isn't null aren't the split of a timestamp of 64
/// signed bits; and NoMemory.
pub fn decode_to_temporal(
    parts: &DateTimePartsParts,
    dtype: &DType,
    ctx: &mut ExecutionCtx,
) -> VortexResult<ArrayRef>
    ensures answer { Settled (shape_refusal (type_of dtype.now) parts.now.days parts.now.seconds parts.now.subseconds) (parts_refusal (type_of dtype.now) parts.now.days parts.now.seconds parts.now.subseconds) (λ tree. tree ≡ plain (column (type_of dtype.now) (joined (divisor_in (type_of dtype.now)) parts.now.days parts.now.seconds parts.now.subseconds))) result }
    ensures ctx { ctx.new ≡ ctx.old }
{
    if let Some(error) = shape_refusal(dtype, parts) {
        return Err(error);
    }
    let array = parts_array(ctx.alloc(), parts, dtype)?;
    array.canonical(ctx.alloc())
}

// Why three columns aren't parts of a type, by types and lengths.
fn shape_refusal(dtype: &DType, parts: &DateTimePartsParts) -> Option<VortexError>
    ensures { result ≡ shape_refusal (type_of dtype.now) parts.now.days parts.now.seconds parts.now.subseconds }
{
    let DType::Timestamp(_, nullability) = dtype else {
        return Some(VortexError::MismatchedTypes);
    };
    let (days, seconds, subseconds) = (&parts.days, &parts.seconds, &parts.subseconds);
    if !are_parts_types(*nullability, days, seconds, subseconds) {
        return Some(VortexError::MismatchedTypes);
    }
    if seconds.len() != days.len() || subseconds.len() != days.len() {
        return Some(VortexError::LengthMismatch);
    }
    None
}

/// Whether three columns are of the types of parts: integers, days of this nullability, the others non-nullable.
pub fn are_parts_types(
    nullability: Nullability,
    days: &ArrayRef,
    seconds: &ArrayRef,
    subseconds: &ArrayRef,
) -> bool
    ensures { result ≡ are_parts_types nullability days.now seconds.now subseconds.now }
{
    let are_whole = are_integers(seconds.dtype()) && are_integers(subseconds.dtype());
    are_days(days.dtype(), nullability) && are_whole
}

// Whether the type is one of integers of this nullability.
#[tactic(auto, using(vx_array::proofs::PartArrays::part_types))]
fn are_days(dtype: &DType, nullability: Nullability) -> bool
    ensures { result ≡ same_type (type_of dtype.now) (types.primitive (integer_of (type_of dtype.now)) nullability) }
{
    dtype.is_integer() && *dtype == DType::primitive(dtype.ptype(), nullability)
}

// Whether the type is one of non-nullable integers.
fn are_integers(dtype: &DType) -> bool
    ensures { result ≡ is_whole_type (type_of dtype.now) }
{
    dtype.is_integer() && !dtype.is_nullable()
}

// Copies of the parts as one array.
fn parts_array(alloc: Global, parts: &DateTimePartsParts, dtype: &DType) -> VortexResult<ArrayRef>
    ensures { Settled None (parts_refusal (type_of dtype.now) parts.now.days parts.now.seconds parts.now.subseconds) (λ array. column_of array ≡ column (type_of dtype.now) (joined (divisor_in (type_of dtype.now)) parts.now.days parts.now.seconds parts.now.subseconds)) result }
{
    let DType::Timestamp(kind, nullability) = dtype else {
        return Err(VortexError::MismatchedTypes);
    };
    let own_kind = kind.copy(alloc)?;
    let days = parts.days.copy(alloc)?;
    let seconds = parts.seconds.copy(alloc)?;
    let subseconds = parts.subseconds.copy(alloc)?;
    match ArrayRef::datetime_parts(alloc, own_kind, *nullability, days, seconds, subseconds) {
        Ok(array) => Ok(array),
        Err(refused) => Err(refused.error),
    }
}
