//! Timestamps in parts: days, seconds and subseconds, each a column of its own.

ghost use Rattle.std.specs.Prelude.{◌≡◌, ◌<◌, ◌&&◌, IsTrue, MatchResult, None, length, not};
ghost use Rattle.vx_array.specs.TreeOf.{tree_of};
ghost use Rattle.vx_base.specs.Answers.{Makes, OrMemory};
ghost use Rattle.vx_base.specs.CellValue.{cell_value};
ghost use Rattle.vx_base.specs.PlainType.{integer_of, is_integer, same_type};
ghost use Rattle.vx_base.specs.PlainType as types;
ghost use Rattle.vx_base.specs.TypeOf.{type_of};
ghost use Rattle.vx_model.specs.Refusals.{datetime_parts_refusal};
ghost use Rattle.vx_model.specs.Rows.{rows, combined_at};
ghost use Rattle.vx_model.specs.Tree.{datetime_parts};
ghost use Rattle.vx_model.specs.TreeType.{tree_type};
ghost use Rattle.vx_time.specs.PartsOf.{units_per_second};

use super::offsets::are_integers;
use super::parts_rows::are_canonical;
use super::rle::three_boxed;
use crate::array::{ArrayRef, Child, Node};
use crate::node::Made;
use std::alloc::Global;
use vx_base::{DType, Nullability, Refused, TimestampType, VortexError, VortexResult};

impl ArrayRef {
    /// The timestamp days * 86,400 * d + seconds * d + subseconds in each row, where d units of the kind make a second;
    /// null where `days` is. Child 0: `days`; child 1: `seconds`; child 2: `subseconds`; each of as many rows.
    ///
    /// Refuses MismatchedTypes where the parts aren't integers, the days are of another nullability, or seconds or
    /// subseconds are nullable; then LengthMismatch where they aren't equally long; then PartsNotCanonical where the parts
    /// of a row that isn't null aren't the split of a timestamp of 64 signed bits.
    pub fn datetime_parts(
        alloc: Global,
        kind: TimestampType,
        nullability: Nullability,
        days: ArrayRef,
        seconds: ArrayRef,
        subseconds: ArrayRef,
    ) -> Made<(TimestampType, ArrayRef, ArrayRef, ArrayRef)>
        ensures { Makes (datetime_parts_refusal kind nullability days seconds subseconds) (datetime_parts kind nullability days seconds subseconds) (kind, days, seconds, subseconds) result }
    {
        match refusal(alloc, &kind, nullability, &days, &seconds, &subseconds) {
            Some(error) => Err(Refused {
                error,
                inputs: (kind, days, seconds, subseconds),
            }),
            None => {
                ArrayRef::datetime_parts_of(alloc, kind, nullability, days, seconds, subseconds)
            }
        }
    }

    /// `datetime_parts` of inputs that are known to be admitted. Reads no row. Want of memory, the only refusal, hands the
    /// four back.
    #[tactic(auto, using(crate::proofs::PartArrays::parts_array))]
    pub fn datetime_parts_of(
        alloc: Global,
        kind: TimestampType,
        nullability: Nullability,
        days: ArrayRef,
        seconds: ArrayRef,
        subseconds: ArrayRef,
    ) -> Made<(TimestampType, ArrayRef, ArrayRef, ArrayRef)>
        requires { datetime_parts_refusal kind nullability days seconds subseconds ≡ None }
        ensures { Makes None (datetime_parts kind nullability days seconds subseconds) (kind, days, seconds, subseconds) result }
    {
        let own_kind = match kind.copy(alloc) {
            Ok(own_kind) => own_kind,
            Err(error) => {
                return Err(Refused {
                    error,
                    inputs: (kind, days, seconds, subseconds),
                });
            }
        };
        let len = days.len();
        days.known();
        seconds.known();
        subseconds.known();
        match three_boxed(alloc, days, seconds, subseconds) {
            Ok((days, seconds, subseconds)) => Ok(ArrayRef {
                node: Node::DateTimeParts(
                    kind,
                    nullability,
                    Child { array: days },
                    Child { array: seconds },
                    Child { array: subseconds },
                ),
                own_type: Some(DType::timestamp(own_kind, nullability)),
                len,
            }),
            Err((days, seconds, subseconds)) => Err(Refused {
                error: VortexError::NoMemory,
                inputs: (kind, days, seconds, subseconds),
            }),
        }
    }
}

// The refusal of these inputs, if there is one.
#[tactic(auto, using(crate::proofs::PartArrays::part_types))]
fn refusal(
    alloc: Global,
    kind: &TimestampType,
    nullability: Nullability,
    days: &ArrayRef,
    seconds: &ArrayRef,
    subseconds: &ArrayRef,
) -> Option<VortexError>
    ensures { result ≡ datetime_parts_refusal kind.now nullability days.now seconds.now subseconds.now }
{
    let are_whole = are_integers(seconds.dtype()) && are_integers(subseconds.dtype());
    if !are_days(days.dtype(), nullability) || !are_whole {
        return Some(VortexError::MismatchedTypes);
    }
    if seconds.len() != days.len() || subseconds.len() != days.len() {
        return Some(VortexError::LengthMismatch);
    }
    if !are_canonical(alloc, kind, days, seconds, subseconds) {
        return Some(VortexError::PartsNotCanonical);
    }
    None
}

// Whether the type is one of integers of this nullability.
#[tactic(auto, using(crate::proofs::PartArrays::part_types))]
fn are_days(dtype: &DType, nullability: Nullability) -> bool
    ensures { result ≡ same_type (type_of dtype.now) (types.primitive (integer_of (type_of dtype.now)) nullability) }
{
    dtype.is_integer() && *dtype == DType::primitive(dtype.ptype(), nullability)
}

// A deep copy of the node, over the caller's copies of the seconds and the subseconds.
#[cycle(copy)]
pub(crate) fn copied_parts(
    alloc: Global,
    kind: &TimestampType,
    nullability: Nullability,
    days: &ArrayRef,
    seconds: ArrayRef,
    subseconds: ArrayRef,
) -> VortexResult<Node>
    ensures { OrMemory result (λ copy. tree_of copy ≡ datetime_parts kind.now nullability days.now seconds subseconds) }
{
    let kind = kind.copy(alloc)?;
    let days = Box::new(alloc, days.copy(alloc)?)?;
    let seconds = Box::new(alloc, seconds)?;
    let subseconds = Box::new(alloc, subseconds)?;
    Ok(Node::DateTimeParts(
        kind,
        nullability,
        Child { array: days },
        Child { array: seconds },
        Child { array: subseconds },
    ))
}
