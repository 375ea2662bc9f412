//! The parts of an array, lent.

ghost use Rattle.std.specs.Prelude.{◌≡◌, IfSome};
ghost use Rattle.vx_model.specs.Tree.{datetime_parts};
ghost use Rattle.vx_model.specs.WellFormed.{WellFormed};

use crate::array::DateTimePartsArray;
use vx_array::{ArrayRef, Node};
use vx_base::{Nullability, TimestampType};

/// What a DateTimeParts node has: the kind and nullability of its timestamps, and three columns of parts.
#[derive(Clone, Copy)]
pub(super) struct Parts<'a> {
    pub(super) kind: &'a TimestampType,
    pub(super) nullability: Nullability,
    pub(super) days: &'a ArrayRef,
    pub(super) seconds: &'a ArrayRef,
    pub(super) subseconds: &'a ArrayRef,
}

impl DateTimePartsArray {
    // The parts as they stand in the node.
    pub(super) fn parts(&self) -> Parts<'_>
        ensures tree { self.now ≡ datetime_parts result.kind.now result.nullability result.days.now result.seconds.now result.subseconds.now }
        ensures well { WellFormed self.now }
    {
        match self.array.node() {
            Node::DateTimeParts(kind, nullability, days, seconds, subseconds) => Parts {
                kind,
                nullability: *nullability,
                days: &days.array,
                seconds: &seconds.array,
                subseconds: &subseconds.array,
            },
            _ => unreachable!(),
        }
    }
}

/// The parts of an array whose root is DateTimeParts, None of any other.
pub(super) fn lent_parts(array: &ArrayRef) -> Option<Parts<'_>>
    ensures { IfSome result (λ p. (array.now ≡ datetime_parts p.kind.now p.nullability p.days.now p.seconds.now p.subseconds.now) × WellFormed array.now) }
{
    match array.node() {
        Node::DateTimeParts(kind, nullability, days, seconds, subseconds) => Some(Parts {
            kind,
            nullability: *nullability,
            days: &days.array,
            seconds: &seconds.array,
            subseconds: &subseconds.array,
        }),
        _ => None,
    }
}
