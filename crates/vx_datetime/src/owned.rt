//! Arrays of timestamps in parts, taken apart.

ghost use Rattle.std.specs.Prelude.{◌≡◌, Some};
ghost use Rattle.vx_datetime.specs.Parts.{parts_in};
ghost use Rattle.vx_model.specs.Tree.{Tree};

use crate::array::DateTimePartsArray;
use vx_array::Node;
use vx_temporal::DateTimePartsParts;

/// An array of timestamps in parts that is taken apart.
pub trait DateTimePartsOwnedExt {
    /// The tree of the array.
    ghost tree: { Self → Tree };

    /// The three parts as they stand in the node, moved out.
    fn into_parts(self) -> DateTimePartsParts
        ensures { parts_in (tree self) ≡ Some (result.days, result.seconds, result.subseconds) };
}

impl DateTimePartsOwnedExt for DateTimePartsArray {
    ghost tree = { λ a. a };

    fn into_parts(self) -> DateTimePartsParts {
        match self.into_array().into_node() {
            Node::DateTimeParts(_, _, days, seconds, subseconds) => DateTimePartsParts {
                days: Box::into_inner(days.array),
                seconds: Box::into_inner(seconds.array),
                subseconds: Box::into_inner(subseconds.array),
            },
            _ => unreachable!(),
        }
    }
}
