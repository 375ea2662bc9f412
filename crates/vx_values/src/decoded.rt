//! Decoded rows of a tree.

ghost use Rattle.std.specs.Prelude.{◌≡◌, length, map, pos, true, IsTrue};
ghost use Rattle.vx_base.specs.PlainValue.{int};
ghost use Rattle.vx_model.specs.Decoded.{zeroed_by};
ghost use Rattle.vx_model.specs.Refusals.{validity_length};
ghost use Rattle.vx_values.specs.IntsOf.{ptype_of, wholes_of};
ghost use Rattle.vx_values.specs.ValuesOf.{ints, kind_in, holds_integers, AreRows};

use crate::ints::Ints;
use crate::values::Values;
use vx_base::Mask;

/// The rows of a tree as a flat list, with the type's default beneath nulls, and their validity, None where no row is null.
#[derive(Drop)]
pub struct Decoded {
    pub values: Values,
    pub valid: Option<Mask>,
}

impl Decoded {
    /// The integers of a column of integers or timestamps, and their validity.
    pub fn into_integers(self) -> (Ints, Option<Mask>)
        requires { IsTrue (holds_integers (kind_in self.values)) }
        ensures values { Values.Ints result.0 ≡ self.values }
        ensures valid { result.1 ≡ self.valid }
    {
        let Decoded { values, valid } = self;
        let Values::Ints(ints) = values else {
            unreachable!();
        };
        (ints, valid)
    }
}

/// A decoding of integers with this validity: 0 is written beneath nulls.
pub fn behind(values: Ints, valid: Option<Mask>) -> Decoded
    requires { validity_length valid (length (wholes_of values)) ≡ true }
    ensures { AreRows (ints (ptype_of values)) (map int (zeroed_by (pos 0) valid (wholes_of values))) valid result }
{
    let values = Values::Ints(values.zeroed_by(&valid));
    Decoded { values, valid }
}
