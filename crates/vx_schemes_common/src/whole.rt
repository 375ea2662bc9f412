//! Integers without nulls as a plain tree.

ghost use Rattle.std.specs.Prelude.{◌≡◌, None, Ok};
ghost use Rattle.vx_model.specs.Tree.{primitive};
ghost use Rattle.vx_values.specs.IntsOf.{ptype_of, wholes_of};

use vx_array::ArrayRef;
use vx_base::{Nullability, VortexResult};
use vx_values::Ints;

/// Integers, none of them null, as a plain tree. It takes the list over, so it needs no memory and never fails.
pub fn whole_tree(values: Ints, nullability: Nullability) -> VortexResult<ArrayRef>
    ensures { result ≡ Ok (primitive (ptype_of values) (wholes_of values) None nullability) }
{
    match ArrayRef::primitive(values, None, nullability) {
        Ok(tree) => Ok(tree),
        Err(refused) => Err(refused.error),
    }
}
