//! Dictionaries of codes that were chosen from another one's.

ghost use Rattle.std.specs.Prelude.{◌≡◌, None};
ghost use Rattle.vx_base.specs.Answers.{Answers};
ghost use Rattle.vx_model.specs.Refusals.{dict_refusal};
ghost use Rattle.vx_model.specs.Tree.{dict};

use std::alloc::Global;
use vx_array::ArrayRef;
use vx_base::VortexResult;

/// A dictionary of codes in bounds, over a copy of the values.
pub(crate) fn over_values(
    alloc: Global,
    codes: ArrayRef,
    values: &ArrayRef,
) -> VortexResult<ArrayRef>
    requires { dict_refusal codes values.now ≡ None }
    ensures { Answers result (dict codes values.now) }
{
    let values = values.copy(alloc)?;
    match ArrayRef::dict_of_places(alloc, codes, values) {
        Ok(tree) => Ok(tree),
        Err(refused) => Err(refused.error),
    }
}
