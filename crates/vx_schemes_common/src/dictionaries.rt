//! The tree of a dictionary.

ghost use Rattle.std.specs.Prelude.{◌≡◌, None};
ghost use Rattle.vx_base.specs.Answers.{Answers};
ghost use Rattle.vx_model.specs.Refusals.{dict_refusal};
ghost use Rattle.vx_model.specs.Tree.{dict};

use std::alloc::Global;
use vx_array::ArrayRef;
use vx_base::VortexResult;

/// The Dict of the codes over the values. Each code is null or in bounds of the values.
pub fn dictionary_tree(alloc: Global, codes: ArrayRef, values: ArrayRef) -> VortexResult<ArrayRef>
    requires { dict_refusal codes values ≡ None }
    ensures { Answers result (dict codes values) }
{
    match ArrayRef::dict_of_places(alloc, codes, values) {
        Ok(tree) => Ok(tree),
        Err(refused) => Err(refused.error),
    }
}
