//! One part of a column, and the one tree that it becomes.

ghost use Rattle.std.specs.Prelude.{◌≡◌, ◌≤◌, [], ◌∷◌, length, option_to_list};
ghost use Rattle.vx_base.specs.Answers.{Answers};
ghost use Rattle.vx_scheme.specs.declared.split.Split.TheVariants.{Parts};

use std::alloc::Global;
use vx_array::{ArrayRef, Arrays};
use vx_base::VortexResult;
use vx_scheme::Split;

/// The answer of a scheme with one part: child 0, a plain tree.
pub fn one_part(alloc: Global, part: ArrayRef) -> VortexResult<Split>
    ensures { Answers result (Parts (part ∷ [])) }
{
    let parts = vec![in alloc; part]?;
    Ok(Split::Parts(Arrays::from_vec(parts)))
}

/// The only tree of a list of at most one; None of an empty list.
pub fn only(trees: Arrays) -> Option<ArrayRef>
    requires { length trees ≤ 1 }
    ensures { option_to_list result ≡ trees }
{
    trees.into_vec().pop()
}
