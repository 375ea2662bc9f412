//! Two parts of a column, and the two trees that they become.

ghost use Rattle.std.specs.Prelude.{◌≡◌, [], ◌∷◌};
ghost use Rattle.vx_base.specs.Answers.{Answers};
ghost use Rattle.vx_scheme.specs.declared.split.Split.TheVariants.{Parts};
ghost use Rattle.vx_schemes_common.specs.Pairs.{pair_of};

use std::alloc::Global;
use vx_array::{ArrayRef, Arrays};
use vx_base::VortexResult;
use vx_scheme::Split;

/// The answer of a scheme with two parts, child 0 first. Both are plain trees.
pub fn two_parts(alloc: Global, first: ArrayRef, second: ArrayRef) -> VortexResult<Split>
    ensures { Answers result (Parts (first ∷ second ∷ [])) }
{
    let mut parts = Vec::with_capacity(alloc, 2)?;
    parts.push(first)?;
    parts.push(second)?;
    Ok(Split::Parts(Arrays::from_vec(parts)))
}

/// The two trees, child 0 first; None unless there are exactly two.
pub fn pair_of(trees: Arrays) -> Option<(ArrayRef, ArrayRef)>
    ensures { result ≡ pair_of trees }
{
    if trees.len() != 2 {
        return None;
    }
    let mut trees = trees.into_vec();
    match (trees.pop(), trees.pop()) {
        (Some(second), Some(first)) => Some((first, second)),
        _ => None,
    }
}
