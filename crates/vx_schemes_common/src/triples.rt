//! Three parts of a column, and the three trees that they become.

ghost use Rattle.std.specs.Prelude.{◌≡◌, [], ◌∷◌};
ghost use Rattle.vx_base.specs.Answers.{Answers};
ghost use Rattle.vx_scheme.specs.declared.split.Split.TheVariants.{Parts};
ghost use Rattle.vx_schemes_common.specs.Triples.{triple_of};

use std::alloc::Global;
use vx_array::{ArrayRef, Arrays};
use vx_base::VortexResult;
use vx_scheme::Split;

/// The answer of a scheme with three parts, child 0 first. All are plain trees.
pub fn three_parts(
    alloc: Global,
    first: ArrayRef,
    second: ArrayRef,
    third: ArrayRef,
) -> VortexResult<Split>
    ensures { Answers result (Parts (first ∷ second ∷ third ∷ [])) }
{
    let mut parts = Vec::with_capacity(alloc, 3)?;
    parts.push(first)?;
    parts.push(second)?;
    parts.push(third)?;
    Ok(Split::Parts(Arrays::from_vec(parts)))
}

/// The three trees, child 0 first; None unless there are exactly three.
pub fn triple_of(trees: Arrays) -> Option<(ArrayRef, ArrayRef, ArrayRef)>
    ensures { result ≡ triple_of trees }
{
    if trees.len() != 3 {
        return None;
    }
    let mut trees = trees.into_vec();
    match (trees.pop(), trees.pop(), trees.pop()) {
        (Some(third), Some(second), Some(first)) => Some((first, second, third)),
        _ => None,
    }
}
