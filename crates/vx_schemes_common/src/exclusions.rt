//! Rules of exclusion: which schemes may not stand below which children of which scheme, since they don't pay there.

ghost use Rattle.std.specs.Prelude.{◌≡◌};
ghost use Rattle.vx_base.specs.Answers.{OrMemory};
ghost use Rattle.vx_scheme.specs.Names.{name_of};
ghost use Rattle.vx_scheme.specs.Rules.{ancestors_of};
ghost use Rattle.vx_schemes_common.specs.Exclusions.{not_in_codes, not_in_values};

use std::alloc::Global;
use vx_base::VortexResult;
use vx_scheme::{AncestorExclusion, AncestorRules, ChildSelection, DescendantExclusion, SchemeId};

/// A scheme's rule against another: `scheme` may not stand below `children` of the scheme that has the rule.
pub fn excluded(scheme: &'static str, children: ChildSelection) -> DescendantExclusion
    ensures scheme { name_of result.excluded ≡ scheme.now }
    ensures children { result.children ≡ children }
{
    DescendantExclusion {
        excluded: SchemeId::of(scheme),
        children,
    }
}

/// A scheme's rule against itself: it may not stand below `children` of `ancestor`.
pub fn excluded_below(ancestor: &'static str, children: ChildSelection) -> AncestorExclusion
    ensures ancestor { name_of result.ancestor ≡ ancestor.now }
    ensures children { result.children ≡ children }
{
    AncestorExclusion {
        ancestor: SchemeId::of(ancestor),
        children,
    }
}

/// Not below the codes of a dictionary, its child 1: they are dense numbers from 0 on, which are narrowed already.
pub fn not_in_codes(alloc: Global) -> VortexResult<AncestorRules>
    ensures { OrMemory result (λ rules. ancestors_of rules ≡ not_in_codes) }
{
    let rules = vec![in alloc;
        excluded_below("vortex.int.dict", ChildSelection::One(1)),
        excluded_below("vortex.string.dict", ChildSelection::One(1)),
        excluded_below("vortex.binary.dict", ChildSelection::One(1)),
    ]?;
    Ok(AncestorRules::from_vec(rules))
}

/// Not below the distinct values of a dictionary, its child 0: no two of them are equal, so every run has one row.
pub fn not_in_values(alloc: Global) -> VortexResult<AncestorRules>
    ensures { OrMemory result (λ rules. ancestors_of rules ≡ not_in_values) }
{
    let rules = vec![in alloc;
        excluded_below("vortex.int.dict", ChildSelection::One(0)),
        excluded_below("vortex.string.dict", ChildSelection::One(0)),
        excluded_below("vortex.binary.dict", ChildSelection::One(0)),
    ]?;
    Ok(AncestorRules::from_vec(rules))
}
