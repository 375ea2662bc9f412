//! Rules of exclusion: which scheme may not stand below which children of another one.

use crate::scheme_id::SchemeId;
use crate::selection::ChildSelection;
use vx_base::Items;

/// A rule of the scheme above: `excluded` may not stand anywhere below these children of the scheme that has the rule.
/// For a scheme that knows what doesn't pay below it.
#[derive(Clone, Copy, Debug)]
pub struct DescendantExclusion {
    pub excluded: SchemeId,
    pub children: ChildSelection,
}

/// A rule of the scheme below: the scheme that has it may not stand anywhere below these children of `ancestor`. For a
/// scheme that knows where it doesn't pay.
#[derive(Clone, Copy, Debug)]
pub struct AncestorExclusion {
    pub ancestor: SchemeId,
    pub children: ChildSelection,
}

/// The rules of a scheme against others.
pub type DescendantRules = Items<DescendantExclusion>;
/// The rules of a scheme against itself.
pub type AncestorRules = Items<AncestorExclusion>;
/// Ids of schemes.
pub type SchemeIds = Items<SchemeId>;
