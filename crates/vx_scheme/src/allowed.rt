//! Which encodings a tree may have.

ghost use Rattle.std.specs.Prelude.{◌≡◌, true};
ghost use Rattle.vx_base.specs.declared.array_id.ArrayId.{ArrayId};
ghost use Rattle.vx_scheme.specs.Allowed.{is_allowed, is_in, BoundsNothing};

use vx_base::{ArrayId, IdSet};

/// The encodings that are allowed: those in each set that is present, without the excluded ones. None in place of a set is
/// no bound. `Scheme::refine` takes it; the compressor neither makes nor reads one.
#[derive(Clone, Copy, Debug, PartialEq, Eq)]
pub struct AllowedIds {
    pub registered: Option<IdSet>,
    pub editions: Option<IdSet>,
    pub excluded: IdSet,
}

impl AllowedIds {
    /// No bound.
    pub fn all() -> AllowedIds
        ensures bounds { BoundsNothing result }
        ensures every { (id : ArrayId) → is_allowed result id ≡ true }
    {
        AllowedIds {
            registered: None,
            editions: None,
            excluded: IdSet::empty(),
        }
    }

    /// Whether the id is in each set that is present, and not excluded.
    pub fn is_allowed(&self, id: ArrayId) -> bool
        ensures { result ≡ is_allowed self.now id }
    {
        !self.excluded.contains(id) && is_in(&self.registered, id) && is_in(&self.editions, id)
    }
}

impl Default for AllowedIds {
    ghost use Rattle.vx_scheme.specs.Allowed.{BoundsNothing};

    ghost is_default = { λ allowed. BoundsNothing allowed };

    fn default() -> AllowedIds {
        AllowedIds::all()
    }
}

fn is_in(set: &Option<IdSet>, id: ArrayId) -> bool
    ensures { result ≡ is_in set.now id }
{
    match set {
        Some(set) => set.contains(id),
        None => true,
    }
}
