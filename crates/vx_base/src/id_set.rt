//! Sets of encodings.

ghost use Rattle.std.specs.Prelude.{◌≡◌, ◌<◌, ◌^◌};
ghost use Rattle.vx_base.specs.IdNumber.{id_number};

use crate::array_id::ArrayId;

/// A set of encodings.
#[derive(Clone, Copy, Debug)]
pub struct IdSet {
    // Bit i is set where the id with number i is in the set.
    bits: u32,
    ghost within: { bits < 2 ^ 23 },
}

impl IdSet {
    ghost use Rattle.std.specs.Prelude.{◌≡◌, ◌||◌, ◌&&◌, not, true, false};
    ghost use Rattle.vx_base.specs.declared.array_id.ArrayId.{ArrayId};
    ghost use Rattle.vx_base.specs.IdNumber.{same_id};
    ghost use Rattle.vx_base.specs.IdSets.{holds};

    /// The empty set.
    pub fn empty() -> IdSet
        ensures { (id : ArrayId) → holds result id ≡ false }
    {
        IdSet { bits: 0 }
    }

    /// The set of every id.
    pub fn all() -> IdSet
        ensures { (id : ArrayId) → holds result id ≡ true }
    {
        IdSet {
            bits: (1 << 23) - 1,
        }
    }

    /// The set with the id added.
    pub fn with(self, id: ArrayId) -> IdSet
        ensures { (other : ArrayId) → holds result other ≡ (same_id other id || holds self other) }
    {
        IdSet {
            bits: self.bits | (1 << id_number(id)),
        }
    }

    /// The set with the id removed.
    pub fn without(self, id: ArrayId) -> IdSet
        ensures { (other : ArrayId) → holds result other ≡ (not (same_id other id) && holds self other) }
    {
        IdSet {
            bits: self.bits & !(1 << id_number(id)),
        }
    }

    /// Whether the id is in the set.
    pub fn contains(&self, id: ArrayId) -> bool
        ensures { result ≡ holds self.now id }
    {
        (self.bits >> id_number(id)) & 1 == 1
    }
}

// The number of an id, which is the index of its bit.
fn id_number(id: ArrayId) -> u32
    ensures number { result ≡ id_number id }
    ensures within { result < 23 }
{
    id as u32
}

impl PartialEq for IdSet {
    ghost use Rattle.vx_base.specs.IdSets.{same_set};
    ghost use Rattle.std.proofs.Common.{rules};
    ghost use Rattle.std.specs.Cmp.Rules.{comparing};

    ghost eq = { same_set };

    ghost laws = { Prim.search (comparing, rules) };

    #[tactic(auto, using(crate::proofs::IdSetLemmas::same_bits))]
    fn eq(&self, other: &IdSet) -> bool {
        self.bits == other.bits
    }
}

impl Eq for IdSet {
    ghost use Rattle.std.proofs.Common.{rules};
    ghost use Rattle.std.specs.Cmp.Rules.{comparing};

    ghost laws = { Prim.search (comparing, rules) };
}
