//! Lists of trees.

ghost use Rattle.std.specs.Prelude.{◌≡◌, [], ◌∷◌, ◌++◌, length, slice_get, option_copied, MatchResult};
ghost use Rattle.vx_base.specs.Answers.{Answers};
ghost use Rattle.vx_model.specs.Tree.{of_list};
ghost use Rattle.vx_model.specs.WellFormed.{AllWellFormed};

use crate::array::ArrayRef;
use std::alloc::Global;
use std::marker::Model;
use vx_base::VortexResult;

/// A list of well-formed trees. Contracts see the trees as plain data.
#[cycle(tree)]
pub struct Arrays {
    items: Vec<ArrayRef>,
}

impl Drop for Arrays {
    #[cycle(letting_go)]
    fn drop(self) {
        let Arrays { items: _ } = self;
    }
}

impl Model for Arrays {
    ghost use Rattle.std.specs.Prelude.{List};
    ghost use Rattle.vx_model.specs.Tree.{Tree, list_count, of_list};
    ghost use Rattle.vx_model.specs.TreeCode.{trees_code};

    ghost Value = { List Tree };

    ghost coded = { trees_code };

    ghost use Rattle.vx_model.specs.WellFormed.{AllWellFormed};

    ghost view = { λ a. a.items.items };

    ghost invariant = { λ a. AllWellFormed (of_list a.items.items) };

    ghost size = { list_count };

    ghost use Rattle.std.proofs.Common.{arith};
    ghost use Rattle.vx_array.specs.TreeFalls.{most_le-list_count};

    ghost size_decreases = { λ a h. omega (arith, most_le-list_count a.items.items) };
}

impl Arrays {
    pub fn new_in(alloc: Global) -> Arrays
        ensures { result ≡ [] }
    {
        Arrays {
            items: Vec::new(alloc),
        }
    }

    pub fn from_vec(items: Vec<ArrayRef>) -> Arrays
        ensures { result ≡ items.items }
    {
        known_all(items.as_slice());
        Arrays { items }
    }

    pub fn len(&self) -> u64
        ensures { result ≡ length self.now }
    {
        self.items.len() as u64
    }

    pub fn get(&self, place: u64) -> Option<&ArrayRef>
        ensures { option_copied result ≡ slice_get self.now place }
    {
        self.items.get(place as usize)
    }

    pub fn as_slice(&self) -> &[ArrayRef]
        ensures { result.now ≡ self.now }
    {
        self.items.as_slice()
    }

    /// Tells a proof that each tree is well formed.
    pub fn known(&self)
        ensures { AllWellFormed (of_list self.now) }
    {
        let _items = &self.items;
    }

    /// The trees as a vector.
    pub fn into_vec(self) -> Vec<ArrayRef>
        ensures { result.items ≡ self }
    {
        let Arrays { items } = self;
        items
    }

    /// Appends a tree. Where memory runs out, the Err hands it back and the list stays as it was.
    #[tactic(auto, using(vx_model::proofs::TreesLemmas::growing))]
    pub fn push(&mut self, item: ArrayRef) -> Result<(), ArrayRef>
        ensures { MatchResult result (λ _. self.new ≡ self.old ++ item ∷ []) (λ back. (back ≡ item) × (self.new ≡ self.old)) }
    {
        item.known();
        match self.items.push(item) {
            Ok(()) => Ok(()),
            Err(failed) => Err(failed.value),
        }
    }

    /// A deep copy.
    #[cycle(copy)]
    pub fn copy(&self, alloc: Global) -> VortexResult<Arrays>
        ensures { Answers result self.now }
    {
        let mut copies = Vec::new(alloc);
        for tree in self.items.as_slice() {
            copies.push(tree.copy(alloc)?)?;
        }
        Ok(Arrays::from_vec(copies))
    }
}

// Tells a proof that each tree is well formed.
#[tactic(auto, using(vx_model::proofs::TreesLemmas::growing))]
fn known_all(items: &[ArrayRef])
    ensures { AllWellFormed (of_list items.now) }
{
    for item in items {
        item.known();
    }
}
