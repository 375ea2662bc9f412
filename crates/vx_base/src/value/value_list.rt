//! Lists of values.

ghost use Rattle.std.specs.Prelude.{◌≡◌, ◌↔◌, [], ◌++◌, ◌∷◌, map, length, slice_get, option_map, MatchResult, IsTrue, fold};
ghost use Rattle.vx_base.specs.Answers.{Answers};
ghost use Rattle.vx_base.specs.TypeOf.{value_of};
ghost use Rattle.vx_base.specs.Writes.{value_list_writes};

use super::{Value, Values};
use crate::error::VortexResult;
use std::alloc::Global;
use std::hash::Hasher;

impl Values {
    pub fn new_in(alloc: Global) -> Self
        ensures { result ≡ [] }
    {
        Values {
            items: Vec::new(alloc),
        }
    }

    pub fn from_vec(items: Vec<Value>) -> Self
        ensures { result ≡ map value_of items.items }
    {
        Values { items }
    }

    pub fn len(&self) -> u64
        ensures { result ≡ length self.now }
    {
        self.items.len() as u64
    }

    pub fn get(&self, place: u64) -> Option<&Value>
        ensures { option_map (λ v. value_of v.now) result ≡ slice_get self.now place }
    {
        self.items.get(place as usize)
    }

    pub fn as_slice(&self) -> &[Value]
        ensures { map value_of result.now ≡ self.now }
    {
        self.items.as_slice()
    }

    /// The values as a vector.
    pub fn into_vec(self) -> Vec<Value>
        ensures { map value_of result.items ≡ self }
    {
        self.items
    }

    pub fn push(&mut self, item: Value) -> Result<(), Value>
        ensures { MatchResult result (λ _. self.new ≡ self.old ++ value_of item ∷ []) (λ back. (back ≡ item) × (self.new ≡ self.old)) }
    {
        match self.items.push(item) {
            Ok(()) => Ok(()),
            Err(failed) => Err(failed.value),
        }
    }

    /// A deep copy.
    #[cycle(copy)]
    pub fn copy(&self, alloc: Global) -> VortexResult<Values>
        ensures { Answers result self.now }
    {
        let mut items = Vec::new(alloc);
        for value in self.items.as_slice() {
            items.push(value.copy(alloc)?)?;
        }
        Ok(Values { items })
    }

    // Whether the two lists are equal.
    #[cycle(same)]
    pub(crate) fn same(&self, other: &Values) -> bool
        ensures { IsTrue result ↔ (self.now ≡ other.now) }
    {
        if self.items.len() != other.items.len() {
            return false;
        }
        for place in 0..self.items.len() {
            if !self.items[place].same(&other.items[place]) {
                return false;
            }
        }
        true
    }

    // Writes each value to a hasher, without their number.
    #[cycle(feed)]
    pub(crate) fn feed<H: Hasher>(&self, state: &mut H)
        ensures { state.new ≡ fold H.write state.old (value_list_writes self.now) }
    {
        for value in self.items.as_slice() {
            value.feed(state);
        }
    }
}
